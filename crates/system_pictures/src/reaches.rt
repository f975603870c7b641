//! The CNodes that a thread reaches, by its root and by what its capabilities name.

use source_texts::{CapabilityLine, Source, SourceText, SourceThread};
use std::alloc::{AllocError, Global};

/// The CNodes that a thread reaches.
#[derive(Drop)]
pub struct Reached {
    /// Of each object, whether it is one of them.
    marks: Vec<bool>,
    count: usize,
}

impl Reached {
    /// Whether an object is one of them.
    pub fn contains(&self, number: usize) -> bool {
        match self.marks.get(number) {
            Some(mark) => *mark,
            None => false,
        }
    }

    /// One more.
    fn add(&mut self, number: usize) {
        if let Some(mark) = self.marks.get_mut(number) {
            *mark = true;
            self.count = self.count.saturating_add(1);
        }
    }

    /// Adds the CNodes that the capabilities in these CNodes name, and those that these name, as far as one round over the
    /// capabilities finds them.
    fn add_named(&mut self, text: &SourceText<'_>) {
        for capability in &text.capabilities {
            if let Some(number) = self.leads_on(text, capability) {
                self.add(number);
            }
        }
    }

    /// The CNode that a capability in one of these names, if it is none of them.
    fn leads_on(&self, text: &SourceText<'_>, capability: &CapabilityLine) -> Option<usize> {
        match capability.source {
            Source::Object(number)
                if self.contains(capability.cnode)
                    && text.is_cnode(number)
                    && !self.contains(number) => Some(number),
            _ => None,
        }
    }

    /// The CNodes that a thread reaches: a round over the capabilities that finds none is the last.
    fn by(
        alloc: Global,
        text: &SourceText<'_>,
        thread: &SourceThread<'_>,
    ) -> Result<Self, AllocError> {
        let mut found = Reached {
            marks: Vec::new(alloc),
            count: 0,
        };
        found.marks.resize(text.objects.len(), false)?;
        found.add(thread.cnode);
        'rounds: for _ in 0..text.capabilities.len() {
            let before = found.count;
            found.add_named(text);
            if found.count == before {
                return Ok(found);
            }
        }
        Ok(found)
    }
}

/// The CNodes that each thread of a text reaches. It takes a few rounds over the capabilities for each thread, and a mark for
/// each object.
///
/// # Errors
///
/// Memory may be refused.
pub fn reached_in(alloc: Global, text: &SourceText<'_>) -> Result<Vec<Reached>, AllocError> {
    let mut reached = Vec::new(alloc);
    for thread in &text.threads {
        reached.push(Reached::by(alloc, text, thread)?)?;
    }
    Ok(reached)
}
