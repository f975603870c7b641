//! Groups of parts that have nothing in common.

use described_systems::{Part, System};
use indexmap::IndexMap;
use std::alloc::{AllocError, Global};

/// The group of each part, as the number of one part of it.
#[derive(Drop)]
pub(crate) struct Groups {
    of: Vec<usize>,
}

impl Groups {
    /// Each part alone.
    fn apart(alloc: Global, count: usize) -> Result<Self, AllocError> {
        let mut of = Vec::new(alloc);
        for number in 0..count {
            of.push(number)?;
        }
        Ok(Groups { of })
    }

    /// The group of a part.
    pub(crate) fn group(&self, part: usize) -> usize {
        match self.of.get(part) {
            Some(group) => *group,
            None => part,
        }
    }

    /// Two parts have something in common.
    fn join(&mut self, one: usize, other: usize) {
        let kept = self.group(one);
        let gone = self.group(other);
        for group in self.of.iter_mut() {
            if *group == gone {
                *group = kept;
            }
        }
    }

    /// Whether a part is the first of its group.
    pub(crate) fn is_first(&self, part: usize) -> bool {
        let group = self.group(part);
        self.of.iter().position(|other| *other == group) == Some(part)
    }
}

/// Who was the first to have each name.
#[derive(Drop)]
struct Owners<'a> {
    first: IndexMap<&'a str, usize>,
}

impl<'a> Owners<'a> {
    /// A part has a name, perhaps as others.
    fn note(&mut self, groups: &mut Groups, name: &'a str, part: usize) -> Result<(), AllocError> {
        let owner = match self.first.get(name) {
            Some(owner) => Some(*owner),
            None => None,
        };
        match owner {
            Some(owner) => groups.join(owner, part),
            None => {
                self.first.insert(name, part)?;
            }
        }
        Ok(())
    }

    /// All names of a part.
    fn note_all(
        &mut self,
        groups: &mut Groups,
        part: &Part<'a>,
        number: usize,
    ) -> Result<(), AllocError> {
        for slot in &part.slots {
            self.note(groups, slot.held.name(), number)?;
        }
        for view in &part.views {
            self.note(groups, view.page, number)?;
        }
        Ok(())
    }
}

/// The groups of a system's parts: in one are those that share a bell, a door or a page, and those that share with them.
pub(crate) fn groups_of(alloc: Global, system: &System<'_>) -> Result<Groups, AllocError> {
    let mut groups = Groups::apart(alloc, system.parts.len())?;
    let mut owners = Owners {
        first: IndexMap::new(alloc),
    };
    for (number, part) in system.parts.iter().enumerate() {
        owners.note_all(&mut groups, part, number)?;
    }
    Ok(groups)
}
