//! What a text puts into CNodes and address spaces, by the numbers of these.

use indexmap::IndexSet;
use source_texts::{CapabilityLine, FrameLine, Source, SourceText, SourceThread};
use std::alloc::{AllocError, Global};

/// What a text puts into CNodes and address spaces, by the numbers of these.
#[derive(Drop)]
pub(crate) struct Holdings {
    capabilities: Vec<Vec<CapabilityLine>>,
    frames: Vec<Vec<FrameLine>>,
}

/// An empty list for each of so many objects.
fn empty_lists<T: Drop>(alloc: Global, objects: usize) -> Result<Vec<Vec<T>>, AllocError> {
    let mut lists = Vec::new(alloc);
    for _ in 0..objects {
        lists.push(Vec::new(alloc))?;
    }
    Ok(lists)
}

impl Holdings {
    /// Those of a text.
    pub(crate) fn of(alloc: Global, text: &SourceText<'_>) -> Result<Self, AllocError> {
        let objects = text.objects.len();
        let mut holdings = Holdings {
            capabilities: empty_lists(alloc, objects)?,
            frames: empty_lists(alloc, objects)?,
        };
        for capability in &text.capabilities {
            holdings.add_capability(capability)?;
        }
        for frame in &text.frames {
            holdings.add_frame(frame)?;
        }
        Ok(holdings)
    }

    /// One capability more.
    fn add_capability(&mut self, capability: &CapabilityLine) -> Result<(), AllocError> {
        match self.capabilities.get_mut(capability.cnode) {
            Some(held) => Ok(held.push(*capability)?),
            None => Ok(()),
        }
    }

    /// One mapping more.
    fn add_frame(&mut self, frame: &FrameLine) -> Result<(), AllocError> {
        match self.frames.get_mut(frame.root) {
            Some(mapped) => Ok(mapped.push(*frame)?),
            None => Ok(()),
        }
    }

    /// The capabilities in a CNode.
    pub(crate) fn held_in(&self, cnode: usize) -> &[CapabilityLine] {
        match self.capabilities.get(cnode) {
            Some(held) => held.as_slice(),
            None => &[],
        }
    }

    /// The frames that are mapped under a root table.
    pub(crate) fn mapped_under(&self, root: usize) -> &[FrameLine] {
        match self.frames.get(root) {
            Some(mapped) => mapped.as_slice(),
            None => &[],
        }
    }

    /// Adds the CNodes that the capabilities in one name.
    fn add_named(
        &self,
        text: &SourceText<'_>,
        found: &mut IndexSet<usize>,
        cnode: usize,
    ) -> Result<(), AllocError> {
        for capability in self.held_in(cnode) {
            if let Source::Object(number) = capability.source {
                if text.is_cnode(number) {
                    found.insert(number)?;
                }
            }
        }
        Ok(())
    }

    /// The CNodes that are reached from one: by its capabilities, and by those of the CNodes that these name. Each is followed once.
    pub(crate) fn cnodes_from(
        &self,
        alloc: Global,
        text: &SourceText<'_>,
        cnode: usize,
    ) -> Result<IndexSet<usize>, AllocError> {
        let mut found = IndexSet::new(alloc);
        found.insert(cnode)?;
        for place in 0..text.objects.len() {
            match found.get_index(place).copied() {
                Some(next) => self.add_named(text, &mut found, next)?,
                None => return Ok(found),
            }
        }
        Ok(found)
    }

    /// What an address names in the root CNode of a thread, where its guard and index are the whole address. It goes over the
    /// capabilities of that CNode.
    pub(crate) fn named_by(
        &self,
        text: &SourceText<'_>,
        thread: &SourceThread<'_>,
        address: u32,
    ) -> Option<Source> {
        let index = text.root_index(thread, address)?;
        for capability in self.held_in(thread.cnode) {
            if capability.index == index {
                return Some(capability.source);
            }
        }
        None
    }
}
