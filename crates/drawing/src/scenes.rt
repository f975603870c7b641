//! A text that is being drawn.

use source_texts::{Source, SourceText};
use std::alloc::{AllocError, Global};
use system_pictures::Reached;

/// What names an object.
#[derive(Clone, Copy, Debug)]
pub(crate) struct Uses {
    /// How often it is mapped.
    mapped: u32,
    /// Whether a capability names it.
    is_held: bool,
    /// Whether an interrupt signals it.
    is_signalled: bool,
    /// Whether it is a thread's message buffer.
    is_buffer: bool,
}

/// A text that is being drawn, and the graph so far.
#[derive(Drop)]
pub(crate) struct Scene<'a, 't, 'm> {
    pub(crate) text: &'t SourceText<'a>,
    /// The lines of the threads whose budgets are to be found.
    pub(crate) automatic: &'m [u64],
    /// The CNodes that each thread reaches.
    pub(crate) reached: &'m [Reached],
    /// What names each object.
    pub(crate) uses: Vec<Uses>,
    pub(crate) graph: String,
}

/// So many objects that nothing names.
fn unused(alloc: Global, count: usize) -> Result<Vec<Uses>, AllocError> {
    let mut uses = Vec::new(alloc);
    for _ in 0..count {
        uses.push(Uses {
            mapped: 0,
            is_held: false,
            is_signalled: false,
            is_buffer: false,
        })?;
    }
    Ok(uses)
}

/// Counts how often each object is mapped.
fn count_mappings(uses: &mut Vec<Uses>, text: &SourceText<'_>) {
    for page in &text.frames {
        if let Some(object) = uses.get_mut(page.frame) {
            object.mapped = object.mapped.saturating_add(1);
        }
    }
}

/// Notes which objects capabilities name.
fn note_held(uses: &mut Vec<Uses>, text: &SourceText<'_>) {
    for capability in &text.capabilities {
        if let Source::Object(number) = capability.source {
            if let Some(object) = uses.get_mut(number) {
                object.is_held = true;
            }
        }
    }
}

/// Notes which objects interrupts signal.
fn note_signalled(uses: &mut Vec<Uses>, text: &SourceText<'_>) {
    for interrupt in &text.interrupts {
        if let Some(object) = uses.get_mut(interrupt.notification) {
            object.is_signalled = true;
        }
    }
}

/// Notes which frames are message buffers.
fn note_buffers(uses: &mut Vec<Uses>, text: &SourceText<'_>) {
    for thread in &text.threads {
        if let Some(buffer) = thread.buffer {
            if let Some(frame) = uses.get_mut(buffer.frame) {
                frame.is_buffer = true;
            }
        }
    }
}

/// What names each object of a text.
pub(crate) fn uses_of(alloc: Global, text: &SourceText<'_>) -> Result<Vec<Uses>, AllocError> {
    let mut uses = unused(alloc, text.objects.len())?;
    count_mappings(&mut uses, text);
    note_held(&mut uses, text);
    note_signalled(&mut uses, text);
    note_buffers(&mut uses, text);
    Ok(uses)
}

impl Scene<'_, '_, '_> {
    /// Whether the budget of the thread on this line is to be found.
    pub(crate) fn is_automatic(&self, line: u64) -> bool {
        self.automatic.contains(&line)
    }

    /// What names an object.
    fn uses_at(&self, number: usize) -> Uses {
        match self.uses.get(number) {
            Some(uses) => *uses,
            None => Uses {
                mapped: 0,
                is_held: false,
                is_signalled: false,
                is_buffer: false,
            },
        }
    }

    /// Whether a frame is mapped more than once, held by a capability, a message buffer, or a device page.
    pub(crate) fn is_shared(&self, frame: usize) -> bool {
        let uses = self.uses_at(frame);
        uses.mapped > 1 || uses.is_held || uses.is_buffer || self.text.is_device(frame)
    }

    /// Whether a capability or an interrupt names an object.
    pub(crate) fn is_named(&self, object: usize) -> bool {
        let uses = self.uses_at(object);
        uses.is_held || uses.is_signalled
    }
}
