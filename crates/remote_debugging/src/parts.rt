//! The parts of a system, and what its objects are called.

use image_reading::{ImageRef, header_of};
use named_traces::TextNames;
use source_texts::word_at;
use std::alloc::{AllocError, Global};
use wellformed::UsedMemory;

/// Where physical memory begins.
pub(crate) const MEMORY_BASE: u32 = 0x8000_0000;

/// A part, which is a thread of the debugger.
#[derive(Clone, Copy, Debug)]
pub struct Part<'t> {
    pub name: &'t str,
    /// The offset of its TCB in memory.
    pub thread: u32,
    /// The most instructions between two of its waits, where that is known.
    pub budget: Option<u64>,
}

/// An object, by its name.
#[derive(Clone, Copy, Debug)]
pub(crate) struct Object<'t> {
    pub(crate) name: &'t str,
    /// Its offset in memory.
    pub(crate) offset: u32,
}

/// The parts of a system, in the order of its text.
///
/// # Errors
///
/// Memory is refused.
pub fn parts_of<'t>(
    alloc: Global,
    text: &'t str,
    names: &TextNames<'t>,
) -> Result<Vec<Part<'t>>, AllocError> {
    let mut parts = Vec::new(alloc);
    for line in text.lines() {
        if word_at(line, 0) != Some("thread") {
            continue;
        }
        let name = word_at(line, 1).unwrap_or("?");
        if let Some(address) = names.thread_address(name) {
            parts.push(Part {
                name,
                thread: address.saturating_sub(MEMORY_BASE),
                budget: match names.thread(address) {
                    Some(thread) => thread.budget,
                    None => None,
                },
            })?;
        }
    }
    Ok(parts)
}

/// The objects of a system by their names, in the order of its text.
pub(crate) fn objects_of<'t>(
    alloc: Global,
    text: &'t str,
    image: &ImageRef<'_>,
) -> Result<Vec<Object<'t>>, AllocError> {
    let mut objects = Vec::new(alloc);
    let mut used = UsedMemory::none();
    let mut lines = text
        .lines()
        .filter(|line| word_at(line, 0) == Some("object"));
    for number in 0..header_of(image).objects {
        let offset = used.place(image, number).offset;
        let name = match lines.next() {
            Some(line) => word_at(line, 1).unwrap_or("?"),
            None => "?",
        };
        objects.push(Object {
            name,
            offset: offset.min(u64::from(u32::MAX)) as u32,
        })?;
    }
    Ok(objects)
}
