//! The lines of all sections before the threads.

use crate::entries::Entries;
use crate::places::{bytes_of, size_of};
use crate::values::{kind_word, put_source, put_value};
use image_reading::{ContentRef, ImageRef, PromiseRef};
use model::{CapabilityEntry, FrameEntry, InterruptEntry, ObjectEntry, TableEntry, UntypedEntry};
use std::alloc::AllocError;
use wellformed::Place;

/// The physical address at which memory begins.
const MEMORY: u64 = 0x8000_0000;

/// `untyped`, and how much of it is used by objects that end at an offset.
fn put_untyped(
    text: &mut String,
    number: usize,
    entry: &UntypedEntry,
    end: u64,
) -> Result<(), AllocError> {
    let (offset, bits) = (entry.offset, entry.bits);
    let size = bytes_of(bits);
    let used = end.saturating_sub(u64::from(offset));
    write!(text, "untyped u{number} {offset:#x} {bits} # {size} bytes")?;
    match size.checked_sub(used) {
        Some(free) => write!(text, ", {used} used, {free} free behind the last object\n"),
        None => write!(text, ", which its objects pass: they need {used}\n"),
    }
}

/// `object`, and its physical address.
fn put_object(
    text: &mut String,
    number: usize,
    entry: &ObjectEntry,
    place: &Place,
) -> Result<(), AllocError> {
    let untyped = entry.untyped;
    let kind = kind_word(entry.kind);
    write!(text, "object o{number} u{untyped} {kind}")?;
    // Of untyped memory, a CNode or a device page.
    if entry.size != 0 {
        let size = entry.size;
        write!(text, " {size}")?;
    }
    let address = MEMORY.saturating_add(place.offset);
    let size = size_of(entry);
    write!(text, " # at {address:#x}, {size} bytes")?;
    text.push_str(if place.fits {
        "\n"
    } else {
        ", which do not fit\n"
    })
}

/// `irq`
fn put_interrupt(
    text: &mut String,
    number: usize,
    entry: &InterruptEntry,
) -> Result<(), AllocError> {
    let (line, notification, badge) = (entry.line, entry.notification, entry.badge);
    write!(text, "irq i{number} {line} o{notification} {badge}\n")
}

/// `cap`, in an image with so many objects
fn put_capability(
    text: &mut String,
    objects: u32,
    entry: &CapabilityEntry,
) -> Result<(), AllocError> {
    let (cnode, index) = (entry.cnode, entry.index);
    write!(text, "cap o{cnode} {index} ")?;
    put_source(text, objects, entry.source)?;
    let (rights, payload) = (entry.rights, entry.payload);
    write!(text, " {rights} {payload}\n")
}

/// `table`
fn put_table(text: &mut String, entry: &TableEntry) -> Result<(), AllocError> {
    let (root, address, table) = (entry.root, entry.address, entry.table);
    write!(text, "table o{root} {address:#x} o{table}\n")
}

/// `map`
fn put_frame(text: &mut String, entry: &FrameEntry) -> Result<(), AllocError> {
    let (root, address) = (entry.root, entry.address);
    let (frame, rights) = (entry.frame, entry.rights);
    write!(text, "map o{root} {address:#x} o{frame} {rights}\n")
}

/// `data`
fn put_content(text: &mut String, content: &ContentRef<'_>) -> Result<(), AllocError> {
    let frame = content.header().frame;
    write!(text, "data o{frame}")?;
    for index in 0..content.word_count() {
        put_value(text, content.word(index))?;
    }
    text.push_str("\n")
}

/// `promise`
fn put_promise(text: &mut String, promise: &PromiseRef<'_>) -> Result<(), AllocError> {
    let header = promise.header();
    let (endpoint, low, high) = (header.endpoint, header.badge_low, header.badge_high);
    write!(text, "promise o{endpoint} {low} {high}")?;
    for word in promise.words() {
        put_value(text, word.low)?;
        put_value(text, word.high)?;
    }
    text.push_str("\n")
}

/// Untyped memory, objects and interrupts.
pub(crate) fn put_declarations(text: &mut String, entries: &Entries) -> Result<(), AllocError> {
    for (number, (entry, end)) in entries.untypeds.iter().zip(&entries.ends).enumerate() {
        put_untyped(text, number, entry, *end)?;
    }
    for (number, (entry, place)) in entries.objects.iter().zip(&entries.places).enumerate() {
        put_object(text, number, entry, place)?;
    }
    for (number, entry) in entries.interrupts.iter().enumerate() {
        put_interrupt(text, number, entry)?;
    }
    Ok(())
}

/// What slots, pages and frames hold, and what is promised.
pub(crate) fn put_bindings(
    text: &mut String,
    image: &ImageRef<'_>,
    entries: &Entries,
) -> Result<(), AllocError> {
    let objects = entries.object_count();
    for entry in &entries.capabilities {
        put_capability(text, objects, entry)?;
    }
    for entry in image.tables() {
        put_table(text, &entry)?;
    }
    for entry in &entries.frames {
        put_frame(text, entry)?;
    }
    for content in image.contents() {
        put_content(text, &content)?;
    }
    for promise in image.promises() {
        put_promise(text, &promise)?;
    }
    Ok(())
}
