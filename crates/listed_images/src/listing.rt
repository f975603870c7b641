//! The whole text.

use crate::entries::Entries;
use crate::faults::ListFault;
use crate::holdings::with_holdings;
use crate::places::bytes_of;
use crate::sections::{put_bindings, put_declarations};
use crate::thread_lines::put_thread;
use image_reading::{ImageRef, read};
use model::{ImageHeader, ObjectEntry};
use std::alloc::{AllocError, Global};

/// The number for no object: no buffer.
const NO_OBJECT: u32 = u32::MAX;

/// What is counted of the objects and threads of an image.
#[derive(Clone, Copy)]
struct Totals {
    /// How many frames are device pages.
    devices: u32,
    /// The words of all programs.
    words: u64,
    /// How many threads have a message buffer.
    buffers: u32,
}

/// Whether an object is a device page.
fn is_device(object: &ObjectEntry) -> bool {
    object.kind == 6 && object.size == 1
}

/// What is counted of the objects and threads of an image.
fn totals_of(image: &ImageRef<'_>) -> Totals {
    let mut totals = Totals {
        devices: 0,
        words: 0,
        buffers: 0,
    };
    for object in image.objects() {
        if is_device(&object) {
            totals.devices = totals.devices.saturating_add(1);
        }
    }
    for thread in image.threads() {
        let header = thread.header();
        totals.words = totals.words.saturating_add(u64::from(header.words));
        if header.buffer != NO_OBJECT {
            totals.buffers = totals.buffers.saturating_add(1);
        }
    }
    totals
}

/// The version of the image that a text with so many device pages, buffers and promises describes.
fn version_listed(header: &ImageHeader, totals: Totals) -> u32 {
    if totals.devices > 0 {
        4
    } else if totals.buffers > 0 {
        3
    } else if header.promises > 0 {
        2
    } else {
        1
    }
}

/// `memory`, and sizes in comments.
fn put_sizes(
    text: &mut String,
    header: &ImageHeader,
    words: u64,
    length: usize,
) -> Result<(), AllocError> {
    let (memory_bits, boot_radix) = (header.memory_bits, header.boot_radix);
    write!(text, "memory {memory_bits} {boot_radix}\n")?;
    let (memory, slots) = (bytes_of(memory_bits), bytes_of(boot_radix));
    write!(text, "# {memory} bytes of memory, {slots} boot slots\n")?;
    let (objects, threads) = (header.objects, header.threads);
    write!(
        text,
        "# objects: {objects}, threads: {threads}, words of programs: {words}\n"
    )?;
    let version = header.version;
    write!(text, "# the file: {length} bytes of version {version}\n")
}

/// A note on an image that no text describes, for its version.
fn put_version_note(
    text: &mut String,
    header: &ImageHeader,
    totals: Totals,
) -> Result<(), AllocError> {
    let listed = version_listed(header, totals);
    if listed == header.version {
        return Ok(());
    }
    write!(
        text,
        "# no text describes this image: what is listed here is of version {listed}\n"
    )
}

/// A note on each thread that begins after its program, which no text describes.
fn put_entry_notes(text: &mut String, image: &ImageRef<'_>) -> Result<(), AllocError> {
    for thread in image.threads() {
        let header = thread.header();
        if header.entry >= header.words {
            let (tcb, entry) = (header.tcb, header.entry);
            write!(
                text,
                "# no text describes this image: thread o{tcb} begins at point {entry}, behind its program\n"
            )?;
        }
    }
    Ok(())
}

/// What is before the first section.
fn put_head(text: &mut String, image: &ImageRef<'_>, length: usize) -> Result<(), AllocError> {
    let header = image.header();
    let totals = totals_of(image);
    put_sizes(text, &header, totals.words, length)?;
    put_version_note(text, &header, totals)?;
    put_entry_notes(text, image)
}

/// The text of an image whose file has so many bytes.
fn text_of(alloc: Global, image: &ImageRef<'_>, length: usize) -> Result<String, AllocError> {
    let entries = Entries::of(alloc, image)?;
    let mut text = String::new(alloc);
    put_head(&mut text, image, length)?;
    put_declarations(&mut text, &entries)?;
    put_bindings(&mut text, image, &entries)?;
    for thread in image.threads() {
        put_thread(&mut text, &thread)?;
    }
    with_holdings(alloc, text, image, &entries)
}

/// The text of an image, accepted or not, by which `asm` makes the same bytes again. Objects, untypeds and interrupts have their
/// numbers as names. In comments it has: the size of memory, of each object and of the file, where objects are, what is free
/// after them, what words spell, and at the end what each thread holds. A CNode and an address space are listed once.
///
/// No text describes an image of a later version than what it holds asks for, nor one with a thread that begins after its program; a
/// comment says so. It takes time and memory in proportion to the file.
///
/// # Errors
///
/// The bytes spell no image, by a refusal from 1 to 5; or memory was refused.
pub fn list(alloc: Global, bytes: &[u8]) -> Result<String, ListFault> {
    let image = read(bytes)?;
    let text = text_of(alloc, &image, bytes.len())?;
    Ok(text)
}
