//! The bytes of images.

ghost use Rattle.std.specs.Prelude.{◌≡◌, ◌++◌, IfOk, [], ◌∷◌};
ghost use Rattle.std.specs.List.{flat_map};
ghost use Rattle.model.specs.Images.Format.{IsSpelling};
ghost use Rattle.model.specs.Images.Image.{header_format, magic, record_header_format, slots_format, thread_header_format, whole_image};
ghost use Rattle.image.specs.Spellings.{content_bytes, image_bytes, mapping_bytes, object_bytes, optional_bytes, promise_bytes, record_bytes, thread_bytes};

use crate::checking::Image;
use crate::parts::{Content, Parts, Promise, RecordParts, ThreadParts};
use image_reading::{Spelled, append_all, has_buffers, has_promises};
use std::alloc::{AllocError, Global};

/// The bytes "MSYS", with which an image begins, as a number.
const MAGIC: u32 = 0x5359_534D;

/// The bytes of an image: its one spelling.
///
/// # Errors
///
/// Memory may be refused.
pub fn write(alloc: Global, image: &Image) -> Result<Vec<u8>, AllocError>
    ensures bytes { IfOk result (λ bytes. bytes.items ≡ whole_image.spelling image.now) }
    ensures spelled { IfOk result (λ bytes. IsSpelling whole_image bytes.items image.now) }
{
    let parts = image.parts();
    let mut bytes = Vec::new(alloc);
    append_parts(&mut bytes, parts)?;
    Ok(bytes)
}

/// Puts the bytes of the parts of an image after those that are there.
fn append_parts(bytes: &mut Vec<u8>, parts: &Parts) -> Result<(), AllocError>
    ensures { IfOk result (λ _. bytes.new.items ≡ bytes.old.items ++ image_bytes parts.now) }
{
    append_header(bytes, parts)?;
    append_objects(bytes, parts)?;
    append_mappings(bytes, parts)?;
    append_threads(bytes, parts.version, &parts.threads)
}

/// The numbers with which an image begins.
fn image_numbers(parts: &Parts) -> [u32; 4]
    ensures { let h = parts.now.header in result ≡ magic ∷ h.version ∷ h.memory_bits ∷ h.boot_radix ∷ [] }
{
    [MAGIC, parts.version, parts.memory_bits, parts.boot_radix]
}

/// How many entries each section of an image before the promises has, in the order of the sections.
fn image_counts(parts: &Parts) -> [usize; 7]
    ensures { let h = parts.now.header in result ≡ h.untypeds ∷ h.objects ∷ h.capabilities ∷ h.interrupts
        ∷ h.tables ∷ h.frames ∷ h.contents ∷ [] }
{
    [
        parts.untypeds.len(),
        parts.objects.len(),
        parts.capabilities.len(),
        parts.interrupts.len(),
        parts.tables.len(),
        parts.frames.len(),
        parts.contents.len(),
    ]
}

/// Puts the bytes of an image's header after those that are there.
fn append_header(bytes: &mut Vec<u8>, parts: &Parts) -> Result<(), AllocError>
    ensures { IfOk result (λ _. bytes.new.items ≡ bytes.old.items ++ header_format.spelling parts.now.header) }
{
    append_all(bytes, &image_numbers(parts))?;
    append_all(bytes, &image_counts(parts))?;
    append_optional(bytes, has_promises(parts.version), parts.promises.len())?;
    parts.threads.len().append(bytes)
}

/// Puts the bytes of a number that is there where the test holds after those that are there.
fn append_optional(bytes: &mut Vec<u8>, test: bool, number: usize) -> Result<(), AllocError>
    ensures { IfOk result (λ _. bytes.new.items ≡ bytes.old.items ++ optional_bytes test number) }
{
    if test {
        return number.append(bytes);
    }
    Ok(())
}

/// Puts the bytes of an image's objects, capabilities and interrupts after those that are there.
fn append_objects(bytes: &mut Vec<u8>, parts: &Parts) -> Result<(), AllocError>
    ensures { IfOk result (λ _. bytes.new.items ≡ bytes.old.items ++ object_bytes parts.now) }
{
    append_all(bytes, &parts.untypeds)?;
    append_all(bytes, &parts.objects)?;
    append_all(bytes, &parts.capabilities)?;
    append_all(bytes, &parts.interrupts)
}

/// Puts the bytes of what an image maps, of what its frames begin with, and of its promises, after those that are there.
fn append_mappings(bytes: &mut Vec<u8>, parts: &Parts) -> Result<(), AllocError>
    ensures { IfOk result (λ _. bytes.new.items ≡ bytes.old.items ++ mapping_bytes parts.now) }
{
    append_all(bytes, &parts.tables)?;
    append_all(bytes, &parts.frames)?;
    append_all(bytes, &parts.contents)?;
    append_all(bytes, &parts.promises)
}

impl Spelled for Content {
    ghost spelling = { content_bytes };

    fn append(&self, bytes: &mut Vec<u8>) -> Result<(), AllocError> {
        self.frame.append(bytes)?;
        self.words.len().append(bytes)?;
        append_all(bytes, &self.words)
    }
}

/// A promise's endpoint and the range of its badge.
fn promise_numbers(promise: &Promise) -> [u32; 3]
    ensures { let h = promise.now.header in result ≡ h.endpoint ∷ h.badge_low ∷ h.badge_high ∷ [] }
{
    [promise.endpoint, promise.badge_low, promise.badge_high]
}

impl Spelled for Promise {
    ghost spelling = { promise_bytes };

    fn append(&self, bytes: &mut Vec<u8>) -> Result<(), AllocError> {
        append_all(bytes, &promise_numbers(self))?;
        self.words.len().append(bytes)?;
        append_all(bytes, &self.words)
    }
}

/// How many ranges, slots and terms a record has.
fn record_counts(part: &RecordParts) -> [usize; 3]
    ensures { let h = part.now.header in result ≡ h.ranges ∷ h.slots ∷ h.terms ∷ [] }
{
    [part.ranges.len(), part.slots.len(), part.terms.len()]
}

/// Puts the bytes of a record's fixed part after those that are there.
fn append_record_header(bytes: &mut Vec<u8>, part: &RecordParts) -> Result<(), AllocError>
    ensures { IfOk result (λ _. bytes.new.items ≡ bytes.old.items ++ (record_header_format (slots_format 0) 0 0).spelling part.now.header) }
{
    part.point.append(bytes)?;
    append_all(bytes, &record_counts(part))?;
    part.constant.append(bytes)
}

impl Spelled for RecordParts {
    ghost spelling = { record_bytes };

    fn append(&self, bytes: &mut Vec<u8>) -> Result<(), AllocError> {
        append_record_header(bytes, self)?;
        append_all(bytes, &self.ranges)?;
        append_all(bytes, &self.slots)?;
        append_all(bytes, &self.terms)
    }
}

/// A thread's objects and its priority, before its budget.
fn thread_numbers(thread: &ThreadParts) -> [u32; 5]
    ensures { let h = thread.now.header in result ≡ h.tcb ∷ h.cnode ∷ h.guard ∷ h.root ∷ h.priority ∷ [] }
{
    [
        thread.tcb,
        thread.cnode,
        thread.guard,
        thread.root,
        thread.priority,
    ]
}

/// Where a thread's program begins: its entry, and the address of its first word.
fn thread_addresses(thread: &ThreadParts) -> [u32; 2]
    ensures { let h = thread.now.header in result ≡ h.entry ∷ h.base ∷ [] }
{
    [thread.entry, thread.base]
}

/// How many registers, words and records a thread has.
fn thread_counts(thread: &ThreadParts) -> [usize; 3]
    ensures { let h = thread.now.header in result ≡ h.registers ∷ h.words ∷ h.records ∷ [] }
{
    [
        thread.registers.len(),
        thread.words.len(),
        thread.records.len(),
    ]
}

/// Puts the bytes of a thread's fixed part after those that are there.
fn append_thread_header(
    bytes: &mut Vec<u8>,
    version: u32,
    thread: &ThreadParts,
) -> Result<(), AllocError>
    ensures { IfOk result (λ _. bytes.new.items ≡ bytes.old.items ++ (thread_header_format version 0).spelling thread.now.header) }
{
    append_all(bytes, &thread_numbers(thread))?;
    thread.budget.append(bytes)?;
    thread.fault.append(bytes)?;
    append_optional(bytes, has_buffers(version), thread.buffer as usize)?;
    append_all(bytes, &thread_addresses(thread))?;
    append_all(bytes, &thread_counts(thread))
}

/// Puts the bytes of a thread of an image of this version after those that are there.
fn append_thread(bytes: &mut Vec<u8>, version: u32, thread: &ThreadParts) -> Result<(), AllocError>
    ensures { IfOk result (λ _. bytes.new.items ≡ bytes.old.items ++ thread_bytes version thread.now) }
{
    append_thread_header(bytes, version, thread)?;
    append_all(bytes, &thread.registers)?;
    append_all(bytes, &thread.words)?;
    append_all(bytes, &thread.records)
}

/// Puts the bytes of the threads of an image of this version after those that are there, in their order.
fn append_threads(
    bytes: &mut Vec<u8>,
    version: u32,
    threads: &[ThreadParts],
) -> Result<(), AllocError>
    ensures { IfOk result (λ _. bytes.new.items ≡ bytes.old.items ++ flat_map (thread_bytes version) threads.now) }
{
    for thread in threads {
        append_thread(bytes, version, thread)?;
    }
    Ok(())
}
