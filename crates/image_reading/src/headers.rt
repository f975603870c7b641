//! The fixed parts of images, threads and records.

ghost use Rattle.std.specs.Prelude.{◌≡◌, ◌-◌, ◌<◌, IfOk, min};
ghost use Rattle.model.specs.Images.Format.{field};
ghost use Rattle.model.specs.Images.Image.{between, header_format, record_header_format, slots_format, thread_header_format};
ghost use Rattle.image_reading.specs.Headers.{counts_format, program_format, program_length};

use crate::fields::{
    any_word, buffer, constant, double_between, magic, promise_count, rising_word, version,
    word_below, word_between,
};
use model::{
    ImageHeader, MOST_CAPABILITIES, MOST_CONTENTS, MOST_FRAMES, MOST_INTERRUPTS, MOST_OBJECTS,
    MOST_REGISTERS, MOST_SLOTS, MOST_TABLES, MOST_THREADS, MOST_UNTYPEDS, MOST_WORDS, RecordHeader,
    Refusal, ThreadHeader,
};
use std::marker::Model;

/// The largest radix of the boot CNode in memory of so many bits (2^bits bytes).
pub fn radix_limit(memory_bits: u32) -> u32
    ensures { result ≡ min 14 (memory_bits - 5) }
{
    memory_bits.saturating_sub(5).min(14)
}

/// How many entries each section has.
#[derive(Drop)]
struct SectionCounts {
    untypeds: u32,
    objects: u32,
    capabilities: u32,
    interrupts: u32,
    tables: u32,
    frames: u32,
    contents: u32,
    promises: u32,
    threads: u32,
}

impl Model for SectionCounts {
    ghost use Rattle.image_reading.specs.Headers.{CountFields};

    ghost Value = { CountFields };

    ghost view = { λ c. (c.untypeds, (c.objects, (c.capabilities, (c.interrupts, (c.tables, (c.frames, (c.contents, (c.promises, c.threads)))))))) };
}

/// The counts at `at` of an image of this version, and the offset after them.
fn section_counts(bytes: &[u8], at: usize, version: u32) -> Result<(SectionCounts, usize), Refusal>
    ensures { result ≡ (counts_format version).reads bytes.now at }
{
    let (untypeds, at) = word_between(bytes, at, 1, MOST_UNTYPEDS)?;
    let (objects, at) = word_between(bytes, at, 0, MOST_OBJECTS)?;
    let (capabilities, at) = word_between(bytes, at, 0, MOST_CAPABILITIES)?;
    let (interrupts, at) = word_between(bytes, at, 0, MOST_INTERRUPTS)?;
    let (tables, at) = word_between(bytes, at, 0, MOST_TABLES)?;
    let (frames, at) = word_between(bytes, at, 0, MOST_FRAMES)?;
    let (contents, at) = word_between(bytes, at, 0, MOST_CONTENTS)?;
    let (promises, at) = promise_count(bytes, at, version)?;
    let (threads, at) = word_between(bytes, at, 1, MOST_THREADS)?;
    let counts = SectionCounts {
        untypeds,
        objects,
        capabilities,
        interrupts,
        tables,
        frames,
        contents,
        promises,
        threads,
    };
    Ok((counts, at))
}

/// The fixed part of the image at `at`, and the offset after it.
#[tactic(auto, unfolding(model::specs::Images::Image::header_format))]
pub(crate) fn image_header(bytes: &[u8], at: usize) -> Result<(ImageHeader, usize), Refusal>
    ensures { result ≡ header_format.reads bytes.now at }
{
    let (_magic, at) = magic(bytes, at)?;
    let (version, at) = version(bytes, at)?;
    let (memory_bits, at) = word_between(bytes, at, 16, 24)?;
    let (boot_radix, at) = word_between(bytes, at, 1, radix_limit(memory_bits))?;
    let (counts, at) = section_counts(bytes, at, version)?;
    let header = ImageHeader {
        version,
        memory_bits,
        boot_radix,
        untypeds: counts.untypeds,
        objects: counts.objects,
        capabilities: counts.capabilities,
        interrupts: counts.interrupts,
        tables: counts.tables,
        frames: counts.frames,
        contents: counts.contents,
        promises: counts.promises,
        threads: counts.threads,
    };
    Ok((header, at))
}

/// How many words a program has, at `at`, and the offset after it.
fn word_count(bytes: &[u8], at: usize) -> Result<(u32, usize), Refusal>
    ensures reads { result ≡ (field (between 1 65536)).reads bytes.now at }
    ensures some { IfOk result (λ x. 0 < x.0) }
{
    let (words, next) = any_word(bytes, at)?;
    if 1 <= words && words <= MOST_WORDS {
        Ok((words, next))
    } else {
        Err(Refusal::Limit { offset: at as u64 })
    }
}

/// Where a thread begins, and how long the lists after its header are.
#[derive(Drop)]
struct Program {
    fault: u32,
    buffer: u32,
    entry: u32,
    base: u32,
    registers: u32,
    words: u32,
    records: u32,
}

impl Model for Program {
    ghost use Rattle.image_reading.specs.Headers.{ProgramFields};

    ghost Value = { ProgramFields };

    ghost view = { λ p. (p.fault, (p.buffer, (p.entry, (p.base, (p.registers, (p.words, p.records)))))) };
}

/// The last fields of the header of a thread, at `at` of an image of this version with so many objects, and the offset after them.
fn program_at(
    bytes: &[u8],
    at: usize,
    version: u32,
    objects: u32,
) -> Result<(Program, usize), Refusal>
    ensures reads { result ≡ (program_format version objects).reads bytes.now at }
    ensures some { IfOk result (λ x. 0 < program_length x.0) }
{
    let (fault, at) = any_word(bytes, at)?;
    let (buffer, at) = buffer(bytes, at, version, objects)?;
    let (entry, at) = any_word(bytes, at)?;
    let (base, at) = any_word(bytes, at)?;
    let (registers, at) = word_between(bytes, at, 0, MOST_REGISTERS)?;
    let (words, at) = word_count(bytes, at)?;
    let (records, at) = word_between(bytes, at, 0, words)?;
    let program = Program {
        fault,
        buffer,
        entry,
        base,
        registers,
        words,
        records,
    };
    Ok((program, at))
}

/// The fixed part of the thread at `at` of an image of this version with so many objects, and the offset after it.
#[tactic(auto, unfolding(model::specs::Images::Image::thread_header_format))]
pub(crate) fn thread_header(
    bytes: &[u8],
    at: usize,
    version: u32,
    objects: u32,
) -> Result<(ThreadHeader, usize), Refusal>
    ensures reads { result ≡ (thread_header_format version objects).reads bytes.now at }
    ensures some { IfOk result (λ x. 0 < x.0.words) }
{
    let (tcb, at) = word_below(bytes, at, objects)?;
    let (cnode, at) = word_below(bytes, at, objects)?;
    let (guard, at) = any_word(bytes, at)?;
    let (root, at) = word_below(bytes, at, objects)?;
    let (priority, at) = word_between(bytes, at, 0, 255)?;
    let (budget, at) = double_between(bytes, at, 1, 1 << 62)?;
    let (program, at) = program_at(bytes, at, version, objects)?;
    let header = ThreadHeader {
        tcb,
        cnode,
        guard,
        root,
        priority,
        budget,
        fault: program.fault,
        buffer: program.buffer,
        entry: program.entry,
        base: program.base,
        registers: program.registers,
        words: program.words,
        records: program.records,
    };
    Ok((header, at))
}

/// The fixed part of the record at `at` of a program of `words` words, and the offset after it. Its
/// point is not below `least`.
#[tactic(auto, unfolding(model::specs::Images::Image::record_header_format))]
pub(crate) fn record_header(
    bytes: &[u8],
    at: usize,
    objects: u32,
    words: u32,
    least: u64,
) -> Result<(RecordHeader, usize), Refusal>
    ensures { result ≡ (record_header_format (slots_format objects) words least).reads bytes.now at }
{
    let (point, at) = rising_word(bytes, at, least, words)?;
    let (ranges, at) = word_between(bytes, at, 0, MOST_REGISTERS)?;
    let (slots, at) = word_between(bytes, at, 0, MOST_SLOTS)?;
    let (terms, at) = word_between(bytes, at, 0, 4)?;
    let (constant, at) = constant(bytes, at)?;
    let header = RecordHeader {
        point,
        ranges,
        slots,
        terms,
        constant,
    };
    Ok((header, at))
}
