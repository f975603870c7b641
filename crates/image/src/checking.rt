//! Images: parts whose fields are all in their ranges and orders.

ghost use Rattle.std.specs.Prelude.{◌≡◌, ℕ, ◌+◌, ◌&&◌, ◌||◌, ◌==◌, nat_lt, nat_le, ◌^◌, if◌then◌else◌, Some, None, true, false, IfOk, IfErr, length};
ghost use Rattle.image.specs.Sections.{mappings_fit, sections_fit};
ghost use Rattle.model.specs.Images.Format.{many_fit, field, number, only_if, signed_number};
ghost use Rattle.model.specs.Images.Image.{anything, between, content_format, has_buffers, has_promises, header_format, image_with};
ghost use Rattle.model.specs.Images.Image.{latest_version, no_buffer, promise_format, record_format, record_header_format};
ghost use Rattle.model.specs.Images.Image.{sections_format, slots_format, thread_format, thread_header_format, whole_image};

use crate::fitting::all_fit;
use crate::parts::{Content, Parts, Promise, RecordParts, ThreadParts};
use image_reading::{
    Counts, Keyed, Listed, has_buffers, has_promises, is_known_version, radix_limit,
};
use model::{
    MOST_CAPABILITIES, MOST_CONTENT_WORDS, MOST_CONTENTS, MOST_FRAMES, MOST_INTERRUPTS,
    MOST_OBJECTS, MOST_PROMISES, MOST_REGISTERS, MOST_TABLES, MOST_THREADS, MOST_UNTYPEDS,
    MOST_WORDS,
};
use std::marker::Model;

/// An image: parts whose fields are all in the ranges and orders of the format.
#[derive(Drop)]
pub struct Image {
    parts: Parts,
}

impl Model for Image {
    ghost use Rattle.std.specs.Prelude.{◌≡◌, true};
    ghost use Rattle.model.specs.Images.Image as described;

    ghost Value = { described.Image };

    ghost view = { λ i. i.parts };

    ghost invariant = { λ i. described.whole_image.fits i.parts ≡ true };
}

impl Image {
    /// The image of these parts.
    ///
    /// # Errors
    ///
    /// The parts as they were, where a field is out of its range or its order.
    pub fn checked(parts: Parts) -> Result<Image, Parts>
        ensures ok { IfOk result (λ image. (image ≡ parts) × (whole_image.fits parts ≡ true)) }
        ensures err { IfErr result (λ back. (back ≡ parts) × (whole_image.fits parts ≡ false)) }
    {
        if parts_fit(&parts) {
            Ok(Image { parts })
        } else {
            Err(parts)
        }
    }

    /// The parts that the image was made of.
    pub fn parts(&self) -> &Parts
        ensures parts { result.now ≡ self.now }
        ensures fits { whole_image.fits self.now ≡ true }
    {
        &self.parts
    }
}

/// Whether all that the parts list is in its ranges and orders.
#[tactic(auto, unfolding(model::specs::Images::Image::image_with, model::specs::Images::Image::sections_format))]
fn parts_fit(parts: &Parts) -> bool
    ensures { result ≡ whole_image.fits parts.now }
{
    let Some(counts) = counts_of(parts) else {
        return false;
    };
    if !sections_fit(parts, counts) {
        return false;
    }
    threads_fit(&parts.threads, parts.version, counts)
}

/// Whether the entries of the sections before the threads are in their ranges and orders.
fn sections_fit(parts: &Parts, counts: Counts) -> bool
    ensures { result ≡ sections_fit counts parts.now }
{
    all_fit(&parts.untypeds, counts, 0)
        && all_fit(&parts.objects, counts, 0)
        && all_fit(&parts.capabilities, counts, 0)
        && all_fit(&parts.interrupts, counts, 0)
        && mappings_fit(parts, counts)
}

/// Whether what the parts map, what their frames begin with, and what they promise, is in its ranges and orders.
fn mappings_fit(parts: &Parts, counts: Counts) -> bool
    ensures { result ≡ mappings_fit counts parts.now }
{
    all_fit(&parts.tables, counts, 0)
        && all_fit(&parts.frames, counts, 0)
        && all_fit(&parts.contents, counts, 0)
        && all_fit(&parts.promises, counts, 0)
}

/// Whether a number is one from `low` to `high`.
fn is_within(number: usize, low: u32, high: u32) -> bool
    ensures { result ≡ (field (between low high)).fits number }
{
    low as usize <= number && number <= high as usize
}

/// Whether a number of promises is in its range: an image of a version before 2 has none.
fn promise_count_fits(version: u32, count: usize) -> bool
    ensures { result ≡ (only_if (has_promises version) 0 (field (between 0 4096))).fits count }
{
    if has_promises(version) {
        is_within(count, 0, MOST_PROMISES)
    } else {
        count == 0
    }
}

/// Whether the number for a thread's buffer is an object's or that for none: a thread of a version before 3 has none.
fn buffer_fits(version: u32, buffer: u32, objects: u32) -> bool
    ensures { result ≡ (only_if (has_buffers version) no_buffer (field (λ n. nat_lt n objects || (n == no_buffer)))).fits buffer }
{
    if has_buffers(version) {
        buffer < objects || buffer == u32::MAX
    } else {
        buffer == u32::MAX
    }
}

/// Whether the last seven counts of the image's head are in their ranges.
fn last_counts_fit(parts: &Parts) -> bool
    ensures { let h = parts.now.header in result ≡ ((field (between 0 16384)).fits h.capabilities && ((field (between 0 64)).fits h.interrupts
        && ((field (between 0 1024)).fits h.tables && ((field (between 0 4096)).fits h.frames
        && ((field (between 0 4096)).fits h.contents && ((only_if (has_promises h.version) 0 (field (between 0 4096))).fits h.promises
        && (field (between 1 64)).fits h.threads)))))) }
{
    is_within(parts.capabilities.len(), 0, MOST_CAPABILITIES)
        && is_within(parts.interrupts.len(), 0, MOST_INTERRUPTS)
        && is_within(parts.tables.len(), 0, MOST_TABLES)
        && is_within(parts.frames.len(), 0, MOST_FRAMES)
        && is_within(parts.contents.len(), 0, MOST_CONTENTS)
        && promise_count_fits(parts.version, parts.promises.len())
        && is_within(parts.threads.len(), 1, MOST_THREADS)
}

/// Whether the numbers of the image's head are in their ranges.
#[tactic(auto, unfolding(model::specs::Images::Image::header_format))]
fn head_fits(parts: &Parts) -> bool
    ensures { result ≡ header_format.fits parts.now.header }
{
    is_known_version(parts.version)
        && is_within(parts.memory_bits as usize, 16, 24)
        && is_within(parts.boot_radix as usize, 1, radix_limit(parts.memory_bits))
        && is_within(parts.untypeds.len(), 1, MOST_UNTYPEDS)
        && is_within(parts.objects.len(), 0, MOST_OBJECTS)
        && last_counts_fit(parts)
}

/// The counts that the numbers of the entries lie below, if the numbers of the image's head are in their ranges.
#[tactic(auto, unfolding(model::specs::Images::Image::header_format))]
fn counts_of(parts: &Parts) -> Option<Counts>
    ensures { let h = parts.now.header in result ≡ (if header_format.fits h
        then Some (record { version = h.version; untypeds = h.untypeds; objects = h.objects; interrupts = h.interrupts; words = 0 }) else None) }
{
    if !head_fits(parts) {
        return None;
    }
    Some(Counts {
        version: parts.version,
        untypeds: parts.untypeds.len() as u32,
        objects: parts.objects.len() as u32,
        interrupts: parts.interrupts.len() as u32,
        words: 0,
    })
}

/// Whether a number is in the range of a field that may hold any, as all of 4 bytes are.
fn is_word(number: u32) -> bool
    ensures { result ≡ (field anything).fits number }
{
    number <= u32::MAX
}

/// Whether words are in their ranges, as all are.
fn words_fit(words: &[u32]) -> bool
    ensures { result ≡ many_fit (λ _. field anything) (λ _. 0) 0 (length words.now) words.now }
{
    true
}

impl Keyed for Content {
    ghost key = { λ c. c.header.frame };

    fn key(&self) -> u64 {
        u64::from(self.frame)
    }
}

#[tactic(auto, unfolding(model::specs::Images::Image::content_format))]
impl Listed for Content {
    ghost format = { λ counts. content_format counts.objects };

    ghost next = { λ c. c.header.frame + 1 };

    fn fits(&self, counts: Counts, least: u64) -> Option<u64> {
        let key = u64::from(self.frame);
        if key < least || counts.objects <= self.frame {
            return None;
        }
        if is_within(self.words.len(), 1, MOST_CONTENT_WORDS) && words_fit(&self.words) {
            Some(key + 1)
        } else {
            None
        }
    }
}

/// Whether the numbers of a promise's fixed part are in their ranges.
fn promise_header_fits(promise: &Promise, counts: Counts, least: u64) -> bool
    ensures { let h = promise.now.header in result ≡ ((field (λ endpoint. nat_le least endpoint && nat_lt endpoint counts.objects)).fits h.endpoint
        && ((field anything).fits h.badge_low && ((field (λ high. nat_le h.badge_low high && nat_lt high (2 ^ 28))).fits h.badge_high
        && (field (between 0 8)).fits h.words))) }
{
    least <= u64::from(promise.endpoint)
        && promise.endpoint < counts.objects
        && is_word(promise.badge_low)
        && promise.badge_low <= promise.badge_high
        && promise.badge_high < 1 << 28
        && is_within(promise.words.len(), 0, 8)
}

impl Keyed for Promise {
    ghost key = { λ p. p.header.endpoint };

    fn key(&self) -> u64 {
        u64::from(self.endpoint)
    }
}

#[tactic(auto, unfolding(model::specs::Images::Image::promise_format))]
impl Listed for Promise {
    ghost format = { λ counts. promise_format counts.objects };

    ghost next = { λ p. p.header.endpoint + 1 };

    fn fits(&self, counts: Counts, least: u64) -> Option<u64> {
        if promise_header_fits(self, counts, least) && all_fit(&self.words, counts, 0) {
            Some(u64::from(self.endpoint) + 1)
        } else {
            None
        }
    }
}

/// Whether the numbers of a record's head are in their ranges, in a program of so many words.
#[tactic(auto, unfolding(model::specs::Images::Image::record_header_format))]
fn record_header_fits(part: &RecordParts, counts: Counts, least: u64) -> bool
    ensures { result ≡ (record_header_format (slots_format counts.objects) counts.words least).fits part.now.header }
{
    least <= u64::from(part.point)
        && part.point < counts.words
        && part.ranges.len() <= 31
        && part.slots.len() <= 256
        && part.terms.len() <= 4
        && -(1 << 62) <= part.constant
        && part.constant <= 1 << 62
}

impl Keyed for RecordParts {
    ghost key = { λ r. r.header.point };

    fn key(&self) -> u64 {
        u64::from(self.point)
    }
}

#[tactic(auto, unfolding(model::specs::Images::Image::record_format, model::specs::Images::Image::ranges_format, model::specs::Images::Image::terms_format))]
impl Listed for RecordParts {
    ghost format = { λ counts. record_format (slots_format counts.objects) counts.words };

    ghost next = { λ r. r.header.point + 1 };

    fn fits(&self, counts: Counts, least: u64) -> Option<u64> {
        if record_header_fits(self, counts, least)
            && all_fit(&self.ranges, counts, 1)
            && all_fit(&self.slots, counts, 0)
            && all_fit(&self.terms, counts, 1)
        {
            Some(u64::from(self.point) + 1)
        } else {
            None
        }
    }
}

/// Whether the numbers of a thread's head after its budget are in their ranges.
fn program_fits(thread: &ThreadParts, version: u32, objects: u32) -> bool
    ensures { let h = thread.now.header in result ≡ ((field anything).fits h.fault
        && ((only_if (has_buffers version) no_buffer (field (λ n. nat_lt n objects || (n == no_buffer)))).fits h.buffer
        && ((field anything).fits h.entry && ((field anything).fits h.base && ((field (between 0 31)).fits h.registers
        && ((field (between 1 65536)).fits h.words && (field (between 0 h.words)).fits h.records)))))) }
{
    is_word(thread.fault)
        && buffer_fits(version, thread.buffer, objects)
        && is_word(thread.entry)
        && is_word(thread.base)
        && is_within(thread.registers.len(), 0, MOST_REGISTERS)
        && is_within(thread.words.len(), 1, MOST_WORDS)
        && thread.records.len() <= thread.words.len()
}

/// Whether the numbers of a thread's head are in their ranges.
#[tactic(auto, unfolding(model::specs::Images::Image::thread_header_format))]
fn thread_header_fits(thread: &ThreadParts, version: u32, objects: u32) -> bool
    ensures { result ≡ (thread_header_format version objects).fits thread.now.header }
{
    thread.tcb < objects
        && thread.cnode < objects
        && is_word(thread.guard)
        && thread.root < objects
        && is_within(thread.priority as usize, 0, 255)
        && 1 <= thread.budget
        && thread.budget <= 1 << 62
        && program_fits(thread, version, objects)
}

/// How many words a thread's program has, if the numbers of the thread's head are in their ranges.
#[tactic(auto, unfolding(model::specs::Images::Image::thread_header_format))]
fn program_length(thread: &ThreadParts, version: u32, objects: u32) -> Option<u32>
    ensures { let h = thread.now.header in result ≡ (if (thread_header_format version objects).fits h then Some h.words else None) }
{
    if thread_header_fits(thread, version, objects) {
        Some(thread.words.len() as u32)
    } else {
        None
    }
}

/// Whether a thread of an image of this version is in its ranges and orders.
#[tactic(auto, unfolding(model::specs::Images::Image::thread_format, model::specs::Images::Image::registers_format, model::specs::Images::Image::words_format, model::specs::Images::Image::records_format))]
fn thread_fits(thread: &ThreadParts, version: u32, counts: Counts) -> bool
    ensures { result ≡ (thread_format (slots_format counts.objects) version counts.objects).fits thread.now }
{
    let Some(words) = program_length(thread, version, counts.objects) else {
        return false;
    };
    let counts = counts.with_words(words);
    all_fit(&thread.registers, counts, 1)
        && words_fit(&thread.words)
        && all_fit(&thread.records, counts, 0)
}

/// Whether the threads of an image of this version are in their ranges and orders.
fn threads_fit(threads: &[ThreadParts], version: u32, counts: Counts) -> bool
    ensures { result ≡ many_fit (λ _. thread_format (slots_format counts.objects) version counts.objects) (λ _. 0) 0 (length threads.now) threads.now }
{
    for thread in threads {
        if !thread_fits(thread, version, counts) {
            return false;
        }
    }
    true
}
