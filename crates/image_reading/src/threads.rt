//! The threads of an image.

ghost use Rattle.std.specs.Prelude.{◌≡◌, ◌<◌, length, slice_index};
ghost use Rattle.std.specs.Iterator.{YieldsFirst, item_count};
ghost use Rattle.model.specs.Images.Fills.{bytes_of};
ghost use Rattle.model.specs.Images.Format.{end_of, many};
ghost use Rattle.model.specs.Images.Image.{slots_format, thread_format};

use crate::entries::{Counts, Section, entries_end};
use crate::headers::thread_header;
use crate::records::{Records, records_end};
use crate::word_lists::{bytes_of_words, word_of, words_end};
use model::{Refusal, RegisterEntry, ThreadHeader};
use std::marker::Model;

/// One thread of an image, lent from the file.
#[derive(Drop)]
pub struct ThreadRef<'a> {
    bytes: &'a [u8],
    counts: Counts,
    header: ThreadHeader,
    registers_at: usize,
    words_at: usize,
    records_at: usize,
}

impl<'a> Model for ThreadRef<'a> {
    ghost use Rattle.std.specs.Prelude.{◌≡◌, ◌<◌, Ok, true, is_ok};
    ghost use Rattle.model.specs.Images.Format.{end_of, values_of};
    ghost use Rattle.model.specs.Images.Image.{Thread, registers_format, words_format, records_format, slots_format};

    ghost Value = { Thread };

    ghost view = { λ t. record {
      header = t.header;
      registers = values_of ((registers_format t.header.registers).reads t.bytes.now t.registers_at);
      words = values_of ((words_format t.header.words).reads t.bytes.now t.words_at);
      records = values_of ((records_format (slots_format t.counts.objects) t.header.words t.header.records).reads t.bytes.now t.records_at);
    } };

    ghost invariant = { λ t. (end_of ((registers_format t.header.registers).reads t.bytes.now t.registers_at) ≡ Ok t.words_at)
        × (end_of ((words_format t.header.words).reads t.bytes.now t.words_at) ≡ Ok t.records_at)
        × (is_ok (end_of ((records_format (slots_format t.counts.objects) t.header.words t.header.records).reads t.bytes.now t.records_at)) ≡ true)
        × (0 < t.header.words) };
}

/// The thread at `at` of an image of this version, and the offset after it.
#[tactic(auto, unfolding(model::specs::Images::Image::thread_format, model::specs::Images::Image::registers_format))]
pub(crate) fn thread_at<'a>(
    bytes: &'a [u8],
    at: usize,
    version: u32,
    counts: Counts,
) -> Result<(ThreadRef<'a>, usize), Refusal>
    ensures { result ≡ (thread_format (slots_format counts.objects) version counts.objects).reads bytes.now at }
{
    let (header, registers_at) = thread_header(bytes, at, version, counts.objects)?;
    let counts = counts.with_words(header.words);
    let words_at = entries_end::<RegisterEntry>(bytes, registers_at, counts, 1, header.registers)?;
    let records_at = words_end(bytes, words_at, header.words)?;
    let end = records_end(bytes, records_at, counts, header.records)?;
    let thread = ThreadRef {
        bytes,
        counts,
        header,
        registers_at,
        words_at,
        records_at,
    };
    Ok((thread, end))
}

impl<'a> ThreadRef<'a> {
    /// The thread's fixed part.
    pub fn header(&self) -> ThreadHeader
        ensures { result ≡ self.now.header }
    {
        self.header
    }

    /// The registers that the thread starts with, in rising order.
    #[tactic(auto, unfolding(model::specs::Images::Image::registers_format))]
    pub fn registers(&self) -> Section<'a, RegisterEntry>
        ensures { result ≡ self.now.registers }
    {
        Section::new(
            self.bytes,
            self.registers_at,
            self.counts,
            1,
            self.header.registers,
        )
    }

    /// How many words the program has.
    pub fn word_count(&self) -> u32
        ensures value { result ≡ self.now.header.words }
        ensures length { length self.now.words ≡ result }
    {
        self.header.words
    }

    /// Word `index` of the program.
    pub fn word(&self, index: u32) -> u32
        requires { index < self.now.header.words }
        ensures { result ≡ slice_index self.now.words index }
    {
        word_of(self.bytes, self.words_at, self.header.words, index)
    }

    /// The bytes of the program, lent.
    pub fn program(&self) -> &'a [u8]
        ensures { result.now ≡ bytes_of self.now.words }
    {
        bytes_of_words(self.bytes, self.words_at, self.header.words)
    }

    /// The records of the certificate, in rising order of their points.
    #[tactic(auto, unfolding(model::specs::Images::Image::records_format))]
    pub fn records(&self) -> Records<'a>
        ensures { result ≡ self.now.records }
    {
        Records {
            bytes: self.bytes,
            at: self.records_at,
            counts: self.counts.with_words(self.header.words),
            least: 0,
            left: self.header.records,
        }
    }
}

/// The offset after `count` threads from `start` of an image of this version.
pub(crate) fn threads_end(
    bytes: &[u8],
    start: usize,
    version: u32,
    counts: Counts,
    count: u32,
) -> Result<usize, Refusal>
    ensures { result ≡ end_of ((many count (thread_format (slots_format counts.objects) version counts.objects)).reads bytes.now start) }
{
    let mut at = start;
    for _ in 0..count {
        let (_thread, next) = thread_at(bytes, at, version, counts)?;
        at = next;
    }
    Ok(at)
}

/// The threads of an image.
#[derive(Drop)]
pub struct Threads<'a> {
    pub(crate) bytes: &'a [u8],
    pub(crate) at: usize,
    pub(crate) version: u32,
    pub(crate) counts: Counts,
    pub(crate) left: u32,
}

impl<'a> Model for Threads<'a> {
    ghost use Rattle.std.specs.Prelude.{◌≡◌, List, true, is_ok};
    ghost use Rattle.model.specs.Images.Format.{many_read, values_of};
    ghost use Rattle.model.specs.Images.Image.{Thread, slots_format, thread_format};

    ghost Value = { List Thread };

    ghost view = { λ r. values_of (many_read (λ _. thread_format (slots_format r.counts.objects) r.version r.counts.objects)
        (λ _. 0) 0 r.left r.bytes.now r.at) };

    ghost invariant = { λ r. is_ok (many_read (λ _. thread_format (slots_format r.counts.objects) r.version r.counts.objects)
        (λ _. 0) 0 r.left r.bytes.now r.at) ≡ true };
}

impl<'a> Iterator for Threads<'a> {
    type Item = ThreadRef<'a>;

    ghost next_gives = { YieldsFirst (λ s. s) };

    ghost remaining = { item_count (λ s. s) };

    fn next(&mut self) -> Option<ThreadRef<'a>> {
        if self.left == 0 {
            return None;
        }
        match thread_at(self.bytes, self.at, self.version, self.counts) {
            Ok((thread, next)) => {
                self.at = next;
                self.left -= 1;
                Some(thread)
            }
            Err(_) => unreachable!(),
        }
    }
}
