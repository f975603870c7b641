//! The records of a certificate.

ghost use Rattle.std.specs.Prelude.{◌≡◌, ◌+◌, ◌<◌, ◌≤◌, All};
ghost use Rattle.std.specs.Iterator.{YieldsFirst, item_count};
ghost use Rattle.model.specs.Images.Format.{end_of};
ghost use Rattle.model.specs.Images.Image.{record_format, records_format, slots_format};

use crate::entries::{Counts, Section, entries_end};
use crate::headers::record_header;
use model::{RangeEntry, RecordHeader, Refusal, SlotEntry, TermEntry};
use std::marker::Model;

/// The slots that a record notes, in rising order of CNode and index.
pub type Slots<'a> = Section<'a, SlotEntry>;

/// One record of a certificate, lent from the file.
#[derive(Drop)]
pub struct RecordRef<'a> {
    bytes: &'a [u8],
    counts: Counts,
    header: RecordHeader,
    ranges_at: usize,
    slots_at: usize,
    terms_at: usize,
}

impl<'a> Model for RecordRef<'a> {
    ghost use Rattle.std.specs.Prelude.{◌≡◌, Ok, true, is_ok};
    ghost use Rattle.model.specs.Images.Format.{end_of, values_of};
    ghost use Rattle.model.specs.Images.Image.{StateRecord, ranges_format, slots_format, terms_format};

    ghost Value = { StateRecord };

    ghost view = { λ r. record {
      header = r.header;
      ranges = values_of ((ranges_format r.header.ranges).reads r.bytes.now r.ranges_at);
      slots = values_of (((slots_format r.counts.objects).entries r.header.slots).reads r.bytes.now r.slots_at);
      terms = values_of ((terms_format r.header.terms).reads r.bytes.now r.terms_at);
    } };

    ghost invariant = { λ r. (end_of ((ranges_format r.header.ranges).reads r.bytes.now r.ranges_at) ≡ Ok r.slots_at)
        × (end_of (((slots_format r.counts.objects).entries r.header.slots).reads r.bytes.now r.slots_at) ≡ Ok r.terms_at)
        × (is_ok (end_of ((terms_format r.header.terms).reads r.bytes.now r.terms_at)) ≡ true) };
}

/// The record at `at` of a program of `counts.words` words, and the offset after it. Its point is not
/// below `least`.
#[tactic(auto, unfolding(model::specs::Images::Image::record_format, model::specs::Images::Image::ranges_format, model::specs::Images::Image::terms_format))]
pub(crate) fn record_at<'a>(
    bytes: &'a [u8],
    at: usize,
    counts: Counts,
    least: u64,
) -> Result<(RecordRef<'a>, usize), Refusal>
    ensures { result ≡ (record_format (slots_format counts.objects) counts.words least).reads bytes.now at }
{
    let (header, ranges_at) = record_header(bytes, at, counts.objects, counts.words, least)?;
    let slots_at = entries_end::<RangeEntry>(bytes, ranges_at, counts, 1, header.ranges)?;
    let terms_at = entries_end::<SlotEntry>(bytes, slots_at, counts, 0, header.slots)?;
    let end = entries_end::<TermEntry>(bytes, terms_at, counts, 1, header.terms)?;
    let record = RecordRef {
        bytes,
        counts,
        header,
        ranges_at,
        slots_at,
        terms_at,
    };
    Ok((record, end))
}

impl<'a> RecordRef<'a> {
    /// The record's fixed part.
    pub fn header(&self) -> RecordHeader
        ensures { result ≡ self.now.header }
    {
        self.header
    }

    /// The ranges that the record lists, in rising order of their registers.
    #[tactic(auto, unfolding(model::specs::Images::Image::ranges_format))]
    pub fn ranges(&self) -> Section<'a, RangeEntry>
        ensures value { result ≡ self.now.ranges }
        // Each has a value.
        ensures ordered { All (λ e. e.low ≤ e.high) result }
    {
        Section::new(
            self.bytes,
            self.ranges_at,
            self.counts,
            1,
            self.header.ranges,
        )
    }

    /// The slots that the record notes, in rising order of CNode and index.
    pub fn slots(&self) -> Slots<'a>
        ensures { result ≡ self.now.slots }
    {
        Section::new(self.bytes, self.slots_at, self.counts, 0, self.header.slots)
    }

    /// The terms of the measure, in rising order of their registers.
    #[tactic(auto, unfolding(model::specs::Images::Image::terms_format))]
    pub fn terms(&self) -> Section<'a, TermEntry>
        ensures { result ≡ self.now.terms }
    {
        Section::new(self.bytes, self.terms_at, self.counts, 1, self.header.terms)
    }

    /// How many slots the record notes.
    pub fn slot_count(&self) -> u32
        ensures { result ≡ self.now.header.slots }
    {
        self.header.slots
    }

    /// The point that the record speaks of.
    pub fn point(&self) -> u32
        ensures { result ≡ self.now.header.point }
    {
        self.header.point
    }

    /// The constant of the measure.
    pub fn constant(&self) -> i64
        ensures { result ≡ self.now.header.constant }
    {
        self.header.constant
    }
}

/// The offset after `count` records from `start` of a program of `counts.words` words.
pub(crate) fn records_end(
    bytes: &[u8],
    start: usize,
    counts: Counts,
    count: u32,
) -> Result<usize, Refusal>
    ensures { result ≡ end_of ((records_format (slots_format counts.objects) counts.words count).reads bytes.now start) }
{
    let mut at = start;
    let mut least = 0;
    for _ in 0..count {
        let (record, next) = record_at(bytes, at, counts, least)?;
        least = u64::from(record.point()) + 1;
        at = next;
    }
    Ok(at)
}

/// The records of a certificate, in rising order of their points.
#[derive(Drop)]
pub struct Records<'a> {
    pub(crate) bytes: &'a [u8],
    pub(crate) at: usize,
    pub(crate) counts: Counts,
    pub(crate) least: u64,
    pub(crate) left: u32,
}

impl<'a> Model for Records<'a> {
    ghost use Rattle.std.specs.Prelude.{◌≡◌, List, true, is_ok, ◌≤◌, ◌+◌};
    ghost use Rattle.model.specs.Images.Format.{many_read, values_of};
    ghost use Rattle.model.specs.Images.Image.{StateRecord, record_format, slots_format};

    ghost Value = { List StateRecord };

    ghost view = { λ r. values_of (many_read (record_format (slots_format r.counts.objects) r.counts.words)
        (λ x. x.header.point + 1) r.least r.left r.bytes.now r.at) };

    ghost invariant = { λ r. is_ok (many_read (record_format (slots_format r.counts.objects) r.counts.words)
        (λ x. x.header.point + 1) r.least r.left r.bytes.now r.at) ≡ true };
}

impl<'a> Records<'a> {
    /// The records that are left, to be gone through once more.
    pub fn again(&self) -> Self
        ensures { result ≡ self.now }
    {
        Records {
            bytes: self.bytes,
            at: self.at,
            counts: self.counts,
            least: self.least,
            left: self.left,
        }
    }
}

impl<'a> Iterator for Records<'a> {
    type Item = RecordRef<'a>;

    ghost next_gives = { YieldsFirst (λ s. s) };

    ghost remaining = { item_count (λ s. s) };

    fn next(&mut self) -> Option<RecordRef<'a>> {
        if self.left == 0 {
            return None;
        }
        match record_at(self.bytes, self.at, self.counts, self.least) {
            Ok((record, next)) => {
                self.least = u64::from(record.point()) + 1;
                self.at = next;
                self.left -= 1;
                Some(record)
            }
            Err(_) => unreachable!(),
        }
    }
}
