//! The records of a certificate, gone through in the order of their points.

ghost use Rattle.std.specs.Prelude.{◌≡◌, Some, is_some, option_map, slice_get};
ghost use Rattle.std.specs.Iterator.{YieldsFirst};
ghost use Rattle.program_rules.specs.Left.{IsLimited, behind, taken};

use crate::programs::Program;
use image_reading::{RecordRef, Records};
use std::marker::Model;

/// A record that a certificate may have, with the records from it on, which say where it is in fewer bytes. A clause sees the record.
#[derive(Drop)]
pub(crate) struct PlacedRecord<'a> {
    record: RecordRef<'a>,
    from: Records<'a>,
}

impl<'a> Model for PlacedRecord<'a> {
    ghost use Rattle.std.specs.Prelude.{◌≡◌, Some, slice_get};
    ghost use Rattle.model.specs.Images.Image.{StateRecord};
    ghost use Rattle.program_rules.specs.Left.{IsLimited};

    ghost Value = { StateRecord };

    ghost view = { λ placed. placed.record };

    ghost invariant = { λ placed. (slice_get placed.from 0 ≡ Some placed.record) × IsLimited placed.record };
}

impl<'a> PlacedRecord<'a> {
    /// The record.
    pub(crate) fn record(&self) -> &RecordRef<'a>
        ensures same { result.now ≡ self.now }
        ensures limited { IsLimited self.now }
    {
        &self.record
    }

    /// The records from this one on.
    pub(crate) fn from_here(&self) -> Records<'a>
        ensures first { slice_get result 0 ≡ Some self.now }
        ensures limited { IsLimited self.now }
    {
        self.from.again()
    }
}

/// The records of a certificate that are left. A clause sees their list.
#[derive(Drop)]
struct NotedRecords<'a> {
    records: Records<'a>,
}

impl<'a> Model for NotedRecords<'a> {
    ghost use Rattle.std.specs.Prelude.{List};
    ghost use Rattle.model.specs.Images.Image.{StateRecord};
    ghost use Rattle.program_rules.specs.Left.{AreLimited};

    ghost Value = { List StateRecord };

    ghost view = { λ noted. noted.records };

    ghost invariant = { λ noted. AreLimited noted.records };
}

impl<'a> NotedRecords<'a> {
    /// All records of a program's certificate.
    fn of(program: &Program<'a, '_>) -> Self
        ensures { result ≡ program.now.given.space.thread.now.records }
    {
        NotedRecords {
            records: program.given.space.thread.records(),
        }
    }

    /// Takes the next one out.
    fn next(&mut self) -> Option<PlacedRecord<'a>>
        ensures { YieldsFirst (λ s. s) self.old result self.new }
    {
        let from = self.records.again();
        match self.records.next() {
            Some(record) => Some(PlacedRecord { record, from }),
            None => None,
        }
    }
}

/// The record, if there is one.
pub(crate) fn record_in<'n, 'a>(placed: Option<&'n PlacedRecord<'a>>) -> Option<&'n RecordRef<'a>>
    ensures { option_map (λ r. r.now) result ≡ option_map (λ r. r.now) placed.entry }
{
    match placed {
        Some(placed) => Some(placed.record()),
        None => None,
    }
}

/// The records that are left, of which the next one is known. A clause sees their list.
#[derive(Drop)]
pub(crate) struct RecordsLeft<'a> {
    next: Option<PlacedRecord<'a>>,
    records: NotedRecords<'a>,
}

impl<'a> Model for RecordsLeft<'a> {
    ghost use Rattle.std.specs.Prelude.{List};
    ghost use Rattle.program_rules.specs.Left.{left_of};
    ghost use Rattle.model.specs.Images.Image.{StateRecord};

    ghost Value = { List StateRecord };

    ghost view = { λ left. left_of left.next left.records };
}

impl<'a> RecordsLeft<'a> {
    /// All records of a program's certificate.
    pub(crate) fn of(program: &Program<'a, '_>) -> Self
        ensures { result ≡ program.now.given.space.thread.now.records }
    {
        let mut records = NotedRecords::of(program);
        let next = records.next();
        RecordsLeft { next, records }
    }

    /// Whether the next record is that of a point.
    pub(crate) fn is_next(&self, point: u32) -> bool
        ensures { result ≡ is_some (taken point self.now) }
    {
        match &self.next {
            Some(placed) => placed.record().point() == point,
            None => false,
        }
    }

    /// Takes the record of a point out, if it is the next one.
    pub(crate) fn take(&mut self, point: u32) -> Option<PlacedRecord<'a>>
        ensures record { result ≡ taken point self.old }
        ensures left { self.new ≡ behind point self.old }
    {
        if !self.is_next(point) {
            return None;
        }
        let placed = self.next.take();
        self.next = self.records.next();
        placed
    }
}
