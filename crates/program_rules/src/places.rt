//! Where the state of a point is kept.

ghost use Rattle.std.specs.Prelude.{◌≡◌, ◌≤◌, IfOk, IfSome, Some, is_some, length, slice_get, true};
ghost use Rattle.model.specs.Images.Image.{StateRecord};
ghost use Rattle.ranges.specs.Orders.{IsOrdered};

use crate::kept::Known;
use crate::records::{MeasuredRecord, bounds_of};
use image_reading::Records;
use model::Range;
use std::alloc::AllocError;
use typestate::{Part, Written};

/// A part of a log of fewer than 2^32 entries.
#[derive(Clone, Copy)]
pub(crate) struct ShortPart {
    pub(crate) first: u32,
    pub(crate) end: u32,
}

impl ShortPart {
    ghost use Rattle.program_rules.specs.Kept.{wide};

    /// A part, if its ends are below 2^32.
    pub(crate) fn of(part: Part) -> Option<Self>
        ensures { IfSome result (λ short. wide short ≡ part) }
    {
        match (u32::try_from(part.first), u32::try_from(part.end)) {
            (Ok(first), Ok(end)) => Some(ShortPart { first, end }),
            _ => None,
        }
    }

    /// The part.
    pub(crate) fn part(self) -> Part
        ensures { result ≡ wide self }
    {
        Part {
            first: self.first as usize,
            end: self.end as usize,
        }
    }
}

/// A point that has a record, which is the first of these: the ranges and the measure of its state are read from the file when they
/// are asked for.
#[derive(Drop)]
pub(crate) struct RecordedPoint<'a> {
    pub(crate) from: Records<'a>,
    pub(crate) part: ShortPart,
    ghost some: { is_some (slice_get from 0) ≡ true },
    ghost few: { (r : StateRecord) → slice_get from 0 ≡ Some r → length r.terms ≤ 4 },
}

impl RecordedPoint<'_> {
    ghost use Rattle.program_rules.specs.Kept.{IsRecorded};

    /// The state of the record.
    pub(crate) fn known(&self, is_clean: bool) -> Known
        ensures { IsRecorded self.now is_clean result }
    {
        let mut records = self.from.again();
        match records.next() {
            Some(noted) => {
                let measured = MeasuredRecord { noted: &noted };
                Known {
                    bounds: bounds_of(&noted),
                    measure: measured.measure(),
                    part: self.part.part(),
                    is_clean,
                }
            }
            None => unreachable!(),
        }
    }
}

/// What a system call leaves: the registers that it writes, a range for the badge, and the part that the slots have. The other
/// registers keep their ranges.
#[derive(Clone, Copy)]
pub(crate) struct CalledPoint {
    pub(crate) part: ShortPart,
    pub(crate) badge: Range,
    pub(crate) written: Written,
    /// Whether instructions are counted anew.
    pub(crate) is_wait: bool,
    pub(crate) is_clean: bool,
    ghost ordered: { IsOrdered badge },
}

/// What is kept of a point: eight bytes, and for some a place in a list.
#[derive(Clone, Copy)]
pub(crate) enum Place {
    /// It has no state.
    Missing,
    /// It has none only because the instruction before writes a register of the measure.
    Unmeasured,
    /// A state, kept whole at this place.
    Whole(u32),
    /// A record, at this place.
    Recorded(u32),
    /// The same, and no slot is one that the thread may not have.
    Clean(u32),
    /// Its state follows from that of the point before by the instruction there.
    Plain,
    /// Its state follows from that of the point before by what is kept of the system call there, at this place.
    Called(u32),
}

impl Place {
    ghost use Rattle.program_rules.specs.Kept.{is_known_at, is_step};

    /// Whether the state follows from that of the point before.
    pub(crate) fn is_step(&self) -> bool
        ensures { result ≡ is_step self.now }
    {
        matches!(self, Place::Plain | Place::Called(_))
    }

    /// Whether there is a state.
    pub(crate) fn has_state(&self) -> bool
        ensures { result ≡ is_known_at self.now }
    {
        !matches!(self, Place::Missing | Place::Unmeasured)
    }
}

/// A place in a list of fewer than 2^32 states. More are refused, as memory is.
pub(crate) fn narrowed(at: usize) -> Result<u32, AllocError>
    ensures { IfOk result (λ narrow. narrow ≡ at) }
{
    match u32::try_from(at) {
        Ok(narrow) => Ok(narrow),
        Err(_) => Err(AllocError),
    }
}
