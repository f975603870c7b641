//! What is kept of the points of a program: of some the whole state, of those with records where these are, and of others how their
//! states follow.

ghost use Rattle.std.specs.Prelude.{ℕ, ◌≡◌, ◌≢◌, ◌+◌, ◌<◌, ◌≤◌, ◌^◌, IfOk, IfSome, List, None, Some, false, length, slice_get, true};
ghost use Rattle.model.specs.Acceptance.NotedStates.{NotedSlot, record_of};
ghost use Rattle.model.specs.Acceptance.PointStates.{noted};
ghost use Rattle.model.specs.Images.Described.{Numbered};
ghost use Rattle.model.specs.Images.Image.{Image};
ghost use Rattle.model.specs.Machine.Decoding.{decoded};
ghost use Rattle.model.specs.declared.instructions.Instr.TheVariants.{Ecall};
ghost use Rattle.program_rules.specs.Kept.{AreKept, IsAt, IsInRecord, IsKeptAt, IsNextAt, IsWhole, KeepsAll, has_state, is_step, wide};
ghost use Rattle.program_rules.specs.Visits.{IsNextHere, record_here};
ghost use Rattle.program_rules.specs.declared.at_points.AtPoint.TheVariants as kept;
ghost use Rattle.program_rules.specs.declared.kept.Known.{Known as State};
ghost use Rattle.program_rules.specs.declared.places.Place.TheVariants as place;
ghost use Rattle.program_rules.specs.declared.places.Place.{Place};
ghost use Rattle.typestate.specs.declared.log_entries.LogEntry.{LogEntry};

use crate::at_points::AtPoint;
use crate::kept::Known;
use crate::notes::PlacedRecord;
use crate::places::{CalledPoint, Place, RecordedPoint, ShortPart, narrowed};
use crate::programs::Program;
use crate::visits::Visit;
use model::Instr;
use rv32_isa::decode;
use std::alloc::{AllocError, Global};
use typestate::SlotLog;

/// How many points one after another follow from a state that is kept: that has some 320 bytes.
const MOST_STEPS: u32 = 7;

/// A record that notes at most so many slots is read again when its state is asked for. With more of them that takes too long, and the
/// record alone has more bytes than a state that is kept.
const MOST_SLOTS: u32 = 15;

/// What is kept of points, one after another.
#[derive(Drop)]
pub(crate) struct KeptPoints<'a> {
    /// Of each point.
    pub(crate) places: Vec<Place>,
    pub(crate) whole: Vec<Known>,
    pub(crate) recorded: Vec<RecordedPoint<'a>>,
    pub(crate) called: Vec<CalledPoint>,
    /// How many of the last points follow from one before them.
    pub(crate) steps: u32,
}

/// Whether a word is a system call.
fn is_call(word: u32) -> bool
    ensures { result ≡ false → decoded word ≢ Some Ecall }
{
    matches!(decode(word), Some(Instr::Ecall))
}

/// The part of the log of a state whose record is read again: none where that would take too long, or is too far on in the log.
fn part_of_record(noted: &PlacedRecord<'_>, known: &Known) -> Option<ShortPart>
    ensures { IfSome result (λ short. wide short ≡ known.now.part) }
{
    if MOST_SLOTS < noted.record().slot_count() {
        return None;
    }
    ShortPart::of(known.part)
}

/// A state, if there is one.
fn known_or_none(known: Option<Known>) -> AtPoint<Known>
    ensures { (k : State) → known ≡ Some k → result ≡ kept.Known k }
{
    match known {
        Some(known) => AtPoint::Known(known),
        None => AtPoint::Missing,
    }
}

impl<'a> KeptPoints<'a> {
    /// Nothing is kept.
    pub(crate) fn new(alloc: Global) -> Self
        ensures count { length result.places.items ≡ 0 }
        ensures kept { (image : Image) (t : Numbered) (slots : List NotedSlot) (log : List LogEntry) → AreKept image t slots log result }
    {
        KeptPoints {
            places: Vec::new(alloc),
            whole: Vec::new(alloc),
            recorded: Vec::new(alloc),
            called: Vec::new(alloc),
            steps: 0,
        }
    }

    /// Whether a point has a state.
    pub(crate) fn has_state(&self, point: u32) -> bool
        ensures { result ≡ true → (image : Image) (t : Numbered) (slots : List NotedSlot) (log : List LogEntry) → AreKept image t slots log self.now
            → has_state (noted image t point) ≡ true }
    {
        if self.places.len() <= point as usize {
            return false;
        }
        self.places[point as usize].has_state()
    }

    /// Keeps a state whole. Memory may be refused.
    fn keep_whole(&mut self, known: &Known) -> Result<Place, AllocError>
        ensures same { IfOk result (λ _. self.new.places ≡ self.old.places) }
        ensures others { IfOk result (λ _. KeepsAll self.old self.new) }
        ensures at { IfOk result (λ place. (image : Image) (t : Numbered) (slots : List NotedSlot) (log : List LogEntry) (point : ℕ)
            → IsKeptAt image t slots log point (kept.Known known.now) → IsAt image t slots log self.new point place) }
    {
        let at = narrowed(self.whole.len())?;
        self.whole.push(*known)?;
        Ok(Place::Whole(at))
    }

    /// Keeps where the record of a state is. Memory may be refused.
    fn keep_record(&mut self, noted: &PlacedRecord<'a>, known: &Known) -> Result<Place, AllocError>
        ensures same { IfOk result (λ _. self.new.places ≡ self.old.places) }
        ensures others { IfOk result (λ _. KeepsAll self.old self.new) }
        ensures at { IfOk result (λ place. (image : Image) (t : Numbered) (slots : List NotedSlot) (log : List LogEntry) (point : ℕ)
            → record_of t.thread point ≡ Some noted.now
            → IsKeptAt image t slots log point (kept.Known known.now) → IsAt image t slots log self.new point place) }
    {
        let Some(part) = part_of_record(noted, known) else {
            return self.keep_whole(known);
        };
        let at = narrowed(self.recorded.len())?;
        let from = noted.from_here();
        self.recorded.push(RecordedPoint { from, part })?;
        if known.is_clean {
            Ok(Place::Clean(at))
        } else {
            Ok(Place::Recorded(at))
        }
    }

    /// Keeps what the system call before a state leaves, or that state. Memory may be refused.
    fn keep_call(
        &mut self,
        program: &Program<'_, '_>,
        before: &AtPoint<Known>,
        known: &Known,
    ) -> Result<Place, AllocError>
        ensures same { IfOk result (λ _. self.new.places ≡ self.old.places) }
        ensures others { IfOk result (λ _. KeepsAll self.old self.new) }
        ensures at { IfOk result (λ place. (point : ℕ) → 1 ≤ point
            → IsNextAt program.now.given.space.thread.now self.new before.now point (kept.Known known.now) place) }
    {
        let AtPoint::Known(before) = before else {
            return self.keep_whole(known);
        };
        let Some(called) = CalledPoint::between(program, before, known) else {
            return self.keep_whole(known);
        };
        let at = narrowed(self.called.len())?;
        self.called.push(called)?;
        Ok(Place::Called(at))
    }

    /// Keeps how the state of a point without a record follows, or that state. Memory may be refused.
    fn keep_step(
        &mut self,
        visit: &Visit<'_, '_, '_, '_>,
        before: &AtPoint<Known>,
        known: &Known,
    ) -> Result<Place, AllocError>
        ensures same { IfOk result (λ _. self.new.places ≡ self.old.places) }
        ensures others { IfOk result (λ _. KeepsAll self.old self.new) }
        ensures at { IfOk result (λ place. record_here visit.now ≡ None
            → IsNextHere visit.now self.new before.now (kept.Known known.now) place) }
    {
        let program = visit.program;
        let point = visit.point;
        if point == 0 {
            return self.keep_whole(known);
        }
        if MOST_STEPS <= self.steps {
            return self.keep_whole(known);
        }
        if is_call(program.given.space.thread.word(point - 1)) {
            return self.keep_call(program, before, known);
        }
        Ok(Place::Plain)
    }

    /// Keeps what is kept of a point. Memory may be refused.
    fn keep(
        &mut self,
        visit: &Visit<'_, '_, 'a, '_>,
        before: &AtPoint<Known>,
        kept: &AtPoint<Known>,
    ) -> Result<Place, AllocError>
        ensures same { IfOk result (λ _. self.new.places ≡ self.old.places) }
        ensures others { IfOk result (λ _. KeepsAll self.old self.new) }
        ensures at { IfOk result (IsNextHere visit.now self.new before.now kept.now) }
    {
        match kept {
            AtPoint::Missing => Ok(Place::Missing),
            AtPoint::Unmeasured => Ok(Place::Unmeasured),
            AtPoint::Known(known) => match visit.noted {
                Some(noted) => self.keep_record(noted, known),
                None => self.keep_step(visit, before, known),
            },
        }
    }

    /// Keeps the next point, by what is kept of the one before it. Memory may be refused.
    pub(crate) fn push(
        &mut self,
        visit: &Visit<'_, '_, 'a, '_>,
        before: &AtPoint<Known>,
        kept: &AtPoint<Known>,
    ) -> Result<(), AllocError>
        ensures count { IfOk result (λ _. length self.new.places.items ≡ length self.old.places.items + 1) }
        ensures kept { IfOk result (λ _. (image : Image) (t : Numbered) (slots : List NotedSlot) (log : List LogEntry)
            → t.thread ≡ visit.now.program.now.given.space.thread.now → length self.old.places.items ≡ visit.now.point
            → ((last : ℕ) → last + 1 ≡ visit.now.point → IsKeptAt image t slots log last before.now) → IsKeptAt image t slots log visit.now.point kept.now
            → AreKept image t slots log self.old → AreKept image t slots log self.new) }
    {
        let place = self.keep(visit, before, kept)?;
        self.places.push(place)?;
        self.steps = if place.is_step() {
            self.steps.saturating_add(1)
        } else {
            0
        };
        Ok(())
    }

    /// What is kept of the point of a record.
    fn record_at(&self, at: u32, is_clean: bool) -> AtPoint<Known>
        ensures { (image : Image) (t : Numbered) (slots : List NotedSlot) (log : List LogEntry) (point : ℕ)
            → IsInRecord image t slots log self.now.recorded.items point at is_clean → IsKeptAt image t slots log point result }
    {
        if self.recorded.len() <= at as usize {
            return AtPoint::Missing;
        }
        AtPoint::Known(self.recorded[at as usize].known(is_clean))
    }

    /// What is kept of the point of a state that is kept whole.
    fn whole_at(&self, at: u32) -> AtPoint<Known>
        ensures { (image : Image) (t : Numbered) (slots : List NotedSlot) (log : List LogEntry) (point : ℕ)
            → IsWhole image t slots log self.now.whole.items point at → IsKeptAt image t slots log point result }
    {
        if self.whole.len() <= at as usize {
            return AtPoint::Missing;
        }
        AtPoint::Known(self.whole[at as usize])
    }

    /// What is kept of a point that does not follow from the one before it.
    pub(crate) fn first(&self, point: u32) -> AtPoint<Known>
        ensures { (image : Image) (t : Numbered) (slots : List NotedSlot) (log : List LogEntry) → AreKept image t slots log self.now
            → point < length self.now.places.items
            → ((place : Place) → slice_get self.now.places.items point ≡ Some place → is_step place ≡ true → point ≡ 0)
            → IsKeptAt image t slots log point result }
    {
        if self.places.len() <= point as usize {
            return AtPoint::Missing;
        }
        self.at_place(self.places[point as usize])
    }

    /// What is kept at a place.
    pub(crate) fn at_place(&self, place: Place) -> AtPoint<Known>
        ensures { (image : Image) (t : Numbered) (slots : List NotedSlot) (log : List LogEntry) (point : ℕ) → IsAt image t slots log self.now point place
            → (is_step place ≡ true → point ≡ 0)
            → IsKeptAt image t slots log point result }
    {
        match place {
            Place::Missing => AtPoint::Missing,
            Place::Unmeasured => AtPoint::Unmeasured,
            Place::Whole(at) => self.whole_at(at),
            Place::Recorded(at) => self.record_at(at, false),
            Place::Clean(at) => self.record_at(at, true),
            Place::Plain => AtPoint::Missing,
            Place::Called(_) => AtPoint::Missing,
        }
    }

    /// Whether a point follows from the one before it.
    fn is_step(&self, point: u32) -> bool
        ensures { (place : Place) → slice_get self.now.places.items point ≡ Some place → is_step place ≡ result }
    {
        if self.places.len() <= point as usize {
            return false;
        }
        self.places[point as usize].is_step()
    }

    /// The last point up to this one that does not follow from the one before it.
    pub(crate) fn first_of(&self, point: u32) -> u32
        ensures near { result ≤ point }
        ensures first { (place : Place) → slice_get self.now.places.items result ≡ Some place → is_step place ≡ true → result ≡ 0 }
    {
        'back: for steps in 0..point {
            let first = point - steps;
            if !self.is_step(first) {
                return first;
            }
        }
        0
    }

    /// What is kept of the point after one of which this is kept, by what is kept of the system call there.
    pub(crate) fn after_call(
        &self,
        program: &Program<'_, '_>,
        at: u32,
        kept: &AtPoint<Known>,
    ) -> AtPoint<Known>
        ensures { (image : Image) (t : Numbered) (slots : List NotedSlot) (log : List LogEntry) (point : ℕ) → t.thread ≡ program.now.given.space.thread.now
            → point ≤ 2 ^ 32
            → IsKeptAt image t slots log point kept.now → IsAt image t slots log self.now (point + 1) (place.Called at)
            → IsKeptAt image t slots log (point + 1) result }
    {
        if self.called.len() <= at as usize {
            return AtPoint::Missing;
        }
        match kept {
            AtPoint::Known(known) => known_or_none(self.called[at as usize].behind(program, known)),
            AtPoint::Missing => AtPoint::Missing,
            AtPoint::Unmeasured => AtPoint::Missing,
        }
    }
}
