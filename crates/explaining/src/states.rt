//! What is known at a point: by its record, or by what follows from the point before it.

ghost use Rattle.std.specs.Prelude.{◌≡◌, ◌≤ℤ◌, ◌-◌, ◌^◌, [], negsuc};
ghost use Rattle.measure.specs.Measures.{measure_of};
ghost use Rattle.model.specs.Acceptance.NotedStates.{PointState, has_stray_slots};
ghost use Rattle.typestate.specs.Differences.{slots_of};
ghost use Rattle.typestate.specs.Logs.{Holds};

use crate::scenes::{Scene, differing, record_at};
use certifying::Record;
use image::RecordRef;
use measure::Measure;
use model::{Instr, Point, Range, RangeEntry, Refusal, Register};
use program_rules::{AtPoint, Left, follows, follows_call};
use ranges::Bounds;
use rv32_isa::decode;
use std::alloc::AllocError;
use typestate::{
    Behind, LogEntry, NotedSlot, NotedSlots, Part, SlotLog, ThreadSlots, ToldSlots,
    no_stray_slot_leads_outside,
};

/// What is known at a point. The slots are the image's with some changes.
#[derive(Drop)]
pub(crate) struct State {
    pub(crate) bounds: Bounds,
    pub(crate) measure: Measure,
    pub(crate) changes: Vec<NotedSlot>,
}

/// What a system call leaves.
#[derive(Drop)]
pub(crate) struct Called {
    pub(crate) behind: Behind,
    pub(crate) changes: Vec<NotedSlot>,
}

/// The largest budget.
const MOST: u64 = 1 << 62;

/// What is left for the next point, with these changes of slots.
fn kept_of(left: AtPoint<Left>, changes: Vec<NotedSlot>) -> AtPoint<State> {
    match left {
        AtPoint::Known(left) => AtPoint::Known(State {
            bounds: left.bounds,
            measure: left.measure,
            changes,
        }),
        AtPoint::Missing => AtPoint::Missing,
        AtPoint::Unmeasured => AtPoint::Unmeasured,
    }
}

/// Notes a range that a record has.
fn note_range(bounds: &mut Bounds, entry: RangeEntry) {
    if entry.register < 32 && entry.low <= entry.high {
        let range = Range {
            low: entry.low,
            high: entry.high,
        };
        bounds.set(Register(entry.register as u8), range);
    }
}

/// What is left for the next point, with these changes of slots.
fn kept_with(left: AtPoint<Left>, changes: &Vec<NotedSlot>) -> Result<AtPoint<State>, AllocError> {
    Ok(kept_of(left, changes.clone()?))
}

/// What was found at a point, among all that was found.
fn found_in(known: &[Record], point: u32) -> Result<AtPoint<State>, AllocError> {
    let place = known.binary_search_by_key(&point, |record| record.point);
    match known.get(place.unwrap_or(known.len())) {
        Some(record) => Ok(AtPoint::Known(State {
            bounds: record.bounds,
            measure: Measure::new(0),
            changes: record.changes.clone()?,
        })),
        None => Ok(AtPoint::Missing),
    }
}

/// The ranges that a record notes.
fn bounds_of(record: &RecordRef<'_>) -> Bounds {
    let mut bounds = Bounds::full();
    for entry in record.ranges() {
        note_range(&mut bounds, entry);
    }
    bounds
}

/// The measure that a record notes.
fn measure_of(record: &RecordRef<'_>) -> Measure {
    let mut measure = Measure::new(record.constant());
    for term in record.terms() {
        if measure.terms().len() < 4 {
            measure.push(term);
        }
    }
    measure
}

impl<'a> Scene<'a, '_, '_, '_, '_, '_, '_> {
    /// The last record up to a point.
    fn last_record(&self, point: u32) -> Option<RecordRef<'a>> {
        let mut last = None;
        for record in self.given.space.thread.records() {
            if record.point() <= point {
                last = Some(record);
            }
        }
        last
    }

    /// What a part of a log changes of the image's slots.
    fn changes_of(&self, log: &SlotLog, part: Part) -> Result<Vec<NotedSlot>, AllocError>
        requires held { Holds log.now part }
    {
        let shown = log.shown(part)?;
        differing(self.alloc, &shown.slots(self.given.slots))
    }

    /// The changes that a record notes.
    fn noted_changes(&self, record: &RecordRef<'_>) -> Result<Vec<NotedSlot>, AllocError> {
        let mut log = SlotLog::new(self.alloc);
        let part = log.note(record)?;
        self.changes_of(&log, part)
    }

    /// What a record notes.
    fn state_of(&self, record: &RecordRef<'_>) -> Result<State, AllocError> {
        let changes = self.noted_changes(record)?;
        Ok(State {
            bounds: bounds_of(record),
            measure: measure_of(record),
            changes,
        })
    }

    /// What is known at a point.
    pub(crate) fn state_at(&self, point: u32) -> Result<AtPoint<State>, AllocError> {
        match self.known {
            Some(known) => found_in(known, point),
            None => self.noted_at(point),
        }
    }

    /// What is known at a point by the records of the image.
    fn noted_at(&self, point: u32) -> Result<AtPoint<State>, AllocError> {
        let Some(record) = self.last_record(point) else {
            return Ok(AtPoint::Missing);
        };
        let mut found = AtPoint::Known(self.state_of(&record)?);
        for place in record.point()..point {
            found = self.found_after(place, &found)?;
        }
        Ok(found)
    }

    /// What is found after a point of which this is found.
    fn found_after(
        &self,
        point: u32,
        found: &AtPoint<State>,
    ) -> Result<AtPoint<State>, AllocError> {
        match found {
            AtPoint::Known(state) => self.following(point, state),
            AtPoint::Unmeasured | AtPoint::Missing => Ok(AtPoint::Missing),
        }
    }

    /// What follows from a point in a state for the next one.
    fn following(&self, point: u32, state: &State) -> Result<AtPoint<State>, AllocError> {
        let thread = self.given.space.thread;
        if point >= thread.word_count() || state.measure.constant() < -(1 << 62) - 65536 {
            return Ok(AtPoint::Missing);
        }
        match decode(thread.word(point)) {
            None => Ok(AtPoint::Missing),
            Some(Instr::Ecall) => self.following_call(point, state),
            Some(instr) => {
                let left = follows(self.address(point), instr, &state.bounds, &state.measure);
                kept_with(left, &state.changes)
            }
        }
    }

    /// What follows from a system call in a state, if it is not refused.
    fn following_call(&self, point: u32, state: &State) -> Result<AtPoint<State>, AllocError>
        requires measure { negsuc (2 ^ 63 - 2) ≤ℤ (measure_of state.now.measure).constant }
    {
        match self.called(point, state)? {
            Ok(called) => {
                let budget = self.given.space.thread.header().budget.min(MOST);
                let left = follows_call(budget, &state.measure, &called.behind);
                Ok(kept_of(left, called.changes))
            }
            Err(_) => Ok(AtPoint::Missing),
        }
    }

    /// What the system call at a point leaves, or why it is refused.
    pub(crate) fn called(
        &self,
        point: u32,
        state: &State,
    ) -> Result<Result<Called, Refusal>, AllocError> {
        let mut log = SlotLog::new(self.alloc);
        let part = log.note_changes(&state.changes)?;
        match self.answered_in(point, &state.bounds, &log, part)? {
            Ok((behind, made)) => {
                let changes = self.changes_after(&mut log, part, &made)?;
                Ok(Ok(Called { behind, changes }))
            }
            Err(refusal) => Ok(Err(refusal)),
        }
    }

    /// What the system call at a point leaves of the registers, and the slots that it changes, where a part of a log changes the slots.
    fn answered_in(
        &self,
        point: u32,
        bounds: &Bounds,
        log: &SlotLog,
        part: Part,
    ) -> Result<Result<(Behind, Vec<LogEntry>), Refusal>, AllocError>
        requires held { Holds log.now part }
    {
        let at = Point {
            thread: self.given.number,
            point,
        };
        let before = log.shown(part)?;
        self.answered(at, bounds, &before.slots(self.given.slots))
    }

    /// What a part of a log changes of the image's slots, and changes that follow it.
    fn changes_after(
        &self,
        log: &mut SlotLog,
        part: Part,
        made: &[LogEntry],
    ) -> Result<Vec<NotedSlot>, AllocError>
        requires held { Holds log.old part }
    {
        let part = log.follow(part, made)?;
        self.changes_of(log, part)
    }

    /// Whether one of some slots at a point is one that the thread may not have, or its record notes one outside of its CNodes.
    fn have_stray_slot(&self, point: u32, slots: &NotedSlots<'_>) -> bool
        requires image { slots.now.image.now ≡ self.now.given.slots.now }
        ensures { (state : PointState) → state.slots ≡ slots_of slots.now
            → result ≡ has_stray_slots self.now.given.space.image.now self.now.given.space.thread.now point state }
    {
        let noted = record_at(self.given.space.thread, point);
        let told = ToldSlots {
            space: self.given.space,
            slots: *slots,
            lists_stray: self.given.lists_stray,
            is_clean: false,
        };
        told.has_stray_slots(noted.as_ref())
    }

    /// Whether a slot at a point is one that the thread may not have, or its record notes one outside of its CNodes.
    pub(crate) fn has_stray_slots(&self, point: u32, state: &State) -> Result<bool, AllocError> {
        let mut log = SlotLog::new(self.alloc);
        let part = log.note_changes(&state.changes)?;
        let here = log.shown(part)?;
        Ok(self.have_stray_slot(point, &here.slots(self.given.slots)))
    }

    /// What the system call at a point leaves of the registers, and the slots that it changes.
    fn answered(
        &self,
        at: Point,
        bounds: &Bounds,
        slots: &NotedSlots<'_>,
    ) -> Result<Result<(Behind, Vec<LogEntry>), Refusal>, AllocError>
        requires image { slots.now.image.now ≡ self.now.given.slots.now }
    {
        if self.have_stray_slot(at.point, slots) {
            return Ok(Err(Refusal::CapNotThere(at)));
        }
        no_stray_slot_leads_outside();
        self.given.slots_are_own(slots);
        let own = ThreadSlots {
            space: self.given.space,
            slots: *slots,
        };
        let mut made = Vec::new(self.alloc);
        match own.after_call(at, bounds, &mut made)? {
            Ok(behind) => Ok(Ok((behind, made))),
            Err(refusal) => Ok(Err(refusal)),
        }
    }
}
