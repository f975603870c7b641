//! What is known of all points so far.

use crate::Fault;
use crate::bare_threads::BareThread;
use crate::ranged::{joined, widened};
use crate::shared::Shared;
use crate::stretches::Stretch;
use crate::ways::{State, Way};
use ranges::{Bounds, Range};
use typestate::{LogEntry, NotedSlot, SlotKey};

/// How often the ranges at a point grow as they are, before they are widened.
const PATIENCE: u32 = 6;

/// How often they are widened to a threshold, before they are widened to the ends.
const MOST_STEPS: u32 = 250;

/// How many points are looked at, those that are looked at again too, before all ranges are widened to the ends at once: so many for
/// each point of the program, and so many beside. So loops in one another cost no product of their turns.
const VISITS_A_POINT: u32 = 16;

const VISITS_BESIDE: u32 = 1 << 18;

/// What is known of a point so far.
#[derive(Drop)]
pub(crate) struct Place {
    pub(crate) state: Option<State>,
    /// How often its ranges have grown by a way back.
    grown: u32,
    /// Whether what follows from it has to be looked at.
    waits: bool,
}

/// What is known of all points so far.
#[derive(Drop)]
pub(crate) struct Table<'a, 's> {
    pub(crate) places: Vec<Place>,
    /// The changes to slots at all points.
    pub(crate) shared: Shared<'a, 's>,
    /// Where ranges stop that are widened. They rise.
    thresholds: Vec<u32>,
    /// How many points are looked at before ranges are widened to the ends.
    patience: u32,
}

/// Whether two slots were derived from the same.
fn is_same_parent(first: Option<SlotKey>, second: Option<SlotKey>) -> bool {
    match (first, second) {
        (None, None) => true,
        (Some(first), Some(second)) => first.is_same(second),
        _ => false,
    }
}

/// Whether two changes are the same.
fn is_same_change(first: &NotedSlot, second: &NotedSlot) -> bool {
    first.key.is_same(second.key)
        && first.capability == second.capability
        && is_same_parent(first.parent, second.parent)
}

/// Whether two entries of a log are the same.
fn is_same_entry(first: &LogEntry, second: &LogEntry) -> bool {
    match (first, second) {
        (LogEntry::Sets(first), LogEntry::Sets(second)) => {
            is_same_change(&first.unpacked(), &second.unpacked())
        }
        (
            LogEntry::Swaps { one, other },
            LogEntry::Swaps {
                one: first,
                other: second,
            },
        ) => one.is_same(*first) && other.is_same(*second),
        _ => false,
    }
}

/// Whether entries of a log are the same.
pub(crate) fn are_same_entries(first: &[LogEntry], second: &[LogEntry]) -> bool {
    if first.len() != second.len() {
        return false;
    }
    'entries: for (one, other) in first.iter().zip(second) {
        if !is_same_entry(one, other) {
            return false;
        }
    }
    true
}

impl<'a, 's> Table<'a, 's> {
    /// Nothing is known of any of so many points.
    pub(crate) fn new(thread: BareThread<'a, 's>, count: u32) -> Result<Self, Fault> {
        let alloc = thread.alloc;
        let mut places = Vec::new(alloc);
        'points: for _ in 0..count {
            places.push(Place {
                state: None,
                grown: 0,
                waits: false,
            })?;
        }
        Ok(Table {
            places,
            shared: Shared::new(thread, count)?,
            thresholds: Vec::new(alloc),
            patience: count
                .saturating_mul(VISITS_A_POINT)
                .saturating_add(VISITS_BESIDE),
        })
    }

    /// Notes that ranges may stop at these values, or beside them.
    pub(crate) fn add_thresholds(&mut self, values: &[u32]) -> Result<(), Fault> {
        'values: for value in values {
            self.push_threshold(*value)?;
        }
        self.thresholds.sort_unstable();
        Ok(())
    }

    /// Appends a value and those beside it to the thresholds.
    fn push_threshold(&mut self, value: u32) -> Result<(), Fault> {
        self.thresholds.push(value.saturating_sub(1))?;
        self.thresholds.push(value)?;
        self.thresholds.push(value.saturating_add(1))?;
        Ok(())
    }

    /// Puts a value among the thresholds, unless it is one.
    fn insert_threshold(&mut self, value: u32) -> Result<(), Fault> {
        if let Err(place) = self.thresholds.binary_search(&value) {
            self.thresholds.insert(place, value)?;
        }
        Ok(())
    }

    /// Notes that ranges may stop at a value, or beside it.
    fn add_threshold(&mut self, value: u32) -> Result<(), Fault> {
        self.insert_threshold(value.saturating_sub(1))?;
        self.insert_threshold(value)?;
        self.insert_threshold(value.saturating_add(1))
    }

    /// Notes the values of the registers that have only one.
    fn add_values(&mut self, bounds: &Bounds) -> Result<(), Fault> {
        'registers: for number in 1..32u8 {
            if let Some(value) = bounds.get(model::Register(number)).value() {
                self.add_threshold(value)?;
            }
        }
        Ok(())
    }

    /// Notes what is known at the entry.
    pub(crate) fn begin(&mut self, entry: u32, bounds: Bounds) -> Result<(), Fault> {
        self.add_values(&bounds)?;
        let state = State {
            bounds,
            changes: Stretch::NONE,
        };
        self.put(entry, state);
        Ok(())
    }

    /// Puts a state where there is none.
    fn put(&mut self, point: u32, state: State) {
        if let Some(place) = self.places.get_mut(point as usize) {
            place.state = Some(state);
            place.waits = true;
        }
    }

    /// Forgets what was known of a point, and answers whether something was.
    pub(crate) fn forget(&mut self, point: u32) -> bool {
        match self.places.get_mut(point as usize) {
            Some(place) => {
                let was_known = place.state.is_some();
                place.state = None;
                was_known
            }
            None => false,
        }
    }

    /// Whether what follows from a point has to be looked at; from now on it has not.
    pub(crate) fn take(&mut self, point: u32) -> bool {
        match self.places.get_mut(point as usize) {
            Some(place) => {
                let waits = place.waits;
                place.waits = false;
                self.patience = self.patience.saturating_sub(u32::from(waits));
                waits
            }
            None => false,
        }
    }

    /// The state of a point, if it is reached.
    pub(crate) fn state(&self, point: u32) -> Option<State> {
        match self.places.get(point as usize) {
            Some(place) => place.state,
            None => None,
        }
    }

    /// The ranges at a point, if it is reached.
    pub(crate) fn bounds(&self, point: u32) -> Option<Bounds> {
        match self.state(point) {
            Some(state) => Some(state.bounds),
            None => None,
        }
    }

    /// Sets the ranges at a point that is reached.
    pub(crate) fn set_bounds(&mut self, point: u32, bounds: Bounds) {
        if let Some(place) = self.places.get_mut(point as usize) {
            if let Some(state) = &mut place.state {
                state.bounds = bounds;
            }
        }
    }

    /// Counts that the ranges at a point have grown by a way back, and answers how often they had.
    fn count_growth(&mut self, point: u32) -> u32 {
        match self.places.get_mut(point as usize) {
            Some(place) => {
                let grown = place.grown;
                place.grown = grown.saturating_add(1);
                grown
            }
            None => 0,
        }
    }

    /// Ranges that have grown by a way: widened where it leads back, more and more as they go on growing.
    fn wide(&mut self, way: &Way, before: &Bounds, both: &Bounds) -> Result<Bounds, Fault> {
        if way.from < way.target {
            return Ok(*both);
        }
        let grown = self.count_growth(way.target);
        if MOST_STEPS <= grown || self.patience == 0 {
            return Ok(widened(before, both, &[]));
        }
        self.add_values(before)?;
        self.add_values(&way.behind)?;
        if grown < PATIENCE {
            Ok(*both)
        } else {
            Ok(widened(before, both, &self.thresholds))
        }
    }

    /// Takes the changes to slots at a point as they are noted on the way from the point before it, if what follows is still to be
    /// looked at. They leave the same, and what follows goes on from there, so that no changes are repeated in the log.
    fn go_on_from(&mut self, way: &Way, changes: Stretch) {
        if way.is_jump {
            return;
        }
        if let Some(
            Place {
                state: Some(state),
                waits: true,
                ..
            },
        ) = self.places.get_mut(way.target as usize)
        {
            state.changes = changes;
        }
    }

    /// Notes that a way leads to its target, whose slots it leaves as they are known there if some are, and answers whether more is
    /// known there now.
    pub(crate) fn reach(&mut self, way: &Way, changes: Stretch) -> Result<bool, Fault> {
        match self.state(way.target) {
            Some(state) => {
                self.go_on_from(way, changes);
                self.grow(way, &state.bounds)
            }
            None => {
                let bounds = way.behind;
                self.put(way.target, State { bounds, changes });
                Ok(true)
            }
        }
    }

    /// Notes that a way leads to its target, where these ranges are known, and answers whether they grow.
    fn grow(&mut self, way: &Way, before: &Bounds) -> Result<bool, Fault> {
        if way.behind.is_within(before) {
            return Ok(false);
        }
        let both = joined(before, &way.behind);
        let wide = self.wide(way, before, &both)?;
        self.set_grown(way.target, wide);
        Ok(true)
    }

    /// Sets the ranges at a point, from which the ways on have to be followed again.
    fn set_grown(&mut self, point: u32, bounds: Bounds) {
        self.set_bounds(point, bounds);
        if let Some(place) = self.places.get_mut(point as usize) {
            place.waits = true;
        }
    }
}

/// The ranges of the registers with which a thread starts.
pub(crate) fn start_bounds(thread: &image_reading::ThreadRef<'_>) -> Bounds {
    let mut bounds = Bounds::zero();
    'registers: for entry in thread.registers() {
        if entry.register < 32 {
            let register = model::Register(entry.register as u8);
            bounds.set(register, Range::single(entry.value));
        }
    }
    bounds
}
