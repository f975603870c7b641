//! What is known of the registers at the points of a program at which an answer may be owed.

ghost use Rattle.std.specs.Prelude.{◌≡◌, Some};
ghost use Rattle.settled_threads.specs.Answering.{are_known, ranges_after_call, ranges_received};
ghost use Rattle.answering.specs.Known.{known_at};

use model::{Range, Register};
use ranges::Bounds;
use std::alloc::{AllocError, Global};
use std::marker::Model;

/// The ranges of all 31 registers. A clause sees their list.
#[derive(Clone, Copy)]
pub(crate) struct AllRanges {
    bounds: Bounds,
}

impl Model for AllRanges {
    ghost use Rattle.std.specs.Prelude.{◌≡◌, List, length};
    ghost use Rattle.model.specs.declared.ranges.Range.{Range};

    ghost Value = { List Range };

    ghost view = { λ a. a.bounds };

    ghost inverse = { λ ranges. record { bounds = ranges } };

    ghost invariant = { λ a. length a.bounds ≡ 31 };
}

/// What is known of the registers, of some points.
#[derive(Drop)]
pub(crate) struct Known {
    /// Of each point the place of its ranges, which are not there where nothing is known.
    places: Vec<u32>,
    ranges: Vec<AllRanges>,
}

/// The registers just after a message with this badge was received.
pub(crate) fn received(badge: u32) -> Bounds
    ensures { result ≡ ranges_received badge }
{
    let mut bounds = Bounds::full();
    bounds.set(Register::A0, Range::single(badge));
    bounds
}

/// The registers after a system call: what a message writes may have any value.
#[tactic(auto, unfolding(model::specs::Kernel::Messages::word_registers))]
pub(crate) fn after_call(bounds: &Bounds) -> Bounds
    ensures { result ≡ ranges_after_call bounds.now }
{
    let mut bounds = *bounds;
    bounds.set(Register::A0, Range::FULL);
    bounds.set(Register::A1, Range::FULL);
    bounds.set(Register(12), Range::FULL);
    bounds.set(Register(13), Range::FULL);
    bounds.set(Register(14), Range::FULL);
    bounds.set(Register(15), Range::FULL);
    bounds.set(Register(18), Range::FULL);
    bounds.set(Register(19), Range::FULL);
    bounds.set(Register(20), Range::FULL);
    bounds.set(Register(21), Range::FULL);
    bounds
}

/// A range that holds both: where the new one is not within the old, every value.
fn widened(old: Range, new: Range) -> Range {
    if new.is_within(old) { old } else { Range::FULL }
}

impl AllRanges {
    /// Ranges that hold these and others.
    fn joined(old: &Bounds, new: &Bounds) -> Self {
        let mut bounds = Bounds::full();
        'registers: for number in 1..32u8 {
            let register = Register(number);
            let range = widened(old.get(register), new.get(register));
            if range.low <= range.high {
                bounds.set(register, range);
            }
        }
        AllRanges { bounds }
    }

    /// The ranges.
    pub(crate) fn bounds(&self) -> Bounds
        ensures { result ≡ self.now }
    {
        self.bounds
    }

    /// Whether registers in other ranges lie in these.
    fn hold(&self, bounds: &Bounds) -> bool
        ensures { result ≡ are_known (Some self.now) bounds.now }
    {
        bounds.is_within(&self.bounds)
    }
}

/// Whether registers in these ranges lie in what is known.
pub(crate) fn are_known(known: &Option<AllRanges>, bounds: &Bounds) -> bool
    ensures { result ≡ are_known known.now bounds.now }
{
    match known {
        Some(known) => known.hold(bounds),
        None => false,
    }
}

impl Known {
    /// Nothing is known of so many points.
    pub(crate) fn new(alloc: Global, points: usize) -> Result<Self, AllocError> {
        let mut places = Vec::new(alloc);
        places.resize(points, u32::MAX)?;
        Ok(Known {
            places,
            ranges: Vec::new(alloc),
        })
    }

    /// What is known of a point.
    pub(crate) fn at(&self, point: usize) -> Option<AllRanges>
        ensures { result ≡ known_at self.now point }
    {
        match self.places.get(point) {
            Some(place) => match self.ranges.get(*place as usize) {
                Some(ranges) => Some(*ranges),
                None => None,
            },
            None => None,
        }
    }

    /// Notes that registers may come to a point in these ranges, and whether that was not known.
    pub(crate) fn note(&mut self, point: usize, bounds: &Bounds) -> Result<bool, AllocError> {
        let Some(place) = self.places.get(point) else {
            return Ok(false);
        };
        let place = *place as usize;
        if place < self.ranges.len() {
            return Ok(self.widen(place, bounds));
        }
        let place = u32::try_from(self.ranges.len()).unwrap_or(u32::MAX);
        self.ranges.push(AllRanges::joined(bounds, bounds))?;
        if point < self.places.len() {
            self.places[point] = place;
        }
        Ok(true)
    }

    /// Widens the ranges at a place by these, and whether that was needed.
    fn widen(&mut self, place: usize, bounds: &Bounds) -> bool {
        if self.ranges.len() <= place {
            return false;
        }
        let old = self.ranges[place].bounds();
        if bounds.is_within(&old) {
            return false;
        }
        self.ranges[place] = AllRanges::joined(&old, bounds);
        true
    }
}
