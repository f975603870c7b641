//! What is known at each point of a program: ranges are joined and widened until nothing grows, and then narrowed.

use crate::bare_threads::BareThread;
use crate::marks::Marks;
use crate::ranged::joined;
use crate::stretches::Stretch;
use crate::tables::{Table, start_bounds};
use crate::ways::{Way, Ways};
use crate::{Fault, Reason};
use model::{ImmediateOp, Instr};
use ranges::Bounds;
use rv32_isa::decode;
use std::alloc::Global;

/// How many points are looked at at most, one after another: each range grows only so often.
pub(crate) const MOST_VISITS: u32 = 1_000_000_000;

/// How often ranges are narrowed at most.
const MOST_NARROWINGS: u32 = 20;

/// What is known of all points, and all ways on from those that are reached, in the order of their points.
#[derive(Drop)]
pub(crate) struct Flow<'a, 's> {
    pub(crate) table: Table<'a, 's>,
    pub(crate) ways: Vec<Way>,
}

/// Ranges that hold on the ways to each point that were looked at.
#[derive(Drop)]
struct Arrivals {
    bounds: Vec<Option<Bounds>>,
}

impl Arrivals {
    /// No way was looked at.
    fn new(alloc: Global, count: u32) -> Result<Self, Fault> {
        let mut bounds = Vec::new(alloc);
        'points: for _ in 0..count {
            bounds.push(None)?;
        }
        Ok(Arrivals { bounds })
    }

    /// The ranges that hold on the ways to a point.
    fn at(&self, point: u32) -> Option<Bounds> {
        match self.bounds.get(point as usize) {
            Some(bounds) => *bounds,
            None => None,
        }
    }

    /// Notes a way to a point with these ranges.
    fn add(&mut self, point: u32, bounds: &Bounds) {
        let both = either(self.at(point), Some(*bounds));
        if let Some(place) = self.bounds.get_mut(point as usize) {
            *place = both;
        }
    }
}

/// Where the ways on from a point lead.
#[derive(Clone, Copy)]
struct Leads {
    next: Option<u32>,
    taken: Option<u32>,
}

impl Leads {
    /// Nowhere.
    const NONE: Leads = Leads {
        next: None,
        taken: None,
    };

    /// Where some ways lead.
    fn of(next: Option<Way>, taken: Option<Way>) -> Self {
        Leads {
            next: target_of(next),
            taken: target_of(taken),
        }
    }
}

/// Where a way leads.
fn target_of(way: Option<Way>) -> Option<u32> {
    match way {
        Some(way) => Some(way.target),
        None => None,
    }
}

/// What a round over all points found.
#[derive(Drop)]
struct Round {
    back: Arrivals,
    /// Where each point leads.
    leads: Vec<Leads>,
    /// Whether some ranges changed.
    changes: bool,
    /// Whether something is wrong at a point with what is known so far, so that it is not known where it leads.
    has_fault: bool,
}

/// Puts a point on the stack of those whose ways are followed, unless it has been there.
fn visit(stack: &mut Vec<u32>, seen: &mut Marks, point: Option<u32>) -> Result<(), Fault> {
    if let Some(point) = point {
        if seen.mark(point) {
            stack.push(point)?;
        }
    }
    Ok(())
}

/// Those of so many points to which ways lead from the entry, as marks.
fn reached_from(alloc: Global, count: u32, entry: u32, leads: &[Leads]) -> Result<Marks, Fault> {
    let mut seen = Marks::new(alloc, count)?;
    let mut stack = Vec::new(alloc);
    visit(&mut stack, &mut seen, Some(entry))?;
    'points: for _ in 0..count {
        let Some(point) = stack.pop() else {
            break;
        };
        if let Some(on) = leads.get(point as usize) {
            visit(&mut stack, &mut seen, on.next)?;
            visit(&mut stack, &mut seen, on.taken)?;
        }
    }
    Ok(seen)
}

/// The ranges that hold on both ways, or on the only one.
fn either(first: Option<Bounds>, second: Option<Bounds>) -> Option<Bounds> {
    match (first, second) {
        (Some(first), Some(second)) => Some(joined(&first, &second)),
        (Some(only), None) | (None, Some(only)) => Some(only),
        (None, None) => None,
    }
}

/// The constant of an instruction, if it has one that a register may come to hold.
fn constant_of(instr: Option<Instr>) -> Option<u32> {
    match instr {
        Some(Instr::Upper { immediate, .. }) => Some(immediate.wrapping_mul(4096)),
        Some(
            Instr::Immediate {
                op: ImmediateOp::Addi | ImmediateOp::Slti | ImmediateOp::Sltiu | ImmediateOp::Andi,
                immediate,
                ..
            },
        ) => Some(immediate.cast_unsigned()),
        _ => None,
    }
}

impl<'a, 's> BareThread<'a, 's> {
    /// The constant of the instruction at a point, if it has one.
    fn constant_at(&self, point: u32) -> Option<u32> {
        if point < self.given.space.thread.word_count() {
            constant_of(decode(self.given.space.thread.word(point)))
        } else {
            None
        }
    }

    /// Notes the constants of the program as thresholds.
    fn add_constants(&self, table: &mut Table<'_, '_>) -> Result<(), Fault> {
        let mut values = Vec::new(self.alloc);
        values.push(1u32 << 31)?;
        'points: for point in 0..self.count() {
            if let Some(value) = self.constant_at(point) {
                values.push(value)?;
            }
        }
        table.add_thresholds(&values)
    }

    /// The ways on from a point, if it is reached and nothing is wrong there with what is known so far.
    fn ways_so_far(&self, table: &mut Table<'_, '_>, point: u32) -> Result<Option<Ways>, Fault> {
        let Some(state) = table.state(point) else {
            return Ok(None);
        };
        match self.ways(point, &state, &mut table.shared) {
            Ok(ways) => Ok(Some(ways)),
            Err(Fault::OutOfMemory) => Err(Fault::OutOfMemory),
            Err(Fault::At { .. }) => Ok(None),
        }
    }

    /// Follows the ways on from a point, and answers which point is looked at next: the first of those that they change, or the
    /// next one.
    pub(crate) fn follow(&self, table: &mut Table<'_, '_>, point: u32) -> Result<u32, Fault> {
        let next = point.saturating_add(1);
        match self.ways_so_far(table, point)? {
            Some(ways) => {
                let next = self.reach_along(table, ways.next, ways.changes, next)?;
                self.reach_along(table, ways.taken, ways.changes, next)
            }
            None => Ok(next),
        }
    }

    /// Follows a way with these slots, and answers which point is looked at next: its target, if more is known there now and it
    /// is before the given one.
    fn reach_along(
        &self,
        table: &mut Table<'_, '_>,
        way: Option<Way>,
        changes: Stretch,
        next: u32,
    ) -> Result<u32, Fault> {
        let Some(way) = way else {
            return Ok(next);
        };
        leaves_same(table, &way, changes)?;
        if table.reach(&way, changes)? {
            return Ok(next.min(way.target));
        }
        Ok(next)
    }

    /// Follows the ways on from all points that change, always from the first of them: so a loop is repeated until nothing changes
    /// in it before what is after it is looked at.
    fn follow_all(&self, table: &mut Table<'_, '_>) -> Result<(), Fault> {
        let mut point = 0u32;
        'visits: for _ in 0..MOST_VISITS {
            if self.count() <= point {
                break;
            }
            point = if table.take(point) {
                self.follow(table, point)?
            } else {
                point.saturating_add(1)
            };
        }
        Ok(())
    }

    /// Narrows the ranges at a point to those of the ways to it.
    fn narrow_at(&self, table: &mut Table<'_, '_>, point: u32, arrived: Option<Bounds>) -> bool {
        let header = self.given.space.thread.header();
        let start = if point == header.entry {
            Some(start_bounds(self.given.space.thread))
        } else {
            None
        };
        let (Some(now), Some(before)) = (either(arrived, start), table.bounds(point)) else {
            return false;
        };
        if before.is_within(&now) || !now.is_within(&before) {
            return false;
        }
        table.set_bounds(point, now);
        true
    }

    /// Goes over all points once, in their order. Where the round before is given, ranges are narrowed, and of ways back those of
    /// that round count.
    fn narrow(&self, table: &mut Table<'_, '_>, before: Option<&Round>) -> Result<Round, Fault> {
        let mut ahead = Arrivals::new(self.alloc, self.count())?;
        let mut back = Arrivals::new(self.alloc, self.count())?;
        let mut leads = Vec::new(self.alloc);
        let mut changes = false;
        let mut has_fault = false;
        'points: for point in 0..self.count() {
            if let Some(before) = before {
                let arrived = either(ahead.at(point), before.back.at(point));
                changes |= self.narrow_at(table, point, arrived);
            }
            match self.ways_so_far(table, point)? {
                Some(ways) => {
                    leads.push(Leads::of(ways.next, ways.taken))?;
                    note_arrivals(&mut ahead, &mut back, &ways);
                }
                None => {
                    leads.push(Leads::NONE)?;
                    has_fault |= table.state(point).is_some();
                }
            }
        }
        Ok(Round {
            back,
            leads,
            changes,
            has_fault,
        })
    }

    /// Forgets what was known of points to which no way leads any more, since ranges that are narrower rule it out. Answers whether
    /// there were some.
    fn forget_unreached(&self, table: &mut Table<'_, '_>, round: &Round) -> Result<bool, Fault> {
        if round.has_fault {
            return Ok(false);
        }
        let entry = self.given.space.thread.header().entry;
        let reached = reached_from(self.alloc, self.count(), entry, &round.leads)?;
        let mut some = false;
        'points: for point in 0..self.count() {
            if !reached.has(point) {
                some |= table.forget(point);
            }
        }
        Ok(some)
    }

    /// All ways on from points that are reached. The first point where something is wrong is reported.
    fn all_ways(&self, table: &mut Table<'_, '_>) -> Result<Vec<Way>, Fault> {
        let mut all = Vec::new(self.alloc);
        'points: for point in 0..self.count() {
            if let Some(state) = table.state(point) {
                let ways = self.ways(point, &state, &mut table.shared)?;
                add_ways(&mut all, &ways)?;
            }
        }
        Ok(all)
    }

    /// What is known of all points before any way is followed.
    pub(crate) fn begun(&self) -> Result<Table<'a, 's>, Fault> {
        let mut table = Table::new(*self, self.count())?;
        self.add_constants(&mut table)?;
        let entry = self.given.space.thread.header().entry;
        table.begin(entry, start_bounds(self.given.space.thread))?;
        Ok(table)
    }

    /// Narrows all ranges until none changes.
    pub(crate) fn narrow_all(&self, table: &mut Table<'_, '_>) -> Result<(), Fault> {
        let mut round = self.narrow(table, None)?;
        'narrowings: for _ in 0..MOST_NARROWINGS {
            let forgets = self.forget_unreached(table, &round)?;
            if forgets {
                round = self.narrow(table, None)?;
            }
            round = self.narrow(table, Some(&round))?;
            if !round.changes && !forgets {
                break;
            }
        }
        self.forget_unreached(table, &round)?;
        Ok(())
    }

    /// What is known of all points of the program.
    pub(crate) fn flow(&self) -> Result<Flow<'a, 's>, Fault> {
        let mut table = self.begun()?;
        self.follow_all(&mut table)?;
        self.narrow_all(&mut table)?;
        let ways = self.all_ways(&mut table)?;
        Ok(Flow { table, ways })
    }
}

/// Refuses a way that leaves other slots than are known at its target.
fn leaves_same(table: &Table<'_, '_>, way: &Way, changes: Stretch) -> Result<(), Fault> {
    match table.state(way.target) {
        Some(state) if !state.changes.leaves_same(changes) => Err(Fault::At {
            point: way.from,
            reason: Reason::SlotsDiffer,
        }),
        _ => Ok(()),
    }
}

/// Appends ways to others.
pub(crate) fn add_ways(all: &mut Vec<Way>, ways: &Ways) -> Result<(), Fault> {
    if let Some(way) = ways.next {
        all.push(way)?;
    }
    if let Some(way) = ways.taken {
        all.push(way)?;
    }
    Ok(())
}

/// Notes ways as ahead or back.
fn note_arrivals(ahead: &mut Arrivals, back: &mut Arrivals, ways: &Ways) {
    note_arrival(ahead, back, ways.next);
    note_arrival(ahead, back, ways.taken);
}

/// Notes a way as one ahead or one back.
fn note_arrival(ahead: &mut Arrivals, back: &mut Arrivals, way: Option<Way>) {
    if let Some(way) = way {
        if way.from < way.target {
            ahead.add(way.target, &way.behind);
        } else {
            back.add(way.target, &way.behind);
        }
    }
}
