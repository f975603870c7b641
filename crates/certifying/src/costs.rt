//! How many instructions run at most from each point until the next wait: the innermost loops first, each with a multiple of a
//! register that counts, and the program around them last.

use crate::forms::Form;
use crate::graph::Graph;
use crate::loops::{Loop, Loops};
use crate::ways::Way;
use crate::{Fault, Reason};
use measure::Value;
use model::{Range, Register};
use std::alloc::Global;

/// How often a coefficient is raised at most.
const MOST_TRIES: u32 = 64;

/// How often the points of a region are gone through at most.
const MOST_ROUNDS: u32 = 1000;

/// The greatest coefficient of a measure.
const MOST_TIMES: i64 = 1 << 30;

/// How many registers count a loop together at most: a measure has four, and loops around it have some of them.
const MOST_TOGETHER: u32 = 3;

/// How many forms of registers that count together are tried at most.
const MOST_UNITS: usize = 4096;

/// How many points are looked at at most for registers that count together, where each is tried once.
const MOST_WORK: u64 = 1 << 18;

/// What each point has to have at least, as far as it is known.
pub(crate) type Costs = Vec<Option<Form>>;

/// A part of a program whose costs are found together: a loop up to its header, or all of it.
#[derive(Clone, Copy)]
struct Region {
    /// The loop, by its number.
    number: Option<usize>,
    /// What its header has to have at least, seen from the ways back to it.
    seed: Form,
}

/// A loop that is to be counted, by its number, where it is cut, and its points.
#[derive(Clone, Copy)]
struct Cut<'p> {
    number: usize,
    header: u32,
    points: &'p [u32],
}

/// What may count a loop: registers, each once, down or up.
#[derive(Clone, Copy)]
struct Unit {
    form: Form,
    /// The last of its registers.
    last: u32,
}

impl Unit {
    /// A register alone, so many times.
    fn of(register: u32, times: i64) -> Self {
        let mut form = Form::constant(0);
        form.add(register, times);
        Unit {
            form,
            last: register,
        }
    }

    /// This and a register after its own.
    fn and(&self, counter: &Unit) -> Unit {
        Unit {
            form: self.form.plus(&counter.form),
            last: counter.last,
        }
    }
}

/// The costs of a loop whose header has a multiple of a form.
#[derive(Drop)]
struct Solved {
    costs: Costs,
    /// How much the multiple is at most above what it is at least.
    span: i64,
}

/// What a round over the points of a region found.
#[derive(Clone, Copy)]
struct Round {
    /// Whether a cost was not known where a way leads.
    misses: bool,
    /// Whether a cost changed.
    changes: bool,
}

/// The graph of a program, its loops, and the costs of their points that are found.
#[derive(Drop)]
pub(crate) struct Counting {
    graph: Graph,
    pub(crate) loops: Loops,
    costs: Costs,
}

/// The cost noted for a point.
pub(crate) fn cost_at(costs: &[Option<Form>], point: u32) -> Option<Form> {
    match costs.get(point as usize) {
        Some(cost) => *cost,
        None => None,
    }
}

/// The quotient of two numbers of which the second is above 0, rounded up.
fn rounded_up(number: i64, by: i64) -> i64 {
    if by <= 1 {
        return number;
    }
    number.saturating_add(by - 1) / by
}

/// Whether a register becomes a sum or a difference.
fn is_sum(value: Value) -> bool {
    matches!(
        value,
        Value::Sum(..) | Value::Difference(..) | Value::Moved(..)
    )
}

/// The better of two ways to count a loop.
fn better(first: Option<Solved>, second: Option<Solved>) -> Option<Solved> {
    match (first, second) {
        (Some(first), Some(second)) => {
            if second.span < first.span {
                Some(second)
            } else {
                Some(first)
            }
        }
        (Some(only), None) | (None, Some(only)) => Some(only),
        (None, None) => None,
    }
}

/// Each of some forms with each register after its own.
fn together(alloc: Global, units: &[Unit], counters: &[Unit]) -> Result<Vec<Unit>, Fault> {
    let mut all = Vec::new(alloc);
    'units: for unit in units {
        'counters: for counter in counters {
            if MOST_UNITS <= all.len() {
                return Ok(all);
            }
            if unit.last < counter.last {
                all.push(unit.and(counter))?;
            }
        }
    }
    Ok(all)
}

impl Counting {
    /// No costs are known.
    pub(crate) fn new(graph: Graph, loops: Loops) -> Result<Self, Fault> {
        let mut costs = Vec::new(graph.alloc);
        'points: for _ in 0..graph.count {
            costs.push(None)?;
        }
        Ok(Counting {
            graph,
            loops,
            costs,
        })
    }

    /// Notes the cost of a point, and answers whether it is another than before.
    fn note(&mut self, point: u32, cost: Option<Form>) -> bool {
        match self.costs.get_mut(point as usize) {
            Some(place) => {
                let is_new = *place != cost;
                *place = cost;
                is_new
            }
            None => false,
        }
    }

    /// The loop of a number.
    fn loop_at(&self, number: Option<usize>) -> Option<&Loop> {
        match number {
            Some(number) => self.loops.all.get(number),
            None => None,
        }
    }

    /// The points of a region in their order.
    fn points_of(&self, region: Option<usize>) -> &[u32] {
        match self.loop_at(region) {
            Some(one) => &one.points,
            None => &self.loops.order,
        }
    }

    /// Whether a point is the header of a region.
    fn is_header(&self, region: &Region, point: u32) -> bool {
        match self.loop_at(region.number) {
            Some(one) => one.header == point,
            None => false,
        }
    }

    /// What a way that leads into a region has to have before it at least, as far as it is known. A wait ends the count.
    fn cost_of_way(&self, region: &Region, way: &Way) -> Option<Form> {
        if way.is_wait {
            return Some(Form::constant(1));
        }
        let target = if self.is_header(region, way.target) {
            Some(region.seed)
        } else {
            cost_at(&self.costs, way.target)
        };
        match target {
            Some(cost) => Some(cost.before(way).raised(1)),
            None => None,
        }
    }

    /// At least both costs at a point.
    fn either(&self, point: u32, first: Option<Form>, second: Option<Form>) -> Option<Form> {
        match (first, second) {
            (Some(first), Some(second)) => match self.graph.bounds_at(point) {
                Some(bounds) => Some(first.above_both(&second, bounds)),
                None => Some(first),
            },
            (Some(only), None) | (None, Some(only)) => Some(only),
            (None, None) => None,
        }
    }

    /// What a point directly inside of a region has to have at least, and whether the cost of a way from it is not known.
    fn cost_of_point(&self, region: &Region, point: u32) -> (Option<Form>, bool) {
        let mut cost = None;
        let mut misses = false;
        'ways: for way in self.graph.ways_from(point) {
            if way.is_wait || self.loops.has(region.number, way.target) {
                let other = self.cost_of_way(region, way);
                misses |= other.is_none();
                cost = self.either(point, cost, other);
            }
        }
        (cost, misses)
    }

    /// How much the costs of a loop have to be raised so that one of its ways out is paid, without the registers that it writes.
    fn raise_for(&self, region: &Region, one: &Loop, own: &Form, way: &Way) -> Option<Form> {
        if way.is_wait || !self.loops.has(region.number, way.target) {
            return None;
        }
        let cost = self.cost_of_way(region, way)?;
        Some(cost.minus(own).bounded(&one.written, &way.before))
    }

    /// How much the cost of a point of a loop has to be raised to be 1 at least. Inside of another loop this is left to that.
    fn raise_to_one(&self, region: &Region, point: u32, own: &Form) -> Option<Form> {
        if region.number.is_some() {
            return None;
        }
        let bounds = self.graph.bounds_at(point)?;
        let least = own.least(bounds);
        Some(Form::constant(least.saturating_neg()).raised(1))
    }

    /// How much the costs of a loop have to be raised for the ways from one of its points.
    fn raise_at(
        &self,
        region: &Region,
        number: usize,
        one: &Loop,
        point: u32,
        own: &Form,
    ) -> Option<Form> {
        let mut raise = self.raise_to_one(region, point, own);
        'ways: for way in self.graph.ways_from(point) {
            if !self.loops.has(Some(number), way.target) {
                let other = self.raise_for(region, one, own, way);
                raise = self.either(one.header, raise, other);
            }
        }
        raise
    }

    /// How much the costs of a loop have to be raised inside of a region.
    fn raise(&self, region: &Region, number: usize, one: &Loop) -> Option<Form> {
        let mut raise = None;
        'points: for (point, cost) in one.points.iter().zip(&one.costs) {
            if let Some(own) = cost {
                let other = self.raise_at(region, number, one, *point, own);
                raise = self.either(one.header, raise, other);
            }
        }
        raise
    }

    /// The costs of the points of a loop inside of a region.
    fn raised(&self, region: &Region, number: usize) -> Result<Vec<(u32, Form)>, Fault> {
        let mut all = Vec::new(self.graph.alloc);
        let Some(one) = self.loops.all.get(number) else {
            return Ok(all);
        };
        let Some(raise) = self.raise(region, number, one) else {
            return Ok(all);
        };
        'points: for (point, cost) in one.points.iter().zip(&one.costs) {
            if let Some(own) = cost {
                all.push((*point, own.plus(&raise)))?;
            }
        }
        Ok(all)
    }

    /// Notes the costs of the points of a loop inside of a region.
    fn place(&mut self, region: &Region, number: usize) -> Result<bool, Fault> {
        let mut changes = false;
        'points: for (point, cost) in self.raised(region, number)? {
            changes |= self.note(point, Some(cost));
        }
        Ok(changes)
    }

    /// Whether the cost of a way out of a loop inside of a region is not known.
    fn misses_out(&self, region: &Region, number: usize) -> bool {
        let Some(one) = self.loops.all.get(number) else {
            return false;
        };
        'points: for point in &one.points {
            'ways: for way in self.graph.ways_from(*point) {
                if !self.loops.has(Some(number), way.target)
                    && self.loops.has(region.number, way.target)
                    && self.cost_of_way(region, way).is_none()
                {
                    return true;
                }
            }
        }
        false
    }

    /// Finds the costs of a point of a region: its own, or those of all points of the loop of which it is the header.
    fn count_point(&mut self, region: &Region, point: u32) -> Result<Round, Fault> {
        if self.loops.innermost(point) == region.number {
            let (cost, misses) = self.cost_of_point(region, point);
            return Ok(Round {
                misses,
                changes: self.note(point, cost),
            });
        }
        match self.loops.headed(point) {
            Some(number) if self.loops.around(number) == region.number => Ok(Round {
                misses: self.misses_out(region, number),
                changes: self.place(region, number)?,
            }),
            _ => Ok(Round {
                misses: false,
                changes: false,
            }),
        }
    }

    /// Finds the costs of the points of a region once.
    fn round(&mut self, region: &Region, points: &[u32]) -> Result<Round, Fault> {
        let mut all = Round {
            misses: false,
            changes: false,
        };
        'points: for point in points {
            let one = self.count_point(region, *point)?;
            all.misses |= one.misses;
            all.changes |= one.changes;
        }
        Ok(all)
    }

    /// Finds the costs of the points of a region, whose inner loops have theirs.
    fn count(&mut self, region: &Region, points: &[u32]) -> Result<(), Fault> {
        'points: for point in points {
            self.note(*point, None);
        }
        'rounds: for _ in 0..MOST_ROUNDS {
            let Round { misses, changes } = self.round(region, points)?;
            if !misses || !changes {
                break;
            }
        }
        Ok(())
    }

    /// The range of a register at a point.
    fn range_at(&self, point: u32, register: u32) -> Range {
        match self.graph.bounds_at(point) {
            Some(bounds) if register < 32 => bounds.get(Register(register as u8)),
            _ => Range::FULL,
        }
    }

    /// Finds the costs of a loop whose header has a form so many times, and answers how much that misses on the way back to it.
    fn tried(&mut self, cut: Cut<'_>, unit: &Form, times: i64) -> Result<Option<i64>, Fault> {
        let seed = Form::constant(0).with(unit, times);
        let region = Region {
            number: Some(cut.number),
            seed,
        };
        self.count(&region, cut.points)?;
        let cost = cost_at(&self.costs, cut.header);
        Ok(match (cost, self.graph.bounds_at(cut.header)) {
            (Some(cost), Some(bounds)) => Some(cost.minus(&seed).greatest(bounds)),
            _ => None,
        })
    }

    /// The costs that are noted for points.
    fn kept(&self, points: &[u32]) -> Result<Costs, Fault> {
        let mut kept = Vec::new(self.graph.alloc);
        'points: for point in points {
            kept.push(cost_at(&self.costs, *point))?;
        }
        Ok(kept)
    }

    /// The costs that are noted for a loop, with so many times its form.
    fn solution(&self, cut: Cut<'_>, unit: &Form, times: i64) -> Result<Solved, Fault> {
        let width = match self.graph.bounds_at(cut.header) {
            Some(bounds) => unit.width(bounds),
            None => 0,
        };
        Ok(Solved {
            costs: self.kept(cut.points)?,
            span: times.saturating_mul(width),
        })
    }

    /// The costs of a loop that a form counts, with the least coefficient.
    fn counted(&mut self, cut: Cut<'_>, unit: &Form) -> Result<Option<Solved>, Fault> {
        let mut times = 0i64;
        'tries: for _ in 0..MOST_TRIES {
            let Some(missed) = self.tried(cut, unit, times)? else {
                return Ok(None);
            };
            if missed <= 0 {
                return Ok(Some(self.solution(cut, unit, times)?));
            }
            let more = times.saturating_add(1);
            let Some(next) = self.tried(cut, unit, more)? else {
                return Ok(None);
            };
            let gained = missed.saturating_sub(next);
            if gained <= 0 || MOST_TIMES < times {
                return Ok(None);
            }
            times = times.saturating_add(rounded_up(missed, gained));
        }
        Ok(None)
    }

    /// Whether a register is written as a sum or a difference on a way inside a loop from a point.
    fn counts_at(&self, number: usize, point: u32, register: u32) -> bool {
        'ways: for way in self.graph.ways_from(point) {
            if !way.is_wait
                && is_sum(way.effect.value(register))
                && self.loops.has(Some(number), way.target)
            {
                return true;
            }
        }
        false
    }

    /// Whether a register counts in a loop: it is written as a sum or a difference, and its range is known where the loop begins.
    fn counts(&self, cut: Cut<'_>, register: u32) -> bool {
        if self.range_at(cut.header, register) == Range::FULL {
            return false;
        }
        'points: for point in cut.points {
            if self.counts_at(cut.number, *point, register) {
                return true;
            }
        }
        false
    }

    /// The registers that count in a loop, each down and up.
    fn counters(&self, cut: Cut<'_>) -> Result<Vec<Unit>, Fault> {
        let mut counters = Vec::new(self.graph.alloc);
        'registers: for register in 1..32u32 {
            if self.counts(cut, register) {
                counters.push(Unit::of(register, 1))?;
                counters.push(Unit::of(register, -1))?;
            }
        }
        Ok(counters)
    }

    /// The best of the costs of a loop that one of these forms counts. As long as there is work left, all are tried.
    fn best_of(
        &mut self,
        cut: Cut<'_>,
        units: &[Unit],
        left: &mut u64,
    ) -> Result<Option<Solved>, Fault> {
        let mut best = None;
        'units: for unit in units {
            if *left == 0 {
                break;
            }
            *left = left.saturating_sub(cut.points.len() as u64);
            let solved = self.counted(cut, &unit.form)?;
            best = better(best, solved);
        }
        Ok(best)
    }

    /// The costs of a loop that several registers count together, each on some ways: with few registers, if those are enough.
    fn counted_together(
        &mut self,
        cut: Cut<'_>,
        counters: &[Unit],
    ) -> Result<Option<Solved>, Fault> {
        let mut units = together(self.graph.alloc, counters, counters)?;
        let mut left = MOST_WORK;
        'sizes: for _ in 2..MOST_TOGETHER {
            if let Some(solved) = self.best_of(cut, &units, &mut left)? {
                return Ok(Some(solved));
            }
            units = together(self.graph.alloc, &units, counters)?;
        }
        self.best_of(cut, &units, &mut left)
    }

    /// The costs of a loop whose inner loops have theirs.
    fn solved(&mut self, cut: Cut<'_>) -> Result<Costs, Fault> {
        let counters = self.counters(cut)?;
        let mut all = u64::MAX;
        let mut best = self.best_of(cut, &counters, &mut all)?;
        if best.is_none() {
            best = self.counted_together(cut, &counters)?;
        }
        match best {
            Some(solved) => Ok(solved.costs),
            None => Err(Fault::At {
                point: cut.header,
                reason: Reason::NoMeasure,
            }),
        }
    }

    /// The points of a region, as a list of their own.
    pub(crate) fn copied_points(&self, region: Option<usize>) -> Result<Vec<u32>, Fault> {
        let mut points = Vec::new(self.graph.alloc);
        points.extend_from_slice(self.points_of(region))?;
        Ok(points)
    }

    /// Finds the costs of a loop, and keeps them.
    pub(crate) fn solve(&mut self, number: usize) -> Result<(), Fault> {
        let header = match self.loops.all.get(number) {
            Some(one) => one.header,
            None => return Ok(()),
        };
        let points = self.copied_points(Some(number))?;
        let costs = self.solved(Cut {
            number,
            header,
            points: &points,
        })?;
        if let Some(one) = self.loops.all.get_mut(number) {
            one.costs = costs;
        }
        Ok(())
    }

    /// Finds the costs of all loops.
    pub(crate) fn solve_all(&mut self) -> Result<(), Fault> {
        'loops: for number in (0..self.loops.all.len()).rev() {
            self.solve(number)?;
        }
        Ok(())
    }

    /// The graph, and the costs of all points of the program, whose loops have theirs.
    pub(crate) fn finish(mut self) -> Result<(Graph, Costs), Fault> {
        let points = self.copied_points(None)?;
        let all = Region {
            number: None,
            seed: Form::constant(0),
        };
        self.count(&all, &points)?;
        Ok((self.graph, self.costs))
    }
}
