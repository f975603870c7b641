//! What a price is made of: which threads run for how long, and through what.

use crate::asks::Ask;
use crate::bounds::PlacedPoint;
use crate::outlines::{Outline, Run};
use crate::sums::is_high;
use crate::systems::Levels;
use crate::weights::Weights;
use std::alloc::{AllocError, Global};

/// How many stretches are said at most.
const MOST: usize = 64;

/// What lets a thread run.
#[derive(Clone, Copy, Debug, PartialEq, Eq)]
pub enum Cause {
    /// What it waits for at the notification or endpoint at this offset.
    Taken { object: u32 },
    /// The instruction at this point, of the same or another thread.
    SetGoing { by: PlacedPoint, how: How },
    /// Its own Send or Call at this point is over.
    GoesOn { from: PlacedPoint, how: How },
    /// All that is not said.
    Further,
}

/// How something is set going.
#[derive(Clone, Copy, Debug, PartialEq, Eq)]
pub enum How {
    Rung,
    Sent,
    Called,
}

/// A stretch of a thread up to its next wait, in steps at most.
#[derive(Clone, Copy, Debug, PartialEq, Eq)]
pub struct Stretch {
    pub thread: u32,
    pub cause: Cause,
    pub steps: u64,
}

/// How many runs are looked at for one line at most.
const LOOKS: usize = 4096;

/// What is still to be said: the price of an object, and through what it is set going.
#[derive(Clone, Copy)]
struct Rung {
    object: u32,
    cause: Cause,
}

/// A way on from a run: what is asked there, and the run after it.
#[derive(Clone, Copy)]
struct Way {
    point: u32,
    ask: Ask,
    next: usize,
}

/// Stretches so far.
#[derive(Drop)]
struct Saying<'w, 'l, 'i, 'a> {
    alloc: Global,
    levels: &'l Levels<'i, 'a>,
    weights: &'w Weights,
    priority: u32,
    stretches: Vec<Stretch>,
    rung: Vec<Rung>,
    /// How many runs may still be looked at.
    looks: usize,
}

/// The runs to which a run leads.
fn ways_from(run: &Run) -> [Option<usize>; 2] {
    let to = |way: Option<u32>| match way {
        Some(place) => Some(place as usize),
        None => None,
    };
    [to(run.taken), to(run.next)]
}

impl Saying<'_, '_, '_, '_> {
    /// What a thread with this budget sets going at a run that asks this.
    fn cost_of(&self, budget: u64, ask: Ask) -> u64 {
        match ask {
            Ask::Rings(object) | Ask::Tries(object) => self.weights.price_of(object),
            Ask::SendsTo(object) | Ask::Calls(object) => {
                self.weights.price_of(object).saturating_add(budget)
            }
            _ => 0,
        }
    }

    /// The ways from a run that ask for all that is still to be set going there: one that costs something, or else runs to go on from.
    fn dear_way(
        &self,
        program: &Outline,
        here: usize,
        still: u64,
        open: &mut Vec<usize>,
    ) -> Result<Option<Way>, AllocError> {
        let Some(run) = program.runs.get(here) else {
            return Ok(None);
        };
        if let Ask::Takes(_) | Ask::Accepts { .. } = run.ask {
            return Ok(None);
        }
        let cost = self.cost_of(program.header.budget, run.ask);
        for way in ways_from(run) {
            if let Some(next) = way {
                let after = self.weights.still(program.number, next);
                if cost.saturating_add(after) == still {
                    if cost != 0 {
                        return Ok(Some(Way {
                            point: run.point,
                            ask: run.ask,
                            next,
                        }));
                    }
                    if !open.contains(&next) {
                        open.push(next)?;
                    }
                }
            }
        }
        Ok(None)
    }

    /// The first way from a run on that sets something going, on one that asks for all that is still to be.
    fn first_way(&mut self, program: &Outline, from: usize) -> Result<Option<Way>, AllocError> {
        let still = self.weights.still(program.number, from);
        if still == 0 {
            return Ok(None);
        }
        let mut open = Vec::new(self.alloc);
        open.push(from)?;
        let mut place = 0;
        for _ in 0..self.looks {
            if open.len() <= place {
                break;
            }
            self.looks = self.looks.saturating_sub(open.len());
            let here = open[place];
            place += 1;
            let found = self.dear_way(program, here, still, &mut open)?;
            if found.is_some() {
                return Ok(found);
            }
        }
        Ok(None)
    }

    /// Notes what a way sets going.
    fn note(&mut self, program: &Outline, way: &Way) -> Result<(), AllocError> {
        let at = PlacedPoint {
            thread: program.number,
            point: way.point,
        };
        match way.ask {
            Ask::Rings(object) => self.ring(object, at, How::Rung),
            Ask::Tries(object) => self.ring(object, at, How::Sent),
            Ask::SendsTo(object) => self.go_on(program, object, at, How::Sent),
            Ask::Calls(object) => self.go_on(program, object, at, How::Called),
            _ => Ok(()),
        }
    }

    /// Notes what comes to an object.
    fn ring(&mut self, object: u32, by: PlacedPoint, how: How) -> Result<(), AllocError> {
        self.rung.push(Rung {
            object,
            cause: Cause::SetGoing { by, how },
        })?;
        Ok(())
    }

    /// Notes what comes to an endpoint, and that the thread goes on after that.
    fn go_on(
        &mut self,
        program: &Outline,
        object: u32,
        from: PlacedPoint,
        how: How,
    ) -> Result<(), AllocError> {
        self.ring(object, from, how)?;
        self.stretches.push(Stretch {
            thread: program.number,
            cause: Cause::GoesOn { from, how },
            steps: program.header.budget,
        })?;
        Ok(())
    }

    /// Says what a thread sets going from a run on.
    fn walk(&mut self, program: &Outline, from: usize) -> Result<(), AllocError> {
        let mut from = from;
        for _ in 0..MOST {
            let Some(way) = self.first_way(program, from)? else {
                return Ok(());
            };
            self.note(program, &way)?;
            from = way.next;
        }
        Ok(())
    }

    /// The run after one at which a thread takes, where that costs as much as the price.
    fn run_after(&self, program: &Outline, run: &Run, price: u64) -> Option<usize> {
        for way in ways_from(run) {
            if let Some(next) = way {
                let still = self.weights.still(program.number, next);
                if program.header.budget.saturating_add(still) == price {
                    return Some(next);
                }
            }
        }
        None
    }

    /// Says who takes from an object, and what that thread sets going.
    fn follow(&mut self, rung: Rung) -> Result<(), AllocError> {
        let levels = self.levels;
        let price = self.weights.price_of(rung.object);
        for taker in levels.threads.takers_of(rung.object) {
            self.looks = self.looks.saturating_sub(1);
            let Some(program) = levels.programs.get(taker.thread) else {
                continue;
            };
            let Some(run) = program.runs.get(taker.place) else {
                continue;
            };
            if self.looks == 0 || !is_high(self.priority, program) {
                continue;
            }
            if let Some(from) = self.run_after(program, run, price) {
                self.stretches.push(Stretch {
                    thread: program.number,
                    cause: rung.cause,
                    steps: program.header.budget,
                })?;
                return self.walk(program, from);
            }
        }
        Ok(())
    }

    /// All stretches, with what is not said of a price.
    fn finish(self, object: u32) -> Result<Vec<Stretch>, AllocError> {
        let mut said = 0u64;
        for stretch in &self.stretches {
            said = said.saturating_add(stretch.steps);
        }
        let price = self.weights.price_of(object);
        let mut stretches = self.stretches;
        if said < price {
            stretches.push(Stretch {
                thread: 0,
                cause: Cause::Further,
                steps: price - said,
            })?;
        }
        Ok(stretches)
    }
}

/// What the price of an object of a level is made of. Memory may be refused.
pub(crate) fn stretches_of(
    alloc: Global,
    levels: &Levels<'_, '_>,
    weights: &Weights,
    priority: u32,
    object: u32,
) -> Result<Vec<Stretch>, AllocError> {
    let mut saying = Saying {
        alloc,
        levels,
        weights,
        priority,
        stretches: Vec::new(alloc),
        rung: Vec::new(alloc),
        looks: LOOKS,
    };
    saying.rung.push(Rung {
        object,
        cause: Cause::Taken { object },
    })?;
    for _ in 0..MOST {
        let Some(rung) = saying.rung.pop() else {
            break;
        };
        saying.follow(rung)?;
    }
    saying.finish(object)
}
