//! The public call: how soon a level of threads comes to rest.

ghost use Rattle.std.specs.Prelude.{◌≡◌, IfErr, IfOk, map};
ghost use Rattle.model.specs.declared.refusals.Refusal.TheVariants.{OutOfMemory};
ghost use Rattle.responses.specs.Bounds.{IsResponseOf, IsTested};
ghost use Rattle.responses.specs.Found.{rate_of};

use crate::checks::Claim;
use crate::finding::{inputs_of, owed_for, set_going_below, steps_for, unrated};
use crate::lines::LINES;
use crate::settled::Settled;
use crate::settling::settled_for;
use crate::sums::left_at_start;
use crate::systems::{Levels, levels_of};
use crate::weighing::{Unweighed, weights_for};
use crate::weights::Weights;
use model::Refusal;
use settled_threads::tested_settled_responses_hold;
use std::alloc::{AllocError, Global};
use verify::Accepted;

/// A point of a thread of the image, both by their numbers from 0 on.
#[derive(Clone, Copy, Debug, PartialEq, Eq)]
pub struct PlacedPoint {
    pub thread: u32,
    pub point: u32,
}

/// How often interrupts of a line come: in any stretch of events at most so many, and one more for each period.
#[derive(Clone, Copy, Debug)]
pub struct Rate {
    pub line: u32,
    pub burst: u64,
    /// In steps; at least 1.
    pub period: u64,
}

/// For how many steps on end a level runs at most. All numbers are of steps, which are instructions.
#[derive(Drop)]
pub struct Bound {
    /// From the start on.
    pub steps: u64,
    /// Once the level has rested.
    pub later: u64,
    /// Of each thread by its number: its input, a notification or an endpoint by its offset, if it is settled. At rest it waits there.
    pub inputs: Vec<Option<u32>>,
    /// The lines that are dealt with, each within as many steps, by threads that neither send, call nor receive.
    pub lines: Vec<u32>,
    /// All lines that are dealt with, each within as many steps: those too whose threads send and call on the way.
    pub tended: Vec<u32>,
}

/// Why there is no bound.
#[derive(Clone, Copy, Debug, PartialEq, Eq)]
pub enum Why {
    /// What is set going from this point on is without a bound: something keeps itself going, or is rung in a loop.
    Rises(PlacedPoint),
    /// This line costs the level something, and has no rate.
    NoRate(u32),
    /// A rate has no period, or is of a line above 63; or numbers are 2^64 or more.
    OutOfRange,
}

/// How soon a level comes to rest.
#[derive(Drop)]
pub enum Response {
    Bound(Bound),
    NoBound(Why),
    /// The rates ask for more than there is, or there is no bound below 2^62.
    TooMuch,
}

/// What was found of a level but for its numbers.
#[derive(Drop)]
struct Level {
    weights: Weights,
    settled: Settled,
    taken: Vec<u32>,
    lines: Vec<u32>,
    tended: Vec<u32>,
    owed: Vec<u64>,
}

/// Numbers of steps, and what may be left.
#[derive(Clone, Copy)]
pub(crate) struct Numbers {
    pub(crate) steps: u64,
    pub(crate) later: u64,
    /// At the start and at rest, and at rest alone.
    pub(crate) most_at_first: u64,
    pub(crate) most_at_rest: u64,
}

/// What a bound rests on.
#[derive(Drop)]
pub(crate) struct Basis {
    pub(crate) weights: Weights,
    /// Inputs of settled threads: nothing is left there at rest.
    pub(crate) taken: Vec<u32>,
    /// What each thread by its number may wait with at rest, to send or for an answer.
    pub(crate) owed: Vec<u64>,
    /// What may be left at rest.
    pub(crate) most_at_rest: u64,
}

/// An answer, and what its bound rests on, if it is one.
#[derive(Drop)]
pub(crate) struct Answer {
    pub(crate) response: Response,
    pub(crate) basis: Option<Basis>,
}

impl Level {
    /// What is claimed of it at these rates.
    fn claim<'c>(&'c self, priority: u32, rates: &'c [Rate]) -> Claim<'c>
        ensures priority { result.priority ≡ priority }
        ensures rates { result.rates.now ≡ rates.now }
        ensures settled { result.settled.now ≡ self.now.settled }
        ensures lines { result.lines.now ≡ self.now.lines.items }
        ensures tended { result.tended.now ≡ self.now.tended.items }
    {
        Claim {
            priority,
            rates,
            weights: &self.weights,
            settled: &self.settled,
            taken: self.taken.as_slice(),
            lines: self.lines.as_slice(),
            tended: self.tended.as_slice(),
            owed: self.owed.as_slice(),
        }
    }
}

impl Answer {
    /// One that is no bound.
    fn without_basis(response: Response) -> Self
        ensures { result.response ≡ response }
    {
        Answer {
            response,
            basis: None,
        }
    }
}

impl Levels<'_, '_> {
    /// The level's weights, and what rests with it; or why there are none. Memory may be refused.
    fn find(&self, alloc: Global, priority: u32) -> Result<Result<Level, Why>, AllocError> {
        let programs = self.programs.as_slice();
        let weights = match weights_for(alloc, programs, &self.threads, priority)? {
            Ok(weights) => weights,
            Err(Unweighed::Rises(at)) => return Ok(Err(Why::Rises(at))),
            Err(Unweighed::TooGreat) => return Ok(Err(Why::OutOfRange)),
        };
        let settled = settled_for(alloc, programs, &self.threads, priority)?;
        let taken = inputs_of(alloc, &settled)?;
        let lines = self.lines_alone(alloc, priority)?;
        let tended = self.lines_tended(alloc, &settled)?;
        let owed = owed_for(
            alloc,
            &weights,
            priority,
            &settled,
            taken.as_slice(),
            programs,
        )?;
        Ok(Ok(Level {
            weights,
            settled,
            taken,
            lines,
            tended,
            owed,
        }))
    }

    /// The level's numbers: none where one of them is too great.
    fn numbers(&self, claim: &Claim<'_>) -> Option<Numbers> {
        let programs = self.programs.as_slice();
        let bells = self.bells.as_slice();
        let below = set_going_below(claim, programs);
        let most_at_rest = claim.rest(programs, bells)?.checked_add(below)?;
        let left = left_at_start(claim.weights, claim.priority, programs)?;
        let most_at_first = most_at_rest.max(left);
        Some(Numbers {
            steps: steps_for(claim, bells, most_at_first)?,
            later: steps_for(claim, bells, most_at_rest)?,
            most_at_first,
            most_at_rest,
        })
    }

    /// The numbers of a level that was found, which pass the test; or why there are none.
    fn tested(&self, level: &Level, priority: u32, rates: &[Rate]) -> Result<Numbers, Option<Why>>
        ensures { IfOk result (λ n. IsTested self.now priority (map rate_of rates.now) level.now.settled.inputs.items level.now.lines.items
            level.now.tended.items n.steps n.later) }
    {
        if rates
            .iter()
            .any(|rate| rate.period == 0 || LINES <= rate.line)
        {
            return Err(Some(Why::OutOfRange));
        }
        let claim = level.claim(priority, rates);
        if let Some(line) = unrated(claim.weights, self.bells.as_slice(), rates) {
            return Err(Some(Why::NoRate(line)));
        }
        let Some(numbers) = self.numbers(&claim) else {
            return Err(None);
        };
        if !self.pass(&claim, &numbers) {
            return Err(Some(Why::OutOfRange));
        }
        Ok(numbers)
    }

    /// The answer for a level that was found.
    fn answer(&self, level: Level, priority: u32, rates: &[Rate]) -> Answer
        ensures { IsResponseOf self.now priority (map rate_of rates.now) result.response }
    {
        tested_settled_responses_hold();
        match self.tested(&level, priority, rates) {
            Ok(numbers) => {
                let settled = level.settled;
                Answer {
                    response: Response::Bound(Bound {
                        steps: numbers.steps,
                        later: numbers.later,
                        inputs: settled.inputs,
                        lines: level.lines,
                        tended: level.tended,
                    }),
                    basis: Some(Basis {
                        weights: level.weights,
                        taken: level.taken,
                        owed: level.owed,
                        most_at_rest: numbers.most_at_rest,
                    }),
                }
            }
            Err(Some(why)) => Answer::without_basis(Response::NoBound(why)),
            Err(None) => Answer::without_basis(Response::TooMuch),
        }
    }

    /// How soon the threads of a priority and above come to rest at these rates, with what that rests on. Memory may be refused.
    pub(crate) fn answered(
        &self,
        alloc: Global,
        priority: u32,
        rates: &[Rate],
    ) -> Result<Answer, Refusal>
        ensures bound { IfOk result (λ answer. IsResponseOf self.now priority (map rate_of rates.now) answer.response) }
        ensures memory { IfErr result (λ refusal. refusal ≡ OutOfMemory) }
    {
        let _ = self.image;
        match self.find(alloc, priority)? {
            Ok(level) => Ok(self.answer(level, priority, rates)),
            Err(why) => Ok(Answer::without_basis(Response::NoBound(why))),
        }
    }

    /// How soon the threads of a priority and above come to rest, at these rates.
    ///
    /// # Errors
    ///
    /// Memory may be refused.
    pub fn response(
        &self,
        alloc: Global,
        priority: u32,
        rates: &[Rate],
    ) -> Result<Response, Refusal>
        ensures bound { IfOk result (IsResponseOf self.now priority (map rate_of rates.now)) }
        ensures memory { IfErr result (λ refusal. refusal ≡ OutOfMemory) }
    {
        let answer = self.answered(alloc, priority, rates)?;
        Ok(answer.response)
    }
}

/// How soon the threads of an accepted image of a priority and above come to rest, at these rates.
///
/// # Errors
///
/// Memory may be refused.
pub fn respond(
    alloc: Global,
    accepted: &Accepted<'_>,
    priority: u32,
    rates: &[Rate],
) -> Result<Response, Refusal>
    ensures bound { IfOk result (IsResponseOf accepted.now priority (map rate_of rates.now)) }
    ensures memory { IfErr result (λ refusal. refusal ≡ OutOfMemory) }
{
    levels_of(alloc, accepted)?.response(alloc, priority, rates)
}
