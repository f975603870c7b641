//! Finds what rests with a level, and its numbers. What is found is tested apart, so nothing is promised of it here.

use crate::asks::Ask;
use crate::bounds::Rate;
use crate::checks::{Claim, is_rated};
use crate::doors::is_input;
use crate::lines::{Bell, LINES};
use crate::outlines::{Outline, Run};
use crate::settled::Settled;
use crate::sums::{costs_within, is_high, unless};
use crate::systems::Levels;
use crate::weighing::comes_to;
use crate::weights::{Weights, is_one_of};
use std::alloc::{AllocError, Global};

/// Numbers from here on are too great.
const MOST: u64 = 1 << 62;

/// Messages that may wait at rest: at no input of a settled thread, which takes them at once.
#[derive(Clone, Copy)]
struct Messages<'c> {
    weights: &'c Weights,
    priority: u32,
    /// Inputs of settled threads.
    taken: &'c [u32],
}

impl Messages<'_> {
    /// What a message costs that may wait at an object.
    fn price(&self, object: u32) -> u64 {
        unless(is_one_of(self.taken, object), self.weights.price_of(object))
    }

    /// What a thread runs and sets going once it goes on from a run, if it is of the level.
    fn going_on(&self, program: &Outline, run: &Run) -> u64 {
        if !is_high(self.priority, program) {
            return 0;
        }
        let still = self.weights.still(program.number, run.next_place());
        program.header.budget.saturating_add(still)
    }

    /// What a thread may wait with at the end of a run: its message, and what it goes on with after it.
    fn waited_with(&self, program: &Outline, run: &Run) -> u64 {
        match run.ask {
            Ask::SendsTo(object) if is_one_of(self.taken, object) => 0,
            Ask::SendsTo(object) | Ask::Calls(object) => self
                .price(object)
                .saturating_add(self.going_on(program, run)),
            Ask::Tries(object) if !is_high(self.priority, program) => self.price(object),
            _ => 0,
        }
    }

    /// The most that a thread may wait with at rest.
    fn owed_by(&self, program: &Outline) -> u64 {
        let mut most = 0u64;
        for run in &program.runs {
            most = self.waited_with(program, run).max(most);
        }
        most
    }
}

/// What each thread may wait with at rest, to send or for an answer: one that is settled with nothing. Memory may be refused.
pub(crate) fn owed_for(
    alloc: Global,
    weights: &Weights,
    priority: u32,
    settled: &Settled,
    taken: &[u32],
    programs: &[Outline],
) -> Result<Vec<u64>, AllocError> {
    let messages = Messages {
        weights,
        priority,
        taken,
    };
    let mut owed = Vec::new(alloc);
    for program in programs {
        let most = if settled.input(program.number).is_some() {
            0
        } else {
            messages.owed_by(program)
        };
        owed.push(most)?;
    }
    Ok(owed)
}

/// The inputs of settled threads, each once. Memory may be refused.
pub(crate) fn inputs_of(alloc: Global, settled: &Settled) -> Result<Vec<u32>, AllocError> {
    let mut taken = Vec::new(alloc);
    for input in &settled.inputs {
        if let Some(object) = input {
            if !is_one_of(taken.as_slice(), *object) {
                taken.push(*object)?;
            }
        }
    }
    Ok(taken)
}

impl Levels<'_, '_> {
    /// The lines that threads of a level keep which wait for no message. Memory may be refused.
    pub(crate) fn lines_alone(&self, alloc: Global, priority: u32) -> Result<Vec<u32>, AllocError> {
        let mut lines = Vec::new(alloc);
        for line in 0..LINES {
            if let Some(Some(keeper)) = self.keepers.get(line as usize) {
                if keeper.is_alone_of(priority, self.programs.as_slice()) {
                    lines.push(line)?;
                }
            }
        }
        Ok(lines)
    }

    /// The lines that settled threads keep. Memory may be refused.
    pub(crate) fn lines_tended(
        &self,
        alloc: Global,
        settled: &Settled,
    ) -> Result<Vec<u32>, AllocError> {
        let mut lines = Vec::new(alloc);
        for line in 0..LINES {
            if let Some(Some(keeper)) = self.keepers.get(line as usize) {
                if is_input(keeper.notification, settled.input(keeper.thread)) {
                    lines.push(line)?;
                }
            }
        }
        Ok(lines)
    }
}

/// The greatest price of what a thread below brings to where a settled thread rests.
pub(crate) fn set_going_below(claim: &Claim<'_>, programs: &[Outline]) -> u64 {
    let mut greatest = 0;
    for program in programs {
        if !is_high(claim.priority, program) {
            for run in &program.runs {
                if let Some(object) = comes_to(run.ask) {
                    if is_one_of(claim.taken, object) {
                        greatest = claim.weights.price_of(object).max(greatest);
                    }
                }
            }
        }
    }
    greatest
}

/// How often steps are counted again at most.
const COUNTS: u32 = 1 << 20;

/// The least number of steps within which so much is done with all that comes meanwhile: none below 2^62, or none that is found soon.
pub(crate) fn steps_for(claim: &Claim<'_>, bells: &[Option<Bell>], most: u64) -> Option<u64> {
    let mut steps = most;
    for _ in 0..COUNTS {
        let costs = costs_within(claim.weights, bells, claim.rates, steps)?;
        let next = most.checked_add(costs)?;
        if next <= steps {
            return Some(steps);
        }
        if MOST <= next {
            return None;
        }
        steps = next;
    }
    None
}

/// The first line that costs something and has no rate.
pub(crate) fn unrated(weights: &Weights, bells: &[Option<Bell>], rates: &[Rate]) -> Option<u32> {
    for line in 0..LINES {
        if !is_rated(weights, bells, rates, line) {
            return Some(line);
        }
    }
    None
}
