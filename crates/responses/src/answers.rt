//! Which threads of an image answer which badges: the same for all levels.

ghost use Rattle.std.specs.Prelude.{◌≡◌, IfErr, IfOk};
ghost use Rattle.model.specs.declared.refusals.Refusal.TheVariants.{OutOfMemory};
ghost use Rattle.answering.specs.Answers.{AreAnswers};

use crate::asks::Ask;
use crate::outlines::Outline;
use crate::threads::input_of;
use answering::{Answered, answers_of};
use model::Refusal;
use std::alloc::{AllocError, Global};
use verify::Accepted;

/// With how many badges a thread is looked at at most, each of which costs a walk over its points: an image has no more threads, and most call with one.
const MOST: usize = 64;

/// That an endpoint is called with a badge.
#[derive(Clone, Copy, PartialEq, Eq)]
struct Call {
    endpoint: u32,
    badge: u32,
}

/// The calls of endpoints in an image, each once, by their endpoints. Memory may be refused.
fn calls_in(alloc: Global, programs: &[Outline]) -> Result<Vec<Call>, AllocError> {
    let mut calls = Vec::new(alloc);
    for program in programs {
        for run in &program.runs {
            if let Ask::Calls(endpoint) = run.ask {
                let badge = run.badge;
                calls.push(Call { endpoint, badge })?;
            }
        }
    }
    calls.sort_by_key(|call| (call.endpoint, call.badge))?;
    calls.dedup();
    Ok(calls)
}

/// The badges with which an endpoint is called: of more than are looked at the first ones. Memory may be refused.
fn badges_of(alloc: Global, calls: &[Call], endpoint: u32) -> Result<Vec<u32>, AllocError> {
    let first = calls.partition_point(|call| call.endpoint < endpoint);
    let (_, rest) = calls.split_at(first.min(calls.len()));
    let mut badges = Vec::new(alloc);
    for call in rest {
        if call.endpoint != endpoint || badges.len() == MOST {
            break;
        }
        badges.push(call.badge)?;
    }
    Ok(badges)
}

/// The badges with which the threads of an image are called, of those that receive from one endpoint and take from nothing else. Memory may be refused.
fn badges_in(alloc: Global, programs: &[Outline]) -> Result<Vec<Vec<u32>>, AllocError> {
    let calls = calls_in(alloc, programs)?;
    let mut all = Vec::new(alloc);
    for program in programs {
        let badges = match input_of(program) {
            Some(endpoint) => badges_of(alloc, calls.as_slice(), endpoint)?,
            None => Vec::new(alloc),
        };
        all.push(badges)?;
    }
    Ok(all)
}

/// The badges that each thread of an accepted image answers, by its number, among those with which it is called.
pub(crate) fn answers_in(
    alloc: Global,
    accepted: &Accepted<'_>,
    programs: &[Outline],
) -> Result<Vec<Answered>, Refusal>
    ensures answers { IfOk result (λ found. AreAnswers accepted.now found.items) }
    ensures memory { IfErr result (λ refusal. refusal ≡ OutOfMemory) }
{
    let badges = badges_in(alloc, programs)?;
    answers_of(alloc, accepted, badges.as_slice())
}
