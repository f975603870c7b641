//! The answers for all levels of an image.

ghost use Rattle.std.specs.Prelude.{◌≡◌, ◌⊎◌, All, IfErr, IfOk, Some, map};
ghost use Rattle.model.specs.Acceptance.Accepted.{first_breach};
ghost use Rattle.model.specs.declared.refusals.Refusal.TheVariants.{OutOfMemory};
ghost use Rattle.responses.specs.Bounds.{IsResponseOf, IsRow};
ghost use Rattle.responses.specs.Found.{rate_of};

use crate::bounds::{Basis, Bound, Rate, Response};
use crate::shares::{Share, shares_of};
use crate::stretches::{Stretch, stretches_of};
use crate::systems::{Levels, levels_of};
use model::Refusal;
use std::alloc::{AllocError, Global};
use verify::verify;

/// What an interrupt of a line sets going in a level.
#[derive(Drop)]
pub struct LineParts {
    pub line: u32,
    pub stretches: Vec<Stretch>,
}

/// What the bound of a level is made of.
#[derive(Drop)]
pub struct Parts {
    pub shares: Vec<Share>,
    /// Of the lines that are dealt with.
    pub lines: Vec<LineParts>,
}

/// How soon the threads of a priority and above come to rest.
#[derive(Drop)]
pub struct Row {
    pub priority: u32,
    pub response: Response,
    /// What its bound is made of: nothing where there is none.
    pub parts: Parts,
}

/// How soon the levels of an image come to rest.
#[derive(Drop)]
pub struct Responses {
    /// From the highest priority down.
    pub rows: Vec<Row>,
    /// The offsets of the image's objects, by their numbers.
    pub offsets: Vec<u32>,
}

impl Levels<'_, '_> {
    /// The priorities of the threads, each once, from the highest down. Memory may be refused.
    fn priorities(&self, alloc: Global) -> Result<Vec<u32>, AllocError> {
        let mut priorities = Vec::new(alloc);
        for program in &self.programs {
            priorities.push(program.header.priority)?;
        }
        priorities.sort()?;
        priorities.dedup();
        priorities.reverse();
        Ok(priorities)
    }

    /// What interrupts of the lines set going that are dealt with. Memory may be refused.
    fn lines_of(
        &self,
        alloc: Global,
        basis: &Basis,
        bound: &Bound,
        priority: u32,
    ) -> Result<Vec<LineParts>, AllocError> {
        let mut parts = Vec::new(alloc);
        for line in &bound.tended {
            if let Some(Some(bell)) = self.bells.get(*line as usize) {
                let stretches = stretches_of(
                    alloc,
                    self,
                    &basis.weights,
                    priority,
                    bell.notification,
                )?;
                parts.push(LineParts {
                    line: *line,
                    stretches,
                })?;
            }
        }
        Ok(parts)
    }

    /// What a response is made of. Memory may be refused.
    fn parts_of(
        &self,
        alloc: Global,
        priority: u32,
        response: &Response,
        basis: Option<&Basis>,
        rates: &[Rate],
    ) -> Result<Parts, AllocError> {
        match (response, basis) {
            (Response::Bound(bound), Some(basis)) => Ok(Parts {
                shares: shares_of(alloc, self, basis, bound, rates)?,
                lines: self.lines_of(alloc, basis, bound, priority)?,
            }),
            _ => Ok(Parts {
                shares: Vec::new(alloc),
                lines: Vec::new(alloc),
            }),
        }
    }

    /// How soon the threads of a priority and above come to rest at these rates, and what that is made of. Memory may be refused.
    fn row(&self, alloc: Global, priority: u32, rates: &[Rate]) -> Result<Row, Refusal>
        ensures row { IfOk result (λ row. IsResponseOf self.now row.priority (map rate_of rates.now) row.response) }
        ensures memory { IfErr result (λ refusal. refusal ≡ OutOfMemory) }
    {
        let answer = self.answered(alloc, priority, rates)?;
        let parts = self.parts_of(
            alloc,
            priority,
            &answer.response,
            answer.basis.as_ref(),
            rates,
        )?;
        Ok(Row {
            priority,
            response: answer.response,
            parts,
        })
    }
}

/// How soon all levels come to rest at these rates, from the highest priority down.
fn rows_of(alloc: Global, levels: &Levels<'_, '_>, rates: &[Rate]) -> Result<Vec<Row>, Refusal>
    ensures rows { IfOk result (λ rows. All (λ row. IsResponseOf levels.now row.priority (map rate_of rates.now) row.response) rows.items) }
    ensures memory { IfErr result (λ refusal. refusal ≡ OutOfMemory) }
{
    let mut rows = Vec::new(alloc);
    for priority in levels.priorities(alloc)? {
        rows.push(levels.row(alloc, priority, rates)?)?;
    }
    Ok(rows)
}

/// How soon the levels of an image come to rest at these rates. After its verification it reads the points of all programs once more; then it goes over
/// what asks something there a fixed number of times for each priority.
///
/// # Errors
///
/// The image is refused, or memory is.
pub fn responded(alloc: Global, bytes: &[u8], rates: &[Rate]) -> Result<Responses, Refusal>
    // Each bound holds over all events that keep the rates.
    ensures bounds { IfOk result (λ all. All (IsRow bytes.now (map rate_of rates.now)) all.rows.items) }
    // An image is refused for its first breach, if memory is not refused.
    ensures refused { IfErr result (λ refusal. (refusal ≡ OutOfMemory) ⊎ (first_breach bytes.now ≡ Some refusal)) }
{
    let accepted = verify(alloc, bytes)?;
    let levels = levels_of(alloc, &accepted)?;
    let rows = rows_of(alloc, &levels, rates)?;
    Ok(Responses {
        rows,
        offsets: levels.offsets,
    })
}
