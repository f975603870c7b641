//! Which threads deal with their interrupts as soon as their text asks.

ghost use Rattle.std.specs.Prelude.{◌≡◌, All, IfOk, IfSome, map};
ghost use Rattle.response_lines.specs.AskedLines.{IsKept, IsKeptBy, IsKeptByAll, is_soon};
ghost use Rattle.responses.specs.Found.{rate_of};
ghost use Rattle.responses.specs.Numbers.{is_among};

use crate::asked::{LINES, asked_in};
use crate::faults::NotTold;
use crate::lines::Scene;
use crate::telling::{costs_for, responses_at};
use crate::wanted::{Wanted, broken_lines, kept_lines, wanted_of};
use responses::{Bound, Rate, Response, Responses, Row};
use source_texts::{SourceText, read, with_budgets};
use std::alloc::{AllocError, Global};

/// A line that a thread deals with: each interrupt of it, within so many instructions of the threads of its priority and above, once these have
/// rested; and within how many it is to.
#[derive(Clone, Copy, Debug, PartialEq, Eq)]
pub struct KeptWithin {
    pub priority: u32,
    pub line: u32,
    pub steps: u64,
    pub most: u64,
}

/// What is kept of what a text asks.
#[derive(Drop)]
pub struct Kept {
    /// The rates for which that is so.
    pub rates: Vec<Rate>,
    pub lines: Vec<KeptWithin>,
    /// What is said of them.
    pub said: String,
}

/// Whether a line is one that is dealt with.
fn deals_with(bound: &Bound, line: u32) -> bool
    ensures { result ≡ is_among bound.now.tended.items line }
{
    bound.tended.iter().any(|tended| *tended == line)
}

/// Whether a level with this bound deals with a line within so many instructions.
fn is_soon(bound: &Bound, line: u32, most: u64) -> bool
    ensures { result ≡ is_soon bound.now line most }
{
    line < LINES && bound.later <= most && deals_with(bound, line)
}

/// The line, if a level deals with it within so many instructions.
fn kept_at(row: &Row, line: u32, most: u64) -> Option<KeptWithin>
    ensures { IfSome result (IsKeptBy row.now) }
{
    match &row.response {
        Response::Bound(bound) => {
            if is_soon(bound, line, most) {
                return Some(KeptWithin {
                    priority: row.priority,
                    line,
                    steps: bound.later,
                    most,
                });
            }
            None
        }
        Response::NoBound(_) | Response::TooMuch => None,
    }
}

/// The line, if the level of this priority deals with it so.
fn kept_among(rows: &[Row], priority: u32, line: u32, most: u64) -> Option<KeptWithin>
    ensures { IfSome result (IsKeptByAll rows.now) }
{
    for row in rows {
        if row.priority == priority {
            return kept_at(row, line, most);
        }
    }
    None
}

/// The line of a thread, if its level deals with it as soon as it is to.
fn kept_for(rows: &[Row], wanted: &Wanted<'_>) -> Option<KeptWithin>
    ensures { IfSome result (IsKeptByAll rows.now) }
{
    match wanted.line {
        Some(line) => kept_among(rows, wanted.priority, line, wanted.within.most),
        None => None,
    }
}

/// Those lines that are dealt with as soon as they are to.
fn kept_of(
    alloc: Global,
    rows: &[Row],
    wanted: &[Wanted<'_>],
) -> Result<Vec<KeptWithin>, AllocError>
    ensures { IfOk result (λ kept. All (IsKeptByAll rows.now) kept.items) }
{
    let mut kept = Vec::new(alloc);
    for one in wanted {
        let Some(found) = kept_for(rows, one) else {
            continue;
        };
        kept.push(found)?;
    }
    Ok(kept)
}

/// A text asks nothing that does not hold.
///
/// # Errors
///
/// It does, with the lines that say what; or memory is refused.
fn check_all(
    alloc: Global,
    scene: &Scene<'_, '_>,
    image: &[u8],
    responses: &Responses,
    wanted: &[Wanted<'_>],
    kept: &[KeptWithin],
) -> Result<(), NotTold> {
    let costs = costs_for(alloc, image, responses)?;
    let said = broken_lines(alloc, scene, responses, costs.as_ref(), wanted, kept)?;
    if said.is_empty() {
        Ok(())
    } else {
        Err(NotTold::Broken(said))
    }
}

/// The lines that are to be dealt with at these rates, if all of them are as soon as they are to.
fn checked(
    alloc: Global,
    scene: &Scene<'_, '_>,
    image: &[u8],
    wanted: &[Wanted<'_>],
) -> Result<Vec<KeptWithin>, NotTold>
    ensures { IfOk result (λ kept. All (IsKept image.now (map rate_of scene.now.rates.now)) kept.items) }
{
    let responses = responses_at(alloc, image, scene.rates)?;
    let rows = responses.rows.as_slice();
    let kept = kept_of(alloc, rows, wanted)?;
    check_all(alloc, scene, image, &responses, wanted, kept.as_slice())?;
    Ok(kept)
}

/// What is kept of what a text asks that is read.
fn kept_in<'s>(
    alloc: Global,
    file: &'s str,
    text: &'s SourceText<'_>,
    content: &'s str,
    image: &[u8],
) -> Result<Kept, NotTold>
    ensures { IfOk result (λ kept. All (IsKept image.now (map rate_of kept.rates.items)) kept.lines.items) }
{
    let asked = asked_in(alloc, content)?;
    let wanted = wanted_of(alloc, text, asked.within.as_slice())?;
    let rates = asked.rates.as_slice();
    let scene = Scene {
        alloc,
        file,
        text,
        content,
        rates,
    };
    let lines = checked(alloc, &scene, image, wanted.as_slice())?;
    let said = kept_lines(alloc, text, wanted.as_slice(), lines.as_slice())?;
    Ok(Kept {
        rates: asked.rates,
        lines,
        said,
    })
}

/// What is kept of what a text asks by its lines `#within N`, whose image this is, if all of it is, at the rates of its lines `#rate`. The file is that
/// by which its lines are reported.
///
/// # Errors
///
/// A thread does not deal with an interrupt as soon as it is to, with the lines that say so; the text is of another form; the image is refused; or
/// memory is.
pub fn keep(alloc: Global, file: &str, image: &[u8], content: &str) -> Result<Kept, NotTold>
    // Each line that is answered is dealt with so.
    ensures kept { IfOk result (λ kept. All (IsKept image.now (map rate_of kept.rates.items)) kept.lines.items) }
{
    let whole = with_budgets(alloc, content)?;
    let text = read(alloc, whole.text.as_str())?;
    kept_in(alloc, file, &text, content, image)
}
