//! How soon the levels of a system rest, and what is said of it.

ghost use Rattle.std.specs.Prelude.{All, IfOk, map};
ghost use Rattle.responses.specs.Bounds.{IsRow};
ghost use Rattle.responses.specs.Found.{rate_of};

use crate::faults::{NotTold, refused};
use crate::lines::{Report, Scene};
use crate::rates::{Rates, once_each, rates_for};
use responses::{Rate, Response, Responses, responded};
use source_texts::{SourceText, read};
use std::alloc::{AllocError, Global};

/// How soon the levels of a system rest.
#[derive(Drop)]
pub struct Told {
    pub responses: Responses,
    /// The rates for which that is so.
    pub rates: Vec<Rate>,
    /// The lines that say it.
    pub lines: String,
}

/// What is said where no rates are.
const ONCE: &str = "no rates are said: one interrupt of each line\n";

/// How soon the levels of an image rest at these rates.
pub(crate) fn responses_at(
    alloc: Global,
    image: &[u8],
    rates: &[Rate],
) -> Result<Responses, NotTold>
    ensures { IfOk result (λ all. All (IsRow image.now (map rate_of rates.now)) all.rows.items) }
{
    match responded(alloc, image, rates) {
        Ok(responses) => Ok(responses),
        Err(refusal) => Err(refused(refusal)),
    }
}

/// The responses to one interrupt of each line, where some rates ask for too much.
pub(crate) fn costs_for(
    alloc: Global,
    image: &[u8],
    responses: &Responses,
) -> Result<Option<Responses>, NotTold> {
    let is_any = responses
        .rows
        .iter()
        .any(|row| matches!(&row.response, Response::TooMuch));
    if !is_any {
        return Ok(None);
    }
    let rates = once_each(alloc)?;
    Ok(Some(responses_at(alloc, image, rates.as_slice())?))
}

/// The lines on all levels.
fn lines_of<'s>(
    alloc: Global,
    text: &'s SourceText<'_>,
    content: &'s str,
    rates: &'s Rates,
    responses: &'s Responses,
    costs: Option<&'s Responses>,
) -> Result<String, AllocError> {
    let mut report = Report {
        scene: Scene {
            alloc,
            file: "",
            text,
            content,
            rates: rates.all.as_slice(),
        },
        offsets: responses.offsets.as_slice(),
        costs,
        to: String::new(alloc),
    };
    if !rates.are_said {
        report.to.push_str(ONCE)?;
    }
    for row in &responses.rows {
        report.say_row(row)?;
    }
    Ok(report.to)
}

/// How soon the levels of a system rest, whose image and text these are, at the rates that words say, `LINE BURST PERIOD ..`, or else the text; where
/// neither does, with one interrupt of each line.
///
/// # Errors
///
/// The text or the words are of another form; the image is refused; or memory is refused.
pub fn tell(alloc: Global, image: &[u8], content: &str, words: &[&str]) -> Result<Told, NotTold>
    // Each bound that is said holds over all events that keep the rates.
    ensures bounds { IfOk result (λ told. All (IsRow image.now (map rate_of told.rates.items)) told.responses.rows.items) }
{
    let text = read(alloc, content)?;
    let rates = rates_for(alloc, &text, content, words)?;
    let at = rates.all.as_slice();
    let responses = responses_at(alloc, image, at)?;
    let costs = costs_for(alloc, image, &responses)?;
    let lines = lines_of(alloc, &text, content, &rates, &responses, costs.as_ref())?;
    Ok(Told {
        responses,
        rates: rates.all,
        lines,
    })
}
