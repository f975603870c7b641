//! What a text asks of responses, by comments that are its lines: `#rate LINE BURST [PERIOD]` says how often interrupts of a line come, and after a
//! line `thread` `#within N` that the thread is to deal with each of its interrupts within so many instructions.

use crate::faults::NotTold;
use responses::Rate;
use source_texts::word_at;
use std::alloc::{AllocError, Global};

/// How many lines there are.
pub(crate) const LINES: u32 = 64;

/// The period of a line whose interrupts come no more often than its burst says: longer than any bound.
pub(crate) const NEVER: u64 = 1 << 62;

/// How such comments begin.
const RATE: &str = "#rate ";

const WITHIN: &str = "#within ";

/// `#within N`
#[derive(Clone, Copy)]
pub(crate) struct Within<'t> {
    /// The line of the text.
    pub(crate) line: u64,
    /// The place that it comes from, as a comment after it says.
    pub(crate) place: Option<&'t str>,
    pub(crate) most: u64,
}

/// What a text asks.
#[derive(Drop)]
pub(crate) struct Asked<'t> {
    pub(crate) rates: Vec<Rate>,
    pub(crate) within: Vec<Within<'t>>,
}

/// The number that a word is.
fn number_at(said: &str, place: usize) -> Option<u64> {
    word_at(said, place)?.parse::<u64>().ok()
}

/// A rate, if it is one.
pub(crate) fn rate_of(line: u32, burst: u64, period: u64) -> Option<Rate> {
    if line < LINES && period != 0 {
        Some(Rate {
            line,
            burst,
            period,
        })
    } else {
        None
    }
}

/// The rate that words `LINE BURST [PERIOD]` say.
fn rate_in(said: &str) -> Option<Rate> {
    let line = u32::try_from(number_at(said, 0)?).ok()?;
    let period = match word_at(said, 2) {
        Some(word) => word.parse::<u64>().ok()?,
        None => NEVER,
    };
    rate_of(line, number_at(said, 1)?, period)
}

/// The place that follows what is said, after another `#`.
fn place_after(said: &str) -> Option<&str> {
    let (_, place) = said.split_once('#')?;
    place.split_whitespace().next()
}

/// Puts the rate of a line in the place of the one that it has.
pub(crate) fn put_rate(rates: &mut Vec<Rate>, rate: Rate) -> Result<(), AllocError> {
    match rates.iter().position(|other| other.line == rate.line) {
        Some(place) => {
            if let Some(held) = rates.get_mut(place) {
                *held = rate;
            }
            Ok(())
        }
        None => {
            rates.push(rate)?;
            Ok(())
        }
    }
}

impl<'t> Asked<'t> {
    /// What a line says, whose number this is.
    fn read(&mut self, line: u64, text: &'t str) -> Result<(), NotTold> {
        if let Some(said) = text.strip_prefix(RATE) {
            let Some(rate) = rate_in(said) else {
                return Err(NotTold::Line(line));
            };
            put_rate(&mut self.rates, rate)?;
        }
        if let Some(said) = text.strip_prefix(WITHIN) {
            let Some(most) = number_at(said, 0) else {
                return Err(NotTold::Line(line));
            };
            self.within.push(Within {
                line,
                place: place_after(said),
                most,
            })?;
        }
        Ok(())
    }
}

/// What a text asks.
///
/// # Errors
///
/// A line asks something in another form, or memory is refused.
pub(crate) fn asked_in(alloc: Global, content: &str) -> Result<Asked<'_>, NotTold> {
    let mut asked = Asked {
        rates: Vec::new(alloc),
        within: Vec::new(alloc),
    };
    let mut number = 0u64;
    for line in content.lines() {
        number = number.saturating_add(1);
        asked.read(number, line)?;
    }
    Ok(asked)
}

/// Whether a text says of a thread within how many instructions it is to deal with its interrupts.
pub fn asks_responses(content: &str) -> bool {
    content.lines().any(|line| line.starts_with(WITHIN))
}

/// Whether a text says how often interrupts of some line come.
pub fn says_rates(content: &str) -> bool {
    content.lines().any(|line| line.starts_with(RATE))
}

/// How often interrupts come, as a text says.
///
/// # Errors
///
/// A line asks something in another form, or memory is refused.
pub fn rates_in(alloc: Global, content: &str) -> Result<Vec<Rate>, NotTold> {
    Ok(asked_in(alloc, content)?.rates)
}
