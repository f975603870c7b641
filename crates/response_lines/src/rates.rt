//! How often interrupts come, by words and by what a text says.

use crate::asked::{LINES, NEVER, asked_in, put_rate, rate_of};
use crate::faults::NotTold;
use responses::Rate;
use source_texts::SourceText;
use std::alloc::{AllocError, Global};

/// How often interrupts come.
#[derive(Drop)]
pub(crate) struct Rates {
    pub(crate) all: Vec<Rate>,
    /// Whether they are said, and not one interrupt of each line for want of that.
    pub(crate) are_said: bool,
}

/// One interrupt of each line.
pub(crate) fn once_each(alloc: Global) -> Result<Vec<Rate>, AllocError> {
    let mut rates = Vec::new(alloc);
    for line in 0..LINES {
        rates.push(Rate {
            line,
            burst: 1,
            period: NEVER,
        })?;
    }
    Ok(rates)
}

/// The line that a word is: its number, or its name.
pub(crate) fn line_of(text: &SourceText<'_>, word: &str) -> Option<u32> {
    if let Ok(number) = word.parse::<u32>() {
        return Some(number);
    }
    for interrupt in &text.interrupts {
        if interrupt.name == word {
            return Some(interrupt.number);
        }
    }
    None
}

/// The rate that words `LINE BURST PERIOD` say.
fn rate_in(text: &SourceText<'_>, words: &[&str]) -> Option<Rate> {
    match words {
        [line, burst, period] => {
            let (line, burst, period) = (*line, *burst, *period);
            let line = line_of(text, line)?;
            let burst = burst.parse::<u64>().ok()?;
            rate_of(line, burst, period.parse::<u64>().ok()?)
        }
        _ => None,
    }
}

/// What is said of words that are no rate.
fn wrong(alloc: Global, words: &[&str]) -> Result<NotTold, AllocError> {
    let mut said = String::from_str(alloc, "error: `")?;
    let mut before = "";
    for word in words {
        write!(&mut said, "{before}{word}")?;
        before = " ";
    }
    said.push_str(
        "` is no rate: `LINE BURST PERIOD` are a line by its name or its number from 0 to 63, how many of its interrupts may come at once, and after how many \
         instructions there may be one more\n",
    )?;
    Ok(NotTold::Wrong(said))
}

/// How often interrupts come: as words say that follow one another, `LINE BURST PERIOD ..`, or else as the text does.
///
/// # Errors
///
/// Words are no rates, or a line of the text asks something in another form; or memory is refused.
pub(crate) fn rates_for(
    alloc: Global,
    text: &SourceText<'_>,
    content: &str,
    words: &[&str],
) -> Result<Rates, NotTold> {
    let mut all = asked_in(alloc, content)?.rates;
    for three in words.chunks(3) {
        let Some(rate) = rate_in(text, three) else {
            return Err(wrong(alloc, three)?);
        };
        put_rate(&mut all, rate)?;
    }
    let are_said = !all.is_empty();
    Ok(Rates {
        all: if are_said { all } else { once_each(alloc)? },
        are_said,
    })
}
