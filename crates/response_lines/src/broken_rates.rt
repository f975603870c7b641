//! Interrupts that come more often than a text says.

use crate::asked::{NEVER, asked_in};
use crate::faults::NotTold;
use crate::rates::line_of;
use responses::Rate;
use source_texts::{SourceText, read, with_budgets, word_at};
use std::alloc::{AllocError, Global};

/// What a line of events says, as far as it counts for rates.
#[derive(Clone, Copy)]
enum Said {
    Steps(u64),
    Interrupt(u32),
    Other,
}

/// What a line of events says.
fn said_on(text: &SourceText<'_>, line: &[u8]) -> Said {
    let line = match line {
        [line @ .., b'\r'] => line,
        line => line,
    };
    let Ok(line) = std::str::from_utf8(line) else {
        return Said::Other;
    };
    match (word_at(line, 0), word_at(line, 1)) {
        (Some("step"), None) => Said::Steps(1),
        (Some("step"), Some(count)) => Said::Steps(count.parse::<u64>().unwrap_or(0)),
        (Some("irq"), Some(word)) => match line_of(text, word) {
            Some(number) => Said::Interrupt(number),
            None => Said::Other,
        },
        _ => Said::Other,
    }
}

/// The interrupts of a line so far.
#[derive(Clone, Copy)]
struct Raised {
    rate: Rate,
    count: u64,
    /// How many steps there were before the last one.
    last: u64,
    /// The steps before which one more is within the rate but for its burst.
    due: u64,
    is_broken: bool,
}

impl Raised {
    /// None so far.
    fn new(rate: Rate) -> Self {
        Raised {
            rate,
            count: 0,
            last: 0,
            due: 0,
            is_broken: false,
        }
    }

    /// Counts one more after so many steps, and whether it is one too many: some stretch of events that it ends has more than the rate allows.
    fn note(&mut self, steps: u64) -> bool {
        let Rate { burst, period, .. } = self.rate;
        self.count = self.count.saturating_add(1);
        self.due = self.due.max(steps).saturating_add(period);
        if period == NEVER {
            self.count > burst
        } else {
            self.due > steps.saturating_add(burst.saturating_mul(period))
        }
    }
}

/// The notes so far on a list of events.
#[derive(Drop)]
struct Notes<'n> {
    file: &'n str,
    lines: Vec<Raised>,
    steps: u64,
    to: String,
}

/// Puts how often interrupts may come.
fn push_rate(to: &mut String, rate: &Rate) -> Result<(), AllocError> {
    let (burst, period) = (rate.burst, rate.period);
    if period == NEVER {
        return write!(to, "at most {burst} in all\n");
    }
    write!(
        to,
        "at most {burst} at once, and one more after each {period} steps\n"
    )
}

impl Notes<'_> {
    /// An interrupt on a line of the list.
    fn raise(&mut self, number: u64, line: u32) -> Result<(), AllocError> {
        let steps = self.steps;
        for raised in &mut self.lines {
            if raised.rate.line == line {
                let since = steps.saturating_sub(raised.last);
                let is_more = raised.note(steps);
                raised.last = steps;
                if is_more && !raised.is_broken {
                    raised.is_broken = true;
                    let file = self.file;
                    write!(
                        &mut self.to,
                        "{file}:{number}: note: line {line} comes again after {since} steps, and its rate is "
                    )?;
                    push_rate(&mut self.to, &raised.rate)?;
                }
            }
        }
        Ok(())
    }
}

/// The interrupts of a list of events that come more often than the text of the system says, of each line the first.
///
/// # Errors
///
/// The text is of another form, or memory is refused.
pub fn notes_on_rates(
    alloc: Global,
    content: &str,
    file: &str,
    list: &[u8],
) -> Result<String, NotTold> {
    let whole = with_budgets(alloc, content)?;
    let text = read(alloc, whole.text.as_str())?;
    let mut notes = Notes {
        file,
        lines: Vec::new(alloc),
        steps: 0,
        to: String::new(alloc),
    };
    for rate in asked_in(alloc, content)?.rates {
        notes.lines.push(Raised::new(rate))?;
    }
    let mut number = 0u64;
    for line in list.split(|byte| *byte == b'\n') {
        number = number.saturating_add(1);
        match said_on(&text, line) {
            Said::Steps(count) => notes.steps = notes.steps.saturating_add(count),
            Said::Interrupt(line) => notes.raise(number, line)?,
            Said::Other => {}
        }
    }
    Ok(notes.to)
}
