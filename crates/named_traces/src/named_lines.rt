//! The lines of a trace with the names of a text.

use crate::device_words::DeviceWord;
use crate::threads::{NamedThread, TextNames};
use std::alloc::AllocError;
use std::str;
use trace_lines::{Happening, Mark, hex_word, ran_by, told_by};

/// How many digits a word has in a trace.
const DIGITS: usize = 8;

/// A line without its comment, and without the blanks before that.
fn without_comment(line: &[u8]) -> &[u8] {
    match line.split(|byte| *byte == b'#').next() {
        Some(said) => said.trim_ascii_end(),
        None => line,
    }
}

/// The word that eight hexadecimal digits spell.
fn word_of(digits: &str) -> Option<u32> {
    if digits.len() == DIGITS {
        hex_word(digits.as_bytes())
    } else {
        None
    }
}

/// Puts what the world did with a word that has a name.
fn push_world(
    to: &mut String,
    what: &str,
    named: DeviceWord<'_>,
    word: u32,
) -> Result<(), AllocError> {
    write!(to, "{what} ")?;
    named.push(to)?;
    write!(to, " {word:08x}")
}

impl TextNames<'_> {
    /// Puts what a thread did, and after `#` where its instruction is in the text, if it is there.
    fn push_ran(
        &self,
        to: &mut String,
        thread: &NamedThread<'_>,
        pc: u32,
        mark: Mark,
    ) -> Result<(), AllocError> {
        let name = thread.name;
        write!(to, "{name} {pc:08x} ")?;
        mark.push(to)?;
        match self.place(thread, pc) {
            Some(place) => {
                to.push_str(" # ")?;
                place.push(to)
            }
            None => Ok(()),
        }
    }

    /// Puts a line that has a name, and answers whether it has.
    fn push_named(&self, to: &mut String, told: Happening) -> Result<bool, AllocError> {
        match told {
            Happening::Ran { thread, pc, mark } => {
                let Some(thread) = self.thread(thread) else {
                    return Ok(false);
                };
                self.push_ran(to, thread, pc, mark)?;
            }
            Happening::Interrupt(number) => {
                let Some(name) = self.interrupt_name(number) else {
                    return Ok(false);
                };
                write!(to, "irq {name}")?;
            }
            Happening::Wrote { address, word } => {
                let Some(named) = self.device_word(address) else {
                    return Ok(false);
                };
                push_world(to, "write", named, word)?;
            }
            Happening::Showed { address, word } => {
                let Some(named) = self.device_word(address) else {
                    return Ok(false);
                };
                push_world(to, "read", named, word)?;
            }
            Happening::Idle | Happening::Tick => return Ok(false),
        }
        Ok(true)
    }

    /// Puts the line of a trace, without a line feed: `THREAD PC OUTCOME # LABEL, line N`, `irq NAME`, `write PAGE INDEX WORD` and
    /// `read PAGE INDEX WORD`, as far as the text has the names, and else as the trace has it.
    ///
    /// # Errors
    ///
    /// Memory is refused.
    pub fn push_line(&self, to: &mut String, told: Happening) -> Result<(), AllocError> {
        if self.push_named(to, told)? {
            Ok(())
        } else {
            told.push(to)
        }
    }

    /// The address and the value of a word of a device page, from `PAGE INDEX WORD`.
    fn named_word(&self, text: &str) -> Option<(u32, u32)> {
        let (page, text) = text.split_once(' ')?;
        let (index, word) = text.split_once(' ')?;
        let index = index.parse::<u32>().ok()?;
        Some((self.device_page(page)?.word(index)?, word_of(word)?))
    }

    /// That an interrupt line of a name is raised.
    fn raised(&self, name: &str) -> Option<Happening> {
        Some(Happening::Interrupt(self.interrupt(name)?))
    }

    /// That the world writes a word with a name.
    fn wrote(&self, text: &str) -> Option<Happening> {
        let (address, word) = self.named_word(text)?;
        Some(Happening::Wrote { address, word })
    }

    /// That the world reads a word with a name.
    fn showed(&self, text: &str) -> Option<Happening> {
        let (address, word) = self.named_word(text)?;
        Some(Happening::Showed { address, word })
    }

    /// What the world does, by names.
    fn told_of_world(&self, first: &str, rest: &str) -> Option<Happening> {
        match first {
            "irq" => self.raised(rest),
            "write" => self.wrote(rest),
            "read" => self.showed(rest),
            _ => None,
        }
    }

    /// What a line with names says.
    fn told_by_names(&self, line: &[u8]) -> Option<Happening> {
        let (first, rest) = str::from_utf8(line).ok()?.split_once(' ')?;
        match self.told_of_world(first, rest) {
            Some(told) => Some(told),
            None => ran_by(self.thread_address(first)?, rest.as_bytes()),
        }
    }

    /// What a line of a trace says, without its line feed: with names, as [`TextNames::push_line`] puts it, or without. What follows `#`
    /// says nothing.
    pub fn told_by(&self, line: &[u8]) -> Option<Happening> {
        let line = without_comment(line);
        match self.told_by_names(line) {
            Some(told) => Some(told),
            None => told_by(line),
        }
    }
}
