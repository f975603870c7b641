//! Faults of descriptions in words.

use crate::declared::Kind;
use crate::faults::{DescriptionFault, Mistake};
use crate::forms::WORDS;
use crate::joined::Joined;
use source_words::Nearest;
use std::alloc::{AllocError, Global};

/// Puts which of these words was meant, if one is like a word.
fn push_meant(to: &mut String, word: &str, words: &[&str]) -> Result<(), AllocError> {
    let mut nearest = Nearest::to(word);
    for candidate in words {
        nearest.consider(word, *candidate);
    }
    match nearest.name {
        Some(name) => write!(to, "; did you mean `{name}`?"),
        None => Ok(()),
    }
}

/// Puts what is wrong with where a line is.
fn push_order(to: &mut String, mistake: Mistake<'_>) -> Result<(), AllocError> {
    match mistake {
        Mistake::UnknownLine { word } => {
            write!(to, "no line of a description begins with `{word}`")?;
            push_meant(to, word, WORDS.as_slice())
        }
        Mistake::OutsidePart { word } => {
            write!(to, "`{word}` is a line of a part, and no part is open here")
        }
        Mistake::InsidePart { word, part } => {
            write!(
                to,
                "`{word}` is inside of part {part}, which has no `end` before it"
            )
        }
        Mistake::NoEnd { part } => write!(to, "part {part} has no `end`"),
        Mistake::NoProgram { part } => {
            write!(
                to,
                "part {part} has no program: write `code` and instructions, or `program FILE.c`"
            )
        }
        Mistake::NoLine { part } => {
            write!(
                to,
                "part {part} waits for no interrupt line: `within` says nothing"
            )
        }
        Mistake::NoEvery { number } => {
            write!(to, "line {number} has no `every`: `within` says nothing")
        }
        Mistake::NoPart => to.push_str("a system has a part, and this has none"),
        Mistake::OtherForm { form } => write!(to, "the form of such a line is `{form}`"),
        mistake => push_word(to, mistake),
    }
}

/// Puts what is wrong with a word by itself.
fn push_word(to: &mut String, mistake: Mistake<'_>) -> Result<(), AllocError> {
    match mistake {
        Mistake::NotAName { word } => write!(
            to,
            "`{word}` is no name: a lower-case letter or `_`, and then those and digits"
        ),
        Mistake::NotANumber { word, low, high } => {
            write!(
                to,
                "`{word}` is no number from {low} to {high}, decimal or after `0x`"
            )
        }
        Mistake::NotAPlace { word } => write!(
            to,
            "`{word}` is no address of a page: a multiple of 4096 (0x1000) below 0x80000000"
        ),
        Mistake::Reserved { name } => {
            write!(to, "`{name}` has a meaning of its own: choose another name")
        }
        mistake => push_file(to, mistake),
    }
}

/// Puts what is wrong with a name, or with a file that is named.
fn push_file(to: &mut String, mistake: Mistake<'_>) -> Result<(), AllocError> {
    match mistake {
        Mistake::TakenBy { name, owner } => write!(
            to,
            "`{name}` is the name of something that {owner} gets: choose another name"
        ),
        Mistake::OtherKind { name, kind, wanted } => {
            let (kind, wanted) = (kind.word(), wanted.word());
            write!(to, "{name} is a {kind}, and a {wanted} is wanted")
        }
        Mistake::NotIncluded => to.push_str(
            "this file is not included: 64 files are the most, and this may include itself",
        ),
        Mistake::NoBytes { file } => write!(to, "the bytes of {file} are not read"),
        Mistake::GivenInVain { name } => {
            write!(
                to,
                "`-D {name}=..` is given, and no line is `let {name} NUMBER`"
            )
        }
        _ => Ok(()),
    }
}

/// The line at fault, and where it is.
#[derive(Clone, Copy)]
struct Fault<'a> {
    joined: &'a Joined,
    line: u64,
}

impl Fault<'_> {
    /// Puts what is said on another line already, and on which.
    fn push_doubled(
        &self,
        to: &mut String,
        said: Result<String, AllocError>,
        other: u64,
    ) -> Result<(), AllocError> {
        to.push_str(said?.as_str())?;
        to.push_str(" already, ")?;
        self.joined.push_beside(to, self.line, other)
    }

    /// Puts what is wrong.
    fn push(&self, alloc: Global, to: &mut String, mistake: Mistake<'_>) -> Result<(), AllocError> {
        match mistake {
            Mistake::Doubled { name, line } => {
                self.push_doubled(to, format!(in alloc; "`{name}` is declared"), line)
            }
            Mistake::HeldAlready { part, name, line } => {
                self.push_doubled(to, format!(in alloc; "part {part} has {name}"), line)
            }
            Mistake::PromisedAlready { door, line } => self.push_doubled(
                to,
                format!(in alloc; "of messages at {door} something is promised"),
                line,
            ),
            Mistake::LineBound { number, line } => self.push_doubled(
                to,
                format!(in alloc; "interrupt line {number} is bound"),
                line,
            ),
            mistake => push_order(to, mistake),
        }
    }
}

/// Puts that nothing of a kind has a name, and what has one.
fn push_unknown(
    to: &mut String,
    name: &str,
    wanted: Kind,
    known: &[&str],
) -> Result<(), AllocError> {
    let wanted = wanted.word();
    write!(to, "no {wanted} has the name `{name}`")?;
    if known.is_empty() {
        return write!(to, ": none is declared before this line");
    }
    let mut before = ": declared are ";
    for name in known {
        write!(to, "{before}{name}")?;
        before = ", ";
    }
    push_meant(to, name, known)
}

/// Puts the line of a fault in a description, with the name of its file.
///
/// # Errors
///
/// Memory is refused, also where that is the fault.
pub fn push_fault(
    alloc: Global,
    to: &mut String,
    joined: &Joined,
    fault: &DescriptionFault<'_>,
) -> Result<(), AllocError> {
    match fault {
        DescriptionFault::Line { line, mistake } => {
            let line = *line;
            joined.push_place(to, line)?;
            to.push_str(": ")?;
            Fault { joined, line }.push(alloc, to, *mistake)?;
        }
        DescriptionFault::Unknown {
            line,
            name,
            wanted,
            known,
        } => {
            joined.push_place(to, *line)?;
            to.push_str(": ")?;
            push_unknown(to, *name, *wanted, known.as_slice())?;
        }
        DescriptionFault::OutOfMemory => return Err(AllocError),
    }
    to.push_str("\n")
}
