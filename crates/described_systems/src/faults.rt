//! Why a description is refused.

use crate::declared::Kind;
use std::alloc::{AllocError, AllocFailed};

/// What is wrong on a line.
#[derive(Clone, Copy)]
pub enum Mistake<'a> {
    /// No line begins with this word.
    UnknownLine {
        word: &'a str,
    },
    /// A line of a part is outside of parts.
    OutsidePart {
        word: &'a str,
    },
    /// A declaration is inside of a part that has no end before it.
    InsidePart {
        word: &'a str,
        part: &'a str,
    },
    /// The part has no end.
    NoEnd {
        part: &'a str,
    },
    /// The part has no program.
    NoProgram {
        part: &'a str,
    },
    /// It is said how soon the part deals with its interrupts, and it has none.
    NoLine {
        part: &'a str,
    },
    /// So it is, and how often this one comes is not said.
    NoEvery {
        number: u32,
    },
    /// There is no part.
    NoPart,
    /// The line is not of the form that its first word has.
    OtherForm {
        form: &'static str,
    },
    /// The word is no name.
    NotAName {
        word: &'a str,
    },
    /// The name has a meaning of its own.
    Reserved {
        name: &'a str,
    },
    /// The name is one that something of a part or a bell gets.
    TakenBy {
        name: &'a str,
        owner: &'a str,
    },
    /// The word is no number in this range.
    NotANumber {
        word: &'a str,
        low: u32,
        high: u32,
    },
    /// The word is no address of a page.
    NotAPlace {
        word: &'a str,
    },
    /// The name is declared on this line already.
    Doubled {
        name: &'a str,
        line: u64,
    },
    /// The name is declared as something else than is wanted.
    OtherKind {
        name: &'a str,
        kind: Kind,
        wanted: Kind,
    },
    /// The part has a line on this already.
    HeldAlready {
        part: &'a str,
        name: &'a str,
        line: u64,
    },
    /// Of messages at the door something is promised on this line already.
    PromisedAlready {
        door: &'a str,
        line: u64,
    },
    /// The file that the line includes is not in its place.
    NotIncluded,
    /// The bytes of the file that the line names are not there.
    NoBytes {
        file: &'a str,
    },
    /// A number is given for a name that no line `let` has.
    GivenInVain {
        name: &'a str,
    },
    /// The interrupt is bound on this line already.
    LineBound {
        number: u32,
        line: u64,
    },
}

/// Why a description is refused.
#[derive(Drop)]
pub enum DescriptionFault<'a> {
    /// For what is wrong on a line, counted from 1.
    Line {
        line: u64,
        mistake: Mistake<'a>,
    },
    /// Nothing of the kind that is wanted has the name, but these have one.
    Unknown {
        line: u64,
        name: &'a str,
        wanted: Kind,
        known: Vec<&'a str>,
    },
    /// Memory was refused.
    OutOfMemory,
}

impl From<AllocError> for DescriptionFault<'_> {
    fn from(_refused: AllocError) -> Self {
        DescriptionFault::OutOfMemory
    }
}

impl<T: Drop> From<AllocFailed<T>> for DescriptionFault<'_> {
    fn from(_refused: AllocFailed<T>) -> Self {
        DescriptionFault::OutOfMemory
    }
}

/// The fault for what is wrong on a line.
pub(crate) fn fault(line: u64, mistake: Mistake<'_>) -> DescriptionFault<'_> {
    DescriptionFault::Line { line, mistake }
}
