//! What is wrong with a source text.

ghost use Rattle.std.specs.Prelude.{◌≡◌, ◌≤◌, ◌==◌, if◌then◌else◌};
ghost use Rattle.asm.specs.declared.faults.Fault.{Fault};
ghost use Rattle.asm.specs.Outcomes.{kind_of};

use std::alloc::{AllocError, AllocFailed};

/// What is wrong with a source text, and on which line.
#[derive(Clone, Copy, Debug, PartialEq, Eq)]
pub struct SourceFault {
    /// The number of the line, from 1.
    pub line: u64,
    /// 1 for a line that is none of the text form or is out of its place, 2 for an unknown name,
    /// 3 for a name or label that is there already, 4 for a number out of its range or order, and 5
    /// for out of memory.
    pub kind: u8,
}

/// What is wrong with the line at hand.
#[derive(Clone, Copy)]
pub(crate) enum Fault {
    /// It is none of the text form, or is out of its place.
    Syntax,
    /// Nothing of the wanted sort has this name.
    UnknownName,
    /// Something has this name already.
    Duplicate,
    /// A number is out of its range or order, a key is there already, or there are too many entries.
    Range,
    /// Memory was refused.
    Memory,
}

impl Fault {
    /// This fault on a line.
    pub(crate) fn at(self, line: u64) -> SourceFault
        ensures line { result.line ≡ line }
        ensures kind { (1 ≤ result.kind) × (result.kind ≤ 5) }
        ensures memory { self ≡ Fault.Memory → result.kind ≡ 5 }
        ensures told { result.kind ≡ kind_of self }
    {
        let kind = match self {
            Fault::Syntax => 1,
            Fault::UnknownName => 2,
            Fault::Duplicate => 3,
            Fault::Range => 4,
            Fault::Memory => 5,
        };
        SourceFault { line, kind }
    }
}

/// The fault of a line by itself.
impl From<u8> for Fault {
    ghost from_gives = { λ kind fault. fault ≡ (if kind == 4 then Fault.Range else Fault.Syntax) };

    fn from(kind: u8) -> Fault {
        if kind == asm_line::RANGE {
            Fault::Range
        } else {
            Fault::Syntax
        }
    }
}

impl From<AllocError> for Fault {
    ghost from_gives = { λ _ fault. fault ≡ Fault.Memory };

    fn from(_refused: AllocError) -> Fault {
        Fault::Memory
    }
}

impl<T: Drop> From<AllocFailed<T>> for Fault {
    ghost from_gives = { λ _ fault. fault ≡ Fault.Memory };

    fn from(_refused: AllocFailed<T>) -> Fault {
        Fault::Memory
    }
}
