//! What can be wrong with a line by itself.

ghost use Rattle.std.specs.Prelude.{◌≡◌, ◌⊎◌};
ghost use Rattle.asm_line.specs.Meaning.{number_of_fault};

/// The line is none of the text form.
pub const SYNTAX: u8 = 1;

/// A number of the line is out of its range.
pub const RANGE: u8 = 4;

/// What is wrong with a line.
#[derive(Clone, Copy)]
pub enum LineFault {
    /// It is none of the text form.
    Syntax,
    /// A number of it is out of its range.
    Range,
}

impl LineFault {
    /// The number by which a fault of a source text is reported.
    pub(crate) fn number(self) -> u8
        ensures value { result ≡ number_of_fault self }
        ensures kind { (result ≡ 1) ⊎ (result ≡ 4) }
    {
        match self {
            LineFault::Syntax => SYNTAX,
            LineFault::Range => RANGE,
        }
    }
}
