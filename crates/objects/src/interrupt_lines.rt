//! The numbers of interrupt lines.

ghost use Rattle.std.specs.Prelude.{◌≡◌, ◌<◌};

use std::marker::Model;

/// An interrupt line, 0 to 63. A clause sees its number.
#[derive(Clone, Copy)]
pub struct Line {
    number: u8,
}

impl Model for Line {
    ghost use Rattle.std.specs.Prelude.{ℕ, ◌<◌};

    ghost Value = { ℕ };

    ghost view = { λ line. line.number };

    ghost invariant = { λ line. line.number < 64 };

    ghost inverse = { λ number. record { number = number } };
}

impl Line {
    /// The line of this number.
    pub fn new(number: u8) -> Self
        requires { number < 64 }
        ensures { result ≡ number }
    {
        Line { number }
    }

    /// The line's number.
    pub fn number(self) -> u8
        ensures value { result ≡ self }
        ensures range { result < 64 }
    {
        self.number
    }
}
