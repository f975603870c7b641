//! The numbers of capability slots.

ghost use Rattle.std.specs.Prelude.{◌≡◌, ◌^◌, ◌<◌};

use std::marker::Model;

/// A slot that can hold a capability, as a number below 2^20: a sixteenth of the offset of the
/// object that the slot lies in, plus the slot's index in it. A clause sees the number.
#[derive(Clone, Copy, Debug, PartialEq, Eq)]
pub struct Slot {
    number: u32,
}

impl Model for Slot {
    ghost use Rattle.std.specs.Prelude.{ℕ, ◌^◌, ◌<◌};

    ghost Value = { ℕ };

    ghost view = { λ slot. slot.number };

    ghost invariant = { λ slot. slot.number < 2 ^ 20 };

    ghost inverse = { λ number. record { number = number } };
}

impl Slot {
    /// The slot of this number.
    pub fn new(number: u32) -> Self
        requires { number < 2 ^ 20 }
        ensures { result ≡ number }
    {
        Slot { number }
    }

    /// The slot's number.
    pub fn number(self) -> u32
        ensures value { result ≡ self }
        ensures range { result < 2 ^ 20 }
    {
        self.number
    }
}
