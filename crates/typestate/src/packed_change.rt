//! A change to a slot in few bytes.

ghost use Rattle.std.specs.Prelude.{◌≡◌, is_some, true};
ghost use Rattle.model.specs.Capabilities.CapabilityFields.{unpacked};

use std::marker::Model;

/// A name as its two halves, so that a change has 20 bytes. A clause sees its number.
#[derive(Clone, Copy)]
pub struct Name {
    high: u32,
    low: u32,
}

impl Model for Name {
    ghost use Rattle.std.specs.Prelude.{ℕ, ◌≡◌, ◌*◌, ◌+◌, ◌/◌, ◌%◌, ◌<◌};
    ghost use Rattle.std.proofs.Common.{arith};

    ghost Value = { ℕ };

    ghost view = { λ name. name.high * 4294967296 + name.low };

    ghost invariant = { λ name. name.low < 4294967296 };

    ghost inverse = { λ number. record { high = number / 4294967296; low = number % 4294967296 } };

    ghost inverse_ok = { λ name small. let high : (name.high * 4294967296 + name.low) / 4294967296 ≡ name.high = omega (arith, small) in
        let low : (name.high * 4294967296 + name.low) % 4294967296 ≡ name.low = omega (arith, small) in λ i. record { high = high i; low = low i } };
}

impl Name {
    /// The name of this number.
    pub(crate) fn of(number: u64) -> Self
        ensures { result ≡ number }
    {
        Name {
            high: (number / 0x1_0000_0000) as u32,
            low: (number % 0x1_0000_0000) as u32,
        }
    }

    /// Its number.
    pub(crate) fn number(self) -> u64
        ensures { result ≡ self }
    {
        u64::from(self.high) * 0x1_0000_0000 + u64::from(self.low)
    }
}

/// What a change leaves in its slot: the words of the capability, and the name of what that was derived from.
#[derive(Clone, Copy)]
pub struct PackedChange {
    pub(crate) head: u32,
    pub(crate) word: u32,
    pub(crate) parent: Option<Name>,
    ghost spelled: { is_some (unpacked head word) ≡ true },
}

impl PackedChange {
    /// The name of what the slot was derived from.
    pub(crate) fn parent_name(&self) -> Option<Name>
        ensures { result ≡ self.now.parent }
    {
        self.parent
    }
}
