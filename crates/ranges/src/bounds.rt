//! The ranges of all registers.

ghost use Rattle.std.specs.Prelude.{◌≡◌, ◌↔◌, AllPairs, IsTrue, length, replicate};
ghost use Rattle.model.specs.Machine.Instructions.{IsRegister};
ghost use Rattle.model.specs.Acceptance.Ranges.{AreWithin, full, range_of, single, with_range};
ghost use Rattle.ranges.specs.Orders.{AreOrdered, IsOrdered};

use model::{Range, Register};
use std::marker::Model;

/// The ranges of registers 1 to 31, each with a value. Register 0 is 0. A clause sees the list of the 31 ranges.
#[derive(Clone, Copy, Debug)]
pub struct Bounds {
    ranges: [Range; 31],
}

impl Model for Bounds {
    ghost use Rattle.std.specs.Prelude.{◌≡◌, List, length};
    ghost use Rattle.model.specs.declared.ranges.Range.{Range};
    ghost use Rattle.ranges.specs.Orders.{AreOrdered};

    ghost Value = { List Range };

    ghost view = { λ b. b.ranges };

    ghost inverse = { λ ranges. record { ranges = ranges } };

    ghost invariant = { λ b. (length b.ranges ≡ 31) × AreOrdered b.ranges };
}

impl Bounds {
    /// Every register has every value.
    pub fn full() -> Self
        ensures { result ≡ replicate 31 full }
    {
        Bounds {
            ranges: [Range::FULL; 31],
        }
    }

    /// Every register is 0.
    pub fn zero() -> Self
        ensures { result ≡ replicate 31 (single 0) }
    {
        Bounds {
            ranges: [Range { low: 0, high: 0 }; 31],
        }
    }

    /// The ranges of all 31 registers.
    pub(crate) fn all(&self) -> &Self
        ensures same { result.now ≡ self.now }
        ensures count { length self.now ≡ 31 }
        ensures ordered { AreOrdered self.now }
    {
        let _ranges = self.ranges;
        self
    }

    /// The range of a register.
    pub fn get(&self, register: Register) -> Range
        requires { IsRegister register }
        ensures range { result ≡ range_of self.now register }
        ensures ordered { IsOrdered result }
    {
        if register.0 == 0 {
            Range::single(0)
        } else {
            self.ranges[register.0 as usize - 1]
        }
    }

    /// Sets the range of a register. Register 0 stays 0.
    pub fn set(&mut self, register: Register, range: Range)
        requires register { IsRegister register }
        requires ordered { IsOrdered range }
        ensures { self.new ≡ with_range self.old register range }
    {
        if register.0 != 0 {
            self.ranges[register.0 as usize - 1] = range;
        }
    }

    /// Whether each register's range lies within that of `other`.
    pub fn is_within(&self, other: &Bounds) -> bool
        ensures { IsTrue result ↔ AreWithin self.now other.now }
    {
        for i in 0..31usize {
            if !self.ranges[i].is_within(other.ranges[i]) {
                return false;
            }
        }
        true
    }
}
