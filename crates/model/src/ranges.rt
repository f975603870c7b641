//! Ranges of register values.

ghost use Rattle.std.specs.Prelude.{◌≡◌, ◌≤◌, ◌↔◌, IsTrue, None, Some, if◌then◌else◌, ◌==◌};
ghost use Rattle.model.specs.Acceptance.Ranges.{IsWithin, full, single};

/// A range of unsigned values of a register, both ends included.
#[derive(Clone, Copy, Debug, PartialEq, Eq)]
pub struct Range {
    pub low: u32,
    pub high: u32,
}

impl Range {
    /// Every value.
    pub const FULL: Range = Range {
        low: 0,
        high: u32::MAX,
    };

    /// One value.
    pub fn single(value: u32) -> Self
        ensures { result ≡ single value }
    {
        Range {
            low: value,
            high: value,
        }
    }

    /// The value of a range that has only one.
    pub fn value(self) -> Option<u32>
        ensures { result ≡ (if self.low == self.high then Some self.low else None) }
    {
        if self.low == self.high {
            Some(self.low)
        } else {
            None
        }
    }

    /// Whether each value of this range is one of `other`.
    pub fn is_within(self, other: Range) -> bool
        ensures { IsTrue result ↔ IsWithin self other }
    {
        other.low <= self.low && self.high <= other.high
    }
}
