//! What a branch leaves of the ranges of its two registers, on each way (RISC-V Unprivileged ISA, 2.5).

ghost use Rattle.std.specs.Prelude.{◌≡◌, ◌==◌, if◌then◌else◌, IfSome, Some, None};
ghost use Rattle.model.specs.Machine.Instructions.{IsRegister};
ghost use Rattle.model.specs.Acceptance.Edges.{branch_ranges, equal_sides, have_one_sign, if_one_sign, intersection, is_empty_range, joined, lesser_sides};
ghost use Rattle.model.specs.Acceptance.Edges.{narrowed, not_lesser_sides, unequal_side, unequal_sides, with_sides, without_value};
ghost use Rattle.ranges.specs.Edges.{only_if};
ghost use Rattle.ranges.specs.Orders.{IsOrdered};

use crate::Bounds;
use model::{BranchOp, Range, Register};
use std::marker::Model;

/// A range that may be empty: its low end, up to 2^32, is above its high end then. A clause sees a range.
#[derive(Clone, Copy)]
struct Side {
    low: u64,
    high: u32,
}

impl Model for Side {
    ghost use Rattle.model.specs.declared.ranges.Range.{Range};

    ghost Value = { Range };

    ghost view = { λ s. record { low = s.low; high = s.high } };

    ghost inverse = { λ range. record { low = range.low; high = range.high } };
}

impl Side {
    /// All of a range.
    fn of(range: Range) -> Side
        ensures { result ≡ range }
    {
        Side {
            low: u64::from(range.low),
            high: range.high,
        }
    }

    /// The range, if it is not empty.
    fn range(self) -> Option<Range>
        ensures range { result ≡ (if is_empty_range self then None else Some self) }
        ensures ordered { IfSome result IsOrdered }
    {
        if u64::from(self.high) < self.low {
            None
        } else {
            Some(Range {
                low: self.low as u32,
                high: self.high,
            })
        }
    }

    /// The values of both.
    fn intersection(self, other: Side) -> Side
        ensures { result ≡ intersection self other }
    {
        Side {
            low: self.low.max(other.low),
            high: self.high.min(other.high),
        }
    }
}

/// Where both are equal.
fn equal_sides(first: Side, second: Side) -> (Side, Side)
    ensures { result ≡ equal_sides first second }
{
    let both = first.intersection(second);
    (both, both)
}

/// A range, with an end that equals `value` moved in by 1.
fn without_value(range: Range, value: u32) -> Side
    ensures { result ≡ without_value range value }
{
    let low = if range.low == value {
        u64::from(value) + 1
    } else {
        u64::from(range.low)
    };
    let high = if range.high == value {
        value.saturating_sub(1)
    } else {
        range.high
    };
    Side { low, high }
}

/// One of two unequal sides: it is not the other's value, where that has only one.
fn unequal_side(range: Range, other: Range) -> Side
    ensures { result ≡ unequal_side range other }
{
    match other.value() {
        Some(value) => without_value(range, value),
        None => Side::of(range),
    }
}

/// Where both are unequal.
fn unequal_sides(first: Range, second: Range) -> (Side, Side)
    ensures { result ≡ unequal_sides first second }
{
    (unequal_side(first, second), unequal_side(second, first))
}

/// Where the first is less, of unsigned numbers. Nothing is less than 0.
fn lesser_sides(first: Range, second: Range) -> (Side, Side)
    ensures { result ≡ lesser_sides first second }
{
    let below = match second.high.checked_sub(1) {
        Some(greatest) => Side {
            low: u64::from(first.low),
            high: first.high.min(greatest),
        },
        None => Side { low: 1, high: 0 },
    };
    let above = Side {
        low: u64::from(second.low).max(u64::from(first.low) + 1),
        high: second.high,
    };
    (below, above)
}

/// Where the first is not less, of unsigned numbers.
fn not_lesser_sides(first: Range, second: Range) -> (Side, Side)
    ensures { result ≡ not_lesser_sides first second }
{
    let above = Side {
        low: u64::from(first.low.max(second.low)),
        high: first.high,
    };
    let below = Side {
        low: u64::from(second.low),
        high: second.high.min(first.high),
    };
    (above, below)
}

/// Whether all values of both are negative as signed numbers, or none is. These compare as unsigned ones.
fn have_one_sign(first: Range, second: Range) -> bool
    ensures { result ≡ have_one_sign first second }
{
    const NEGATIVE: u32 = 1 << 31;
    first.high < NEGATIVE && second.high < NEGATIVE
        || NEGATIVE <= first.low && NEGATIVE <= second.low
}

/// Where the first is less, of signed numbers.
fn signed_lesser_sides(first: Range, second: Range) -> (Side, Side)
    ensures { result ≡ if_one_sign first second (lesser_sides first second) }
{
    if have_one_sign(first, second) {
        lesser_sides(first, second)
    } else {
        (Side::of(first), Side::of(second))
    }
}

/// Where the first is not less, of signed numbers.
fn signed_not_lesser_sides(first: Range, second: Range) -> (Side, Side)
    ensures { result ≡ if_one_sign first second (not_lesser_sides first second) }
{
    if have_one_sign(first, second) {
        not_lesser_sides(first, second)
    } else {
        (Side::of(first), Side::of(second))
    }
}

/// What the comparison of a branch says of its two sides, where it holds or not.
#[tactic(auto, unfolding(model::specs::Acceptance::Edges::narrowed))]
fn narrowed(op: BranchOp, taken: bool, first: Range, second: Range) -> (Side, Side)
    ensures { result ≡ narrowed op taken first second }
{
    match (op, taken) {
        (BranchOp::Beq, true) | (BranchOp::Bne, false) => {
            equal_sides(Side::of(first), Side::of(second))
        }
        (BranchOp::Beq, false) | (BranchOp::Bne, true) => unequal_sides(first, second),
        (BranchOp::Bltu, true) | (BranchOp::Bgeu, false) => lesser_sides(first, second),
        (BranchOp::Bltu, false) | (BranchOp::Bgeu, true) => not_lesser_sides(first, second),
        (BranchOp::Blt, true) | (BranchOp::Bge, false) => signed_lesser_sides(first, second),
        (BranchOp::Blt, false) | (BranchOp::Bge, true) => signed_not_lesser_sides(first, second),
    }
}

/// The two sides where both are one register: what holds of both.
fn joined(is_one: bool, sides: (Side, Side)) -> (Side, Side)
    ensures { result ≡ joined is_one sides }
{
    if is_one {
        equal_sides(sides.0, sides.1)
    } else {
        sides
    }
}

/// What a branch compares: two registers.
#[derive(Clone, Copy)]
pub(crate) struct Compared {
    pub(crate) op: BranchOp,
    pub(crate) rs1: Register,
    pub(crate) rs2: Register,
    ghost first: { IsRegister rs1 },
    ghost second: { IsRegister rs2 },
}

impl Compared {
    /// Gives its registers these ranges, unless one of the two is empty: whether it did.
    fn set_sides(self, bounds: &mut Bounds, sides: (Side, Side)) -> bool
        ensures { only_if result bounds.new ≡ with_sides bounds.old self.rs1 self.rs2 sides }
    {
        match (sides.0.range(), sides.1.range()) {
            (Some(first), Some(second)) => {
                bounds.set(self.rs1, first);
                bounds.set(self.rs2, second);
                true
            }
            _ => false,
        }
    }

    /// Makes of the ranges those that the branch leaves possible where its comparison holds (`taken`) or not, unless it cannot go
    /// that way: whether it can. Register 0 stays 0.
    pub(crate) fn narrow(self, taken: bool, bounds: &mut Bounds) -> bool
        ensures { only_if result bounds.new ≡ branch_ranges self.op taken self.rs1 self.rs2 bounds.old }
    {
        let sides = narrowed(self.op, taken, bounds.get(self.rs1), bounds.get(self.rs2));
        self.set_sides(bounds, joined(self.rs1 == self.rs2, sides))
    }
}

/// The ranges that a branch leaves possible where its comparison holds (`taken`) or not, or none where it cannot go
/// that way. Register 0 stays 0.
pub fn refine(
    op: BranchOp,
    taken: bool,
    rs1: Register,
    rs2: Register,
    bounds: &Bounds,
) -> Option<Bounds>
    requires first { IsRegister rs1 }
    requires second { IsRegister rs2 }
    ensures { result ≡ branch_ranges op taken rs1 rs2 bounds.now }
{
    let mut left = *bounds;
    let compared = Compared { op, rs1, rs2 };
    if compared.narrow(taken, &mut left) {
        Some(left)
    } else {
        None
    }
}
