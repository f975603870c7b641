//! Slots that go.
//! seL4 Reference Manual, "Deletion, Revocation, and Recycling".

ghost use Rattle.std.specs.Prelude.{◌≡◌, true};
ghost use Rattle.typestate.specs.Levels.{all_below, touched_by};
ghost use Rattle.typestate.specs.Orders.{Rise};

use crate::packed_slot::PackedSlot;
use crate::{NotedSlots, Removed};

/// Slots at a point of which some go, with the changes whose slots descend from the one of which all descendants go, and those whose
/// slots were derived from one that goes or is named.
#[derive(Clone, Copy)]
pub(crate) struct Removal<'s, 'b> {
    pub(crate) slots: NotedSlots<'s>,
    pub(crate) which: Removed,
    pub(crate) below: &'b [PackedSlot],
    pub(crate) touched: &'b [PackedSlot],
    /// Whether all that is touched goes.
    pub(crate) is_all: bool,
    ghost listed: { below.now ≡ all_below slots which },
    ghost told: { touched.now ≡ touched_by slots which },
    ghost ordered: { Rise below.now },
    ghost all: { is_all ≡ true → touched.now ≡ below.now },
}
