//! A slot that stays where some go.

ghost use Rattle.std.specs.Prelude.{◌≡◌, false};
ghost use Rattle.typestate.specs.Removals.{gone_by};

use crate::NotedSlot;
use crate::removal::Removal;

/// A full slot of those at a point that stays where some go.
#[derive(Clone, Copy)]
pub(crate) struct Staying<'r, 's, 'b> {
    pub(crate) removal: &'r Removal<'s, 'b>,
    pub(crate) slot: &'r NotedSlot,
    ghost stays: { gone_by removal.now slot.now.key ≡ false },
}
