//! A full slot of a thread's.

ghost use Rattle.std.specs.Prelude.{◌≡◌, Some};
ghost use Rattle.model.specs.Acceptance.NotedStates.{slot_at};
ghost use Rattle.typestate.specs.Differences.{slots_of};

use crate::{NotedSlot, ThreadSlots};

/// A full slot of the thread's at a point, with what it holds, beside all of them.
#[derive(Clone, Copy)]
pub(crate) struct HeldSlot<'a, 's, 'n, 'h> {
    pub(crate) own: ThreadSlots<'a, 's, 'n>,
    pub(crate) held: &'h NotedSlot,
    ghost there: { slot_at (slots_of own.slots) held.now.key ≡ Some held.now },
}
