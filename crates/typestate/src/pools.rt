//! A pool of a thread's.

ghost use Rattle.std.specs.Prelude.{◌≡◌, Some, true};
ghost use Rattle.model.specs.Acceptance.NotedStates.{slot_at};
ghost use Rattle.model.specs.Capabilities.CapabilityFields.{is_capability};
ghost use Rattle.model.specs.declared.capabilities.Cap.TheVariants.{Untyped};
ghost use Rattle.typestate.specs.Differences.{slots_of};

use crate::{NotedSlot, ThreadSlots};
use model::UntypedMemory;

/// A slot of the thread's at a point that holds untyped memory, beside all of them.
#[derive(Clone, Copy)]
pub(crate) struct Pool<'a, 's, 'n, 'h> {
    pub(crate) own: ThreadSlots<'a, 's, 'n>,
    pub(crate) held: &'h NotedSlot,
    pub(crate) memory: UntypedMemory,
    ghost there: { slot_at (slots_of own.slots) held.now.key ≡ Some held.now },
    ghost valid: { is_capability (Untyped memory.offset memory.bits memory.watermark) ≡ true },
    ghost pool: { held.now.capability ≡ Untyped memory.offset memory.bits memory.watermark },
}
