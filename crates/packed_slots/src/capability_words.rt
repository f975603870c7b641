//! The two words of a capability, written into a slot.

ghost use Rattle.std.specs.Prelude.{◌≡◌, ◌+◌, ◌*◌, ◌^◌, ◌<◌, ◌≤◌, length};
ghost use Rattle.model.specs.Capabilities.CapabilityWords.{IsCapability};
ghost use Rattle.packed_slots.specs.Packing.{head_of, tail_of};
ghost use Rattle.packed_slots.specs.Words.{with_cap, word_of};

use crate::words::{SlotMemory, put_word, word};
use capwords::pack;
use model::{Cap, Slot};

/// Writes the two words of a capability.
pub(crate) fn put_capability(memory: &mut SlotMemory, slot: Slot, capability: Cap)
    requires inside { 16 * (slot + 1) ≤ length memory.old }
    requires valid { IsCapability capability }
    ensures bytes { memory.new ≡ with_cap memory.old slot (head_of capability) (tail_of capability) }
    ensures size { length memory.new ≡ length memory.old }
    ensures head { head_of capability < 2 ^ 32 }
    ensures tail { tail_of capability < 2 ^ 32 }
{
    let [head, tail] = pack(capability);
    put_word(memory, slot, 0, head);
    put_word(memory, slot, 1, tail);
}

/// Writes the two words of a slot's capability into another slot.
pub(crate) fn copy_capability(memory: &mut SlotMemory, from: Slot, to: Slot)
    requires { 16 * (to + 1) ≤ length memory.old }
    ensures bytes { memory.new ≡ with_cap memory.old to (word_of memory.old from 0) (word_of memory.old from 1) }
    ensures size { length memory.new ≡ length memory.old }
    ensures head { word_of memory.old from 0 < 2 ^ 32 }
    ensures tail { word_of memory.old from 1 < 2 ^ 32 }
{
    let head = word(memory, from, 0);
    let tail = word(memory, from, 1);
    put_word(memory, to, 0, head);
    put_word(memory, to, 1, tail);
}
