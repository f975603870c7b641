//! New objects of a pool.
//! seL4 Reference Manual, "Kernel Memory Allocation".

ghost use Rattle.std.specs.Prelude.{ℕ, ◌≡◌, ◌+◌, ◌*◌, ◌^◌, ◌≤◌, ◌<◌, true, Some};
ghost use Rattle.model.specs.Acceptance.CallRules.{may_make};
ghost use Rattle.model.specs.Capabilities.CapabilityWords.{IsPlace};
ghost use Rattle.model.specs.Kernel.ObjectTypes.{new_type};
ghost use Rattle.model.specs.Kernel.Retype.{object_bits};

use crate::SlotKey;
use crate::slot_runs::SlotRun;
use model::ObjectType;

/// Objects of a type, of so many bytes each, one after another in memory from an offset on, a slot for each of them, and the slot of the pool.
#[derive(Clone, Copy)]
pub(crate) struct NewObjects {
    pub(crate) kind: ObjectType,
    pub(crate) size: u32,
    pub(crate) offset: u32,
    pub(crate) slots: SlotRun,
    pub(crate) pool: SlotKey,
    ghost made: { may_make (Some (new_type kind)) ≡ true },
    ghost sized: { size ≡ 2 ^ object_bits (new_type kind) },
    ghost most: { size ≤ 4096 },
    ghost few: { slots.count ≤ 256 },
    ghost places: { (i : ℕ) → i < slots.count → IsPlace (offset + i * 2 ^ object_bits (new_type kind)) (object_bits (new_type kind)) },
}
