//! The mapping of whatever capability a slot holds goes, as a removal asks.

ghost use Rattle.std.specs.Prelude.{◌≡◌};
ghost use Rattle.model.specs.Kernel.Arguments.{Call};
ghost use Rattle.model.specs.Kernel.State.{with_slots};
ghost use Rattle.model.specs.Capabilities.Slots.{capability_at};
ghost use Rattle.model.specs.Kernel.State.{State};
ghost use Rattle.removal_laws.specs.Steps.{unmapped_at};
ghost use Rattle.vspace.specs.Regions.{without_mapping};
ghost use Rattle.vspace.specs.Kept.{SameBesideTables};
ghost use Rattle.vspace.specs.Tables.{TablesAgree};

use crate::frames::{FrameCap, unmap_frame};
use crate::page_tables::{PageTableCap, unmap_table};
use model::{Cap, Slot};
use slots::SlotStore;

/// Takes away the mapping that the capability in a slot holds, if it holds one; that of a page
/// table with the frames in its region.
pub fn unmap_cap<S: SlotStore>(store: &mut S, slot: Slot)
    requires agree { TablesAgree (S.slots store.old) (S.memory store.old) }
    ensures outcome { (s : State) (call : Call) → call.slot ≡ slot
        → call.capability ≡ capability_at (S.slots store.old) slot
        → without_mapping (with_slots s (S.slots store.old)) call call.capability
        ≡ with_slots s (S.slots store.new) }
    ensures removed { S.slots store.new ≡ unmapped_at (S.slots store.old) slot }
    ensures bytes { SameBesideTables (S.slots store.old) (S.memory store.old) (S.memory store.new) }
    ensures order { S.order store.new ≡ S.order store.old }
    ensures agree { TablesAgree (S.slots store.new) (S.memory store.new) }
{
    match store.capability(slot) {
        Cap::Frame {
            offset,
            rights,
            mapping,
        } => {
            let frame = FrameCap {
                slot,
                offset,
                rights,
                mapping,
            };
            unmap_frame(store, frame);
        }
        Cap::PageTable { offset, mapping } => {
            let table = PageTableCap {
                slot,
                offset,
                mapping,
            };
            unmap_table(store, table);
        }
        _ => {}
    }
}
