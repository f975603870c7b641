//! Lines of parents among the slots at a point.
//! seL4 Reference Manual, "Capability Derivation Tree".

ghost use Rattle.std.specs.Prelude.{◌≡◌, ◌≤◌, nat_lt, if◌then◌else◌};
ghost use Rattle.std.specs.Option.{option_map_or};
ghost use Rattle.model.specs.Acceptance.NotedStates.{slot_at};
ghost use Rattle.model.specs.Capabilities.CapabilityKinds.{is_untyped};
ghost use Rattle.typestate.specs.Differences.{slots_of};
ghost use Rattle.typestate.specs.SlotChanges.{noted_depth, noted_parent};

use crate::{NotedSlots, SlotKey};
use model::Cap;

/// How many slots of a line of parents are looked at: none of the kernel's is longer.
const MOST: u32 = 256;

/// How many slots stand above one that was derived from none of the thread's: the untyped memory that a pool was
/// made in, and one more for all else.
fn depth_below_boot(capability: Cap) -> u32
    ensures value { result ≡ (if is_untyped capability then 1 else 2) }
    ensures few { result ≤ 2 }
{
    match capability {
        Cap::Untyped { .. } => 1,
        _ => 2,
    }
}

impl NotedSlots<'_> {
    /// The slot that the slot of this key was derived from, if it is one of the thread's. What the image lists was derived from none.
    pub(crate) fn parent(&self, key: SlotKey) -> Option<SlotKey>
        ensures { result ≡ noted_parent (slots_of self.now) key }
    {
        self.changes.parent_left(key)
    }

    /// How many slots stand above the slot of this key and itself, where it was derived from none of the thread's.
    fn depth_at_top(&self, key: SlotKey) -> u32
        ensures value { result ≡ option_map_or (λ s. if is_untyped s.capability then 1 else 2) (slot_at (slots_of self.now) key) 0 }
        ensures few { result ≤ 2 }
    {
        match self.at(key) {
            Some(slot) => depth_below_boot(slot.capability),
            None => 0,
        }
    }

    /// Whether a child may hang below the slot of this key: no depth is above 255.
    pub fn may_have_child(&self, key: SlotKey) -> bool
        ensures { result ≡ nat_lt (noted_depth 256 (slots_of self.now) key) 255 }
    {
        let mut place = key;
        for above in 0..MOST {
            match self.parent(place) {
                Some(parent) => place = parent,
                None => return above + self.depth_at_top(place) < 255,
            }
        }
        false
    }
}
