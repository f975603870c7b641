//! What is kept, once a mapping goes.

ghost use Rattle.std.specs.Prelude.{◌≡◌, Bool};
ghost use Rattle.packed_slots.specs.cached_slots.Mappings.{AreMapped, AreMappedBeside};
ghost use Rattle.model.specs.Capabilities.CapabilityKinds.{frame_mapping};
ghost use Rattle.model.specs.Capabilities.Slots.{capability_at};
ghost use Rattle.std.specs.Option.{is_some};

use crate::cached_slots::caches::Tlb;
use model::{Cap, Slot};
use slots::SlotMap;

/// Whether a capability maps a frame.
fn maps_frame(capability: &Cap) -> bool
    ensures { result ≡ is_some (frame_mapping capability.now) }
{
    matches!(
        capability,
        Cap::Frame {
            mapping: Some(_),
            ..
        }
    )
}

/// Forgets all leaves where the capability in a slot maps a frame, so that this slot's mapping is not among them.
pub(crate) fn forget<S: SlotMap>(store: &S, cache: &mut Tlb, slot: Slot)
    requires { AreMapped (S.slots store.now) cache.old }
    ensures { AreMappedBeside (S.slots store.now) slot cache.new }
{
    let capability = store.capability(slot);
    if maps_frame(&capability) {
        cache.flush();
    }
}
