//! Who takes the faults of a thread.

ghost use Rattle.std.specs.Prelude.{◌≡◌, ◌^◌, ◌<◌, ◌&&◌, option_map};
ghost use Rattle.faults.specs.Handlers.{handler_told};
ghost use Rattle.model.specs.Capabilities.Lookup.{called_slot};
ghost use Rattle.model.specs.Capabilities.Rights.{may_grant_reply, may_write};
ghost use Rattle.model.specs.Capabilities.Slots.{capability_at};
ghost use Rattle.model.specs.Kernel.Faults.{handler, handler_in, handler_of};
ghost use Rattle.model.specs.Kernel.State.{State, cspace_slot};
ghost use Rattle.objects.specs.Lives.{state};

use cspace::called_capability;
use model::{Cap, Rights, Slot};
use objects::Live;
use slots::SlotStore;

/// An endpoint that takes faults, and the badge with which they come.
#[derive(Clone, Copy)]
pub(crate) struct Handler {
    pub(crate) endpoint: u32,
    pub(crate) badge: u32,
}

/// Whether an endpoint takes faults by such rights: they write, and let the handler reply.
fn take_faults(rights: Rights) -> bool
    ensures { result ≡ (may_write rights && may_grant_reply rights) }
{
    rights.may_write() && rights.may_grant_reply()
}

/// The handler that a capability names: an endpoint, by rights that take faults.
fn handler_of(capability: Cap) -> Option<Handler>
    ensures { option_map handler_told result ≡ handler_of capability }
{
    match capability {
        Cap::Endpoint {
            offset,
            rights,
            badge,
        } => {
            if !take_faults(rights) {
                return None;
            }
            Some(Handler {
                endpoint: offset,
                badge,
            })
        }
        _ => None,
    }
}

/// The handler that an address names in the capability space of a thread.
fn handler_at<S: SlotStore>(store: &S, thread: u32, address: u32) -> Option<Handler>
    requires { thread < 2 ^ 24 }
    ensures { (s : State) → s.slots ≡ S.slots store.now → option_map handler_told result
        ≡ handler_in s (called_slot s.slots (capability_at s.slots (cspace_slot thread)) address) }
{
    let root = store.capability(Slot::new(thread / 16));
    match called_capability(store, root, address) {
        Ok((_, capability)) => handler_of(capability),
        Err(_) => None,
    }
}

/// The handler that a thread's fault address names; address 0 names none.
pub(crate) fn find_handler<S: SlotStore>(live: &Live<S>, thread: u32) -> Option<Handler>
    requires small { thread < 2 ^ 24 }
    ensures { option_map handler_told result
        ≡ handler (state S.SlotStore live.now) thread }
{
    let address = live.fault_address(thread);
    if address == 0 {
        return None;
    }
    handler_at(live.store(), thread, address)
}
