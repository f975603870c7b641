//! Call, Send and NBSend.

ghost use Rattle.std.specs.Prelude.{ℕ, ◌≡◌};
ghost use Rattle.kernel.specs.Named.{IsHeld};
ghost use Rattle.model.specs.Kernel.Steps.{send_by, send_call};
ghost use Rattle.objects.specs.Lives.{state_in};
ghost use Rattle.soundness.specs.Running.{IsRunning};

use crate::system_calls::answers::refuse;
use crate::system_calls::capability_calls::invoke_on;
use crate::system_calls::names::named_capability;
use crate::system_calls::sends::{send_nothing, send_on, signal_on};
use cnode_ops::Kernel;
use model::{Cap, KError, Outcome, SendCall, Slot};
use slots::SlotStore;

/// A thread sends by what a slot holds: a message, a signal, or else a call on the capability.
fn send_by<S: SlotStore>(
    kernel: &mut Kernel<S>,
    thread: u32,
    kind: SendCall,
    slot: Slot,
    capability: Cap,
) -> Outcome
    requires runs { IsRunning (state_in S.slots S.memory kernel.old) thread }
    requires held { IsHeld (state_in S.slots S.memory kernel.old) slot capability }
    ensures state { state_in S.slots S.memory kernel.new
        ≡ (send_by (state_in S.slots S.memory kernel.old) thread kind slot capability).0 }
    ensures outcome { result ≡ (send_by (state_in S.slots S.memory kernel.old) thread kind slot capability).1 }
{
    match capability {
        Cap::Endpoint {
            offset,
            rights,
            badge,
        } if rights.may_write() => send_on(
            kernel,
            thread,
            kind,
            offset,
            badge,
            rights.may_grant_reply(),
        ),
        Cap::Notification {
            offset,
            rights,
            badge,
        } if rights.may_write() => signal_on(kernel, thread, kind, offset, badge),
        Cap::Endpoint { .. } | Cap::Notification { .. } => {
            refuse(kernel, thread, kind, KError::InvalidCapability)
        }
        _ => invoke_on(kernel, thread, kind, slot, capability),
    }
}

/// Call, Send or NBSend by the capability that a0 names.
pub(crate) fn send_call<S: SlotStore>(
    kernel: &mut Kernel<S>,
    thread: u32,
    kind: SendCall,
) -> Outcome
    requires runs { IsRunning (state_in S.slots S.memory kernel.old) thread }
    ensures state { state_in S.slots S.memory kernel.new
        ≡ (send_call (state_in S.slots S.memory kernel.old) thread kind).0 }
    ensures outcome { result ≡ (send_call (state_in S.slots S.memory kernel.old) thread kind).1 }
{
    match named_capability(kernel, thread) {
        Ok((slot, capability)) => send_by(kernel, thread, kind, slot, capability),
        Err(failure) => send_nothing(kernel, thread, kind, failure),
    }
}
