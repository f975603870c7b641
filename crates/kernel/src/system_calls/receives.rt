//! Recv and NBRecv.

ghost use Rattle.std.specs.Prelude.{ℕ, ◌≡◌, Some};
ghost use Rattle.kernel.specs.Named.{IsThere};
ghost use Rattle.model.specs.Kernel.Kinds.{kind_at};
ghost use Rattle.model.specs.Kernel.Retype.{NewEndpoint, NewNotification};
ghost use Rattle.model.specs.Kernel.Steps.{receive_by, receive_call, receive_on_endpoint, receive_on_notification};
ghost use Rattle.objects.specs.Lives.{state_in};
ghost use Rattle.soundness.specs.Running.{IsRunning};

use crate::system_calls::answers::lacks_capability;
use crate::system_calls::names::named_capability;
use cnode_ops::Kernel;
use ipc::{receive, try_to_receive};
use model::{Cap, LookupFailure, Outcome, ReceiveCall};
use notify::{poll, wait};
use slots::SlotStore;

/// A thread receives from an endpoint.
fn receive_message<S: SlotStore>(
    kernel: &mut Kernel<S>,
    thread: u32,
    kind: ReceiveCall,
    endpoint: u32,
) -> Outcome
    requires runs { IsRunning (state_in S.slots S.memory kernel.old) thread }
    requires endpoint { kind_at (state_in S.slots S.memory kernel.old) endpoint ≡ Some NewEndpoint }
    ensures state { state_in S.slots S.memory kernel.new
        ≡ (receive_on_endpoint (state_in S.slots S.memory kernel.old) thread kind endpoint).0 }
    ensures outcome { result ≡ (receive_on_endpoint (state_in S.slots S.memory kernel.old) thread kind endpoint).1 }
{
    match kind {
        ReceiveCall::Receiving => {
            receive(&mut kernel.live, endpoint, thread);
            Outcome::Waited
        }
        ReceiveCall::Polling => {
            try_to_receive(&mut kernel.live, endpoint, thread);
            Outcome::Plain
        }
    }
}

/// A thread takes the word of a notification.
fn receive_signal<S: SlotStore>(
    kernel: &mut Kernel<S>,
    thread: u32,
    kind: ReceiveCall,
    notification: u32,
) -> Outcome
    requires runs { IsRunning (state_in S.slots S.memory kernel.old) thread }
    requires notification { kind_at (state_in S.slots S.memory kernel.old) notification ≡ Some NewNotification }
    ensures state { state_in S.slots S.memory kernel.new
        ≡ (receive_on_notification (state_in S.slots S.memory kernel.old) thread kind notification).0 }
    ensures outcome { result ≡ (receive_on_notification (state_in S.slots S.memory kernel.old) thread kind notification).1 }
{
    match kind {
        ReceiveCall::Receiving => {
            wait(&mut kernel.live, notification, thread);
            Outcome::Waited
        }
        ReceiveCall::Polling => {
            poll(&mut kernel.live, notification, thread);
            Outcome::Plain
        }
    }
}

/// A thread receives by a capability. One of another kind, or one that may not read, is as good as none.
fn receive_by<S: SlotStore>(
    kernel: &mut Kernel<S>,
    thread: u32,
    kind: ReceiveCall,
    capability: Cap,
) -> Outcome
    requires runs { IsRunning (state_in S.slots S.memory kernel.old) thread }
    requires there { IsThere (state_in S.slots S.memory kernel.old) capability }
    ensures state { state_in S.slots S.memory kernel.new
        ≡ (receive_by (state_in S.slots S.memory kernel.old) thread kind capability).0 }
    ensures outcome { result ≡ (receive_by (state_in S.slots S.memory kernel.old) thread kind capability).1 }
{
    match capability {
        Cap::Endpoint { offset, rights, .. } if rights.may_read() => {
            receive_message(kernel, thread, kind, offset)
        }
        Cap::Notification { offset, rights, .. } if rights.may_read() => {
            receive_signal(kernel, thread, kind, offset)
        }
        _ => lacks_capability(kernel, thread, true, LookupFailure::MissingCapability),
    }
}

/// Recv or NBRecv by the capability that a0 names.
pub(crate) fn receive_call<S: SlotStore>(
    kernel: &mut Kernel<S>,
    thread: u32,
    kind: ReceiveCall,
) -> Outcome
    requires runs { IsRunning (state_in S.slots S.memory kernel.old) thread }
    ensures state { state_in S.slots S.memory kernel.new
        ≡ (receive_call (state_in S.slots S.memory kernel.old) thread kind).0 }
    ensures outcome { result ≡ (receive_call (state_in S.slots S.memory kernel.old) thread kind).1 }
{
    match named_capability(kernel, thread) {
        Ok((_, capability)) => receive_by(kernel, thread, kind, capability),
        Err(failure) => lacks_capability(kernel, thread, true, failure),
    }
}
