//! Messages and signals that are sent.

ghost use Rattle.std.specs.Prelude.{ℕ, ◌≡◌, ◌<◌, ◌≤◌, ◌^◌, Some};
ghost use Rattle.model.specs.Capabilities.LookupNumbers.{bits_left_of};
ghost use Rattle.model.specs.Kernel.Kinds.{kind_at};
ghost use Rattle.model.specs.Kernel.Messages.{signal};
ghost use Rattle.model.specs.Kernel.Retype.{NewEndpoint, NewNotification};
ghost use Rattle.model.specs.Kernel.Steps.{send_on, sends_nothing, signal_on};
ghost use Rattle.objects.specs.Lives.{state_in};
ghost use Rattle.soundness.specs.Running.{IsRunning};

use crate::system_calls::answers::{answer, lacks_capability, pass};
use cnode_ops::Kernel;
use ipc::{send, try_to_send};
use model::{LookupFailure, Outcome, SendCall};
use notify::signal;
use objects::{Sending, Sent};
use slots::SlotStore;

/// What a thread sends by a capability with this badge.
fn sending(sent: Sent, badge: u32, grant_reply: bool) -> Sending
    ensures { result ≡ record { sent = sent; badge = badge; grant_reply = grant_reply } }
{
    Sending {
        sent,
        badge,
        grant_reply,
    }
}

/// A thread sends to an endpoint, by a capability with this badge.
pub(crate) fn send_on<S: SlotStore>(
    kernel: &mut Kernel<S>,
    thread: u32,
    kind: SendCall,
    endpoint: u32,
    badge: u32,
    grant_reply: bool,
) -> Outcome
    requires runs { IsRunning (state_in S.slots S.memory kernel.old) thread }
    requires endpoint { kind_at (state_in S.slots S.memory kernel.old) endpoint ≡ Some NewEndpoint }
    requires small { badge < 2 ^ 28 }
    ensures state { state_in S.slots S.memory kernel.new
        ≡ (send_on (state_in S.slots S.memory kernel.old) thread kind endpoint badge grant_reply).0 }
    ensures outcome { result ≡ (send_on (state_in S.slots S.memory kernel.old) thread kind endpoint badge grant_reply).1 }
{
    match kind {
        SendCall::Calling => {
            send(
                &mut kernel.live,
                endpoint,
                thread,
                sending(Sent::Call, badge, grant_reply),
            );
            Outcome::Waited
        }
        SendCall::Sending => {
            send(
                &mut kernel.live,
                endpoint,
                thread,
                sending(Sent::Send, badge, grant_reply),
            );
            Outcome::Waited
        }
        SendCall::Trying => {
            try_to_send(
                &mut kernel.live,
                endpoint,
                thread,
                sending(Sent::Send, badge, grant_reply),
            );
            Outcome::Plain
        }
    }
}

/// A thread signals a notification, and runs on.
fn give_signal<S: SlotStore>(kernel: &mut Kernel<S>, thread: u32, notification: u32, badge: u32)
    requires runs { IsRunning (state_in S.slots S.memory kernel.old) thread }
    requires notification { kind_at (state_in S.slots S.memory kernel.old) notification ≡ Some NewNotification }
    requires small { badge < 2 ^ 28 }
    ensures state { state_in S.slots S.memory kernel.new
        ≡ signal (state_in S.slots S.memory kernel.old) notification badge }
    ensures runs { IsRunning (state_in S.slots S.memory kernel.new) thread }
{
    signal(&mut kernel.live, notification, badge);
}

/// A thread signals a notification, by a capability with this badge.
pub(crate) fn signal_on<S: SlotStore>(
    kernel: &mut Kernel<S>,
    thread: u32,
    kind: SendCall,
    notification: u32,
    badge: u32,
) -> Outcome
    requires runs { IsRunning (state_in S.slots S.memory kernel.old) thread }
    requires notification { kind_at (state_in S.slots S.memory kernel.old) notification ≡ Some NewNotification }
    requires small { badge < 2 ^ 28 }
    ensures state { state_in S.slots S.memory kernel.new
        ≡ (signal_on (state_in S.slots S.memory kernel.old) thread kind notification badge).0 }
    ensures outcome { result ≡ (signal_on (state_in S.slots S.memory kernel.old) thread kind notification badge).1 }
{
    give_signal(kernel, thread, notification, badge);
    answer(kernel, thread, kind, 0);
    Outcome::Plain
}

/// Without a capability NBSend does nothing, and the others fault.
pub(crate) fn send_nothing<S: SlotStore>(
    kernel: &mut Kernel<S>,
    thread: u32,
    kind: SendCall,
    failure: LookupFailure,
) -> Outcome
    requires runs { IsRunning (state_in S.slots S.memory kernel.old) thread }
    requires few { bits_left_of failure ≤ 32 }
    ensures state { state_in S.slots S.memory kernel.new
        ≡ (sends_nothing (state_in S.slots S.memory kernel.old) thread kind failure).0 }
    ensures outcome { result ≡ (sends_nothing (state_in S.slots S.memory kernel.old) thread kind failure).1 }
{
    match kind {
        SendCall::Calling | SendCall::Sending => {
            lacks_capability(kernel, thread, false, failure)
        }
        SendCall::Trying => {
            pass(kernel, thread);
            Outcome::Plain
        }
    }
}
