//! Sending to an endpoint.

ghost use Rattle.std.specs.Prelude.{◌≡◌, Some};
ghost use Rattle.ipc.specs.Buffers.{MayHandOver};
ghost use Rattle.model.specs.Kernel.Kinds.{kind_at};
ghost use Rattle.model.specs.Kernel.Messages.{send, send_to, try_to_send};
ghost use Rattle.model.specs.Kernel.Retype.{NewEndpoint};
ghost use Rattle.model.specs.Kernel.Soundness.{IsSound};
ghost use Rattle.model.specs.Kernel.State.{Runnable, thread_at};
ghost use Rattle.objects.specs.Lives.{Beside, state};
ghost use Rattle.objects.specs.thread_records.Threads.{sender_of};

use crate::deliveries::{deliver_sent, pass};
use crate::receipts::received;
use objects::{Live, Sending, Status, WaitingSender};
use slots::SlotStore;

/// A thread that runs sends to a receiver that waits, which runs again.
fn send_to<S: SlotStore>(live: &mut Live<S>, sender: WaitingSender, receiver: u32)
    requires { MayHandOver (state S.SlotStore live.old) sender.thread receiver }
    ensures state { state S.SlotStore live.new
        ≡ send_to (state S.SlotStore live.old) (sender_of sender.thread sender.sending) receiver }
    ensures beside { Beside S.SlotStore live.old live.new }
{
    deliver_sent(live, &sender, receiver);
    live.wake(receiver);
    received(live, sender, receiver);
}

/// A thread that runs sends: the first receiver gets the message, or the sender waits.
pub fn send<S: SlotStore>(live: &mut Live<S>, endpoint: u32, thread: u32, sending: Sending)
    requires sound { IsSound (state S.SlotStore live.old) }
    requires endpoint { kind_at (state S.SlotStore live.old) endpoint ≡ Some NewEndpoint }
    requires runs { (thread_at (state S.SlotStore live.old) thread).status ≡ Runnable }
    ensures state { state S.SlotStore live.new
        ≡ send (state S.SlotStore live.old) endpoint (sender_of thread sending) }
    ensures beside { Beside S.SlotStore live.old live.new }
{
    match live.take_receiver(endpoint) {
        Some(receiver) => send_to(live, WaitingSender { thread, sending }, receiver),
        None => {
            live.push_sender(endpoint, thread, sending);
            live.block(thread, Status::Blocked { queue: endpoint });
        }
    }
}

/// A thread that runs sends if a receiver waits; else the message is dropped.
pub fn try_to_send<S: SlotStore>(live: &mut Live<S>, endpoint: u32, thread: u32, sending: Sending)
    requires sound { IsSound (state S.SlotStore live.old) }
    requires endpoint { kind_at (state S.SlotStore live.old) endpoint ≡ Some NewEndpoint }
    requires runs { (thread_at (state S.SlotStore live.old) thread).status ≡ Runnable }
    ensures state { state S.SlotStore live.new
        ≡ try_to_send (state S.SlotStore live.old) endpoint (sender_of thread sending) }
    ensures beside { Beside S.SlotStore live.old live.new }
{
    match live.take_receiver(endpoint) {
        Some(receiver) => send_to(live, WaitingSender { thread, sending }, receiver),
        None => pass(live, thread),
    }
}
