//! Receiving from an endpoint.

ghost use Rattle.std.specs.Prelude.{ℕ, ◌≡◌, Some};
ghost use Rattle.ipc.specs.Buffers.{HaveBuffers, MayHandOver};
ghost use Rattle.model.specs.Kernel.Kinds.{kind_at};
ghost use Rattle.model.specs.Kernel.Messages.{deliver_word, receive, receive_from, receives, try_to_receive, waits_to_receive};
ghost use Rattle.model.specs.Kernel.Retype.{NewEndpoint, NewThread};
ghost use Rattle.model.specs.Kernel.Soundness.{IsSound};
ghost use Rattle.model.specs.Kernel.State.{Runnable, endpoint_at, thread_at};
ghost use Rattle.objects.specs.Lives.{Beside, state};
ghost use Rattle.objects.specs.thread_records.Threads.{sender_of};
ghost use Rattle.objects.specs.Waiting.{IsOneSided, StandsNowhere};

use crate::deliveries::{deliver_sent, deliver_word};
use crate::receipts::received_waiting;
use objects::{Live, Status, WaitingSender};
use slots::SlotStore;

/// A thread that runs receives from a sender that waited.
fn receive_from<S: SlotStore>(live: &mut Live<S>, sender: WaitingSender, receiver: u32)
    requires { MayHandOver (state S.SlotStore live.old) sender.thread receiver }
    ensures state { state S.SlotStore live.new
        ≡ receive_from (state S.SlotStore live.old) (sender_of sender.thread sender.sending) receiver }
    ensures beside { Beside S.SlotStore live.old live.new }
{
    deliver_sent(live, &sender, receiver);
    received_waiting(live, sender, receiver);
}

/// A thread without a right to reply receives from the first sender, or waits.
fn receive_or_wait<S: SlotStore>(live: &mut Live<S>, endpoint: u32, thread: u32)
    requires endpoint { kind_at (state S.SlotStore live.old) endpoint ≡ Some NewEndpoint }
    requires there { kind_at (state S.SlotStore live.old) thread ≡ Some NewThread }
    requires one_sided { IsOneSided (endpoint_at (state S.SlotStore live.old) endpoint) }
    requires buffers { HaveBuffers (state S.SlotStore live.old) }
    requires apart { StandsNowhere (state S.SlotStore live.old).objects thread }
    ensures state { state S.SlotStore live.new
        ≡ receives (state S.SlotStore live.old) endpoint thread (waits_to_receive (state S.SlotStore live.old) endpoint thread)
        (endpoint_at (state S.SlotStore live.old) endpoint).senders }
    ensures beside { Beside S.SlotStore live.old live.new }
{
    match live.take_sender(endpoint) {
        Some(sender) => receive_from(live, sender, thread),
        None => {
            live.push_receiver(endpoint, thread);
            live.block(thread, Status::Blocked { queue: endpoint });
        }
    }
}

/// A thread without a right to reply receives from the first sender, or gets 0.
fn receive_or_pass<S: SlotStore>(live: &mut Live<S>, endpoint: u32, thread: u32)
    requires endpoint { kind_at (state S.SlotStore live.old) endpoint ≡ Some NewEndpoint }
    requires there { kind_at (state S.SlotStore live.old) thread ≡ Some NewThread }
    requires one_sided { IsOneSided (endpoint_at (state S.SlotStore live.old) endpoint) }
    requires buffers { HaveBuffers (state S.SlotStore live.old) }
    ensures state { state S.SlotStore live.new
        ≡ receives (state S.SlotStore live.old) endpoint thread (deliver_word (state S.SlotStore live.old) thread 0)
        (endpoint_at (state S.SlotStore live.old) endpoint).senders }
    ensures beside { Beside S.SlotStore live.old live.new }
{
    match live.take_sender(endpoint) {
        Some(sender) => receive_from(live, sender, thread),
        None => deliver_word(live, thread, 0),
    }
}

/// A thread that runs receives from the first sender, or waits. It first drops the right to reply that it
/// has; that caller waits on.
pub fn receive<S: SlotStore>(live: &mut Live<S>, endpoint: u32, thread: u32)
    requires sound { IsSound (state S.SlotStore live.old) }
    requires endpoint { kind_at (state S.SlotStore live.old) endpoint ≡ Some NewEndpoint }
    requires runs { (thread_at (state S.SlotStore live.old) thread).status ≡ Runnable }
    ensures state { state S.SlotStore live.new
        ≡ receive (state S.SlotStore live.old) endpoint thread }
    ensures beside { Beside S.SlotStore live.old live.new }
{
    live.set_caller(thread, None);
    receive_or_wait(live, endpoint, thread);
}

/// The same without waiting: where no sender is, a0 becomes 0.
pub fn try_to_receive<S: SlotStore>(live: &mut Live<S>, endpoint: u32, thread: u32)
    requires sound { IsSound (state S.SlotStore live.old) }
    requires endpoint { kind_at (state S.SlotStore live.old) endpoint ≡ Some NewEndpoint }
    requires runs { (thread_at (state S.SlotStore live.old) thread).status ≡ Runnable }
    ensures state { state S.SlotStore live.new
        ≡ try_to_receive (state S.SlotStore live.old) endpoint thread }
    ensures beside { Beside S.SlotStore live.old live.new }
{
    live.set_caller(thread, None);
    receive_or_pass(live, endpoint, thread);
}
