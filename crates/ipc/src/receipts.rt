//! What becomes of a sender whose message was received.

ghost use Rattle.std.specs.Prelude.{◌≡◌, Some};
ghost use Rattle.model.specs.Kernel.Kinds.{kind_at};
ghost use Rattle.model.specs.Kernel.Messages.{received, received_waiting, with_caller};
ghost use Rattle.model.specs.Kernel.Retype.{NewThread};
ghost use Rattle.model.specs.Kernel.Scheduling.{block};
ghost use Rattle.objects.specs.Lives.{Beside, state};
ghost use Rattle.objects.specs.thread_records.Threads.{sender_of, sent_of, status_of};

use crate::deliveries::pass;
use objects::{Live, Sent, Status, WaitingSender};
use slots::SlotStore;

/// A thread waits for an answer, and its receiver has the one right to give it.
fn await_answer<S: SlotStore>(live: &mut Live<S>, thread: u32, status: Status, receiver: u32)
    requires there { kind_at (state S.SlotStore live.old) thread ≡ Some NewThread }
    requires receiver { kind_at (state S.SlotStore live.old) receiver ≡ Some NewThread }
    ensures state { state S.SlotStore live.new
        ≡ with_caller (block (state S.SlotStore live.old) thread (status_of status)) receiver (Some thread) }
    ensures beside { Beside S.SlotStore live.old live.new }
{
    live.block(thread, status);
    live.set_caller(receiver, Some(thread));
}

/// What a sender does whose message was received: one that sends passes, and others wait for an answer, or stop if they may not get one.
pub(crate) fn received<S: SlotStore>(live: &mut Live<S>, sender: WaitingSender, receiver: u32)
    requires sender { kind_at (state S.SlotStore live.old) sender.thread ≡ Some NewThread }
    requires receiver { kind_at (state S.SlotStore live.old) receiver ≡ Some NewThread }
    ensures state { state S.SlotStore live.new
        ≡ received (state S.SlotStore live.old) (sender_of sender.thread sender.sending) (sent_of sender.sending.sent) receiver }
    ensures beside { Beside S.SlotStore live.old live.new }
{
    match sender.sending.sent {
        Sent::Send => pass(live, sender.thread),
        Sent::Call => {
            if sender.sending.grant_reply {
                await_answer(live, sender.thread, Status::AwaitsReply, receiver);
            } else {
                live.block(sender.thread, Status::Inactive);
            }
        }
        Sent::Fault(_) => await_answer(live, sender.thread, Status::AwaitsHandler, receiver),
    }
}

/// The same for one that waited: one that sends runs again.
pub(crate) fn received_waiting<S: SlotStore>(
    live: &mut Live<S>,
    sender: WaitingSender,
    receiver: u32,
)
    requires sender { kind_at (state S.SlotStore live.old) sender.thread ≡ Some NewThread }
    requires receiver { kind_at (state S.SlotStore live.old) receiver ≡ Some NewThread }
    ensures state { state S.SlotStore live.new
        ≡ received_waiting (state S.SlotStore live.old) (sender_of sender.thread sender.sending) (sent_of sender.sending.sent) receiver }
    ensures beside { Beside S.SlotStore live.old live.new }
{
    match sender.sending.sent {
        Sent::Send => {
            pass(live, sender.thread);
            live.wake(sender.thread);
        }
        Sent::Call | Sent::Fault(_) => received(live, sender, receiver),
    }
}
