//! Replies to callers, and to threads that faulted.

ghost use Rattle.std.specs.Prelude.{ℕ, ◌≡◌, None, Some};
ghost use Rattle.ipc.specs.Buffers.{MayHandOver};
ghost use Rattle.model.specs.Kernel.Kinds.{kind_at};
ghost use Rattle.model.specs.Kernel.Messages.{message_between, replied, reply, reply_to_call, reply_to_fault, with_caller};
ghost use Rattle.model.specs.Kernel.Retype.{NewThread};
ghost use Rattle.model.specs.Kernel.Soundness.{IsSound};
ghost use Rattle.model.specs.Kernel.State.{thread_at};
ghost use Rattle.objects.specs.Lives.{Beside, state};
ghost use Rattle.objects.specs.thread_records.Threads.{status_of};

use crate::buffers::message_between;
use crate::deliveries::hand_over;
use crate::registers::Message;
use objects::{Live, Status};
use slots::SlotStore;

/// A caller gets the reply of a thread as a message with badge 0, and runs again.
fn reply_to_call<S: SlotStore>(live: &mut Live<S>, thread: u32, caller: u32, message: &Message)
    requires { MayHandOver (state S.SlotStore live.old) thread caller }
    ensures state { state S.SlotStore live.new
        ≡ reply_to_call (state S.SlotStore live.old) thread caller message.now }
    ensures beside { Beside S.SlotStore live.old live.new }
{
    hand_over(live, thread, caller, 0, message);
    live.wake(caller);
}

/// A reply with label 0 resumes a thread that faulted, where its handler says, and any other stops it.
fn reply_to_fault<S: SlotStore>(live: &mut Live<S>, thread: u32, message: &Message)
    requires there { kind_at (state S.SlotStore live.old) thread ≡ Some NewThread }
    ensures state { state S.SlotStore live.new
        ≡ reply_to_fault (state S.SlotStore live.old) thread message.now }
    ensures beside { Beside S.SlotStore live.old live.new }
{
    if message.resumes() {
        let pc = live.pc(thread);
        live.set_pc(thread, message.resumption(pc));
        live.wake(thread);
    } else {
        live.block(thread, Status::Inactive);
    }
}

/// The caller gets the answer of a thread that it waits for.
fn answer<S: SlotStore>(
    live: &mut Live<S>,
    thread: u32,
    caller: u32,
    status: Status,
    message: &Message,
)
    requires { MayHandOver (state S.SlotStore live.old) thread caller }
    ensures state { state S.SlotStore live.new
        ≡ replied (state S.SlotStore live.old) thread caller (status_of status) message.now }
    ensures beside { Beside S.SlotStore live.old live.new }
{
    match status {
        Status::AwaitsReply => reply_to_call(live, thread, caller, message),
        Status::AwaitsHandler => reply_to_fault(live, caller, message),
        Status::Inactive | Status::Runnable | Status::Blocked { .. } => {}
    }
}

/// A thread answers its caller, and gives the right away.
fn reply_to<S: SlotStore>(live: &mut Live<S>, thread: u32, caller: u32)
    requires { MayHandOver (state S.SlotStore live.old) thread caller }
    ensures state { state S.SlotStore live.new
        ≡ replied (with_caller (state S.SlotStore live.old) thread None) thread caller (thread_at (state S.SlotStore live.old) caller).status
        (message_between (state S.SlotStore live.old) thread caller) }
    ensures beside { Beside S.SlotStore live.old live.new }
{
    let message = message_between(live, thread, caller);
    let status = live.status(caller);
    live.set_caller(thread, None);
    answer(live, thread, caller, status, &message);
}

/// A thread answers its caller, if it has one, and gives the right away.
pub fn reply<S: SlotStore>(live: &mut Live<S>, thread: u32)
    requires sound { IsSound (state S.SlotStore live.old) }
    requires there { kind_at (state S.SlotStore live.old) thread ≡ Some NewThread }
    ensures state { state S.SlotStore live.new
        ≡ reply (state S.SlotStore live.old) thread }
    ensures beside { Beside S.SlotStore live.old live.new }
{
    if let Some(caller) = live.caller(thread) {
        reply_to(live, thread, caller);
    }
}
