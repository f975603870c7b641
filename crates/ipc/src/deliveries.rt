//! Threads that get messages, and go on after their calls.

ghost use Rattle.std.specs.Prelude.{ℕ, ◌≡◌, Some};
ghost use Rattle.ipc.specs.Buffers.{MayHandOver};
ghost use Rattle.model.specs.Kernel.Kinds.{kind_at};
ghost use Rattle.model.specs.Kernel.Messages.{a0, a1, bytes_between, deliver, deliver_sent, deliver_with, deliver_word};
ghost use Rattle.model.specs.Kernel.Messages.{passes, passes_with, word_registers, write_words};
ghost use Rattle.model.specs.Kernel.Retype.{NewThread};
ghost use Rattle.model.specs.Kernel.State.{thread_at};
ghost use Rattle.model.specs.Machine.ProgramMemory.{write};
ghost use Rattle.objects.specs.Lives.{Beside, state};
ghost use Rattle.objects.specs.thread_records.Threads.{sender_of};

use crate::buffers::{copy_between, message_between};
use crate::registers::{Message, word_register};
use model::Register;
use objects::{Live, Sent, WaitingSender};
use slots::SlotStore;

/// A thread goes on after its call.
pub fn pass<S: SlotStore>(live: &mut Live<S>, thread: u32)
    requires there { kind_at (state S.SlotStore live.old) thread ≡ Some NewThread }
    ensures state { state S.SlotStore live.new
        ≡ passes (state S.SlotStore live.old) thread }
    ensures beside { Beside S.SlotStore live.old live.new }
{
    let pc = live.pc(thread);
    live.set_pc(thread, pc.wrapping_add(4));
}

/// A thread goes on after its call with the words of a message in the registers that hold words.
#[inline(always)]
fn pass_with_words<S: SlotStore>(live: &mut Live<S>, thread: u32, message: &Message)
    requires there { kind_at (state S.SlotStore live.old) thread ≡ Some NewThread }
    ensures state { state S.SlotStore live.new
        ≡ passes_with (state S.SlotStore live.old) thread
        (write_words (thread_at (state S.SlotStore live.old) thread).registers word_registers message.now.words) }
    ensures beside { Beside S.SlotStore live.old live.new }
{
    let words = message.held();
    'words: for index in 0..words.len() {
        live.set_register(thread, word_register(index), words[index]);
    }
    pass(live, thread);
}

/// A thread gets a message in its registers, and goes on.
#[inline(always)]
fn deliver<S: SlotStore>(live: &mut Live<S>, thread: u32, badge: u32, message: &Message)
    requires there { kind_at (state S.SlotStore live.old) thread ≡ Some NewThread }
    ensures state { state S.SlotStore live.new
        ≡ deliver (state S.SlotStore live.old) thread badge message.now }
    ensures beside { Beside S.SlotStore live.old live.new }
{
    live.set_register(thread, Register::A0, badge);
    live.set_register(thread, Register::A1, message.info());
    pass_with_words(live, thread, message);
}

/// A thread gets a word in a0 alone, and goes on.
pub fn deliver_word<S: SlotStore>(live: &mut Live<S>, thread: u32, word: u32)
    requires there { kind_at (state S.SlotStore live.old) thread ≡ Some NewThread }
    ensures state { state S.SlotStore live.new
        ≡ deliver_word (state S.SlotStore live.old) thread word }
    ensures beside { Beside S.SlotStore live.old live.new }
{
    live.set_register(thread, Register::A0, word);
    pass(live, thread);
}

/// A thread gets 0 in a0 and an info word in a1, as a message without words has them, and goes on.
pub fn deliver_info<S: SlotStore>(live: &mut Live<S>, thread: u32, info: u32)
    requires there { kind_at (state S.SlotStore live.old) thread ≡ Some NewThread }
    ensures state { state S.SlotStore live.new
        ≡ passes_with (state S.SlotStore live.old) thread
        (write (write (thread_at (state S.SlotStore live.old) thread).registers a0 0) a1 info) }
    ensures beside { Beside S.SlotStore live.old live.new }
{
    live.set_register(thread, Register::A0, 0);
    live.set_register(thread, Register::A1, info);
    pass(live, thread);
}

/// A thread gets a message of another one in its registers and its buffer, and goes on.
#[inline(always)]
pub(crate) fn hand_over<S: SlotStore>(
    live: &mut Live<S>,
    from: u32,
    to: u32,
    badge: u32,
    message: &Message,
)
    requires { MayHandOver (state S.SlotStore live.old) from to }
    ensures state { state S.SlotStore live.new
        ≡ deliver_with (state S.SlotStore live.old) (bytes_between (state S.SlotStore live.old) from to message.now.count) to badge message.now }
    ensures beside { Beside S.SlotStore live.old live.new }
{
    copy_between(live, from, to, message.count());
    deliver(live, to, badge, message);
}

/// A thread gets what a sender says, and goes on. A fault goes by registers alone.
#[inline]
pub(crate) fn deliver_sent<S: SlotStore>(live: &mut Live<S>, sender: &WaitingSender, receiver: u32)
    requires { MayHandOver (state S.SlotStore live.old) sender.now.thread receiver }
    ensures state { state S.SlotStore live.new
        ≡ deliver_sent (state S.SlotStore live.old) (sender_of sender.now.thread sender.now.sending) receiver }
    ensures beside { Beside S.SlotStore live.old live.new }
{
    let badge = sender.sending.badge;
    match sender.sending.sent {
        Sent::Send | Sent::Call => {
            let message = message_between(live, sender.thread, receiver);
            hand_over(live, sender.thread, receiver, badge, &message);
        }
        Sent::Fault(fault) => deliver(live, receiver, badge, &Message::of_fault(fault)),
    }
}
