//! Message buffers: how long a message from one thread to another may be, and what goes from buffer to buffer.

ghost use Rattle.std.specs.Prelude.{ℕ, ◌≡◌, ◌≤◌, min};
ghost use Rattle.ipc.specs.Buffers.{MayHandOver, buffers_of};
ghost use Rattle.model.specs.Kernel.Messages.{bytes_between, greatest_length, message_between};
ghost use Rattle.objects.specs.Lives.{Beside, state};

use crate::registers::{Message, REGISTER_WORDS, length_in};
use model::Register;
use objects::Live;
use slots::SlotStore;

/// How many words a message has at most between threads with buffers.
const BUFFER_WORDS: u32 = 120;

/// The frames of two threads' buffers, if both have one.
fn buffers<S: SlotStore>(live: &Live<S>, from: u32, to: u32) -> Option<(u32, u32)>
    requires { MayHandOver (state S.SlotStore live.now) from to }
    ensures { result ≡ buffers_of (state S.SlotStore live.now) from to }
{
    let source = live.buffer(from)?;
    let target = live.buffer(to)?;
    Some((source, target))
}

/// How many words a message from one thread to another has at most.
fn greatest_between<S: SlotStore>(live: &Live<S>, from: u32, to: u32) -> u32
    requires { MayHandOver (state S.SlotStore live.now) from to }
    ensures { result
        ≡ min (greatest_length (state S.SlotStore live.now) from) (greatest_length (state S.SlotStore live.now) to) }
{
    match buffers(live, from, to) {
        Some(_) => BUFFER_WORDS,
        None => REGISTER_WORDS,
    }
}

/// How many words of a message of this length go from one thread to another. No buffer is looked at where registers hold all.
fn length_between<S: SlotStore>(live: &Live<S>, from: u32, to: u32, length: u32) -> u32
    requires { MayHandOver (state S.SlotStore live.now) from to }
    ensures { result
        ≡ min length (min (greatest_length (state S.SlotStore live.now) from) (greatest_length (state S.SlotStore live.now) to)) }
{
    if length <= REGISTER_WORDS {
        length
    } else {
        length.min(greatest_between(live, from, to))
    }
}

/// The message of one thread to another.
#[inline(always)]
pub(crate) fn message_between<S: SlotStore>(live: &Live<S>, from: u32, to: u32) -> Message
    requires { MayHandOver (state S.SlotStore live.now) from to }
    ensures { result ≡ message_between (state S.SlotStore live.now) from to }
{
    let info = live.register(from, Register::A1);
    let count = length_between(live, from, to, length_in(info));
    Message::sent(live, from, info, count)
}

/// What no register holds of a message of so many words goes from one thread's buffer to another's, if both have one.
pub(crate) fn copy_between<S: SlotStore>(live: &mut Live<S>, from: u32, to: u32, count: u32)
    requires few { count ≤ 120 }
    requires may { MayHandOver (state S.SlotStore live.old) from to }
    ensures state { state S.SlotStore live.new
        ≡ record (state S.SlotStore live.old) { bytes = bytes_between (state S.SlotStore live.old) from to count } }
    ensures beside { Beside S.SlotStore live.old live.new }
{
    if count <= REGISTER_WORDS {
        return;
    }
    if let Some((source, target)) = buffers(live, from, to) {
        live.copy_words(source, target, count - REGISTER_WORDS);
    }
}
