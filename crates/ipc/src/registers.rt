//! Messages in registers: what a sender's hold, and what a receiver's become.

ghost use Rattle.std.specs.Prelude.{ℕ, ◌≡◌, ◌==◌, ◌+◌, ◌%◌, ◌<◌, ◌≤◌, ◌^◌, min, length, map, replicate, slice_index_or, take};
ghost use Rattle.ipc.specs.Registers.{message_for};
ghost use Rattle.model.specs.Kernel.Messages.{a1, info_word, length_of, message_of, register, register_words, resumption, word_registers};
ghost use Rattle.model.specs.Kernel.State.{thread_at};
ghost use Rattle.model.specs.Machine.Instructions.{IsRegister};
ghost use Rattle.model.specs.Machine.ProgramMemory.{read};
ghost use Rattle.objects.specs.Lives.{state};

use model::{FaultKind, Register};
use objects::{Fault, Live};
use slots::SlotStore;
use std::marker::Model;

/// How many words of a message registers hold at most.
pub(crate) const REGISTER_WORDS: u32 = 8;

/// A message: its label, how many words it has, and those of them that registers hold, which are the first so many of these.
#[derive(Drop)]
pub struct Message {
    label: u32,
    count: u32,
    words: [u32; 8],
}

impl Model for Message {
    ghost use Rattle.std.specs.Prelude.{take};
    ghost use Rattle.ipc.specs.Registers.{FitsInfo};
    ghost use Rattle.model.specs.Kernel.Messages as messages;

    ghost Value = { messages.Message };

    ghost view = { λ m. record { label = m.label; count = m.count; words = take m.count m.words } };

    ghost invariant = { λ m. FitsInfo m.label m.count };
}

impl Message {
    /// The message in a sender's registers. A length above 8 counts as 8.
    pub fn of<S: SlotStore>(live: &Live<S>, thread: u32) -> Self
        ensures { result ≡ message_of (thread_at (state S.SlotStore live.now) thread) }
    {
        let info = live.register(thread, Register::A1);
        Message::sent(live, thread, info, length_in(info).min(REGISTER_WORDS))
    }

    /// The message in the registers of a thread with this info word, of so many words: the length that it names, or fewer, but
    /// all that registers hold.
    #[inline(always)]
    pub(crate) fn sent<S: SlotStore>(live: &Live<S>, thread: u32, info: u32, count: u32) -> Self
        requires few { count ≤ 120 }
        requires held { (info ≡ read (thread_at (state S.SlotStore live.now) thread).registers a1) × (min register_words count ≡ length_of info) }
        ensures { result ≡ record (message_of (thread_at (state S.SlotStore live.now) thread)) { count = count } }
    {
        Message {
            label: info / 0x1000,
            count,
            words: words_of(live, thread, count),
        }
    }

    /// The message that a fault is.
    pub(crate) fn of_fault(fault: Fault) -> Self
        ensures { result ≡ message_for fault }
    {
        match fault {
            Fault::Capability {
                pc,
                address,
                in_receive,
                failure,
            } => Message {
                label: u32::from(FaultKind::Capability.number()),
                count: 5,
                words: [
                    pc,
                    address,
                    u32::from(in_receive),
                    u32::from(failure.number()),
                    u32::from(failure.bits_left()),
                    0,
                    0,
                    0,
                ],
            },
            Fault::UnknownCall { pc, number } => Message {
                label: u32::from(FaultKind::UnknownCall.number()),
                count: 2,
                words: [pc, number, 0, 0, 0, 0, 0, 0],
            },
            Fault::Instruction { pc, cause } => Message {
                label: u32::from(FaultKind::Instruction.number()),
                count: 2,
                words: [pc, u32::from(cause.number()), 0, 0, 0, 0, 0, 0],
            },
            Fault::Memory { pc, fault } => Message {
                label: u32::from(FaultKind::Memory.number()),
                count: 3,
                words: [
                    pc,
                    fault.address,
                    u32::from(fault.access.number()),
                    0,
                    0,
                    0,
                    0,
                    0,
                ],
            },
        }
    }
}

impl Message {
    /// Its label, below 2^20.
    pub fn label(&self) -> u32
        ensures { result ≡ self.now.label }
    {
        self.label
    }

    /// How many words it has, at most 120.
    pub(crate) fn count(&self) -> u32
        ensures value { result ≡ self.now.count }
        ensures most { result ≤ 120 }
    {
        self.count
    }

    /// Its info word.
    pub(crate) fn info(&self) -> u32
        ensures { result ≡ info_word self.now.label self.now.count }
    {
        0x1000 * self.label + self.count
    }

    /// Its words that registers hold, at most 8.
    pub fn words(&self) -> &[u32]
        ensures { result.now ≡ self.now.words }
    {
        self.held()
    }

    /// The same, for those that ask how many they are.
    pub(crate) fn held(&self) -> &[u32]
        ensures value { result.now ≡ self.now.words }
        ensures most { length result.now ≤ 8 }
    {
        &self.words[..self.count.min(REGISTER_WORDS) as usize]
    }

    /// Whether it resumes a thread that faulted.
    pub(crate) fn resumes(&self) -> bool
        ensures { result ≡ (self.now.label == 0) }
    {
        self.label == 0
    }

    /// Where a thread goes on that its handler resumes: at word 0 with its low two bits cleared, or where it was.
    pub(crate) fn resumption(&self, pc: u32) -> u32
        ensures { result ≡ resumption pc self.now.words }
    {
        if self.count == 0 {
            pc
        } else {
            self.words[0] - self.words[0] % 4
        }
    }
}

/// How many words an info word says that its message has: 0 to 127.
pub(crate) fn length_in(info: u32) -> u32
    ensures { result ≡ info % 2 ^ 7 }
{
    info % 0x80
}

/// No words.
fn no_words() -> [u32; 8]
    ensures { result ≡ replicate 8 0 }
{
    [0; 8]
}

/// The words of a message of so many words in the registers of a thread, and zeros behind them.
#[inline(always)]
fn words_of<S: SlotStore>(live: &Live<S>, thread: u32, count: u32) -> [u32; 8]
    ensures { take (min register_words count) result
        ≡ map (read (thread_at (state S.SlotStore live.now) thread).registers) (take (min register_words count) word_registers) }
{
    let mut words = no_words();
    let held = count.min(REGISTER_WORDS) as usize;
    'words: for index in 0..held {
        words[index] = live.register(thread, word_register(index));
    }
    words
}

/// The register that holds a word of a message: a2 to a5, then s2 to s5.
#[tactic(auto, unfolding(model::specs::Kernel::Messages::word_registers))]
pub(crate) fn word_register(index: usize) -> Register
    requires { index < 8 }
    ensures register { result ≡ slice_index_or word_registers index (register 0) }
    ensures named { IsRegister result }
{
    if index < 4 {
        Register(12 + index as u8)
    } else {
        Register(14 + index as u8)
    }
}
