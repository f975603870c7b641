//! What a thread's bytes say of it.

ghost use Rattle.std.specs.Prelude.{◌≡◌, ◌+◌, ◌*◌, ◌<◌, ◌≤◌, length, slice_index};
ghost use Rattle.model.specs.Machine.Instructions.{IsRegister};
ghost use Rattle.model.specs.Machine.ProgramMemory.{read};
ghost use Rattle.model.specs.Shared.Bytes.{word_at};
ghost use Rattle.pmem.specs.Words.{words_at};
ghost use Rattle.objects.specs.thread_records.Records.{thread_at};

use crate::thread_records::codes::{SENDING_WORDS, caller_from, sending_from, status_from};
use crate::thread_records::places::{
    CALLER, FAULT_ADDRESS, PC, PRIORITY, REGISTERS, SENDING, SLICE, STATUS,
};
use crate::thread_records::records::{Sending, Status};
use model::Register;
use pmem::Mem;
use rv32_exec::Regs;
use slots::SlotStore;

/// A thread's record, for reading. The thread's 512 bytes, from its offset on, lie in memory.
#[derive(Clone, Copy)]
pub struct ThreadRecord<'a> {
    memory: &'a Mem,
    thread: u32,
    ghost within: { thread + 512 ≤ length memory.now },
}

impl<'a> ThreadRecord<'a> {
    /// The record of the thread at an offset.
    pub fn new<S: SlotStore>(store: &'a S, thread: u32) -> Self
        requires { thread + 512 ≤ length (S.memory store.now) }
        ensures { thread_at result.memory.now result.thread ≡ thread_at (S.memory store.now) thread }
    {
        ThreadRecord {
            memory: store.mem(),
            thread,
        }
    }

    /// A word of the record.
    fn word(&self, place: u32) -> u32
        requires { place + 4 ≤ 512 }
        ensures { result ≡ word_at self.now.memory.now (self.now.thread + place) }
    {
        prove!(self.thread <= self.memory.len());
        self.memory.read32(self.thread + place)
    }

    /// A byte of the record.
    fn byte(&self, place: u32) -> u8
        requires { place < 512 }
        ensures { result ≡ slice_index self.now.memory.now (self.now.thread + place) }
    {
        prove!(self.thread <= self.memory.len());
        self.memory.read8(self.thread + place)
    }

    /// Words of the record, one after the other: as many as there is room for.
    fn fill_words(&self, place: u32, words: &mut [u32])
        requires { place + 4 * length words.old ≤ 512 }
        ensures { words.new ≡ words_at self.now.memory.now (self.now.thread + place) (length words.old) }
    {
        prove!(self.thread <= self.memory.len());
        self.memory.read_words(self.thread + place, words);
    }

    /// The thread's registers.
    #[tactic(auto, unfolding(crate::specs::thread_records::Records::thread_at))]
    pub fn registers(&self) -> Regs
        ensures { result ≡ (thread_at self.now.memory.now self.now.thread).registers }
    {
        let pc = self.word(PC);
        let mut words = [0; 32];
        self.fill_words(REGISTERS, &mut words);
        Regs::from_words(pc, words)
    }

    /// One of the thread's registers.
    pub fn register(&self, register: Register) -> u32
        requires { IsRegister register }
        ensures { result ≡ read (thread_at self.now.memory.now self.now.thread).registers register }
    {
        if register.0 == 0 {
            0
        } else {
            self.word(REGISTERS + 4 * u32::from(register.0))
        }
    }

    /// The address of the instruction that the thread runs next.
    #[tactic(auto, unfolding(crate::specs::thread_records::Records::thread_at))]
    pub fn pc(&self) -> u32
        ensures { result ≡ (thread_at self.now.memory.now self.now.thread).registers.pc }
    {
        self.word(PC)
    }

    /// The thread's priority, 0 to 255.
    #[tactic(auto, unfolding(crate::specs::thread_records::Records::thread_at))]
    pub fn priority(&self) -> u8
        ensures { result ≡ (thread_at self.now.memory.now self.now.thread).priority }
    {
        self.byte(PRIORITY)
    }

    /// How many ticks the thread runs on before it goes to the tail of its priority.
    #[tactic(auto, unfolding(crate::specs::thread_records::Records::thread_at))]
    pub fn slice(&self) -> u8
        ensures { result ≡ (thread_at self.now.memory.now self.now.thread).slice }
    {
        self.byte(SLICE)
    }

    /// The capability address of the endpoint that takes the thread's faults, or 0.
    #[tactic(auto, unfolding(crate::specs::thread_records::Records::thread_at))]
    pub fn fault_address(&self) -> u32
        ensures { result ≡ (thread_at self.now.memory.now self.now.thread).fault_address }
    {
        self.word(FAULT_ADDRESS)
    }

    /// Whether the thread runs, and else what it waits for.
    #[tactic(auto, unfolding(crate::specs::thread_records::Records::thread_at))]
    pub fn status(&self) -> Status
        ensures { result ≡ (thread_at self.now.memory.now self.now.thread).status }
    {
        status_from(self.word(STATUS), self.word(STATUS + 4))
    }

    /// The thread that this one has the right to reply to, by its offset.
    #[tactic(auto, unfolding(crate::specs::thread_records::Records::thread_at))]
    pub fn caller(&self) -> Option<u32>
        ensures { result ≡ (thread_at self.now.memory.now self.now.thread).caller }
    {
        caller_from(self.word(CALLER), self.word(CALLER + 4))
    }

    /// What the thread sends, while it waits as a sender.
    #[tactic(auto, unfolding(crate::specs::thread_records::Records::thread_at))]
    pub fn sending(&self) -> Option<Sending>
        ensures { result ≡ (thread_at self.now.memory.now self.now.thread).sending }
    {
        let mut words = [0; SENDING_WORDS];
        self.fill_words(SENDING, &mut words);
        sending_from(&words)
    }
}
