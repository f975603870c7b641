//! The calls on threads.

ghost use Rattle.std.specs.Prelude.{ℕ, ◌≡◌, Some};
ghost use Rattle.std.specs.Option.{option_map_or};
ghost use Rattle.model.specs.Kernel.Kinds.{kind_at};
ghost use Rattle.model.specs.Kernel.Messages.{with_caller, with_registers};
ghost use Rattle.model.specs.Kernel.Retype.{NewThread};
ghost use Rattle.model.specs.Kernel.Scheduling.{block, wake};
ghost use Rattle.model.specs.Kernel.State.{new_thread, thread_at, with_thread};
ghost use Rattle.model.specs.Machine.Instructions.{IsRegister};
ghost use Rattle.model.specs.Machine.ProgramMemory.{read, write};
ghost use Rattle.objects.specs.Lives.{Beside, state};
ghost use Rattle.objects.specs.Premises.{HasRegister};
ghost use Rattle.objects.specs.thread_records.Threads.{record_state, status_of};

use crate::lives::Live;
use crate::rights::note;
use crate::thread_records;
use crate::thread_records::{Status, ThreadRecord};
use model::Register;
use rv32_exec::Regs;
use slots::SlotStore;

impl<S: SlotStore> Live<S> {
    /// The record of the thread at an offset, if one is there.
    pub(crate) fn record_of(&self, thread: u32) -> Option<ThreadRecord<'_>>
        ensures { option_map_or record_state result new_thread ≡ thread_at (state S.SlotStore self.now) thread }
    {
        if self.objects.has_thread(thread) {
            Some(ThreadRecord::new(&self.store, thread))
        } else {
            None
        }
    }

    /// The registers of a thread: those of a new one, where none is.
    pub fn registers(&self, thread: u32) -> Regs
        ensures { result ≡ (thread_at (state S.SlotStore self.now) thread).registers }
    {
        match self.record_of(thread) {
            Some(found) => found.registers(),
            None => Regs::new(),
        }
    }

    /// A register of a thread: 0, where none is.
    pub fn register(&self, thread: u32, register: Register) -> u32
        requires { IsRegister register }
        ensures { result ≡ read (thread_at (state S.SlotStore self.now) thread).registers register }
    {
        match self.record_of(thread) {
            Some(found) => found.register(register),
            None => 0,
        }
    }

    /// The program counter of a thread: that of a new one, where none is.
    pub fn pc(&self, thread: u32) -> u32
        ensures { result ≡ (thread_at (state S.SlotStore self.now) thread).registers.pc }
    {
        match self.record_of(thread) {
            Some(found) => found.pc(),
            None => 0,
        }
    }

    /// Whether a thread runs, and else what it waits for.
    pub fn status(&self, thread: u32) -> Status
        ensures { status_of result ≡ (thread_at (state S.SlotStore self.now) thread).status }
    {
        match self.record_of(thread) {
            Some(found) => found.status(),
            None => Status::Inactive,
        }
    }

    /// The thread that a thread has the right to reply to.
    pub fn caller(&self, thread: u32) -> Option<u32>
        ensures { result ≡ (thread_at (state S.SlotStore self.now) thread).caller }
    {
        match self.record_of(thread) {
            Some(found) => found.caller(),
            None => None,
        }
    }

    /// The priority of a thread.
    pub fn priority(&self, thread: u32) -> u8
        ensures { result ≡ (thread_at (state S.SlotStore self.now) thread).priority }
    {
        match self.record_of(thread) {
            Some(found) => found.priority(),
            None => 0,
        }
    }

    /// The capability address of the endpoint that takes a thread's faults, or 0.
    pub fn fault_address(&self, thread: u32) -> u32
        ensures { result ≡ (thread_at (state S.SlotStore self.now) thread).fault_address }
    {
        match self.record_of(thread) {
            Some(found) => found.fault_address(),
            None => 0,
        }
    }

    /// Sets the registers of a thread.
    pub fn set_registers(&mut self, thread: u32, registers: Regs)
        requires there { kind_at (state S.SlotStore self.old) thread ≡ Some NewThread }
        ensures state { state S.SlotStore self.new
            ≡ with_registers (state S.SlotStore self.old) thread registers }
        ensures beside { Beside S.SlotStore self.old self.new }
    {
        thread_records::set_registers(&mut self.store, thread, registers);
    }

    /// Sets a register of a thread. Register 0 stays zero.
    pub fn set_register(&mut self, thread: u32, register: Register, value: u32)
        requires { HasRegister (state S.SlotStore self.old) thread register }
        ensures state { state S.SlotStore self.new
            ≡ with_registers (state S.SlotStore self.old) thread (write (thread_at (state S.SlotStore self.old) thread).registers register value) }
        ensures beside { Beside S.SlotStore self.old self.new }
    {
        thread_records::set_register(&mut self.store, thread, register, value);
    }

    /// Sets the program counter of a thread.
    pub fn set_pc(&mut self, thread: u32, pc: u32)
        requires there { kind_at (state S.SlotStore self.old) thread ≡ Some NewThread }
        ensures state { state S.SlotStore self.new
            ≡ with_registers (state S.SlotStore self.old) thread (record (thread_at (state S.SlotStore self.old) thread).registers { pc = pc }) }
        ensures beside { Beside S.SlotStore self.old self.new }
    {
        thread_records::set_pc(&mut self.store, thread, pc);
    }

    /// A thread has the right to reply to this one, which is there, or no such right.
    pub fn set_caller(&mut self, thread: u32, caller: Option<u32>)
        requires there { kind_at (state S.SlotStore self.old) thread ≡ Some NewThread }
        requires caller { (named : ℕ) → caller ≡ Some named → kind_at (state S.SlotStore self.old) named ≡ Some NewThread }
        ensures state { state S.SlotStore self.new
            ≡ with_caller (state S.SlotStore self.old) thread caller }
        ensures beside { Beside S.SlotStore self.old self.new }
    {
        let objects = &self.objects;
        note(&objects.held, &mut self.store, thread, caller);
        thread_records::set_caller(&mut self.store, thread, caller);
    }

    /// Sets the capability address of the endpoint that takes a thread's faults; 0 is none.
    pub fn set_fault_address(&mut self, thread: u32, address: u32)
        requires there { kind_at (state S.SlotStore self.old) thread ≡ Some NewThread }
        ensures state { state S.SlotStore self.new
            ≡ with_thread (state S.SlotStore self.old) thread (record (thread_at (state S.SlotStore self.old) thread) { fault_address = address }) }
        ensures beside { Beside S.SlotStore self.old self.new }
    {
        thread_records::set_fault_address(&mut self.store, thread, address);
    }

    /// A thread stops running, for this reason.
    pub fn block(&mut self, thread: u32, status: Status)
        requires there { kind_at (state S.SlotStore self.old) thread ≡ Some NewThread }
        ensures state { state S.SlotStore self.new
            ≡ block (state S.SlotStore self.old) thread (status_of status) }
        ensures beside { Beside S.SlotStore self.old self.new }
    {
        self.objects.set_status_at(&mut self.store, thread, status);
        self.objects.unready(&mut self.store, thread);
    }

    /// Makes a thread runnable that does not run: it goes to the tail of its priority, with a full slice.
    pub fn wake(&mut self, thread: u32)
        requires there { kind_at (state S.SlotStore self.old) thread ≡ Some NewThread }
        ensures state { state S.SlotStore self.new
            ≡ wake (state S.SlotStore self.old) thread }
        ensures beside { Beside S.SlotStore self.old self.new }
    {
        self.objects.wake_at(&mut self.store, thread);
    }
}
