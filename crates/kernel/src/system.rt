//! A system whose threads run.

ghost use Rattle.std.specs.Prelude.{◌≡◌, ◌≤◌, ◌++◌, IfSome, flat_map, option_and_then, option_map, replicate, true};
ghost use Rattle.kernel_machine.specs.Setups.{IsPlace, register_in, seen_entry, slot_in, state_in};
ghost use Rattle.model.specs.Kernel.State.{as_thread};
ghost use Rattle.model.specs.Kernel.Steps.{state_after, step, trace};

use crate::{events, runs};
use kernel_machine::Machine;
use model::{Cap, Event, Label};
use std::marker::Model;
use user_memory::{KnownWords, Labels};

/// The kernel with its threads, which goes on by events. None of them takes memory. What words of code spell is kept from one
/// run of steps to the next.
#[derive(Drop)]
pub struct System {
    machine: Machine,
    known: KnownWords,
}

impl Model for System {
    ghost use Rattle.kernel_machine.specs.Setups.{Parts};

    ghost Value = { Parts };

    ghost view = { λ system. system.machine };
}

impl System {
    /// The system of what was set up.
    pub fn of(machine: Machine) -> Self
        ensures { result ≡ machine }
    {
        System {
            machine,
            known: KnownWords::new(),
        }
    }

    /// What an event does: the current thread runs one instruction, a tick of the timer passes, an interrupt is raised, or
    /// the world outside stores a word or looks at one. The label says what came of it.
    pub fn step(&mut self, event: Event) -> Label
        ensures state { state_in self.new ≡ (step (state_in self.old) event).0 }
        ensures label { result ≡ (step (state_in self.old) event).1 }
    {
        events::step(&mut self.machine.kernel, event)
    }

    /// Makes steps, until there were `most` or `labels` wants no more; each puts its label. The answer is how many there
    /// were. It does what `step` by `step` does, faster: between two system calls the registers of the thread, its root
    /// table and its page of code are looked for once.
    pub fn run<L: Labels>(&mut self, most: u32, labels: &mut L) -> u32
        ensures few { result ≤ most }
        ensures state { state_in self.new ≡ state_after (state_in self.old) (replicate result Event.Step) }
        ensures labels { L.seen labels.new
            ≡ L.seen labels.old ++ flat_map L.kept (trace (state_in self.old) (replicate result Event.Step)) }
        ensures all { L.wants labels.new ≡ true → result ≡ most }
    {
        runs::run(&mut self.machine.kernel, most, labels, &mut self.known)
    }

    /// A register of the thread at an offset: its program counter by index 0, and else that of this index, 1 to 31.
    pub fn reg(&self, thread: u32, index: u8) -> Option<u32>
        ensures { result ≡ option_and_then (λ t. register_in t index) (as_thread ((state_in self.now).objects thread)) }
    {
        self.machine.reg(thread, index)
    }

    /// What slot `index` of a holder holds, and the slot that it was derived from, as (holder, index). Holders are the boot
    /// CNode at 0, the interrupt table after it, CNodes and threads; all are named by their offsets.
    pub fn slot(&self, holder: u32, index: u32) -> Option<(Cap, Option<(u32, u32)>)>
        ensures held { option_map seen_entry result ≡ slot_in (state_in self.now) holder index }
        ensures parent { IfSome result (λ seen. IfSome seen.1 (IsPlace (state_in self.now))) }
    {
        self.machine.slot(holder, index)
    }

    /// The byte at an offset of memory, if it is one of a frame.
    pub fn byte(&self, offset: u32) -> Option<u8>
        ensures { result ≡ (state_in self.now).bytes offset }
    {
        self.machine.byte(offset)
    }

    /// What the kernel keeps, to look at.
    pub fn machine(&self) -> &Machine
        ensures { result.now ≡ self.now }
    {
        &self.machine
    }
}
