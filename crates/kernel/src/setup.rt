//! A system that is set up by calls, before its threads run.

ghost use Rattle.std.specs.Prelude.{◌≡◌, ◌+◌, ◌≤◌, IfOk, IfSome, OnErr, option_and_then, option_map};
ghost use Rattle.model.specs.Kernel.Outcomes.{GivesState};
ghost use Rattle.kernel_machine.specs.Setups.{GivesIf, IsPlace, register_in, seen_entry, slot_in, state_in};
ghost use Rattle.model.specs.Images.Boot.{made};
ghost use Rattle.model.specs.Images.BootCalls.{loader_call};
ghost use Rattle.model.specs.Kernel.Setup.{boot_area, fill, put_control, put_untyped};
ghost use Rattle.model.specs.Kernel.State.{as_thread};

use crate::System;
use kernel_machine::Machine;
use model::{Cap, KError};
use std::alloc::{AllocError, Global};
use std::marker::Model;

/// The boot CNode, the interrupt table, and what calls make of them. Only [`Setup::new`] takes memory.
#[derive(Drop)]
pub struct Setup {
    machine: Machine,
}

impl Model for Setup {
    ghost use Rattle.kernel_machine.specs.Setups.{Parts};

    ghost Value = { Parts };

    ghost view = { λ setup. setup.machine };
}

impl Setup {
    /// The empty machine: 2^`bits` bytes of memory, with a boot CNode of 2^`radix` slots and the interrupt table, all of them
    /// empty.
    ///
    /// # Errors
    ///
    /// Memory may be refused.
    pub fn new(alloc: Global, bits: u32, radix: u32) -> Result<Self, AllocError>
        requires least_bits { 16 ≤ bits }
        requires most_bits { bits ≤ 24 }
        requires least_radix { 1 ≤ radix }
        requires most_radix { radix ≤ 14 }
        requires room { radix + 5 ≤ bits }
        ensures { IfOk result (λ setup. state_in setup ≡ boot_area bits radix) }
    {
        let machine = Machine::new(alloc, bits, radix)?;
        Ok(Setup { machine })
    }

    /// Puts untyped memory into an empty boot slot: 2^`bits` bytes from `offset` on, after all that is there,
    /// also after objects that are left of untyped memory whose own capability is gone. Nothing changes where
    /// it may not lie there.
    pub fn untyped(&mut self, index: u32, offset: u32, bits: u8) -> bool
        ensures { GivesIf (put_untyped (state_in self.old) index offset bits) result self.old self.new }
    {
        self.machine.untyped(index, offset, bits)
    }

    /// Puts interrupt control into an empty boot slot, if it is one.
    pub fn control(&mut self, index: u32) -> bool
        ensures { GivesIf (put_control (state_in self.old) index) result self.old self.new }
    {
        self.machine.control(index)
    }

    /// Puts bytes, at most 4096, into the frame that begins at an offset, from its first byte on. Nothing changes where
    /// no frame begins there.
    pub fn fill(&mut self, offset: u32, bytes: &[u8]) -> bool
        ensures { GivesIf (fill (state_in self.old) offset bytes.now) result self.old self.new }
    {
        self.machine.fill(offset, bytes)
    }

    /// Makes a call as a thread would whose capability space is the boot CNode: `cap` is a boot slot by its number, or
    /// 0xFFFFFFFF for the boot CNode itself, `label` and `words` say which call. Configure has a sixth word, the guard word
    /// of the thread's CNode.
    ///
    /// seL4 Reference Manual, "seL4 API Reference"; labels and words are this project's own.
    ///
    /// # Errors
    ///
    /// The slot holds nothing (`FailedLookup`), or the error of the call. Nothing changes then.
    pub fn call(&mut self, cap: u32, label: u32, words: &[u32]) -> Result<(), KError>
        ensures outcome { GivesState (made (state_in self.old) (loader_call cap label words.now)) result (state_in self.new) }
        ensures unchanged { OnErr result (self.new ≡ self.old) }
    {
        self.machine.call(cap, label, words)
    }

    /// A register of the thread at an offset: its program counter by index 0, and else that of this index, 1 to 31.
    pub fn reg(&self, thread: u32, index: u8) -> Option<u32>
        ensures { result ≡ option_and_then (λ t. register_in t index) (as_thread ((state_in self.now).objects thread)) }
    {
        self.machine.reg(thread, index)
    }

    /// What slot `index` of a holder holds, and the slot that it was derived from, as (holder, index). Holders are the boot
    /// CNode at 0, the interrupt table after it, CNodes and threads; all are named by their offsets.
    pub fn slot(&self, holder: u32, index: u32) -> Option<(Cap, Option<(u32, u32)>)>
        ensures held { option_map seen_entry result ≡ slot_in (state_in self.now) holder index }
        ensures parent { IfSome result (λ seen. IfSome seen.1 (IsPlace (state_in self.now))) }
    {
        self.machine.slot(holder, index)
    }

    /// The byte at an offset of memory, if it is one of a frame.
    pub fn byte(&self, offset: u32) -> Option<u8>
        ensures { result ≡ (state_in self.now).bytes offset }
    {
        self.machine.byte(offset)
    }

    /// What was set up so far, to look at.
    pub fn machine(&self) -> &Machine
        ensures { result.now ≡ self.now }
    {
        &self.machine
    }

    /// Lets the threads run.
    pub fn start(self) -> System
        ensures { result ≡ self }
    {
        System::of(self.machine)
    }
}
