//! All that the kernel keeps: slots and memory, and the tables of objects beside them.

ghost use Rattle.std.specs.Prelude.{ℕ, ◌≡◌, ◌+◌, ◌^◌, ◌≤◌, IfOk, IfSome, OnErr, None, option_and_then, option_map};
ghost use Rattle.model.specs.Kernel.Outcomes.{GivesState};
ghost use Rattle.kernel_machine.specs.Setups.{GivesIf, IsPlace, register_in, seen_entry, slot_in, state_in};
ghost use Rattle.model.specs.Images.Boot.{made};
ghost use Rattle.model.specs.Images.BootCalls.{loader_call};
ghost use Rattle.model.specs.Kernel.Setup.{boot_area, fill, put_control, put_untyped};
ghost use Rattle.model.specs.Kernel.State.{as_thread};

use crate::boot_calls::make_call;
use crate::holders::{LINES, look_at};
use crate::looks::{byte_at, memory_size, register_of};
use crate::puts::{put_control, put_untyped};
use crate::stores::{Store, empty_store};
use cnode_ops::Kernel;
use model::{Cap, KError, Slot};
use objects::{Live, Objects};
use slots::SlotStore;
use std::alloc::{AllocError, Global};
use std::marker::Model;
use user_memory::fill;

/// All that the kernel keeps, which is always whole: the state that it represents is sound, and page tables and
/// capabilities, slots and the bytes of frames agree. It is looked at by threads, slots and bytes.
#[derive(Drop)]
pub struct Machine {
    /// The store of slots and the objects.
    pub kernel: Kernel<Store>,
}

impl Model for Machine {
    ghost use Rattle.kernel_machine.specs.Setups.{Parts};

    ghost Value = { Parts };

    ghost view = { λ machine. machine.kernel };
}

impl Machine {
    /// The empty machine: 2^`bits` bytes of memory, with a boot CNode of 2^`radix` slots and the interrupt table, all of them
    /// empty.
    ///
    /// # Errors
    ///
    /// Memory may be refused.
    pub fn new(alloc: Global, bits: u32, radix: u32) -> Result<Self, AllocError>
        requires least_bits { 16 ≤ bits }
        requires most_bits { bits ≤ 24 }
        requires least_radix { 1 ≤ radix }
        requires most_radix { radix ≤ 14 }
        requires room { radix + 5 ≤ bits }
        ensures { IfOk result (λ machine. state_in machine ≡ boot_area bits radix) }
    {
        let mut store = empty_store(alloc, bits)?;
        let objects = Objects::new(alloc, bits, radix)?;
        store.open_range(Slot::new(0), (1 << radix) + LINES);
        let live = Live { store, objects };
        let kernel = Kernel { live };
        Ok(Machine { kernel })
    }

    /// What slot `index` of a holder holds, and the slot that it was derived from, as (holder, index). Holders are the boot
    /// CNode at 0, the interrupt table after it, CNodes and threads; all are named by their offsets.
    pub fn slot(&self, holder: u32, index: u32) -> Option<(Cap, Option<(u32, u32)>)>
        ensures held { option_map seen_entry result ≡ slot_in (state_in self.now) holder index }
        ensures parent { IfSome result (λ seen. IfSome seen.1 (IsPlace (state_in self.now))) }
    {
        look_at(&self.kernel, holder, index)
    }

    /// Puts untyped memory into an empty boot slot: 2^`bits` bytes from `offset` on, after all that is there,
    /// also after objects that are left of untyped memory whose own capability is gone. Nothing changes where
    /// it may not lie there.
    pub fn untyped(&mut self, index: u32, offset: u32, bits: u8) -> bool
        ensures { GivesIf (put_untyped (state_in self.old) index offset bits) result self.old self.new }
    {
        put_untyped(&mut self.kernel, index, offset, bits)
    }

    /// Puts interrupt control into an empty boot slot, if it is one.
    pub fn control(&mut self, index: u32) -> bool
        ensures { GivesIf (put_control (state_in self.old) index) result self.old self.new }
    {
        put_control(&mut self.kernel, index)
    }

    /// Puts bytes, at most 4096, into the frame that begins at an offset, from its first byte on. Nothing changes where
    /// no frame begins there.
    pub fn fill(&mut self, offset: u32, bytes: &[u8]) -> bool
        ensures { GivesIf (fill (state_in self.old) offset bytes.now) result self.old self.new }
    {
        fill(&mut self.kernel, offset, bytes)
    }

    /// Makes a call on what an address among the boot slots names.
    ///
    /// # Errors
    ///
    /// The slot holds nothing (`FailedLookup`), or the error of the call. Nothing changes then.
    pub fn call(&mut self, address: u32, label: u32, words: &[u32]) -> Result<(), KError>
        ensures outcome { GivesState (made (state_in self.old) (loader_call address label words.now)) result (state_in self.new) }
        ensures unchanged { OnErr result (self.new ≡ self.old) }
    {
        make_call(&mut self.kernel, address, label, words)
    }

    /// A register of the thread at an offset: its program counter by index 0, and else that of this index, 1 to 31.
    pub fn reg(&self, thread: u32, index: u8) -> Option<u32>
        ensures { result ≡ option_and_then (λ t. register_in t index) (as_thread ((state_in self.now).objects thread)) }
    {
        register_of(&self.kernel, thread, index)
    }

    /// The byte at an offset of memory, if it is one of a frame.
    pub fn byte(&self, offset: u32) -> Option<u8>
        ensures { result ≡ (state_in self.now).bytes offset }
    {
        byte_at(&self.kernel, offset)
    }

    /// How many bytes of memory there are. No object lies beyond them.
    pub fn memory_size(&self) -> u32
        ensures value { result ≡ 2 ^ (state_in self.now).memory_bits }
        ensures inside { (place : ℕ) → result ≤ place → (state_in self.now).objects place ≡ None }
    {
        memory_size(&self.kernel)
    }
}
