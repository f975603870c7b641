//! A store and its objects.

ghost use Rattle.std.specs.Prelude.{ℕ, ◌≡◌, ◌≤◌, is_some};
ghost use Rattle.model.specs.Kernel.Removal.{slot_count};
ghost use Rattle.model.specs.Kernel.Setup.{is_frame_object};
ghost use Rattle.model.specs.Kernel.State.{as_thread, binding_slot};
ghost use Rattle.objects.specs.Lives.{state};

mod buffer_calls;
mod line_calls;
mod queue_calls;
mod scheduling_calls;
mod thread_calls;

use crate::interrupt_lines::Line;
use crate::tables::Objects;
use model::Slot;
use slots::SlotStore;
use std::marker::Model;

/// A store of slots and memory with the objects whose slots and bytes it holds. What the kernel keeps of the objects
/// always fits the store.
#[derive(Drop)]
pub struct Live<S: SlotStore> {
    pub store: S,
    pub objects: Objects,
}

impl<S: SlotStore> Model for Live<S> {
    ghost use Rattle.objects.specs.Lives.{Parts};
    ghost use Rattle.objects.specs.Standing.{Standing};

    ghost Value = { Parts S };

    ghost view = { λ live. record { store = live.store; tables = live.objects } };

    ghost invariant = { λ live. Standing live.objects (S.slots live.store) (S.memory live.store) };
}

impl<S: SlotStore> Live<S> {
    /// The store, for reading.
    pub fn store(&self) -> &S
        ensures { result.now ≡ self.now.store }
    {
        &self.store
    }

    /// The slot of the interrupt table that holds what a line signals.
    pub fn binding(&self, line: Line) -> Slot
        ensures { result ≡ binding_slot (state S.SlotStore self.now) line }
    {
        self.objects.binding(line)
    }

    /// The boot CNode has 2^`radix` slots.
    pub fn boot_radix(&self) -> u32
        ensures value { result ≡ (state S.SlotStore self.now).boot_radix }
        ensures most { result ≤ 14 }
    {
        self.objects.boot_radix()
    }

    /// How many slots the object has that starts at an offset: none, where there is no object.
    pub fn slots_of(&self, offset: u32) -> u32
        ensures { result ≡ slot_count ((state S.SlotStore self.now).objects offset) }
    {
        self.objects.slots_of(&self.store, offset)
    }

    /// Whether the object at an offset is a thread.
    pub fn is_thread(&self, offset: u32) -> bool
        ensures { result ≡ is_some (as_thread ((state S.SlotStore self.now).objects offset)) }
    {
        self.objects.is_thread(&self.store, offset)
    }

    /// Whether the object at an offset is a frame.
    pub fn is_frame(&self, offset: u32) -> bool
        ensures { result ≡ is_frame_object ((state S.SlotStore self.now).objects offset) }
    {
        self.objects.is_frame(&self.store, offset)
    }

    /// The byte at a place in memory, if a frame is there.
    pub fn byte(&self, place: u32) -> Option<u8>
        ensures { result ≡ (state S.SlotStore self.now).bytes place }
    {
        self.objects.byte(&self.store, place)
    }
}
