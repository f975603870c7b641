//! A store of slots that are packed into the bytes of the machine.

ghost use Rattle.std.specs.Prelude.{ℕ, ◌≡◌, ◌^◌, ◌≤◌, None, IfOk, replicate};
ghost use Rattle.packed_slots.specs.Packing.{packed_order, packed_slots};

use crate::capability_words::{copy_capability, put_capability};
use crate::links::{link_behind, link_first, lower, take_out};
use crate::open_slots::OpenSlots;
use crate::reads::{frame_in, root_in};
use crate::roots::RootStore;
use crate::words::{SlotMemory, blank, depth, is_slot, next, word};
use model::{Cap, Slot};
use pmem::Mem;
use slots::{SlotMap, SlotStore};
use std::alloc::{AllocError, Global};
use std::marker::Model;

/// A store with each slot in 16 bytes of the machine's memory. Only [`PackedSlots::new`] takes memory.
/// A clause sees the bytes of the machine, which slots are open, and the first full slot.
#[derive(Drop)]
pub struct PackedSlots {
    pub(crate) memory: SlotMemory,
    pub(crate) open_slots: OpenSlots,
    pub(crate) first: Option<Slot>,
}

impl Model for PackedSlots {
    ghost use Rattle.packed_slots.specs.Packing.{IsPacked, Packed, packing};

    ghost Value = { Packed };

    ghost view = { λ store. packing store.memory store.open_slots store.first };

    ghost invariant = { λ store. IsPacked (packing store.memory store.open_slots store.first) };
}

impl PackedSlots {
    /// Memory of 2^`bits` bytes, all zero, and no open slot.
    ///
    /// # Errors
    ///
    /// Memory may be refused.
    pub fn new(alloc: Global, bits: u32) -> Result<Self, AllocError>
        requires least { 16 ≤ bits }
        requires most { bits ≤ 24 }
        ensures bytes { IfOk result (λ store. store.memory ≡ replicate (2 ^ bits) 0) }
        ensures slots { IfOk result (λ store. (s : ℕ) → packed_slots store s ≡ None) }
    {
        let bytes = Mem::new(alloc, bits)?;
        let count = bytes.len() / 16;
        let open_slots = OpenSlots::closed(alloc, count)?;
        let memory = SlotMemory { bytes };
        Ok(PackedSlots {
            memory,
            open_slots,
            first: None,
        })
    }
}

impl SlotMap for PackedSlots {
    ghost slots = { packed_slots };

    #[inline(always)]
    fn capability(&self, slot: Slot) -> Cap {
        if self.open_slots.contains(slot) {
            self.held(slot)
        } else {
            Cap::Empty
        }
    }

    fn get(&self, slot: Slot) -> (Cap, Option<Slot>) {
        (self.held(slot), self.parent(slot))
    }
}

impl SlotStore for PackedSlots {
    ghost memory = { λ store. store.memory };

    ghost order = { packed_order };

    fn mem(&self) -> &Mem {
        &self.memory.bytes
    }

    fn count(&self) -> u32 {
        self.open_slots.len()
    }

    fn is_open(&self, slot: Slot) -> bool {
        self.open_slots.contains(slot)
    }

    fn depth(&self, slot: Slot) -> u32 {
        self.noted_depth(slot)
    }

    /// The slot that is linked after another.
    fn next_full(&self, previous: Option<Slot>) -> Option<Slot> {
        match previous {
            None => self.first,
            Some(slot) => self.linked_after(slot),
        }
    }

    /// Whether the first slot back that is as deep as the root, or less deep, is the root.
    fn descends(&self, root: Slot, slot: Slot) -> bool {
        let root_depth = self.noted_depth(root);
        if self.noted_depth(slot) <= root_depth {
            return false;
        }
        is_slot(
            self.back_above(root_depth + 1, self.linked_before(slot)),
            root,
        )
    }

    fn next_below(&self, root: Slot, previous: Option<Slot>) -> Option<Slot> {
        self.linked_below(root, previous)
    }

    fn is_shared(&self, slot: Slot) -> bool {
        prove!(self.is_packed());
        self.has_like_neighbour(slot)
    }

    fn is_shared_beside(&self, root: Slot, last: Slot, slot: Slot) -> bool {
        prove!(self.is_packed());
        self.has_like_edge(root, last, slot)
    }

    /// The slot before one, if it is less deep, and the slot after this one is less deep too.
    fn childless_without(&self, slot: Slot) -> Option<Slot> {
        let own_depth = self.noted_depth(slot);
        let Some(before) = self.linked_before(slot) else {
            return None;
        };
        if self.is_as_deep(own_depth, Some(before)) {
            return None;
        }
        if self.is_as_deep(own_depth, self.linked_after(slot)) {
            return None;
        }
        Some(before)
    }

    /// One word gives it.
    fn frame(&self, slot: Slot) -> Option<u32> {
        if self.open_slots.contains(slot) {
            frame_in(word(&self.memory, slot, 0))
        } else {
            None
        }
    }

    fn open_range(&mut self, first: Slot, count: u32) {
        blank(&mut self.memory, first, count);
        self.open_slots.set(first, count, true);
    }

    fn close_range(&mut self, first: Slot, count: u32) {
        self.open_slots.set(first, count, false);
    }

    fn set_cap(&mut self, slot: Slot, capability: Cap) {
        put_capability(&mut self.memory, slot, capability);
    }

    /// Right after the slot that it is derived from, or in front of all.
    fn insert(&mut self, slot: Slot, capability: Cap, parent: Option<Slot>) {
        put_capability(&mut self.memory, slot, capability);
        match parent {
            Some(above) => {
                let parent_depth = depth(&self.memory, above);
                link_behind(&mut self.memory, above, slot, parent_depth + 1);
            }
            None => {
                link_first(&mut self.memory, &self.first, slot);
                self.first = Some(slot);
            }
        }
    }

    /// The slot's descendants become one less deep, and it is taken out of the list.
    fn splice_out(&mut self, slot: Slot) {
        let own_depth = depth(&self.memory, slot);
        let after = next(&self.memory, slot);
        lower(&mut self.memory, self.open_slots.len(), after, own_depth);
        self.first = take_out(&mut self.memory, &self.first, slot);
    }

    /// The new slot is linked after the old one, which is then taken out.
    fn relocate(&mut self, from: Slot, to: Slot) {
        let own_depth = depth(&self.memory, from);
        copy_capability(&mut self.memory, from, to);
        link_behind(&mut self.memory, from, to, own_depth);
        self.first = take_out(&mut self.memory, &self.first, from);
    }

    fn write8(&mut self, offset: u32, byte: u8) {
        self.memory.write8(offset, byte);
    }

    fn write32(&mut self, offset: u32, word: u32) {
        self.memory.write32(offset, word);
    }

    fn write_words(&mut self, offset: u32, words: &[u32]) {
        self.memory.write_words(offset, words);
    }

    fn copy_words(&mut self, source: u32, target: u32, count: u32) {
        self.memory.copy_words(source, target, count);
    }

    fn zero(&mut self, offset: u32, count: u32) {
        self.memory.zero(offset, count);
    }
}

impl RootStore for PackedSlots {
    /// One word gives it.
    fn root_table(&self, slot: Slot) -> Option<u32> {
        if self.open_slots.contains(slot) {
            root_in(word(&self.memory, slot, 0))
        } else {
            None
        }
    }
}
