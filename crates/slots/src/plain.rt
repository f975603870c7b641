//! Slots in a table of their own, beside the bytes of the machine.

ghost use Rattle.std.specs.Prelude.{ℕ, ◌≡◌, ◌^◌, ◌≤◌, None, IfOk, length, replicate};
ghost use Rattle.slots.specs.Table.{full_from, table_slots};

use crate::{SlotMap, SlotStore, table};
use model::{Cap, Entry, Slot};
use pmem::Mem;
use std::alloc::{AllocError, Global};
use std::marker::Model;

/// A store of slots with one record for each 16 bytes of memory. Only [`PlainSlots::new`] takes memory.
/// A clause sees the bytes of the machine and the table of records.
#[derive(Drop)]
pub struct PlainSlots {
    memory: Mem,
    records: Vec<Option<Entry>>,
}

impl Model for PlainSlots {
    ghost use Rattle.std.specs.Prelude.{ℕ, List, Option};
    ghost use Rattle.model.specs.declared.slot_entries.Entry.{Entry};

    ghost Value = { List ℕ × List (Option Entry) };

    ghost use Rattle.slots.specs.Table.{IsTable};

    ghost view = { λ store. (store.memory, store.records.items) };

    ghost invariant = { λ store. IsTable store.memory store.records.items };
}

impl PlainSlots {
    /// Memory of 2^`bits` bytes, all zero, and no open slot.
    ///
    /// # Errors
    ///
    /// Memory may be refused.
    pub fn new(alloc: Global, bits: u32) -> Result<Self, AllocError>
        requires least { 16 ≤ bits }
        requires most { bits ≤ 24 }
        ensures bytes { IfOk result (λ store. store.0 ≡ replicate (2 ^ bits) 0) }
        ensures slots { IfOk result (λ store. (s : ℕ) → table_slots store.1 s ≡ None) }
    {
        let memory = Mem::new(alloc, bits)?;
        let count = memory.len() / 16;
        let records = table::closed_records(alloc, count)?;
        Ok(PlainSlots { memory, records })
    }
}

impl SlotMap for PlainSlots {
    ghost slots = { λ store. table_slots store.1 };

    fn capability(&self, slot: Slot) -> Cap {
        table::capability_at(&self.records, slot.number())
    }

    fn get(&self, slot: Slot) -> (Cap, Option<Slot>) {
        match table::entry_at(&self.records, slot.number()) {
            Some(entry) => (entry.capability, entry.parent),
            None => unreachable!(),
        }
    }
}

impl SlotStore for PlainSlots {
    ghost memory = { λ store. store.0 };

    ghost order = { λ store. full_from (table_slots store.1) 0 (length store.1) };

    fn mem(&self) -> &Mem {
        &self.memory
    }

    fn count(&self) -> u32 {
        self.records.len() as u32
    }

    fn is_open(&self, slot: Slot) -> bool {
        table::entry_at(&self.records, slot.number()).is_some()
    }

    fn depth(&self, slot: Slot) -> u32 {
        table::depth_at(&self.records, slot.number())
    }

    fn next_full(&self, previous: Option<Slot>) -> Option<Slot> {
        table::next_full(&self.records, previous)
    }

    fn open_range(&mut self, first: Slot, count: u32) {
        let empty = Some(table::nothing());
        table::put_range(&mut self.records, first.number(), count, &empty);
    }

    fn close_range(&mut self, first: Slot, count: u32) {
        table::put_range(&mut self.records, first.number(), count, &None);
    }

    fn set_cap(&mut self, slot: Slot, capability: Cap) {
        table::recap(&mut self.records, slot.number(), capability);
    }

    fn insert(&mut self, slot: Slot, capability: Cap, parent: Option<Slot>) {
        table::put(
            &mut self.records,
            slot.number(),
            Entry { capability, parent },
        );
    }

    fn splice_out(&mut self, slot: Slot) {
        table::splice(&mut self.records, slot.number());
    }

    fn relocate(&mut self, from: Slot, to: Slot) {
        table::move_entry(&mut self.records, from.number(), to);
    }

    fn write8(&mut self, offset: u32, byte: u8) {
        self.memory.write8(offset, byte);
    }

    fn write32(&mut self, offset: u32, word: u32) {
        self.memory.write32(offset, word);
    }

    fn write_words(&mut self, offset: u32, words: &[u32]) {
        self.memory.write_words(offset, words);
    }

    fn copy_words(&mut self, source: u32, target: u32, count: u32) {
        self.memory.copy_words(source, target, count);
    }

    fn zero(&mut self, offset: u32, count: u32) {
        self.memory.zero(offset, count);
    }
}
