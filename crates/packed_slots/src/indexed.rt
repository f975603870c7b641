//! The packed store with what it knows of its capabilities beside them.

ghost use Rattle.std.specs.Prelude.{ℕ, ◌≡◌, ◌^◌, ◌<◌, ◌≤◌, Some, None, IfOk, true, replicate};
ghost use Rattle.model.specs.Capabilities.CapabilityKinds.{object_of};
ghost use Rattle.model.specs.Capabilities.Slots.{capability_at};
ghost use Rattle.packed_slots.specs.Packing.{packed_order, packed_slots};
ghost use Rattle.packed_slots.specs.Sharing.{IsOther};

use crate::PackedSlots;
use crate::handlers::Handlers;
use crate::named_pages::NamedPages;
use crate::roots::RootStore;
use model::{Cap, Slot};
use pmem::Mem;
use slots::{SlotMap, SlotStore, object_of};
use std::alloc::{AllocError, Global};
use std::marker::Model;

/// Bytes of a page.
const PAGE_SIZE: u32 = 0x1000;

/// How many slots the largest memory has.
const SLOTS: u32 = 0x10_0000;

/// A store of packed slots. Beside them it knows how many hold a handler of each interrupt line, and of each page of memory
/// a slot that names the object which starts there. A clause sees the packed slots alone. Only [`IndexedSlots::new`] takes
/// memory.
#[derive(Drop)]
pub struct IndexedSlots {
    store: PackedSlots,
    handlers: Handlers,
    named: NamedPages,
}

impl Model for IndexedSlots {
    ghost use Rattle.packed_slots.specs.Indexing.{IsIndexed};
    ghost use Rattle.packed_slots.specs.Packing.{Packed, packed_slots};

    ghost Value = { Packed };

    ghost view = { λ indexed. indexed.store };

    ghost invariant = { λ indexed. IsIndexed (packed_slots indexed.store) indexed.handlers indexed.named };
}

impl IndexedSlots {
    /// Memory of 2^`bits` bytes, all zero, and no open slot.
    ///
    /// # Errors
    ///
    /// Memory may be refused.
    pub fn new(alloc: Global, bits: u32) -> Result<Self, AllocError>
        requires least { 16 ≤ bits }
        requires most { bits ≤ 24 }
        ensures bytes { IfOk result (λ store. store.memory ≡ replicate (2 ^ bits) 0) }
        ensures slots { IfOk result (λ store. (s : ℕ) → packed_slots store s ≡ None) }
    {
        let store = PackedSlots::new(alloc, bits)?;
        let named = NamedPages::unnamed(alloc)?;
        Ok(IndexedSlots {
            store,
            handlers: Handlers::none(),
            named,
        })
    }
}

/// Whether the numbers of two slots are in their range: they always are.
fn are_near(one: Slot, other: Slot) -> bool
    ensures value { result ≡ true }
    ensures one { one < 2 ^ 20 }
    ensures other { other < 2 ^ 20 }
{
    one.number() < SLOTS && other.number() < SLOTS
}

/// Another slot that names the object which the capability in a slot names, if one does.
fn other_alike(store: &PackedSlots, capability: Cap, slot: Slot) -> Option<Slot>
    requires { capability ≡ capability_at (packed_slots store.now) slot }
    ensures { (object : ℕ) → object_of capability ≡ Some object → IsOther (packed_slots store.now) object slot result }
{
    let object = object_of(capability)?;
    store.other_alike(object, slot)
}

impl SlotMap for IndexedSlots {
    ghost slots = { packed_slots };

    #[inline(always)]
    fn capability(&self, slot: Slot) -> Cap {
        self.store.capability(slot)
    }

    fn get(&self, slot: Slot) -> (Cap, Option<Slot>) {
        self.store.get(slot)
    }
}

impl SlotStore for IndexedSlots {
    ghost memory = { λ store. store.memory };

    ghost order = { packed_order };

    fn mem(&self) -> &Mem {
        self.store.mem()
    }

    fn count(&self) -> u32 {
        self.store.count()
    }

    fn is_open(&self, slot: Slot) -> bool {
        self.store.is_open(slot)
    }

    fn depth(&self, slot: Slot) -> u32 {
        self.store.depth(slot)
    }

    fn next_full(&self, previous: Option<Slot>) -> Option<Slot> {
        self.store.next_full(previous)
    }

    fn descends(&self, root: Slot, slot: Slot) -> bool {
        self.store.descends(root, slot)
    }

    fn next_below(&self, root: Slot, previous: Option<Slot>) -> Option<Slot> {
        self.store.next_below(root, previous)
    }

    fn is_shared(&self, slot: Slot) -> bool {
        self.store.is_shared(slot)
    }

    fn is_shared_beside(&self, root: Slot, last: Slot, slot: Slot) -> bool {
        self.store.is_shared_beside(root, last, slot)
    }

    fn childless_without(&self, slot: Slot) -> Option<Slot> {
        self.store.childless_without(slot)
    }

    fn next_naming(&self, object: u32, previous: Option<Slot>) -> Option<Slot> {
        let known = self.named.find(object / PAGE_SIZE);
        self.store.next_alike(object, previous, known)
    }

    fn is_handled(&self, line: u8) -> bool {
        // No slot after these is open.
        let _count = self.store.count();
        self.handlers.count(line) > 0
    }

    fn frame(&self, slot: Slot) -> Option<u32> {
        self.store.frame(slot)
    }

    fn open_range(&mut self, first: Slot, count: u32) {
        self.store.open_range(first, count);
    }

    fn close_range(&mut self, first: Slot, count: u32) {
        self.store.close_range(first, count);
    }

    fn set_cap(&mut self, slot: Slot, capability: Cap) {
        prove!(are_near(slot, slot));
        self.handlers.take(self.store.capability(slot));
        self.handlers.add(capability);
        self.store.set_cap(slot, capability);
    }

    fn insert(&mut self, slot: Slot, capability: Cap, parent: Option<Slot>) {
        prove!(are_near(slot, slot));
        self.handlers.add(capability);
        self.named.note(capability, slot);
        self.store.insert(slot, capability, parent);
    }

    fn splice_out(&mut self, slot: Slot) {
        prove!(are_near(slot, slot));
        let capability = self.store.capability(slot);
        self.handlers.take(capability);
        let other = other_alike(&self.store, capability, slot);
        self.named.replace(capability, slot, other);
        self.store.splice_out(slot);
    }

    fn relocate(&mut self, from: Slot, to: Slot) {
        prove!(are_near(from, to));
        let capability = self.store.capability(from);
        self.named.replace(capability, from, Some(to));
        self.store.relocate(from, to);
    }

    fn write8(&mut self, offset: u32, byte: u8) {
        self.store.write8(offset, byte);
    }

    fn write32(&mut self, offset: u32, word: u32) {
        self.store.write32(offset, word);
    }

    fn write_words(&mut self, offset: u32, words: &[u32]) {
        self.store.write_words(offset, words);
    }

    fn copy_words(&mut self, source: u32, target: u32, count: u32) {
        self.store.copy_words(source, target, count);
    }

    fn zero(&mut self, offset: u32, count: u32) {
        self.store.zero(offset, count);
    }
}

impl RootStore for IndexedSlots {
    fn root_table(&self, slot: Slot) -> Option<u32> {
        self.store.root_table(slot)
    }
}
