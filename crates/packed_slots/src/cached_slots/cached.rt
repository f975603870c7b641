//! A store of slots with the leaves of walks that it keeps.

ghost use Rattle.std.specs.Prelude.{◌≡◌};
ghost use Rattle.packed_slots.specs.cached_slots.Mappings.{AreMapped};

use crate::cached_slots::WalkStore;
use crate::cached_slots::caches::Tlb;
use crate::cached_slots::forgetting::forget;
use crate::roots::RootStore;
use model::{Access, Cap, PageFault, Slot};
use pmem::Mem;
use slots::{SlotMap, SlotStore};
use std::marker::Model;

/// A store of slots with leaves of the mappings in their capabilities, which are forgotten where a mapping goes. A clause
/// sees the store alone.
#[derive(Drop)]
pub struct CachedSlots<S: SlotStore> {
    store: S,
    cache: Tlb,
}

impl<S: SlotStore> Model for CachedSlots<S> {
    ghost Value = { S };

    ghost view = { λ cached. cached.store };

    ghost invariant = { λ cached. AreMapped (S.slots cached.store) cached.cache };
}

impl<S: SlotStore> CachedSlots<S> {
    /// A store with no leaf kept.
    pub fn new(store: S) -> Self
        ensures { result ≡ store }
    {
        CachedSlots {
            store,
            cache: Tlb::new(),
        }
    }
}

impl<S: SlotStore> SlotMap for CachedSlots<S> {
    ghost slots = { S.slots };

    #[inline(always)]
    fn capability(&self, slot: Slot) -> Cap {
        self.store.capability(slot)
    }

    fn get(&self, slot: Slot) -> (Cap, Option<Slot>) {
        self.store.get(slot)
    }
}

impl<S: SlotStore> SlotStore for CachedSlots<S> {
    ghost memory = { S.memory };

    ghost order = { S.order };

    fn mem(&self) -> &Mem {
        self.store.mem()
    }

    fn count(&self) -> u32 {
        self.store.count()
    }

    fn is_open(&self, slot: Slot) -> bool {
        self.store.is_open(slot)
    }

    fn depth(&self, slot: Slot) -> u32 {
        self.store.depth(slot)
    }

    fn next_full(&self, previous: Option<Slot>) -> Option<Slot> {
        self.store.next_full(previous)
    }

    fn descends(&self, root: Slot, slot: Slot) -> bool {
        self.store.descends(root, slot)
    }

    fn next_below(&self, root: Slot, previous: Option<Slot>) -> Option<Slot> {
        self.store.next_below(root, previous)
    }

    fn is_shared(&self, slot: Slot) -> bool {
        self.store.is_shared(slot)
    }

    fn is_shared_beside(&self, root: Slot, last: Slot, slot: Slot) -> bool {
        self.store.is_shared_beside(root, last, slot)
    }

    fn childless_without(&self, slot: Slot) -> Option<Slot> {
        self.store.childless_without(slot)
    }

    fn next_naming(&self, object: u32, previous: Option<Slot>) -> Option<Slot> {
        self.store.next_naming(object, previous)
    }

    fn is_handled(&self, line: u8) -> bool {
        self.store.is_handled(line)
    }

    fn frame(&self, slot: Slot) -> Option<u32> {
        self.store.frame(slot)
    }

    fn open_range(&mut self, first: Slot, count: u32) {
        self.store.open_range(first, count);
    }

    fn close_range(&mut self, first: Slot, count: u32) {
        self.store.close_range(first, count);
    }

    fn set_cap(&mut self, slot: Slot, capability: Cap) {
        forget(&self.store, &mut self.cache, slot);
        self.store.set_cap(slot, capability);
    }

    fn insert(&mut self, slot: Slot, capability: Cap, parent: Option<Slot>) {
        self.store.insert(slot, capability, parent);
    }

    fn splice_out(&mut self, slot: Slot) {
        forget(&self.store, &mut self.cache, slot);
        self.store.splice_out(slot);
    }

    fn relocate(&mut self, from: Slot, to: Slot) {
        self.store.relocate(from, to);
    }

    fn write8(&mut self, offset: u32, byte: u8) {
        self.store.write8(offset, byte);
    }

    fn write32(&mut self, offset: u32, word: u32) {
        self.store.write32(offset, word);
    }

    fn write_words(&mut self, offset: u32, words: &[u32]) {
        self.store.write_words(offset, words);
    }

    fn copy_words(&mut self, source: u32, target: u32, count: u32) {
        self.store.copy_words(source, target, count);
    }

    fn zero(&mut self, offset: u32, count: u32) {
        self.store.zero(offset, count);
    }
}

impl<S: RootStore> RootStore for CachedSlots<S> {
    fn root_table(&self, slot: Slot) -> Option<u32> {
        self.store.root_table(slot)
    }
}

impl<S: RootStore> WalkStore for CachedSlots<S> {
    fn keep_leaf(&mut self, root: u32, address: u32) {
        self.cache.keep(self.store.mem(), root, address);
    }

    fn walk(&self, root: u32, address: u32, access: Access) -> Result<u32, PageFault> {
        self.cache.walk(self.store.mem(), root, address, access)
    }

    fn kept_place(&self, root: u32, address: u32, access: Access) -> Option<u32> {
        self.cache
            .kept_place(self.store.mem(), root, address, access)
    }
}
