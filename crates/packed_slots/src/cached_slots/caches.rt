//! Leaves of walks, kept by the low bits of their pages' numbers.

ghost use Rattle.std.specs.Prelude.{ℕ, ◌≡◌, ◌<◌, ◌/◌, ◌%◌, ◌^◌, Option, Some, None, option_map, length, replicate, slice_index_or, slice_set};
ghost use Rattle.std.specs.Option.{ok_or};
ghost use Rattle.model.specs.Machine.Sv32.{leaf_place, page_fault, walk};
ghost use Rattle.packed_slots.specs.cached_slots.KeptLeaves.{AreAmong, Leaves, leaf_of, place_for, with_leaf};

use model::{Access, PageFault};
use pmem::Mem;
use std::marker::Model;
use sv32::{Pte, entry_at, place_of};

/// A page has two to this many bytes.
const PAGE_BITS: u32 = 12;

/// Bytes of a page.
const PAGE_SIZE: u64 = 0x1000;

/// Entries of a page table.
const TABLE_ENTRIES: u32 = 0x400;

/// Bytes of a page table.
const TABLE_SIZE: u32 = 0x1000;

/// How many leaves are kept at most.
const PLACES: u32 = 64;

/// How far the places of one page under two root tables are from one another, where one root table comes after the other.
const ROOT_STEP: u32 = 13;

/// The place for the leaf of a page under a root table. Pages one after the other have places one after the other; programs
/// with the same addresses and root tables of their own have others.
fn place_for(root: u32, page: u32) -> u32
    ensures { result ≡ place_for root page }
{
    (page % PLACES + root / TABLE_SIZE % PLACES * ROOT_STEP) % PLACES
}

/// The leaf of the last level that a walk to a page ends at: the offset of the root table, the number of the page, and the leaf.
#[derive(Clone, Copy)]
pub struct TlbEntry {
    pub root: u32,
    pub page: u32,
    pub leaf: u32,
}

/// 64 leaves at most, each in the place that its root table and the number of its page name. Page faults and leaves of great
/// pages are not kept. A clause sees the list of the 64 places.
#[derive(Drop)]
pub struct Tlb {
    entries: [Option<TlbEntry>; 64],
}

impl Model for Tlb {
    ghost use Rattle.std.specs.Prelude.{◌≡◌, List, Option, length};
    ghost use Rattle.packed_slots.specs.declared.cached_slots.caches.TlbEntry.{TlbEntry};

    ghost Value = { List (Option TlbEntry) };

    ghost view = { λ tlb. tlb.entries };

    ghost invariant = { λ tlb. length tlb.entries ≡ 64 };
}

/// The place that an address has in the page that a leaf names.
#[tactic(auto, unfolding(model::specs::Machine::Sv32::leaf_place))]
fn place_in(memory: &Mem, leaf: Pte, address: u32, access: Access) -> Option<u32>
    ensures { result ≡ leaf_place memory.now leaf.0 12 address access }
{
    let page = leaf.page_address();
    let place = place_of(page + u64::from(address) % PAGE_SIZE)?;
    if leaf.permits(access) && page % PAGE_SIZE == 0 && place < u64::from(memory.len()) {
        Some(place as u32)
    } else {
        None
    }
}

/// What leads from a leaf of the first page of memory to 0, with a wrap.
const BEFORE_MEMORY: u32 = 0xE000_0000;

/// Where a number in an entry is: above ten bits.
const PAGE_NUMBER: u32 = 0x400;

/// The place that an address has in the page that a leaf names, if it is in memory and the leaf permits the access.
fn near_place(memory: &Mem, leaf: u32, address: u32, access: Access) -> Option<u32>
    ensures { (place : ℕ) → result ≡ Some place → leaf_place memory.now leaf 12 address access ≡ Some place }
{
    let number = leaf.wrapping_add(BEFORE_MEMORY) / PAGE_NUMBER;
    let place = u64::from(number) * PAGE_SIZE + u64::from(address) % PAGE_SIZE;
    if Pte(leaf).permits(access) && place < u64::from(memory.len()) {
        Some(place as u32)
    } else {
        None
    }
}

/// The leaf of the last level that the page of this number has under a root.
#[tactic(auto, unfolding(crate::specs::cached_slots::KeptLeaves::leaf_of))]
fn leaf_of(memory: &Mem, root: u32, page: u32) -> Option<Pte>
    requires { page < 2 ^ 20 }
    ensures { option_map (λ leaf. leaf.0) result ≡ leaf_of memory.now root page }
{
    let top = entry_at(memory, u64::from(root), page / TABLE_ENTRIES)?;
    if top.is_leaf() {
        return None;
    }
    let table = place_of(top.page_address())?;
    let last = entry_at(memory, table, page % TABLE_ENTRIES)?;
    if last.is_leaf() { Some(last) } else { None }
}

impl Tlb {
    /// A cache that keeps nothing.
    pub fn new() -> Self
        ensures empty { result ≡ replicate 64 None }
        ensures among { (leaves : Leaves) → AreAmong leaves result }
    {
        Tlb {
            entries: [None; 64],
        }
    }

    /// Forgets everything.
    pub fn flush(&mut self)
        ensures empty { self.new ≡ replicate 64 None }
        ensures among { (leaves : Leaves) → AreAmong leaves self.new }
    {
        *self = Tlb::new();
    }

    /// The entry that is kept of a page under a root.
    fn find(&self, root: u32, page: u32) -> Option<TlbEntry>
        ensures kept { (kept : _) → result ≡ Some kept → slice_index_or self.now (place_for root page) None ≡ Some kept }
        ensures root { (kept : _) → result ≡ Some kept → kept.root ≡ root }
        ensures page { (kept : _) → result ≡ Some kept → kept.page ≡ page }
    {
        let held = self.entries[place_for(root, page) as usize];
        match held {
            Some(kept) if kept.root == root && kept.page == page => Some(kept),
            _ => None,
        }
    }

    /// Puts an entry into the place of its page.
    fn put(&mut self, kept: TlbEntry)
        ensures { self.new ≡ slice_set self.old (place_for kept.root kept.page) (Some kept) }
    {
        self.entries[place_for(kept.root, kept.page) as usize] = Some(kept);
    }

    /// Keeps the leaf of the page of an address, if it has one under the root table at the offset `root`. Asks that
    /// what is kept lies in memory.
    pub fn keep(&mut self, memory: &Mem, root: u32, address: u32)
        requires { AreAmong (leaf_of memory.now) self.old }
        ensures kept { self.new ≡ with_leaf self.old root (address / 2 ^ 12) (leaf_of memory.now root (address / 2 ^ 12)) }
        ensures among { AreAmong (leaf_of memory.now) self.new }
    {
        let page = address >> PAGE_BITS;
        if self.find(root, page).is_some() {
            return;
        }
        if let Some(leaf) = leaf_of(memory, root, page) {
            self.put(TlbEntry {
                root,
                page,
                leaf: leaf.0,
            });
        }
    }

    /// The offset in memory of the byte that a virtual address names for an access, under the root table at the offset
    /// `root`, as [`sv32::walk`] has it. Asks that what is kept lies in memory.
    ///
    /// # Errors
    ///
    /// No entry or leaf is there for the access (`PageFault`).
    pub fn walk(
        &self,
        memory: &Mem,
        root: u32,
        address: u32,
        access: Access,
    ) -> Result<u32, PageFault>
        requires { AreAmong (leaf_of memory.now) self.now }
        ensures { result ≡ ok_or (walk memory.now root address access) page_fault }
    {
        match self.find(root, address >> PAGE_BITS) {
            Some(kept) => place_in(memory, Pte(kept.leaf), address, access).ok_or(PageFault),
            None => sv32::walk(memory, root, address, access),
        }
    }
    /// The place that an address names for an access, where the leaf of its page is kept and gives one. Else there may be
    /// one or not. Asks that what is kept lies in memory.
    pub fn kept_place(&self, memory: &Mem, root: u32, address: u32, access: Access) -> Option<u32>
        requires { AreAmong (leaf_of memory.now) self.now }
        ensures { (place : ℕ) → result ≡ Some place → walk memory.now root address access ≡ Some place }
    {
        match self.find(root, address >> PAGE_BITS) {
            Some(kept) => near_place(memory, kept.leaf, address, access),
            None => None,
        }
    }
}
