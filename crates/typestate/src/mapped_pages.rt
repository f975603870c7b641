//! Which changes leave slots that map a page, found by the page.
//! seL4 Reference Manual, "Address Spaces and Virtual Memory".

ghost use Rattle.std.specs.Prelude.{ℕ, ◌≡◌, ◌==◌, IfOk, false, true};
ghost use Rattle.std.specs.List.{filter};
ghost use Rattle.model.specs.Acceptance.NotedStates.{number_of};
ghost use Rattle.typestate.specs.Families.{KeepsLinks, has_link};
ghost use Rattle.typestate.specs.Pages.{HasPage, leaves_at, page_left};

use crate::NotedSlot;
use crate::noted::left;
use crate::packed_slot::PackedSlot;
use model::Cap;
use std::alloc::{AllocError, Global};
use std::collections::btree_set::{BTreeSet, Range};

/// Pages with the numbers of the slots that map them. It may name more slots than map a page, and never fewer.
#[derive(Drop)]
pub struct MappedPages {
    slots: BTreeSet<(u64, u64)>,
}

/// The page that a slot maps.
fn page_of(change: NotedSlot) -> Option<u32>
    ensures { result ≡ page_left change }
{
    match left(change)?.capability {
        Cap::Frame {
            mapping: Some(mapping),
            ..
        } => Some(mapping.page),
        _ => None,
    }
}

/// The page that the slot maps that a change leaves.
fn page_left(change: PackedSlot) -> Option<u32>
    ensures { result ≡ page_left change }
{
    if change.may_map() {
        page_of(change.unpacked())
    } else {
        None
    }
}

/// Whether the slot maps this page that a change leaves.
fn leaves_at(page: u32, change: PackedSlot) -> bool
    ensures { result ≡ leaves_at page change }
{
    match page_left(change) {
        Some(other) => other == page,
        None => false,
    }
}

impl MappedPages {
    /// The slots that are named with this page.
    pub(crate) fn at(&self, page: u32) -> Range<'_, (u64, u64)>
        ensures { result ≡ filter (λ q. q.0 == page) self.now.slots.keys }
    {
        let first = u64::from(page);
        self.slots.range((first, 0)..(first + 1, 0))
    }

    /// No pages.
    pub(crate) fn new(alloc: Global) -> Self {
        MappedPages {
            slots: BTreeSet::new(alloc),
        }
    }

    /// Names the slot of a change with the page that it maps after it. Memory may be refused.
    pub(crate) fn add(&mut self, change: PackedSlot) -> Result<(), AllocError>
        ensures added { IfOk result (λ _. HasPage self.new.slots.keys change) }
        ensures kept { KeepsLinks self.old.slots.keys self.new.slots.keys }
    {
        if let Some(page) = page_left(change) {
            self.slots.insert((u64::from(page), change.key().number()))?;
        }
        Ok(())
    }

    /// Names the slot of a change no longer with the page that it mapped before, in whose place another change to it is,
    /// unless that maps the same page.
    pub(crate) fn replace(&mut self, before: PackedSlot, change: PackedSlot)
        ensures others { (page slot : ℕ) → (slot == number_of before.key) ≡ false → has_link self.old.slots.keys page slot ≡ true
            → has_link self.new.slots.keys page slot ≡ true }
        ensures own { HasPage self.old.slots.keys change → HasPage self.new.slots.keys change }
    {
        let Some(page) = page_left(before) else {
            return;
        };
        if leaves_at(page, change) {
            return;
        }
        self.slots.remove(&(u64::from(page), before.key().number()));
    }
}
