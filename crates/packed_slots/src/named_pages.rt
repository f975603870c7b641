//! For each page of memory a slot that names the object which starts there.

ghost use Rattle.std.specs.Prelude.{ℕ, ◌≡◌, ◌==◌, ◌*◌, ◌^◌, ◌<◌, None, IfOk, IfSome, false, replicate};
ghost use Rattle.std.specs.Option.{option_map_or};
ghost use Rattle.model.specs.Capabilities.CapabilityWords.{IsCapability};
ghost use Rattle.packed_slots.specs.NamedPages.{names_page, slot_named, with_slot, without_slot};

use crate::words::is_slot;
use model::{Cap, Slot};
use slots::object_of;
use std::alloc::{AllocError, Global};
use std::marker::Model;

/// Bytes of a page.
const PAGE_SIZE: u32 = 0x1000;

/// How many pages the largest memory has.
const PAGES: u32 = 0x1000;

/// For each page a slot that names the object which starts there, if one does. A clause sees the list of it.
#[derive(Drop)]
pub(crate) struct NamedPages {
    slots: Vec<Option<Slot>>,
}

impl Model for NamedPages {
    ghost use Rattle.std.specs.Prelude.{ℕ, ◌≡◌, ◌^◌, List, Option, length};

    ghost Value = { List (Option ℕ) };

    ghost view = { λ named. named.slots.items };

    ghost invariant = { λ named. length named.slots.items ≡ 2 ^ 12 };
}

/// No slot, so many times.
fn unknown(alloc: Global, count: u32) -> Result<Vec<Option<Slot>>, AllocError>
    ensures { IfOk result (λ slots. slots.items ≡ replicate count None) }
{
    let mut slots = Vec::new(alloc);
    slots.resize(count as usize, None)?;
    Ok(slots)
}

/// The number of the page whose object a capability names, if the object starts at one.
fn page_of(capability: Cap) -> Option<u32>
    requires { IsCapability capability }
    ensures near { IfSome result (λ page. page < 2 ^ 12) }
    ensures named { (page : ℕ) → names_page capability page ≡ option_map_or (λ own. own == page) result false }
{
    let offset = object_of(capability)?;
    if offset % PAGE_SIZE == 0 {
        Some(offset / PAGE_SIZE)
    } else {
        None
    }
}

impl NamedPages {
    /// No object is named.
    pub(crate) fn unnamed(alloc: Global) -> Result<Self, AllocError>
        ensures { IfOk result (λ named. named ≡ replicate (2 ^ 12) None) }
    {
        let slots = unknown(alloc, PAGES)?;
        Ok(NamedPages { slots })
    }

    /// A slot that names the object at a page, if one does.
    pub(crate) fn find(&self, page: u32) -> Option<Slot>
        requires { page < 2 ^ 12 }
        ensures { result ≡ slot_named self.now page }
    {
        self.slots[page as usize]
    }

    /// A slot more holds a capability.
    pub(crate) fn note(&mut self, capability: Cap, slot: Slot)
        requires { IsCapability capability }
        ensures { (page : ℕ) → page < 2 ^ 12 → slot_named self.new page ≡ with_slot capability slot page (slot_named self.old page) }
    {
        let Some(page) = page_of(capability) else {
            return;
        };
        if self.find(page).is_none() {
            self.slots[page as usize] = Some(slot);
        }
    }

    /// A slot with a capability is another from now on, or there is none in its place.
    pub(crate) fn replace(&mut self, capability: Cap, gone: Slot, other: Option<Slot>)
        requires { IsCapability capability }
        ensures { (page : ℕ) → page < 2 ^ 12 → slot_named self.new page ≡ without_slot capability gone other page (slot_named self.old page) }
    {
        let Some(page) = page_of(capability) else {
            return;
        };
        if is_slot(self.find(page), gone) {
            self.slots[page as usize] = other;
        }
    }
}
