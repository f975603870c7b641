//! What the frame capabilities in the slots at a point map.
//! seL4 Reference Manual, "Address Spaces and Virtual Memory".

ghost use Rattle.std.specs.Prelude.{◌≡◌, false};
ghost use Rattle.std.specs.List.{list_any};
ghost use Rattle.std.specs.Option.{option_map_or};
ghost use Rattle.model.specs.Acceptance.PointRules.{holds_for};
ghost use Rattle.model.specs.Kernel.AddressSpaces.{allows};
ghost use Rattle.typestate.specs.Differences.{left_by, slots_of};
ghost use Rattle.typestate.specs.Families.{found};

use crate::noted::left;
use crate::{NotedSlot, NotedSlots};
use model::{Access, Cap, Rights};

/// Whether rights allow an access.
pub fn allows(access: Access, rights: Rights) -> bool
    ensures { result ≡ allows access rights }
{
    match access {
        Access::Load => rights.may_read(),
        Access::Store => rights.may_write(),
        Access::Fetch => rights.0 & 4 != 0,
    }
}

/// Whether a slot's capability maps a page under a root table for an access.
fn holds_for(access: Access, root: u32, page: u32, slot: NotedSlot) -> bool
    ensures { result ≡ holds_for access root page slot }
{
    match slot.capability {
        Cap::Frame {
            mapping: Some(mapping),
            ..
        } => mapping.root == root && mapping.page == page && allows(access, mapping.rights),
        _ => false,
    }
}

/// Whether what a slot holds maps a page under a root table for an access.
fn holds(held: Option<NotedSlot>, access: Access, root: u32, page: u32) -> bool
    ensures { result ≡ option_map_or (holds_for access root page) held false }
{
    match held {
        Some(held) => holds_for(access, root, page, held),
        None => false,
    }
}

impl NotedSlots<'_> {
    /// Whether what the change to the slot of a number leaves maps a page under a root table for an access.
    fn holds_at(&self, number: u64, access: Access, root: u32, page: u32) -> bool
        ensures { result ≡ option_map_or (λ c. option_map_or (holds_for access root page) (left_by c) false) (found self.now.changes.now number) false }
    {
        match self.changes.numbered(number) {
            Some(change) => holds(left(change), access, root, page),
            None => false,
        }
    }

    /// Whether what one of the changes leaves maps a page under a root table for an access.
    fn one_holds(&self, access: Access, root: u32, page: u32) -> bool
        ensures { result ≡ list_any (λ c. option_map_or (holds_for access root page) (left_by c) false) self.now.changes.now }
    {
        let Some(pages) = self.pages else {
            return false;
        };
        for slot in pages.at(page) {
            if self.holds_at(slot.1, access, root, page) {
                return true;
            }
        }
        false
    }

    /// Whether a frame capability in the slots maps a page for an access, under the root table at this offset. Those that
    /// the image lists map none.
    pub fn maps(&self, access: Access, root: u32, page: u32) -> bool
        ensures { result ≡ list_any (holds_for access root page) (slots_of self.now) }
    {
        self.one_holds(access, root, page)
    }
}
