//! What becomes of the slots at a point where some go.
//! seL4 Reference Manual, "Deletion, Revocation, and Recycling".

ghost use Rattle.std.specs.Prelude.{◌≡◌, ◌&&◌, ◌||◌, ◌++◌, [], IfOk, false, flat_map, is_some, true};
ghost use Rattle.model.specs.Acceptance.NotedStates.{slot_at};
ghost use Rattle.std.specs.List.{list_any};
ghost use Rattle.std.specs.Option.{option_map_or};
ghost use Rattle.model.specs.Capabilities.CapabilityKinds.{is_untyped};
ghost use Rattle.model.specs.Capabilities.CapabilityWords.{IsCapability};
ghost use Rattle.typestate.specs.ChangeLists.{kept_child, named_by, removal_change, removal_changes, told_at, told_of};
ghost use Rattle.typestate.specs.Differences.{left_by, slots_of};
ghost use Rattle.typestate.specs.Families.{children_in, children_of, has_parent};
ghost use Rattle.typestate.specs.Removals.{emptied_by, gone_by, is_root, may_lose};
ghost use Rattle.typestate.specs.SlotChanges.{cap_left, emptied, is_parent, loses_children, noted_outside, slot_left};
ghost use Rattle.typestate.specs.declared.slot_changes.Removed.TheVariants.{One};

use crate::change_lists::{emptied, is_parent};
use crate::noted::{leaves_child, left};
use crate::packed_slot::PackedSlot;
use crate::removal::Removal;
use crate::staying::Staying;
use crate::{NotedSlot, Removed, SlotKey};
use model::Cap;
use std::alloc::AllocError;

/// How many slots of a line of parents are looked at: none of the kernel's is longer.
const MOST: u32 = 256;

/// Appends that the slot is emptied that a change leaves, if it leaves one.
fn note_gone(change: &PackedSlot, made: &mut Vec<PackedSlot>) -> Result<(), AllocError>
    ensures { IfOk result (λ _. made.new.items ≡ made.old.items ++ emptied_by change.now) }
{
    if change.is_empty() {
        return Ok(());
    }
    made.push(PackedSlot::of(emptied(change.key())))?;
    Ok(())
}

impl Removal<'_, '_> {
    /// Whether the slot of this key is one of those that descend from the one that is named.
    fn is_below(&self, key: SlotKey) -> bool
        ensures { result ≡ is_some (slot_at self.now.below.now key) }
    {
        let number = key.number();
        self.below
            .binary_search_by_key(&number, |slot| slot.key().number())
            .is_ok()
    }

    /// Whether the slot of this key is one of those that go.
    fn goes(&self, key: SlotKey) -> bool
        ensures { result ≡ gone_by self.now key }
    {
        match self.which {
            Removed::One(gone) => gone.is_same(key),
            Removed::Below(_) => self.is_below(key),
        }
    }

    /// The nearest slot that stays of a line of parents.
    fn outside(&self, first: Option<SlotKey>) -> Option<SlotKey>
        ensures { result ≡ noted_outside 256 (gone_by self.now) (slots_of self.now.slots) first }
    {
        let mut parent = first;
        for _ in 0..MOST {
            let key = match parent {
                Some(key) => key,
                None => return None,
            };
            if !self.goes(key) {
                return Some(key);
            }
            parent = self.slots.parent(key);
        }
        None
    }

    /// Whether what a slot holds is a child of the slot of this key, and goes.
    fn goes_from(&self, held: Option<NotedSlot>, key: SlotKey) -> bool
        ensures { result ≡ option_map_or (λ s. gone_by self.now s.key && is_parent key s.parent) held false }
    {
        match held {
            Some(slot) => self.goes(slot.key) && is_parent(key, slot.parent),
            None => false,
        }
    }

    /// Whether what a slot holds stays, and is then a child of the slot of this key.
    #[tactic(auto, unfolding(crate::specs::ChangeLists::kept_child))]
    fn stays_below(&self, held: Option<NotedSlot>, key: SlotKey) -> bool
        ensures { result ≡ option_map_or (kept_child (slots_of self.now.slots) self.now.which key) held false }
    {
        match held {
            Some(slot) => { !self.goes(slot.key) && is_parent(key, self.outside(slot.parent)) }
            None => false,
        }
    }

    /// Whether what one of these changes leaves is a child of the slot of this key, and goes.
    fn one_goes(&self, changes: &[PackedSlot], key: SlotKey) -> bool
        ensures { result ≡ list_any (λ c. option_map_or (λ s. gone_by self.now s.key && is_parent key s.parent) (left_by c) false) changes.now }
    {
        changes
            .iter()
            .any(|change| self.goes_from(left(change.unpacked()), key))
    }

    /// Whether what one of these changes leaves stays, and is then a child of the slot of this key.
    fn one_stays(&self, changes: &[PackedSlot], key: SlotKey) -> bool
        ensures { result ≡ list_any (λ c. option_map_or (kept_child (slots_of self.now.slots) self.now.which key) (left_by c) false) changes.now }
    {
        changes
            .iter()
            .any(|change| self.stays_below(left(change.unpacked()), key))
    }

    /// Whether what a change leaves was derived from the slot of a key, stays, and is then still a child of it.
    fn child_stays(&self, key: SlotKey, change: &PackedSlot) -> bool
        ensures { result ≡ (has_parent key (left_by change.now)
            && option_map_or (kept_child (slots_of self.now.slots) self.now.which key) (left_by change.now) false) }
    {
        leaves_child(key, change) && self.stays_below(left(change.unpacked()), key)
    }

    /// Whether one of the slots of a block that were derived from the slot of this key stays, and is then still a child of it.
    fn child_in_stays(&self, key: SlotKey, block: u64) -> bool
        ensures { result ≡ list_any (λ c. option_map_or (kept_child (slots_of self.now.slots) self.now.which key) (left_by c) false)
            (children_in self.now.slots.changes.now key block) }
    {
        for change in self.slots.changes.block(block) {
            if self.child_stays(key, &change) {
                return true;
            }
        }
        false
    }

    /// Whether one of the slots that were derived from the slot of this key stays, and is then still a child of it.
    fn one_child_stays(&self, key: SlotKey) -> bool
        ensures { result ≡ list_any (λ c. option_map_or (kept_child (slots_of self.now.slots) self.now.which key) (left_by c) false)
            (children_of self.now.slots.changes.now key) }
    {
        for link in self.slots.changes.links(key) {
            if self.child_in_stays(key, link.1) {
                return true;
            }
        }
        false
    }

    /// Whether a child of the slot of this key, which may lose some, goes. What the image lists is no child.
    fn has_lost(&self, key: SlotKey) -> bool
        requires { may_lose (slots_of self.now.slots) self.now.which key ≡ true }
        ensures { result ≡ list_any (λ s. gone_by self.now s.key && is_parent key s.parent) (slots_of self.now.slots) }
    {
        match self.which {
            Removed::One(_) => true,
            Removed::Below(_) => self.one_goes(self.touched, key),
        }
    }

    /// Whether all that descends from the slot of this key goes.
    fn is_root(&self, key: SlotKey) -> bool
        ensures { result ≡ is_root self.now.which key }
    {
        match self.which {
            Removed::One(_) => false,
            Removed::Below(root) => key.is_same(root),
        }
    }

    /// Whether what one of the changes leaves that are touched stays, and is then a child of the slot of this key: none where all go.
    fn one_touched_stays(&self, key: SlotKey) -> bool
        ensures { result ≡ list_any (λ c. option_map_or (kept_child (slots_of self.now.slots) self.now.which key) (left_by c) false) self.now.touched.now }
    {
        if self.is_all {
            false
        } else {
            self.one_stays(self.touched, key)
        }
    }

    /// Whether a child of the slot of this key stays. What the image lists is no child. All children of a slot of which all descendants
    /// go are among the changes that are touched.
    fn has_kept(&self, key: SlotKey) -> bool
        ensures { result ≡ list_any (kept_child (slots_of self.now.slots) self.now.which key) (slots_of self.now.slots) }
    {
        let touched = self.one_touched_stays(key);
        if self.is_root(key) {
            return touched;
        }
        let children = self.one_child_stays(key);
        touched || children
    }

    /// Whether a child of the slot of this key, which stays, may go: only that of which the one slot that goes was derived, or that
    /// from which all that goes descends, loses children.
    fn may_lose(&self, key: SlotKey) -> bool
        ensures { result ≡ may_lose (slots_of self.now.slots) self.now.which key }
    {
        match self.which {
            Removed::One(gone) => is_parent(key, self.slots.parent(gone)),
            Removed::Below(root) => key.is_same(root),
        }
    }

    /// Whether what a slot was derived from goes.
    fn is_orphan(&self, parent: Option<SlotKey>) -> bool
        ensures { result ≡ option_map_or (gone_by self.now) parent false }
    {
        match parent {
            Some(parent) => self.goes(parent),
            None => false,
        }
    }

    /// Whether a slot that stays may change: what it was derived from goes, or it is a pool.
    fn may_change(&self, slot: NotedSlot) -> bool
        ensures { result ≡ (option_map_or (gone_by self.now) slot.parent false || is_untyped slot.capability) }
    {
        self.is_orphan(slot.parent) || matches!(slot.capability, Cap::Untyped { .. })
    }
}

impl Staying<'_, '_, '_> {
    /// Whether a child of the slot goes, and none is left.
    #[tactic(auto, unfolding(crate::specs::ChangeLists::kept_child))]
    fn loses_children(&self) -> bool
        ensures { result ≡ loses_children (gone_by self.now.removal.now) (slots_of self.now.removal.now.slots) self.now.slot.now.key }
    {
        let slot = self.slot;
        let key = slot.key;
        self.removal.may_lose(key) && self.removal.has_lost(key) && !self.removal.has_kept(key)
    }

    /// The capability that is left in the slot: a pool that loses its last child is unused again.
    fn cap_left(&self) -> Cap
        ensures value { result ≡ cap_left (gone_by self.now.removal.now)
            (slots_of self.now.removal.now.slots) self.now.slot.now.key self.now.slot.now.capability }
        ensures valid { IsCapability result }
    {
        let slot = self.slot;
        match slot.capability {
            Cap::Untyped { offset, bits, .. } if self.loses_children() => Cap::Untyped {
                offset,
                bits,
                watermark: 0,
            },
            other => other,
        }
    }

    /// What becomes of the slot.
    fn left(&self) -> NotedSlot
        ensures { result ≡ slot_left (gone_by self.now.removal.now) (slots_of self.now.removal.now.slots) self.now.slot.now }
    {
        let slot = *self.slot;
        NotedSlot {
            key: slot.key,
            capability: self.cap_left(),
            parent: self.removal.outside(slot.parent),
        }
    }
}

impl Removal<'_, '_> {
    /// Appends what becomes of a full slot where some go.
    fn note_removed(&self, slot: NotedSlot, made: &mut Vec<PackedSlot>) -> Result<(), AllocError>
        ensures { IfOk result (λ _. made.new.items ≡ made.old.items ++ removal_change (gone_by self.now) (slots_of self.now.slots) slot) }
    {
        if self.goes(slot.key) {
            made.push(PackedSlot::of(emptied(slot.key)))?;
        } else if self.may_change(slot) {
            let staying = Staying {
                removal: self,
                slot: &slot,
            };
            made.push(PackedSlot::of(staying.left()))?;
        }
        Ok(())
    }

    /// Appends what becomes of what a slot holds where some go.
    fn note_held(
        &self,
        held: Option<NotedSlot>,
        made: &mut Vec<PackedSlot>,
    ) -> Result<(), AllocError>
        ensures { IfOk result (λ _. made.new.items ≡ made.old.items ++ option_map_or (removal_change (gone_by self.now) (slots_of self.now.slots)) held []) }
    {
        match held {
            Some(slot) => self.note_removed(slot, made),
            None => Ok(()),
        }
    }

    /// Appends what becomes of the slot of a key where some go.
    fn note_removal_at(&self, key: SlotKey, made: &mut Vec<PackedSlot>) -> Result<(), AllocError>
        ensures { IfOk result (λ _. made.new.items
            ≡ made.old.items ++ told_at (removal_change (gone_by self.now) (slots_of self.now.slots)) (slots_of self.now.slots) key) }
    {
        self.note_held(self.slots.at(key), made)
    }

    /// Appends what becomes of the one slot that goes, and of what it was derived from.
    fn note_one(&self, gone: SlotKey, made: &mut Vec<PackedSlot>) -> Result<(), AllocError>
        ensures { IfOk result (λ _. made.new.items
            ≡ made.old.items ++ flat_map (told_at (removal_change (gone_by self.now) (slots_of self.now.slots)) (slots_of self.now.slots))
            (named_by (slots_of self.now.slots) (One gone))) }
    {
        self.note_removal_at(gone, made)?;
        match self.slots.parent(gone) {
            Some(parent) => self.note_removal_at(parent, made),
            None => Ok(()),
        }
    }

    /// Appends what becomes of the slots that are named where some go: the one that goes and what it was derived from, or the one
    /// from which all that goes descends.
    fn note_named(&self, made: &mut Vec<PackedSlot>) -> Result<(), AllocError>
        ensures { IfOk result (λ _. made.new.items
            ≡ made.old.items ++ flat_map (told_at (removal_change (gone_by self.now) (slots_of self.now.slots)) (slots_of self.now.slots))
            (named_by (slots_of self.now.slots) self.now.which)) }
    {
        match self.which {
            Removed::One(gone) => self.note_one(gone, made),
            Removed::Below(root) => self.note_removal_at(root, made),
        }
    }

    /// Appends what becomes of what was derived from a slot that goes or is named.
    fn note_removals(&self, made: &mut Vec<PackedSlot>) -> Result<(), AllocError>
        ensures { IfOk result (λ _. made.new.items
            ≡ made.old.items ++ flat_map (told_of (removal_change (gone_by self.now) (slots_of self.now.slots))) self.now.touched.now) }
    {
        for change in self.touched {
            let held = left(change.unpacked());
            self.note_held(held, made)?;
        }
        Ok(())
    }

    /// Appends that the slots are emptied that go, of those that descend from the one that is named.
    fn note_emptied(&self, made: &mut Vec<PackedSlot>) -> Result<(), AllocError>
        ensures { IfOk result (λ _. made.new.items ≡ made.old.items ++ flat_map emptied_by self.now.below.now) }
    {
        for change in self.below {
            note_gone(change, made)?;
        }
        Ok(())
    }

    /// Appends what becomes of what was derived from a slot that goes or is named: where all of it goes, nothing else is asked.
    fn note_touched(&self, made: &mut Vec<PackedSlot>) -> Result<(), AllocError>
        ensures { IfOk result (λ _. made.new.items
            ≡ made.old.items ++ flat_map (told_of (removal_change (gone_by self.now) (slots_of self.now.slots))) self.now.touched.now) }
    {
        if self.is_all {
            self.note_emptied(made)
        } else {
            self.note_removals(made)
        }
    }

    /// Appends what a call makes of the slots that takes these away.
    pub(crate) fn note_all(&self, made: &mut Vec<PackedSlot>) -> Result<(), AllocError>
        ensures { IfOk result (λ _. made.new.items ≡ made.old.items ++ removal_changes self.now.slots self.now.which) }
    {
        self.note_named(made)?;
        self.note_touched(made)
    }
}
