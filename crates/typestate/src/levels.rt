//! What descends from a slot, level by level: what the next level adds are the children of the newest one.
//! seL4 Reference Manual, "Capability Derivation Tree".

ghost use Rattle.std.specs.Prelude.{ℕ, ◌≡◌, ◌==◌, ◌+◌, ◌++◌, ◌||◌, [], IfOk, IfSome, flat_map, true};
ghost use Rattle.std.specs.List.{filter_map, list_any};
ghost use Rattle.std.specs.List.Sorted.{IsStrictlySortedBy};
ghost use Rattle.std.specs.Ordering.{nat_cmp};
ghost use Rattle.model.specs.Acceptance.NotedStates.{number_of};
ghost use Rattle.typestate.specs.Affected.{touched_of};
ghost use Rattle.typestate.specs.Descents.{AreBelow, if_other, is_found, levels_of};
ghost use Rattle.typestate.specs.Families.{children_of, found};
ghost use Rattle.typestate.specs.Levels.{all_below, below_by, touched_by};
ghost use Rattle.typestate.specs.Orders.{Rise};

use crate::change_lists::emptied;
use crate::noted::note_found;
use crate::packed_slot::PackedSlot;
use crate::{NotedSlots, Removed, SlotKey};
use std::alloc::{AllocError, Global};
use std::collections::btree_set::BTreeSet;

/// The changes whose slots descend from the one of which all descendants go, and those whose slots were derived from one that goes or
/// is named: where these are no others, they are listed once.
#[derive(Drop)]
pub(crate) struct Affected {
    pub(crate) below: Vec<PackedSlot>,
    others: Option<Vec<PackedSlot>>,
}

impl Affected {
    /// The changes whose slots were derived from one that goes or is named.
    pub(crate) fn touched(&self) -> &[PackedSlot]
        ensures { result.now ≡ touched_of self.now }
    {
        match &self.others {
            Some(touched) => touched,
            None => &self.below,
        }
    }

    /// Whether these are the changes whose slots descend, all of which go.
    pub(crate) fn all_go(&self) -> bool
        ensures { result ≡ true → touched_of self.now ≡ self.now.below.items }
    {
        match self.others {
            Some(_) => false,
            None => true,
        }
    }
}

/// Through how many slots what goes descends from the slot that is named: no line of the kernel's is longer.
fn levels_of(which: &Removed) -> u32
    ensures { result ≡ levels_of which.now }
{
    match which {
        Removed::One(_) => 0,
        Removed::Below(_) => 256,
    }
}

/// Notes the numbers of slots. Memory may be refused.
fn note_numbers(numbers: &mut BTreeSet<u64>, slots: &[PackedSlot]) -> Result<(), AllocError>
    ensures { IfOk result (λ _. (n : ℕ) → is_found numbers.new.keys n ≡ (is_found numbers.old.keys n || list_any (λ c. number_of c.key == n) slots.now)) }
{
    for slot in slots {
        numbers.insert(slot.key().number())?;
    }
    Ok(())
}

/// Appends a slot, if it is not that of a key. Memory may be refused.
fn note_other(
    key: SlotKey,
    slot: PackedSlot,
    others: &mut Vec<PackedSlot>,
) -> Result<(), AllocError>
    ensures { IfOk result (λ _. others.new.items ≡ others.old.items ++ if_other key slot) }
{
    if !slot.key().is_same(key) {
        others.push(slot)?;
    }
    Ok(())
}

/// Those of some slots that are not that of a key. Memory may be refused.
fn others(alloc: Global, key: SlotKey, slots: &[PackedSlot]) -> Result<Vec<PackedSlot>, AllocError>
    ensures { IfOk result (λ others. others.items ≡ flat_map (if_other key) slots.now) }
{
    let mut others = Vec::new(alloc);
    for slot in slots {
        note_other(key, *slot, &mut others)?;
    }
    Ok(others)
}

impl NotedSlots<'_> {
    /// The changes whose slots were derived from each of some slots. Memory may be refused.
    fn children_of_all(
        &self,
        alloc: Global,
        going: &[PackedSlot],
    ) -> Result<Vec<PackedSlot>, AllocError>
        ensures { IfOk result (λ children. children.items ≡ flat_map (λ s. children_of self.now.changes.now s.key) going.now) }
    {
        let mut children = Vec::new(alloc);
        for slot in going {
            self.note_children_of(slot.key(), &mut children)?;
        }
        Ok(children)
    }

    /// Notes the children of the newest slots that were found below a root, and answers from which of them the search goes on: from
    /// all but the root, where lines of parents go round. Memory may be refused.
    fn next_level(
        &self,
        alloc: Global,
        root: SlotKey,
        numbers: &mut BTreeSet<u64>,
        newest: &[PackedSlot],
    ) -> Result<Vec<PackedSlot>, AllocError>
        ensures { IfOk result (λ next. (k : ℕ) → AreBelow k self.now root numbers.old.keys newest.now
            → AreBelow (k + 1) self.now root numbers.new.keys next.items) }
    {
        let children = self.children_of_all(alloc, newest)?;
        note_numbers(numbers, &children)?;
        let next = others(alloc, root, &children)?;
        Ok(next)
    }

    /// Notes what descends from a root through at most so many slots, as long as there are more, and answers from which slots the
    /// search goes on. Memory may be refused.
    fn levels(
        &self,
        alloc: Global,
        root: SlotKey,
        most: u32,
        numbers: &mut BTreeSet<u64>,
    ) -> Result<Vec<PackedSlot>, AllocError>
        requires { numbers.old.keys ≡ [] }
        ensures { IfOk result (λ newest. AreBelow most self.now root numbers.new.keys newest.items) }
    {
        let mut newest = Vec::new(alloc);
        newest.push(PackedSlot::of(emptied(root)))?;
        for _ in 0..most {
            if newest.is_empty() {
                return Ok(newest);
            }
            newest = self.next_level(alloc, root, numbers, &newest)?;
        }
        Ok(newest)
    }

    /// The changes of these numbers, in their order. Memory may be refused.
    fn all_numbered(
        &self,
        alloc: Global,
        numbers: &BTreeSet<u64>,
    ) -> Result<Vec<PackedSlot>, AllocError>
        ensures listed { IfOk result (λ all. all.items ≡ filter_map (found self.now.changes.now) numbers.now.keys) }
        ensures ordered { IfOk result (λ _. IsStrictlySortedBy nat_cmp numbers.now.keys) }
    {
        let mut all = Vec::new(alloc);
        for number in numbers {
            let change = self.changes.packed_at(*number);
            note_found(change, &mut all)?;
        }
        Ok(all)
    }

    /// The changes of these numbers, and of those of the children of the newest slots, from which the search goes on. Memory may be
    /// refused.
    fn all_touched(
        &self,
        alloc: Global,
        root: SlotKey,
        numbers: &mut BTreeSet<u64>,
        newest: &[PackedSlot],
    ) -> Result<Vec<PackedSlot>, AllocError>
        ensures { IfOk result (λ touched. (k : ℕ) → AreBelow k self.now root numbers.old.keys newest.now → touched.items ≡ below_by (k + 1) self.now root) }
    {
        self.next_level(alloc, root, numbers, newest)?;
        let touched = self.all_numbered(alloc, numbers)?;
        Ok(touched)
    }

    /// What goes where all of it was derived from the slot that is named: nothing is noted of other removals. It is all that is touched.
    /// Memory may be refused.
    fn single_level(
        &self,
        alloc: Global,
        which: &Removed,
    ) -> Result<Option<Vec<PackedSlot>>, AllocError>
        ensures listed { IfOk result (λ found. IfSome found (λ all. all.items ≡ all_below self.now which.now)) }
        ensures told { IfOk result (λ found. IfSome found (λ all. all.items ≡ touched_by self.now which.now)) }
        ensures rising { IfOk result (λ found. IfSome found (λ all. Rise all.items)) }
    {
        let Removed::Below(root) = which else {
            return Ok(None);
        };
        let mut children = Vec::new(alloc);
        self.note_children_of(*root, &mut children)?;
        if self.are_childless(&children) {
            Ok(Some(children))
        } else {
            Ok(None)
        }
    }

    /// What goes, and what was derived from what goes or is named, level by level. Memory may be refused.
    fn affected_levels(&self, alloc: Global, which: &Removed) -> Result<Affected, AllocError>
        ensures listed { IfOk result (λ all. all.below.items ≡ all_below self.now which.now) }
        ensures told { IfOk result (λ all. touched_of all ≡ touched_by self.now which.now) }
        ensures rising { IfOk result (λ all. Rise all.below.items) }
    {
        let root = which.named();
        let mut numbers = BTreeSet::new(alloc);
        let newest = self.levels(alloc, root, levels_of(which), &mut numbers)?;
        let below = self.all_numbered(alloc, &numbers)?;
        if newest.is_empty() {
            return Ok(Affected {
                below,
                others: None,
            });
        }
        let touched = self.all_touched(alloc, root, &mut numbers, &newest)?;
        Ok(Affected {
            below,
            others: Some(touched),
        })
    }

    /// What goes, and what was derived from what goes or is named. Memory may be refused.
    pub(crate) fn affected(&self, alloc: Global, which: &Removed) -> Result<Affected, AllocError>
        ensures listed { IfOk result (λ all. all.below.items ≡ all_below self.now which.now) }
        ensures told { IfOk result (λ all. touched_of all ≡ touched_by self.now which.now) }
        ensures rising { IfOk result (λ all. Rise all.below.items) }
    {
        match self.single_level(alloc, which)? {
            Some(below) => Ok(Affected {
                below,
                others: None,
            }),
            None => self.affected_levels(alloc, which),
        }
    }
}
