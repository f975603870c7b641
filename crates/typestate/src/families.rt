//! Which changes leave slots that were derived from others, found by the names of what these were derived from.

ghost use Rattle.std.specs.Prelude.{ℕ, ◌≡◌, ◌≤◌, ◌==◌, ◌/◌, ◌*◌, [], IfOk, false, true};
ghost use Rattle.std.specs.List.{All, filter};
ghost use Rattle.std.specs.List.Sorted.{IsStrictlySortedBy};
ghost use Rattle.typestate.specs.Families.{KeepsLinks, LastIsLinked, has_link, link_cmp};
ghost use Rattle.typestate.specs.PackedChanges.{AreLinked, has_name, is_named, packed_at};

use crate::packed_change::{Name, PackedChange};
use std::alloc::{AllocError, Global};
use std::collections::btree_map::BTreeMap;
use std::collections::btree_set::{BTreeSet, Range};
use std::ops::Bound;

/// How many slots one after another are a block, to which they have one link from each name.
const BLOCK: u64 = 16;

/// The number of the first slot of the block in which the slot of a number is: by it the block is known.
pub(crate) fn block_of(number: u64) -> u64
    ensures { result ≡ number / 16 * 16 }
{
    number / BLOCK * BLOCK
}

/// Links from names to the blocks in which slots were derived from what these stand for. It may hold more links than there are, and
/// never fewer. The link that was added last is known: so a run of slots asks for it once.
#[derive(Drop)]
pub(crate) struct Families {
    links: BTreeSet<(u64, u64)>,
    last: Option<(u64, u64)>,
}

impl Families {
    /// A name after which none has links: that of the last one.
    fn last_name(&self) -> u64
        ensures { All (λ q. q.0 ≤ result) self.now.links.keys }
    {
        match self.links.last() {
            Some(last) => last.0,
            None => 0,
        }
    }

    /// The links from a name.
    pub(crate) fn named(&self, name: u64) -> Range<'_, (u64, u64)>
        ensures links { result ≡ filter (λ q. q.0 == name) self.now.links.keys }
        ensures ordered { IsStrictlySortedBy link_cmp self.now.links.keys }
    {
        if name < self.last_name() {
            self.links.range((name, 0)..(name + 1, 0))
        } else {
            self.links
                .range((Bound::Included((name, 0)), Bound::Unbounded))
        }
    }

    /// Whether there is no link from a name, where the last one shows that.
    pub(crate) fn has_none(&self, name: u64) -> bool
        ensures { result ≡ true → filter (λ q. q.0 == name) self.now.links.keys ≡ [] }
    {
        self.last_name() < name
    }

    /// No links.
    pub(crate) fn new(alloc: Global) -> Self
        ensures { LastIsLinked result.links.keys result.last }
    {
        Families {
            links: BTreeSet::new(alloc),
            last: None,
        }
    }

    /// Whether the link that was added last leads from this name to this block.
    fn knows(&self, name: u64, block: u64) -> bool
        ensures { LastIsLinked self.now.links.keys self.now.last → result ≡ true → has_link self.now.links.keys name block ≡ true }
    {
        match self.last {
            Some(link) => link.0 == name && link.1 == block,
            None => false,
        }
    }

    /// Adds the link to the block of a slot, if it has a parent. Memory may be refused.
    pub(crate) fn add(&mut self, change: &PackedChange, slot: u64) -> Result<(), AllocError>
        ensures added { IfOk result (λ _. LastIsLinked self.old.links.keys self.old.last → (name : ℕ) → has_name name change.now.parent ≡ true
            → has_link self.new.links.keys name (slot / 16 * 16) ≡ true) }
        ensures kept { KeepsLinks self.old.links.keys self.new.links.keys }
        ensures there { LastIsLinked self.old.links.keys self.old.last → LastIsLinked self.new.links.keys self.new.last }
    {
        let Some(parent) = change.parent else {
            return Ok(());
        };
        let name = parent.number();
        let block = block_of(slot);
        if self.knows(name, block) {
            return Ok(());
        }
        self.links.insert((name, block))?;
        self.last = Some((name, block));
        Ok(())
    }

    /// Takes the link away to the block of a slot that had this parent before it was changed, if no other one in its block has it.
    pub(crate) fn replace(
        &mut self,
        changes: &BTreeMap<u64, PackedChange>,
        before: Option<Name>,
        change: &PackedChange,
        slot: u64,
    )
        ensures linked { AreLinked changes.now.entries self.old.links.keys → AreLinked changes.now.entries self.new.links.keys }
        ensures there { LastIsLinked self.old.links.keys self.old.last → LastIsLinked self.new.links.keys self.new.last }
    {
        let Some(before) = before else {
            return;
        };
        let name = before.number();
        let block = block_of(slot);
        if is_name(name, change.parent) {
            return;
        }
        if is_next_named(changes, name, slot) {
            return;
        }
        if is_any_named(changes, name, block) {
            return;
        }
        self.last = None;
        self.links.remove(&(name, block));
    }
}

/// Whether the slot after this one is in its block, and was derived from what a name stands for. Where slots are emptied one after
/// another, it answers in place of the whole block.
fn is_next_named(changes: &BTreeMap<u64, PackedChange>, name: u64, slot: u64) -> bool {
    let next = slot.saturating_add(1);
    if block_of(next) != block_of(slot) {
        return false;
    }
    match changes.get(&next) {
        Some(change) => is_name(name, change.parent),
        None => false,
    }
}

/// Whether a slot of a block was derived from what a name stands for.
fn is_any_named(changes: &BTreeMap<u64, PackedChange>, name: u64, block: u64) -> bool
    ensures { result ≡ false → (slot : ℕ) → slot / 16 * 16 ≡ block → is_named name (packed_at changes.now.entries slot) ≡ false }
{
    for (number, change) in changes.range(block..) {
        if block_of(*number) != block {
            return false;
        }
        if is_name(name, change.parent) {
            return true;
        }
    }
    false
}

/// Whether a name is that of a parent.
fn is_name(name: u64, parent: Option<Name>) -> bool
    ensures { result ≡ has_name name parent }
{
    match parent {
        Some(parent) => parent.number() == name,
        None => false,
    }
}
