//! What a removal asks of the slots before it takes any away: it is refused where an object would end
//! that still holds capabilities. It looks at the slots that go, at their neighbours, and at the slots of objects that end.

ghost use Rattle.std.specs.Prelude.{ℕ, ◌≡◌, ◌+◌, ◌^◌, ◌<◌, ◌≤◌, ◌/◌, ◌&&◌, Some, None, true, false, length};
ghost use Rattle.cnode_ops.specs.Marked.{is_marked, is_unmarked};
ghost use Rattle.cnode_ops.specs.Refusals.{IsLast, goes, is_named_beside, is_some_left_filled, own_slots, slots_named, some_own, some_slot};
ghost use Rattle.cnode_ops.specs.Sets.{set_of};
ghost use Rattle.model.specs.Capabilities.CapabilityKinds.{object_of};
ghost use Rattle.model.specs.Capabilities.CapabilityWords.{IsCapability};
ghost use Rattle.model.specs.Capabilities.Slots.{capability_at, is_full};
ghost use Rattle.model.specs.Kernel.Removal.{wants_revoke_first, with_bindings};
ghost use Rattle.model.specs.Kernel.Soundness.{IsSound};
ghost use Rattle.model.specs.Kernel.State.{State};

use crate::marks::Marks;
use crate::sets::{Removed, next_removed};
use crate::windows::any_full;
use model::{Cap, Slot};
use slots::{SlotStore, is_taken, object_of};

/// The slots of an object, in the largest memory: so many from `first` on.
#[derive(Clone, Copy)]
struct OwnSlots {
    first: u32,
    count: u32,
    ghost inside: { first + count ≤ 2 ^ 20 },
    ghost near: { first < 2 ^ 20 },
}

impl OwnSlots {
    /// No slots.
    fn none() -> Self
        ensures first { result.first ≡ 0 }
        ensures count { result.count ≡ 0 }
    {
        OwnSlots { first: 0, count: 0 }
    }

    /// Whether these are the same slots.
    fn are_same(self, other: OwnSlots) -> bool
        ensures first { result ≡ true → self.first ≡ other.first }
        ensures count { result ≡ true → self.count ≡ other.count }
    {
        self.first == other.first && self.count == other.count
    }

    /// Whether one of these is full, if none of those is that were asked for before: these may be the same.
    fn any_full<S: SlotStore>(self, store: &S, passed: OwnSlots) -> bool
        requires { some_slot passed.first passed.count (is_full (S.slots store.now)) ≡ false }
        ensures { result ≡ some_slot self.first self.count (is_full (S.slots store.now)) }
    {
        if self.are_same(passed) {
            return false;
        }
        any_full(store, Slot::new(self.first), self.count)
    }

    /// Whether one of these is full and not marked.
    fn any_unmarked<S: SlotStore>(self, store: &S, marks: &Marks) -> bool
        ensures { result ≡ some_slot self.first self.count (is_unmarked (S.slots store.now) marks.now) }
    {
        'slots: for index in 0..self.count {
            if is_unmarked(store, marks, Slot::new(self.first + index)) {
                return true;
            }
        }
        false
    }

    /// The same, if it is not so of those slots that were asked for before: these may be the same.
    fn any_unmarked_yet<S: SlotStore>(self, store: &S, marks: &Marks, passed: OwnSlots) -> bool
        requires { some_slot passed.first passed.count (is_unmarked (S.slots store.now) marks.now) ≡ false }
        ensures { result ≡ some_slot self.first self.count (is_unmarked (S.slots store.now) marks.now) }
    {
        if self.are_same(passed) {
            return false;
        }
        self.any_unmarked(store, marks)
    }
}

/// The last slot that goes, from one on.
fn last_removed<S: SlotStore>(store: &S, set: &Removed, first: Slot) -> Slot
    requires { goes (S.slots store.now) set.now first ≡ true }
    ensures { IsLast (S.order store.now) (S.slots store.now) set.now result }
{
    let mut last = first;
    'slots: while let Some(slot) = next_removed(store, set, Some(last)) {
        last = slot;
    }
    last
}

/// How many slots the object has that a capability names.
fn slots_named(capability: Cap) -> u32
    requires { IsCapability capability }
    ensures { result ≡ slots_named capability }
{
    match capability {
        Cap::CNode { radix, .. } => 1 << radix,
        Cap::Tcb { .. } => 3,
        _ => 0,
    }
}

/// Marks all slots that go.
fn mark_all<S: SlotStore>(store: &S, set: &Removed, marks: &mut Marks)
    requires { (slot : ℕ) → is_marked marks.old slot ≡ false }
    ensures { (slot : ℕ) → is_marked marks.new slot ≡ goes (S.slots store.now) set.now slot }
{
    let mut at = None;
    'slots: loop {
        let Some(slot) = next_removed(store, set, at) else {
            return;
        };
        marks.mark(slot);
        at = Some(slot);
    }
}

/// Whether a slot is full and not marked.
fn is_unmarked<S: SlotStore>(store: &S, marks: &Marks, slot: Slot) -> bool
    ensures { result ≡ is_unmarked (S.slots store.now) marks.now slot }
{
    is_taken(store, slot) && !marks.contains(slot)
}

/// The full slots of a store that go, of which there are some: `last` is the last one in the store's own order.
#[derive(Drop)]
struct Going<'s, S: SlotStore> {
    store: &'s S,
    set: Removed,
    last: Slot,
    ghost ends: { IsLast (S.order store.now) (S.slots store.now) set last },
}

impl<S: SlotStore> Going<'_, S> {
    /// Whether a slot that stays names the object which a slot names that goes.
    fn is_named_beside(&self, slot: Slot) -> bool
        requires { goes (S.slots self.now.store.now) self.now.set slot ≡ true }
        ensures { (offset : ℕ) → object_of (capability_at (S.slots self.now.store.now) slot) ≡ Some offset
            → result ≡ is_named_beside (S.slots self.now.store.now) (length (S.memory self.now.store.now) / 16) self.now.set offset }
    {
        // No slot after these is open.
        let _count = self.store.count();
        match self.set {
            Removed::One(only) => self.store.is_shared(only),
            Removed::Below(root) => self.store.is_shared_beside(root, self.last, slot),
        }
    }

    /// The slots of the object which a slot names that goes: none, where a slot that stays names it too.
    fn own_slots(&self, slot: Slot) -> OwnSlots
        requires { goes (S.slots self.now.store.now) self.now.set slot ≡ true }
        ensures { (result.first, result.count) ≡ own_slots (S.slots self.now.store.now) (length (S.memory self.now.store.now) / 16) self.now.set
            (capability_at (S.slots self.now.store.now) slot) }
    {
        let capability = self.store.capability(slot);
        let Some(offset) = object_of(capability) else {
            return OwnSlots::none();
        };
        let first = offset / 16;
        if self.is_named_beside(slot) {
            return OwnSlots { first, count: 0 };
        }
        let count = slots_named(capability);
        OwnSlots { first, count }
    }

    /// Whether an object that ends has a full slot.
    fn any_ends_full(&self) -> bool
        ensures { result ≡ false → (slot : ℕ) → goes (S.slots self.now.store.now) self.now.set slot ≡ true
            → some_own (own_slots (S.slots self.now.store.now) (length (S.memory self.now.store.now) / 16) self.now.set
            (capability_at (S.slots self.now.store.now) slot)) (is_full (S.slots self.now.store.now)) ≡ false }
    {
        let mut passed = OwnSlots::none();
        let mut at = None;
        'slots: loop {
            let Some(slot) = next_removed(self.store, &self.set, at) else {
                return false;
            };
            let own = self.own_slots(slot);
            if own.any_full(self.store, passed) {
                return true;
            }
            passed = own;
            at = Some(slot);
        }
    }

    /// Whether an object that ends has a full slot which is not marked.
    fn any_ends_unmarked(&self, marks: &Marks) -> bool
        ensures { result ≡ some_slot 0 (length (S.memory self.now.store.now) / 16) (λ slot. goes (S.slots self.now.store.now) self.now.set slot
            && some_own (own_slots (S.slots self.now.store.now) (length (S.memory self.now.store.now) / 16) self.now.set
            (capability_at (S.slots self.now.store.now) slot)) (is_unmarked (S.slots self.now.store.now) marks.now)) }
    {
        // No slot after these is open.
        let _count = self.store.count();
        let mut passed = OwnSlots::none();
        let mut at = None;
        'slots: loop {
            let Some(slot) = next_removed(self.store, &self.set, at) else {
                return false;
            };
            let own = self.own_slots(slot);
            if own.any_unmarked_yet(self.store, marks, passed) {
                return true;
            }
            passed = own;
            at = Some(slot);
        }
    }

    /// Whether an object that ends has a full slot which stays.
    fn any_ends_filled(&self) -> bool
        ensures { result ≡ is_some_left_filled (S.slots self.now.store.now) (length (S.memory self.now.store.now) / 16) self.now.set }
    {
        let mut marks = Marks::none();
        mark_all(self.store, &self.set, &mut marks);
        self.any_ends_unmarked(&marks)
    }
}

/// Whether these slots may not go yet: with them would go the last capability to a CNode or a thread that
/// still holds a capability which stays.
pub(crate) fn wants_revoke_first<S: SlotStore>(store: &S, set: Removed) -> bool
    ensures { (s : State) → s.slots ≡ S.slots store.now → IsSound s → 2 ^ s.memory_bits ≡ length (S.memory store.now)
        → result ≡ wants_revoke_first s (with_bindings s (set_of s.slots set)) }
{
    // No slot after these is open.
    let _count = store.count();
    let Some(first) = next_removed(store, &set, None) else {
        return false;
    };
    let last = last_removed(store, &set, first);
    let going = Going { store, set, last };
    // Most removals end no object that has a full slot: then nothing is marked.
    if !going.any_ends_full() {
        return false;
    }
    going.any_ends_filled()
}
