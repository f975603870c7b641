//! The changes of a store, each of them made where the store allows it.

ghost use Rattle.std.specs.Prelude.{ℕ, ◌≡◌, ◌≢◌, ◌+◌, ◌^◌, ◌<◌, ◌≤◌, Some, None, IsTrue, length};
ghost use Rattle.model.specs.Capabilities.Slots.{OutsideSlots, empty_entry};
ghost use Rattle.slots.specs.Kin.{IsUnnamed, object_at};

use capwords::is_capability;
use derivation::{insert_child, relocate, remove_descendants, splice_out};
use model::{Cap, KError, Slot};
use slots::{SlotStore, is_free, is_taken, object_of};

/// Whether no slot names the object at an offset. Each slot of memory is looked at.
fn is_new<S: SlotStore>(store: &S, offset: u32) -> bool
    ensures { IsTrue result → (y : ℕ) → object_at (S.slots store.now) y ≢ Some offset }
{
    let count = store.count();
    'slots: for number in 0..count {
        if object_of(store.capability(Slot::new(number))) == Some(offset) {
            return false;
        }
    }
    true
}

/// Whether no slot names what a capability names.
fn is_unnamed<S: SlotStore>(store: &S, held: Cap) -> bool
    ensures { IsTrue result → IsUnnamed (S.slots store.now) held }
{
    match object_of(held) {
        Some(offset) => is_new(store, offset),
        None => true,
    }
}

/// Puts a capability that derives from nothing into an empty slot.
pub(crate) fn put<S: SlotStore>(store: &mut S, at: Slot, held: Cap) -> bool {
    if !is_free(store, at) || !is_capability(held) || matches!(held, Cap::Empty) {
        return false;
    }
    if !is_unnamed(store, held) {
        return false;
    }
    store.insert(at, held, None);
    true
}

/// Puts a capability into an empty slot, derived from what a full one holds, where both name the same object or none.
pub(crate) fn put_child<S: SlotStore>(
    store: &mut S,
    at: Slot,
    parent: Slot,
    held: Cap,
) -> Result<u32, KError> {
    if !is_free(store, at)
        || !is_taken(store, parent)
        || !is_capability(held)
        || matches!(held, Cap::Empty)
        || object_of(held) != object_of(store.capability(parent))
    {
        return Ok(0);
    }
    insert_child(store, at, held, parent)?;
    Ok(1)
}

/// Empties a slot, whose children go to its parent.
pub(crate) fn splice<S: SlotStore>(store: &mut S, at: Slot) -> bool {
    let taken = is_taken(store, at);
    if taken {
        splice_out(store, at);
    }
    taken
}

/// Moves what a slot holds into an empty one.
pub(crate) fn move_to<S: SlotStore>(store: &mut S, from: Slot, to: Slot) -> bool {
    if !is_taken(store, from) || !is_free(store, to) {
        return false;
    }
    relocate(store, from, to);
    true
}

/// Puts another capability into a full slot, to the same object.
pub(crate) fn recap<S: SlotStore>(store: &mut S, at: Slot, held: Cap) -> bool {
    if !is_taken(store, at) || !is_capability(held) || matches!(held, Cap::Empty) {
        return false;
    }
    if object_of(held) != object_of(store.capability(at)) {
        return false;
    }
    store.set_cap(at, held);
    true
}

/// Empties all slots that descend from a root.
pub(crate) fn cut<S: SlotStore>(store: &mut S, root: Slot) -> bool {
    remove_descendants(store, root);
    true
}

/// Whether so many slots are closed.
fn are_closed<S: SlotStore>(store: &S, first: u32, count: u32) -> bool
    requires { first + count ≤ 2 ^ 20 }
    ensures { IsTrue result → (s : ℕ) → first ≤ s → s < first + count → S.slots store.now s ≡ None }
{
    'slots: for number in first..first + count {
        if store.is_open(Slot::new(number)) {
            return false;
        }
    }
    true
}

/// Whether so many slots are open and empty.
fn are_free<S: SlotStore>(store: &S, first: u32, count: u32) -> bool
    requires { first + count ≤ 2 ^ 20 }
    ensures { IsTrue result → (s : ℕ) → first ≤ s → s < first + count
        → S.slots store.now s ≡ Some empty_entry }
{
    'slots: for number in first..first + count {
        if !is_free(store, Slot::new(number)) {
            return false;
        }
    }
    true
}

/// Opens slots, all of them closed before.
pub(crate) fn open<S: SlotStore>(store: &mut S, first: u32, count: u32) -> bool {
    let slots = store.count();
    if count > slots
        || first > slots - count
        || first >= 0x10_0000
        || !are_closed(store, first, count)
    {
        return false;
    }
    store.open_range(Slot::new(first), count);
    true
}

/// Closes slots, all of them open and empty before.
pub(crate) fn close<S: SlotStore>(store: &mut S, first: u32, count: u32) -> bool {
    let slots = store.count();
    if count > slots
        || first > slots - count
        || first >= 0x10_0000
        || !are_free(store, first, count)
    {
        return false;
    }
    store.close_range(Slot::new(first), count);
    true
}

/// Whether so many bytes lie in memory, in the place of one slot, which is closed.
fn are_beside<S: SlotStore>(store: &S, place: u32, count: u32) -> bool
    ensures within { IsTrue result → place + count ≤ length (S.memory store.now) }
    ensures outside { IsTrue result → OutsideSlots (S.slots store.now) place count }
{
    let size = store.mem().len();
    count <= 16
        && size >= 16
        && place <= size - 16
        && place % 16 <= 16 - count
        && !store.is_open(Slot::new(place / 16))
}

/// Writes a word.
pub(crate) fn write<S: SlotStore>(store: &mut S, place: u32, word: u32) -> bool {
    let beside = are_beside(store, place, 4);
    if beside {
        store.write32(place, word);
    }
    beside
}

/// Writes a byte.
pub(crate) fn write_byte<S: SlotStore>(store: &mut S, place: u32, byte: u32) -> bool {
    let beside = byte < 0x100 && are_beside(store, place, 1);
    if beside {
        store.write8(place, byte as u8);
    }
    beside
}

/// Writes zeros.
pub(crate) fn wipe<S: SlotStore>(store: &mut S, place: u32, count: u32) -> bool {
    let beside = are_beside(store, place, count);
    if beside {
        store.zero(place, count);
    }
    beside
}
