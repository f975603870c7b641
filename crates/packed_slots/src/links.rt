//! The list of all full slots, linked in both directions.

ghost use Rattle.std.specs.Prelude.{◌≡◌, ◌+◌, ◌*◌, ◌<◌, ◌≤◌, length};
ghost use Rattle.std.specs.Option.{ForSome};
ghost use Rattle.packed_slots.specs.Words.{first_without, linked_behind, linked_first, lowered_memory, next_in, previous_in};
ghost use Rattle.packed_slots.specs.Words.{unlinked, with_back_at, with_next_at, word_of, words_in};
ghost use Rattle.slots.specs.preorder.Chains.{back_above};

use crate::words::{SlotMemory, blank, depth, next, previous, put_back, put_link};
use model::Slot;

/// Writes the previous slot of a slot, if there is a slot.
fn put_back_at(memory: &mut SlotMemory, slot: &Option<Slot>, previous: &Option<Slot>)
    requires inside { ForSome slot.now (λ s. 16 * (s + 1) ≤ length memory.old) }
    ensures bytes { memory.new ≡ with_back_at memory.old slot.now previous.now }
    ensures size { length memory.new ≡ length memory.old }
{
    if let Some(slot) = slot {
        put_back(memory, *slot, previous);
    }
}

/// Writes the next slot of a slot, if there is a slot.
fn put_next_at(memory: &mut SlotMemory, slot: &Option<Slot>, next: &Option<Slot>)
    requires inside { ForSome slot.now (λ s. 16 * (s + 1) ≤ length memory.old) }
    ensures bytes { memory.new ≡ with_next_at memory.old slot.now next.now }
    ensures size { length memory.new ≡ length memory.old }
{
    if let Some(slot) = slot {
        let depth = depth(memory, *slot);
        put_link(memory, *slot, next, depth);
    }
}

/// Links a slot after another, at a depth.
pub(crate) fn link_behind(memory: &mut SlotMemory, at: Slot, slot: Slot, own_depth: u32)
    requires inside { 16 * (slot + 1) ≤ length memory.old }
    requires beside { 16 * (at + 1) ≤ length memory.old }
    requires behind { ForSome (next_in (word_of memory.old at 2)) (λ s. 16 * (s + 1) ≤ length memory.old) }
    requires small { own_depth < 256 }
    ensures bytes { memory.new ≡ linked_behind memory.old at slot own_depth }
    ensures size { length memory.new ≡ length memory.old }
{
    let after = next(memory, at);
    let depth = depth(memory, at);
    put_link(memory, at, &Some(slot), depth);
    put_link(memory, slot, &after, own_depth);
    put_back_at(memory, &after, &Some(slot));
    put_back(memory, slot, &Some(at));
}

/// Links a slot in front of the first one, at depth 0.
pub(crate) fn link_first(memory: &mut SlotMemory, first: &Option<Slot>, slot: Slot)
    requires inside { 16 * (slot + 1) ≤ length memory.old }
    requires behind { ForSome first.now (λ s. 16 * (s + 1) ≤ length memory.old) }
    ensures bytes { memory.new ≡ linked_first memory.old first.now slot }
    ensures size { length memory.new ≡ length memory.old }
{
    put_link(memory, slot, first, 0);
    put_back_at(memory, first, &Some(slot));
    put_back(memory, slot, &None);
}

/// Takes a slot out from between its neighbours, zeroes its bytes, and answers the first one of those that are left.
pub(crate) fn take_out(memory: &mut SlotMemory, first: &Option<Slot>, slot: Slot) -> Option<Slot>
    requires inside { 16 * (slot + 1) ≤ length memory.old }
    requires behind { ForSome (next_in (word_of memory.old slot 2)) (λ s. 16 * (s + 1) ≤ length memory.old) }
    requires before { ForSome (previous_in (word_of memory.old slot 3)) (λ s. 16 * (s + 1) ≤ length memory.old) }
    ensures bytes { memory.new ≡ unlinked memory.old slot }
    ensures first { result ≡ first_without (previous_in (word_of memory.old slot 3)) (next_in (word_of memory.old slot 2)) first.now }
{
    let after = next(memory, slot);
    let before = previous(memory, slot);
    put_next_at(memory, &before, &after);
    put_back_at(memory, &after, &before);
    blank(memory, slot, 1);
    match before {
        None => after,
        Some(_) => *first,
    }
}

/// Makes the slots from one on one less deep, as long as they are deeper than a depth.
#[tactic(auto, unfolding(crate::specs::Words::lowered_memory))]
pub(crate) fn lower(memory: &mut SlotMemory, count: u32, first: Option<Slot>, root_depth: u32)
    ensures bytes { memory.new ≡ lowered_memory root_depth count first memory.old }
    ensures size { length memory.new ≡ length memory.old }
{
    let mut at = first;
    'run: for _step in 0..count {
        let Some(slot) = at else {
            return;
        };
        let own_depth = depth(memory, slot);
        if own_depth <= root_depth {
            return;
        }
        let after = next(memory, slot);
        put_link(memory, slot, &after, own_depth - 1);
        at = after;
    }
}

/// The first slot from one on, back along so many slots, that is less deep than a depth.
pub(crate) fn back_above(
    memory: &SlotMemory,
    count: u32,
    limit: u32,
    last: Option<Slot>,
) -> Option<Slot>
    ensures { result ≡ back_above (words_in memory.now).previous (words_in memory.now).depth count limit last }
{
    let mut at = last;
    'back: for _step in 0..count {
        let Some(slot) = at else {
            return None;
        };
        if depth(memory, slot) < limit {
            return Some(slot);
        }
        at = previous(memory, slot);
    }
    None
}
