//! Whether the slots at two points are the same.

ghost use Rattle.std.specs.Prelude.{◌≡◌};
ghost use Rattle.model.specs.Acceptance.NotedStates.{are_same_slots, is_same_parent, is_same_slot};
ghost use Rattle.model.specs.Capabilities.CapabilityFields.{same_words};
ghost use Rattle.model.specs.Capabilities.CapabilityWords.{words_of};
ghost use Rattle.typestate.specs.Differences.{are_left_at, is_same_held, slots_of};

use crate::noted::left;
use crate::{Changes, NotedSlot, NotedSlots, SlotKey};
use capwords::pack;

/// Whether the two words of capabilities are the same.
fn are_same_words(a: [u32; 2], b: [u32; 2]) -> bool
    ensures { result ≡ same_words a b }
{
    let [a_head, a_word] = a;
    let [b_head, b_word] = b;
    a_head == b_head && a_word == b_word
}

/// Whether two slots hold capabilities with the same words.
fn have_same_words(a: NotedSlot, b: NotedSlot) -> bool
    ensures { result ≡ same_words (words_of a.capability) (words_of b.capability) }
{
    are_same_words(pack(a.capability), pack(b.capability))
}

/// Whether two slots were derived from the same.
pub(crate) fn is_same_parent(a: Option<SlotKey>, b: Option<SlotKey>) -> bool
    ensures { result ≡ is_same_parent a b }
{
    match (a, b) {
        (None, None) => true,
        (Some(a), Some(b)) => a.is_same(b),
        _ => false,
    }
}

/// Whether two slots are the same.
fn is_same_slot(a: NotedSlot, b: NotedSlot) -> bool
    ensures { result ≡ is_same_slot a b }
{
    a.key.is_same(b.key) && have_same_words(a, b) && is_same_parent(a.parent, b.parent)
}

/// Whether two look-ups give the same.
fn is_same_held(a: Option<NotedSlot>, b: Option<NotedSlot>) -> bool
    ensures { result ≡ is_same_held a b }
{
    match (a, b) {
        (None, None) => true,
        (Some(a), Some(b)) => is_same_slot(a, b),
        _ => false,
    }
}

impl NotedSlots<'_> {
    /// Whether the slots hold what changes leave, at the keys of these.
    fn agrees_with(&self, changes: &Changes) -> bool
        ensures { result ≡ are_left_at (slots_of self.now) changes.now }
    {
        for change in changes.iter() {
            if !is_same_held(left(change), self.at(change.key)) {
                return false;
            }
        }
        true
    }

    /// Whether both are the same slots. The image's slots have to be the same.
    pub fn is_same(&self, other: &NotedSlots<'_>) -> bool
        requires { other.now.image.now ≡ self.now.image.now }
        ensures { result ≡ are_same_slots (slots_of self.now) (slots_of other.now) }
    {
        let mine = other.agrees_with(self.changes);
        let theirs = self.agrees_with(other.changes);
        mine && theirs
    }
}
