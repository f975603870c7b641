//! What a state has of one slot.

ghost use Rattle.std.specs.Prelude.{ℕ, ◌≡◌, ◌≢◌, ◌<◌, ◌^◌, IfSome, None, Some, false, option_map};
ghost use Rattle.model.specs.Acceptance.NotedStates.{number_of};
ghost use Rattle.model.specs.Capabilities.CapabilityWords.{words_of};
ghost use Rattle.part_roots.specs.Held.{names_in};
ghost use Rattle.part_roots.specs.Looks.{Look, look_of, name_of, said_by, seen, slot_named, words_in};
ghost use Rattle.typestate.specs.Differences.{left_by, slots_of};

use crate::{Base, Draft, SlotNumber};
use capwords::pack;
use typestate::{NotedSlot, NotedSlots, PackedSlot, SlotKey};

/// What a state has of a slot: its words in one number, of which 0 is an empty slot, and the name of what it was derived from. Without
/// words the slot is as the image lists it. So slots that are the same have the same leaves, where names are the same.
#[derive(Clone, Copy)]
pub struct Leaves {
    pub(crate) words: Option<u64>,
    pub(crate) parent: Option<u64>,
}

/// Two words in one number.
fn code_of(words: [u32; 2]) -> u64
    ensures { words_in result ≡ words }
{
    let [head, word] = words;
    u64::from(head) * 0x1_0000_0000 + u64::from(word)
}

/// The words of a slot in one number.
fn slot_code(slot: NotedSlot) -> u64
    ensures { words_in result ≡ words_of slot.capability }
{
    code_of(pack(slot.capability))
}

/// The words of a slot that the image lists, in one number, if nothing else of it is known.
fn listed_code(image: &NotedSlots<'_>, key: SlotKey) -> Option<u64>
    ensures { IfSome result (λ code. seen (slots_of image.now) (number_of key) ≡ Some (let l : Look = record { words = words_in code; parent = None } in l)) }
{
    let slot = image.at(key)?;
    match slot.parent {
        Some(_) => None,
        None => Some(slot_code(slot)),
    }
}

/// Whether the image lists something in a slot.
pub(crate) fn is_listed(image: &NotedSlots<'_>, key: SlotKey) -> bool
    ensures { result ≡ false → seen (slots_of image.now) (number_of key) ≡ None }
{
    image.at(key).is_some()
}

/// What a state has of a slot that is empty.
fn empty_leaves(image: &NotedSlots<'_>, key: SlotKey) -> Leaves
    ensures parent { result.parent ≡ None }
    ensures says { (named : ℕ → ℕ) → said_by named (slots_of image.now) (number_of key) result.words result.parent ≡ None }
{
    let words = if is_listed(image, key) { Some(0) } else { None };
    Leaves {
        words,
        parent: None,
    }
}

/// What a state has of a slot with these words that was derived from none of the thread's.
fn plain_leaves(image: &NotedSlots<'_>, key: SlotKey, code: u64) -> Leaves
    requires { code ≢ 0 }
    ensures parent { result.parent ≡ None }
    ensures says { (named : ℕ → ℕ) → said_by named (slots_of image.now) (number_of key) result.words result.parent
        ≡ Some (let l : Look = record { words = words_in code; parent = None } in l) }
{
    if let Some(listed) = listed_code(image, key) {
        if listed == code {
            return Leaves {
                words: None,
                parent: None,
            };
        }
    }
    Leaves {
        words: Some(code),
        parent: None,
    }
}

impl Base<'_> {
    /// What the state is to have of the slot of a change: nothing, where it has no place for that.
    pub(crate) fn leaves(
        &self,
        draft: &Draft,
        image: &NotedSlots<'_>,
        change: PackedSlot,
    ) -> Option<Leaves>
        ensures small { IfSome result (λ leaves. (n : ℕ) → leaves.parent ≡ Some n → n < 2 ^ 61) }
        ensures says { IfSome result (λ leaves. ((n : ℕ) → slot_named (names_in self.now draft.now) (name_of (names_in self.now draft.now) n) ≡ n)
            → said_by (slot_named (names_in self.now draft.now)) (slots_of image.now) (number_of change.key) leaves.words leaves.parent
            ≡ option_map look_of (left_by change)) }
    {
        if change.is_empty() {
            return Some(empty_leaves(image, change.key()));
        }
        let code = code_of(change.words());
        if code == 0 {
            return None;
        }
        match change.parent() {
            None => Some(plain_leaves(image, change.key(), code)),
            Some(parent) => {
                let slot = SlotNumber::of(parent)?;
                let name = SlotNumber::new(self.name(draft, slot))?;
                Some(Leaves {
                    words: Some(code),
                    parent: Some(name.number),
                })
            }
        }
    }
}
