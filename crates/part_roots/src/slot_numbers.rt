//! Numbers of slots, and where states have what they say of each.

ghost use Rattle.std.specs.Prelude.{◌≡◌, ◌+◌, ◌*◌, ◌^◌, ◌<◌, ◌≤◌, IfSome, None};
ghost use Rattle.model.specs.Acceptance.NotedStates.{number_of};

use typestate::SlotKey;

/// The number of a slot, so small that states have places for all that they say of it.
#[derive(Clone, Copy)]
pub struct SlotNumber {
    pub(crate) number: u64,
    ghost small: { number < 2 ^ 61 },
}

impl SlotNumber {
    /// A number, if it is so small.
    pub(crate) fn new(number: u64) -> Option<Self>
        ensures some { IfSome result (λ n. n.number ≡ number) }
        ensures none { result ≡ None → 2 ^ 61 ≤ number }
    {
        if number < 1 << 61 {
            Some(SlotNumber { number })
        } else {
            None
        }
    }

    /// The number of the slot of a key.
    pub(crate) fn of(key: SlotKey) -> Option<Self>
        ensures some { IfSome result (λ n. n.number ≡ number_of key) }
        ensures none { result ≡ None → 2 ^ 61 ≤ number_of key }
    {
        SlotNumber::new(key.number())
    }

    /// Where the words of what the slot holds are, and which slot the number names.
    pub(crate) fn first_place(self) -> u64
        ensures is { result ≡ 2 * self.number }
        ensures small { result < 2 ^ 63 }
    {
        2 * self.number
    }

    /// Where the name of what it was derived from is, and the name of the slot.
    pub(crate) fn second_place(self) -> u64
        ensures is { result ≡ 2 * self.number + 1 }
        ensures small { result < 2 ^ 63 }
    {
        2 * self.number + 1
    }
}
