//! The words of a message.

ghost use Rattle.std.specs.Prelude.{◌≡◌, ◌+◌, ◌^◌, ◌<◌};
ghost use Rattle.model.specs.Kernel.CallForms.{slot_name, word};

use model::SlotName;

/// The word at an index, and 0 where the message is shorter.
pub(crate) fn word(words: &[u32], index: usize) -> u32
    ensures { result ≡ word words.now index }
{
    if index < words.len() { words[index] } else { 0 }
}

/// The slot that the word at an index and the next one name.
pub(crate) fn slot_name(words: &[u32], first: usize) -> SlotName
    requires { first + 1 < 2 ^ 64 }
    ensures { result ≡ slot_name words.now first }
{
    SlotName {
        address: word(words, first),
        depth: word(words, first + 1),
    }
}
