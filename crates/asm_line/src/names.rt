//! Names.

ghost use Rattle.std.specs.Prelude.{◌≡◌};
ghost use Rattle.asm_line.specs.Words.{is_name, is_name_byte, is_name_start, name_of};
ghost use Rattle.std.specs.List.{list_all};

use crate::faults::LineFault;
use std::marker::Model;

/// A name: a lower-case letter or `_`, and then those and digits.
#[derive(Drop)]
pub struct Name<'a> {
    text: &'a str,
}

impl<'a> Model for Name<'a> {
    ghost use Rattle.model.specs.Images.Listing.{Text};

    ghost Value = { Text };

    ghost view = { λ n. n.text.now };
}

impl<'a> Name<'a> {
    /// The name's text.
    pub fn text(&self) -> &'a str
        ensures { result.now ≡ self.now }
    {
        self.text
    }
}

/// Whether a name may begin so.
fn begins_names(byte: u8) -> bool
    ensures { result ≡ is_name_start byte }
{
    byte.is_ascii_lowercase() || byte == b'_'
}

/// Whether a name may go on so.
fn continues_names(byte: u8) -> bool
    ensures { result ≡ is_name_byte byte }
{
    begins_names(byte) || byte.is_ascii_digit()
}

/// Whether all bytes may be in a name after its first.
fn all_continue_names(bytes: &[u8]) -> bool
    ensures { result ≡ list_all is_name_byte bytes.now }
{
    bytes.iter().all(|byte| continues_names(*byte))
}

/// Whether a word is a name.
fn names_something(word: &[u8]) -> bool
    ensures { result ≡ is_name word.now }
{
    match word {
        [first, others @ ..] => begins_names(*first) && all_continue_names(others),
        [] => false,
    }
}

/// The name that a word is.
#[tactic(auto, unfolding(crate::specs::Words::name_of))]
pub(crate) fn name_in(word: &[u8]) -> Result<Name<'_>, LineFault>
    ensures { result ≡ name_of word.now }
{
    if !names_something(word) {
        return Err(LineFault::Syntax);
    }
    match std::str::from_utf8(word) {
        Ok(text) => Ok(Name { text }),
        Err(_) => Err(LineFault::Syntax),
    }
}
