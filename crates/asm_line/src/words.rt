//! The words of a line: what is between spaces, tabs and commas.

ghost use Rattle.std.specs.Prelude.{◌≡◌, ◌<◌, IfOk, [], ◌∷◌, not, position, MatchOption};
ghost use Rattle.asm_line.specs.Words.{ends, is_blank, last_number, last_numbers, name_first, number_first};
ghost use Rattle.asm_line.specs.Words.{object_first, place_first, register_first, words_of};

use crate::faults::LineFault;
use crate::keywords::is;
use crate::names::{Name, name_in};
use crate::numbers::number_in;
use crate::registers::register_in;
use std::marker::Model;

/// The words of a text that are left.
#[derive(Drop)]
pub struct Words<'a> {
    text: &'a [u8],
}

impl<'a> Model for Words<'a> {
    ghost use Rattle.std.specs.Prelude.{List};
    ghost use Rattle.model.specs.Images.Listing.{Text};
    ghost use Rattle.asm_line.specs.Words.{words_of};

    ghost Value = { List Text };

    ghost view = { λ w. words_of w.text.now };
}

impl<'a> Words<'a> {
    /// The words of a text.
    pub fn of(text: &'a [u8]) -> Words<'a>
        ensures { result ≡ words_of text.now }
    {
        Words { text }
    }

    /// The first word, and those after it.
    pub(crate) fn first(self) -> Option<(&'a [u8], Words<'a>)>
        ensures { MatchOption result (self.entry ≡ []) (λ p. self.entry ≡ p.0.now ∷ p.1) }
    {
        let (word, rest) = first_word(self.text)?;
        Some((word, Words { text: rest }))
    }

    /// The first word, which is to be a name, and those after it.
    #[tactic(auto, unfolding(crate::specs::Words::name_first))]
    pub(crate) fn name(self) -> Result<(Name<'a>, Words<'a>), LineFault>
        ensures { result ≡ name_first self.entry }
    {
        match self.first() {
            Some((word, words)) => Ok((name_in(word)?, words)),
            None => Err(LineFault::Syntax),
        }
    }

    /// The first word, which is to name an untyped, an object or an interrupt, and those after it.
    #[tactic(auto, unfolding(crate::specs::Words::object_first))]
    pub(crate) fn object(self) -> Result<(Name<'a>, Words<'a>), LineFault>
        ensures { result ≡ object_first self.entry }
    {
        match self.first() {
            Some((word, words)) => {
                if is(word, "boot") {
                    return Err(LineFault::Syntax);
                }
                Ok((name_in(word)?, words))
            }
            None => Err(LineFault::Syntax),
        }
    }

    /// The first word, which is to be a register, and those after it.
    #[tactic(auto, unfolding(crate::specs::Words::register_first))]
    pub(crate) fn register(self) -> Result<(u8, Words<'a>), LineFault>
        ensures register { result ≡ register_first self.entry }
        ensures small { IfOk result (λ x. x.0 < 32) }
    {
        match self.first() {
            Some((word, words)) => Ok((register_in(word)?, words)),
            None => Err(LineFault::Syntax),
        }
    }

    /// The first word, which is to be a number, and those after it.
    #[tactic(auto, unfolding(crate::specs::Words::number_first))]
    pub(crate) fn number(self) -> Result<(i64, Words<'a>), LineFault>
        ensures { result ≡ number_first self.entry }
    {
        match self.first() {
            Some((word, words)) => Ok((number_in(word)?, words)),
            None => Err(LineFault::Syntax),
        }
    }

    /// The only word, which is to be a number.
    #[tactic(auto, unfolding(crate::specs::Words::last_number))]
    pub(crate) fn last_number(self) -> Result<i64, LineFault>
        ensures { result ≡ last_number self.entry }
    {
        let (number, words) = self.number()?;
        words.end()?;
        Ok(number)
    }

    /// The only two words, which are to be numbers.
    #[tactic(auto, unfolding(crate::specs::Words::last_numbers))]
    pub(crate) fn last_numbers(self) -> Result<(i64, i64), LineFault>
        ensures { result ≡ last_numbers self.entry }
    {
        let (first, words) = self.number()?;
        Ok((first, words.last_number()?))
    }

    /// The first words, which are to be a name, a number and a name, and those after them.
    #[tactic(auto, unfolding(crate::specs::Words::place_first))]
    pub(crate) fn place(self) -> Result<(Name<'a>, i64, Name<'a>, Words<'a>), LineFault>
        ensures { result ≡ place_first self.entry }
    {
        let (name, words) = self.object()?;
        let (number, words) = words.number()?;
        let (other, words) = words.object()?;
        Ok((name, number, other, words))
    }

    /// The same words once more.
    pub(crate) fn copied(&self) -> Words<'a>
        ensures { result ≡ self.now }
    {
        Words { text: self.text }
    }

    /// No word is to be left.
    pub(crate) fn end(self) -> Result<(), LineFault>
        ensures { result ≡ ends self.entry }
    {
        match self.first() {
            Some(_) => Err(LineFault::Syntax),
            None => Ok(()),
        }
    }
}

/// Whether a byte parts words.
fn parts_words(byte: u8) -> bool
    ensures { result ≡ is_blank byte }
{
    byte == b' ' || byte == b'\t' || byte == b','
}

/// Where the first byte that parts no words is, if there is one.
fn word_start(text: &[u8]) -> Option<usize>
    ensures { result ≡ position (λ byte. not (is_blank byte)) text.now }
{
    text.iter().position(|byte| !parts_words(*byte))
}

/// Where the first byte that parts words is, if there is one.
fn word_end(text: &[u8]) -> Option<usize>
    ensures { result ≡ position is_blank text.now }
{
    text.iter().position(|byte| parts_words(*byte))
}

/// The first word of a text, and what follows it.
fn first_word(text: &[u8]) -> Option<(&[u8], &[u8])>
    ensures { MatchOption result (words_of text.now ≡ []) (λ p. words_of text.now ≡ p.0.now ∷ words_of p.1.now) }
{
    let Some(start) = word_start(text) else {
        return None;
    };
    let (_, text) = text.split_at(start);
    let end = word_end(text).unwrap_or(text.len());
    Some(text.split_at(end))
}
