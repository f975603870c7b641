//! The words of a line, and what names mean.

use crate::faults::TextFault;
use asm_line::Name;
use indexmap::IndexMap;
use std::alloc::Global;

/// What a name means, by its number among those of its sort.
#[derive(Clone, Copy, Debug, PartialEq, Eq)]
pub(crate) enum Named {
    Untyped(usize),
    Object(usize),
    Interrupt(usize),
}

/// The names that are declared so far, and the line at hand.
#[derive(Drop)]
pub(crate) struct Names<'a> {
    names: IndexMap<&'a str, Named>,
    pub(crate) line: u64,
}

/// Whether a character parts words.
fn parts_words(character: char) -> bool {
    character == ' ' || character == '\t' || character == ','
}

/// A word of a line by its place, counted from 0. What follows `#` is not a word.
pub fn word_at(line: &str, place: usize) -> Option<&str> {
    let said = match line.split_once('#') {
        Some((said, _)) => said,
        None => line,
    };
    let mut left = place;
    for word in said.split(parts_words) {
        if word.is_empty() {
            continue;
        }
        if left == 0 {
            return Some(word);
        }
        left -= 1;
    }
    None
}

impl<'a> Names<'a> {
    /// No names.
    pub(crate) fn new(alloc: Global) -> Self {
        Names {
            names: IndexMap::new(alloc),
            line: 0,
        }
    }

    /// The line at hand is at fault.
    pub(crate) fn fault(&self) -> TextFault {
        TextFault::Line(self.line)
    }

    /// One name more, which is to be a new one.
    pub(crate) fn add(&mut self, name: &Name<'a>, named: Named) -> Result<&'a str, TextFault> {
        let text = name.text();
        if self.names.get(text).is_some() {
            return Err(self.fault());
        }
        self.names.insert(text, named)?;
        Ok(text)
    }

    /// What a name means.
    pub(crate) fn named(&self, name: &Name<'a>) -> Result<Named, TextFault> {
        match self.names.get(name.text()) {
            Some(named) => Ok(*named),
            None => Err(self.fault()),
        }
    }

    /// The number of the object with this name.
    pub(crate) fn object(&self, name: &Name<'a>) -> Result<usize, TextFault> {
        match self.named(name)? {
            Named::Object(number) => Ok(number),
            Named::Untyped(_) | Named::Interrupt(_) => Err(self.fault()),
        }
    }

    /// The number of the untyped memory with this name.
    pub(crate) fn untyped(&self, name: &Name<'a>) -> Result<usize, TextFault> {
        match self.named(name)? {
            Named::Untyped(number) => Ok(number),
            Named::Object(_) | Named::Interrupt(_) => Err(self.fault()),
        }
    }
}
