//! Which names are declared, and as what.

use crate::declared::Kind;
use crate::faults::{DescriptionFault, Mistake, fault};
use crate::forms::is_said_beside_numbers;
use crate::words::{are_digits, is_name, is_register};
use indexmap::IndexMap;
use std::alloc::{AllocError, Global};

/// What a name is declared as.
#[derive(Clone, Copy)]
struct Named {
    kind: Kind,
    line: u64,
    /// How many frames it has, if it is a page.
    frames: u32,
}

/// The names that are declared so far.
#[derive(Drop)]
pub(crate) struct Names<'a> {
    names: IndexMap<&'a str, Named>,
    /// The numbers that have names, as they are written.
    pub(crate) numbers: IndexMap<&'a str, &'a str>,
}

/// Whether a name means something else in a text or a program.
fn is_reserved(name: &str) -> bool {
    matches!(name, "boot" | "memory" | "pool" | "cnode" | "space") || is_register(name)
}

/// Whether a word is this one with a number after it.
fn is_numbered(word: &str, stem: &str) -> bool {
    match word.strip_prefix(stem) {
        Some(digits) => are_digits(digits),
        None => false,
    }
}

/// Whether something of a part has a name that ends so.
fn is_of_a_part(ending: &str) -> bool {
    matches!(ending, "space" | "slots" | "pool")
        || is_numbered(ending, "code")
        || is_numbered(ending, "table")
        || is_numbered(ending, "data")
        || is_numbered(ending, "stack")
}

/// Whether what has this kind gives names that end so.
fn gives(kind: Kind, ending: &str) -> bool {
    match kind {
        Kind::Part => is_of_a_part(ending),
        Kind::Bell => is_numbered(ending, "line"),
        Kind::Page | Kind::Device => is_numbered(ending, "page"),
        Kind::Door | Kind::Number => false,
    }
}

impl<'a> Names<'a> {
    /// No names.
    pub(crate) fn new(alloc: Global) -> Self {
        Names {
            names: IndexMap::new(alloc),
            numbers: IndexMap::new(alloc),
        }
    }

    /// What is wrong with a name that is to be declared.
    fn mistake(&self, name: &'a str) -> Option<Mistake<'a>> {
        if !is_name(name) {
            return Some(Mistake::NotAName { word: name });
        }
        if is_reserved(name) {
            return Some(Mistake::Reserved { name });
        }
        match self.names.get(name) {
            Some(named) => Some(Mistake::Doubled {
                name,
                line: named.line,
            }),
            None => None,
        }
    }

    /// One name more.
    pub(crate) fn add(
        &mut self,
        line: u64,
        name: &'a str,
        kind: Kind,
    ) -> Result<(), DescriptionFault<'a>> {
        if let Some(mistake) = self.mistake(name) {
            return Err(fault(line, mistake));
        }
        self.names.insert(
            name,
            Named {
                kind,
                line,
                frames: 1,
            },
        )?;
        Ok(())
    }

    /// A page more, of so many frames.
    pub(crate) fn add_page(
        &mut self,
        line: u64,
        name: &'a str,
        kind: Kind,
        frames: u32,
    ) -> Result<(), DescriptionFault<'a>> {
        self.add(line, name, kind)?;
        if let Some(named) = self.names.get_mut(name) {
            named.frames = frames;
        }
        Ok(())
    }

    /// A number that has a name.
    pub(crate) fn add_number(
        &mut self,
        line: u64,
        name: &'a str,
        number: &'a str,
    ) -> Result<(), DescriptionFault<'a>> {
        if is_said_beside_numbers(name) {
            return Err(fault(line, Mistake::Reserved { name }));
        }
        self.add(line, name, Kind::Number)?;
        self.numbers.insert(name, number)?;
        Ok(())
    }

    /// The numbers that have names.
    pub(crate) fn into_numbers(self) -> IndexMap<&'a str, &'a str> {
        self.numbers
    }

    /// How many frames a page has.
    pub(crate) fn frames(&self, page: &str) -> u32 {
        match self.names.get(page) {
            Some(named) => named.frames,
            None => 1,
        }
    }

    /// Puts numbers in the place of their names, from this word of a line on.
    pub(crate) fn put_numbers(&self, words: &mut Vec<&'a str>, first: usize) {
        for word in words.iter_mut().skip(first) {
            if let Some(number) = self.numbers.get(*word) {
                *word = *number;
            }
        }
    }

    /// The names of what is taken where a kind is wanted, in the order of their lines.
    fn known(&self, alloc: Global, wanted: Kind) -> Result<Vec<&'a str>, AllocError> {
        let mut known = Vec::new(alloc);
        for (name, named) in self.names.iter() {
            if named.kind.serves_as(wanted) {
                known.push(*name)?;
            }
        }
        Ok(known)
    }

    /// A name is to be declared as this kind, or as one that is taken for it.
    pub(crate) fn check(
        &self,
        alloc: Global,
        line: u64,
        name: &'a str,
        wanted: Kind,
    ) -> Result<(), DescriptionFault<'a>> {
        match self.names.get(name) {
            Some(named) if named.kind.serves_as(wanted) => Ok(()),
            Some(named) => {
                let kind = named.kind;
                Err(fault(line, Mistake::OtherKind { name, kind, wanted }))
            }
            None => Err(DescriptionFault::Unknown {
                line,
                name,
                wanted,
                known: self.known(alloc, wanted)?,
            }),
        }
    }

    /// Whose name gives this one, if one does.
    fn owner(&self, name: &'a str) -> Option<&'a str> {
        let (owner, ending) = name.rsplit_once('_')?;
        match self.names.get(owner) {
            Some(named) if gives(named.kind, ending) => Some(owner),
            _ => None,
        }
    }

    /// No declared name is to be one that something of a part or a bell gets.
    pub(crate) fn check_owners(&self) -> Result<(), DescriptionFault<'a>> {
        for (name, named) in self.names.iter() {
            if let Some(owner) = self.owner(*name) {
                return Err(fault(named.line, Mistake::TakenBy { name: *name, owner }));
            }
        }
        Ok(())
    }
}
