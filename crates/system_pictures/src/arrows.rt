//! Arrows between threads and objects: what a thread may do with an object is one arrow.

use crate::uses::{ObjectUse, Uses, are_several};
use indexmap::IndexMap;
use model::{ObjectKind, ObjectType};
use source_texts::SourceText;
use std::alloc::{AllocError, Global};

/// The ends of an arrow.
#[derive(Clone, Copy, Debug, PartialEq, Eq, Hash)]
struct Ends {
    thread: usize,
    object: usize,
}

/// What a thread may do with an object, and where that is drawn.
#[derive(Drop)]
pub(crate) struct Arrow {
    pub(crate) thread: usize,
    pub(crate) object: usize,
    /// What it does, in words.
    pub(crate) label: String,
    /// Whether something goes to the object, and whether something comes from it.
    pub(crate) goes: bool,
    pub(crate) comes: bool,
    /// How far below the top of the picture it begins and ends.
    pub(crate) thread_height: u32,
    pub(crate) object_height: u32,
}

impl Arrow {
    /// An arrow of which nothing is said yet.
    fn new(alloc: Global, found: &ObjectUse) -> Arrow {
        Arrow {
            thread: found.thread,
            object: found.object,
            label: String::new(alloc),
            goes: false,
            comes: false,
            thread_height: 0,
            object_height: 0,
        }
    }

    /// One thing more that the thread does, said once.
    fn add(&mut self, alloc: Global, found: &ObjectUse) -> Result<(), AllocError> {
        self.goes = self.goes || found.deed.goes();
        self.comes = self.comes || found.deed.comes();
        let said = said_of(alloc, found)?;
        if self.label.contains(said.as_str()) {
            return Ok(());
        }
        if !self.label.is_empty() {
            self.label.push_str(", ")?;
        }
        self.label.push_str(said.as_str())
    }
}

/// What a thread does, with the badge by which it does so.
fn said_of(alloc: Global, found: &ObjectUse) -> Result<String, AllocError> {
    let (words, badge) = (found.deed.words(), found.badge);
    if badge == 0 {
        String::from_str(alloc, words)
    } else {
        format!(in alloc; "{words} with {badge}")
    }
}

/// Whether this is a frame.
fn is_frame(kind: Option<ObjectType>) -> bool {
    matches!(&kind, Some(ObjectType::Object(ObjectKind::Frame)))
}

/// Whether an object with these users is drawn: all but pages that one thread alone has.
fn is_drawn(text: &SourceText<'_>, object: usize, users: u64) -> bool {
    !is_frame(text.kind(object)) || text.is_device(object) || are_several(users)
}

/// All arrows of a text.
#[derive(Drop)]
pub(crate) struct Arrows {
    /// The number of each by its ends.
    numbers: IndexMap<Ends, usize>,
    pub(crate) all: Vec<Arrow>,
}

impl Arrows {
    /// The number of the arrow of what a thread does, a new one where there is none.
    fn number(&mut self, alloc: Global, found: &ObjectUse) -> Result<usize, AllocError> {
        let ends = Ends {
            thread: found.thread,
            object: found.object,
        };
        if let Some(number) = self.numbers.get(&ends) {
            return Ok(*number);
        }
        let number = self.all.len();
        self.all.push(Arrow::new(alloc, found))?;
        self.numbers.insert(ends, number)?;
        Ok(number)
    }

    /// What an arrow says besides.
    fn add(&mut self, alloc: Global, found: &ObjectUse) -> Result<(), AllocError> {
        let number = self.number(alloc, found)?;
        match self.all.get_mut(number) {
            Some(arrow) => arrow.add(alloc, found),
            None => Ok(()),
        }
    }
}

/// The arrows of a text whose threads do this.
pub(crate) fn arrows_of(
    alloc: Global,
    text: &SourceText<'_>,
    uses: &Uses,
) -> Result<Arrows, AllocError> {
    let users = uses.users(alloc, text.objects.len())?;
    let mut arrows = Arrows {
        numbers: IndexMap::new(alloc),
        all: Vec::new(alloc),
    };
    for found in &uses.objects {
        let set = match users.get(found.object) {
            Some(set) => *set,
            None => 0,
        };
        if is_drawn(text, found.object, set) {
            arrows.add(alloc, found)?;
        }
    }
    Ok(arrows)
}
