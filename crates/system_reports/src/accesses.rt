//! Who may do what: what each part may do with each object and line.

use crate::findings::Access;
use crate::members::part_name;
use indexmap::IndexMap;
use source_texts::SourceText;
use std::alloc::{AllocError, Global};
use system_pictures::{ObjectUse, Uses, push_kind};

/// A part and an object, each by its number; objects first, so that they are sorted by them.
#[derive(Clone, Copy, PartialEq, Eq, Hash)]
struct Cell {
    object: usize,
    thread: usize,
}

/// What is said of each part and object.
#[derive(Drop)]
struct Cells {
    of: IndexMap<Cell, usize>,
    /// By the objects of the uses, in the order in which they come.
    words: Vec<String>,
}

impl Cells {
    /// The number of a cell, a new one where there is none.
    fn number(&mut self, alloc: Global, cell: Cell) -> Result<usize, AllocError> {
        if let Some(number) = self.of.get(&cell) {
            return Ok(*number);
        }
        let number = self.words.len();
        self.words.push(String::new(alloc))?;
        self.of.insert(cell, number)?;
        Ok(number)
    }

    /// One thing more that a part may do with an object, said once.
    fn add(&mut self, alloc: Global, found: &ObjectUse) -> Result<(), AllocError> {
        let cell = Cell {
            object: found.object,
            thread: found.thread,
        };
        let number = self.number(alloc, cell)?;
        let said = said_of(alloc, found)?;
        if let Some(words) = self.words.get_mut(number) {
            if !words.contains(said.as_str()) {
                if !words.is_empty() {
                    words.push_str(", ")?;
                }
                words.push_str(said.as_str())?;
            }
        }
        Ok(())
    }

    /// What is said of a part and an object, if anything.
    fn said(&self, object: usize, thread: usize) -> Option<&String> {
        let number = self.of.get(&Cell { object, thread })?;
        self.words.get(*number)
    }
}

/// What a part may do, with the badge by which it does so.
fn said_of(alloc: Global, found: &ObjectUse) -> Result<String, AllocError> {
    let (words, badge) = (found.deed.words(), found.badge);
    if badge == 0 {
        String::from_str(alloc, words)
    } else {
        format!(in alloc; "{words} with {badge}")
    }
}

/// What is said of the parts and objects of a text.
fn cells_of(alloc: Global, uses: &Uses) -> Result<Cells, AllocError> {
    let mut cells = Cells {
        of: IndexMap::new(alloc),
        words: Vec::new(alloc),
    };
    for found in &uses.objects {
        cells.add(alloc, found)?;
    }
    Ok(cells)
}

/// A table that is being filled.
#[derive(Drop)]
struct Filling<'t, 'a> {
    alloc: Global,
    text: &'t SourceText<'a>,
    rows: Vec<Access<'a>>,
}

impl<'a> Filling<'_, 'a> {
    /// What the parts may do with an object.
    fn add_object(&mut self, cells: &Cells, object: usize) -> Result<(), AllocError> {
        for thread in 0..self.text.threads.len() {
            if let Some(words) = cells.said(object, thread) {
                let mut kind = String::new(self.alloc);
                push_kind(&mut kind, self.text, object)?;
                self.rows.push(Access {
                    object: self.text.object_name(object),
                    kind,
                    part: part_name(self.text, thread),
                    may: words.clone()?,
                })?;
            }
        }
        Ok(())
    }

    /// The lines that parts may acknowledge.
    fn add_lines(&mut self, uses: &Uses) -> Result<(), AllocError> {
        for (number, line) in self.text.interrupts.iter().enumerate() {
            for found in &uses.lines {
                if found.line == number {
                    self.rows.push(Access {
                        object: line.name,
                        kind: format!(in self.alloc; "line {}", line.number)?,
                        part: part_name(self.text, found.thread),
                        may: String::from_str(self.alloc, "acknowledges")?,
                    })?;
                }
            }
        }
        Ok(())
    }
}

/// What each part may do with each object and line: in the order of the objects and then of the lines, and in each of the parts.
pub(crate) fn access_in<'a>(
    alloc: Global,
    text: &SourceText<'a>,
    uses: &Uses,
) -> Result<Vec<Access<'a>>, AllocError> {
    let cells = cells_of(alloc, uses)?;
    let mut filling = Filling {
        alloc,
        text,
        rows: Vec::new(alloc),
    };
    for object in 0..text.objects.len() {
        filling.add_object(&cells, object)?;
    }
    filling.add_lines(uses)?;
    Ok(filling.rows)
}
