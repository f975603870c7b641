//! The programs of parts: names in them become numbers.

use crate::faults::{Fault, refused};
use crate::places::PlacedPage;
use crate::plans::PartPlan;
use crate::writer::Writer;
use described_systems::{CodeLine, Held, Part, Pool, Slot};
use indexmap::IndexMap;
use source_words::Nearest;
use std::alloc::{AllocError, Global};

/// What the last word of an instruction may be, besides a number.
#[derive(Clone, Copy, PartialEq, Eq)]
enum Operand {
    /// The name of what is in a slot.
    Slot,
    /// The name of a page.
    Page,
    /// An offset and a register in brackets.
    Place,
    /// Nothing that is a number: a register, a label.
    Other,
}

/// What the last word after this one may be.
fn operand_of(word: &str) -> Operand {
    match word {
        "lui" => Operand::Page,
        "lb" | "lh" | "lw" | "lbu" | "lhu" | "sb" | "sh" | "sw" => Operand::Place,
        "addi" | "slti" | "sltiu" | "xori" | "ori" | "andi" | "slli" | "srli" | "srai" | "word" => {
            Operand::Slot
        }
        _ => Operand::Other,
    }
}

/// Whether a word begins as names do.
fn is_name(word: &str) -> bool {
    match word.as_bytes().first() {
        Some(first) => first.is_ascii_lowercase() || *first == b'_',
        None => false,
    }
}

/// Whether a word is the name of a bell's interrupt, as `tick.line7`.
fn names_line(word: &str, bell: &str, number: u32) -> bool {
    match word.split_once('.') {
        Some((name, line)) => {
            name == bell
                && match line.strip_prefix("line") {
                    Some(digits) => digits.parse::<u32>().ok() == Some(number),
                    None => false,
                }
        }
        None => false,
    }
}

/// Whether a word is the name of what is in a slot.
fn names_slot(word: &str, slot: &Slot<'_>) -> bool {
    match slot.held {
        Held::Line { bell, number } => names_line(word, bell, number),
        held => held.name() == word,
    }
}

/// The slot after those of a pool, its CNode and its root table that `pool.slotK` names.
fn free_slot(word: &str, pool: &Pool) -> Option<u32> {
    let number = word.strip_prefix("pool.slot")?.parse::<u32>().ok()?;
    if 1 <= number && number <= pool.free {
        Some(pool.slot.saturating_add(2).saturating_add(number))
    } else {
        None
    }
}

/// The slot of a pool's that a word names.
fn pool_slot(word: &str, pool: &Pool) -> Option<u32> {
    match word {
        "pool" => Some(pool.slot),
        "cnode" => Some(pool.slot.saturating_add(1)),
        "space" => Some(pool.slot.saturating_add(2)),
        word => free_slot(word, pool),
    }
}

/// The slot of a part that a word names.
fn slot_of(part: &Part<'_>, word: &str) -> Option<u32> {
    for slot in &part.slots {
        if names_slot(word, slot) {
            return Some(slot.number);
        }
    }
    match &part.pool {
        Some(pool) => pool_slot(word, pool),
        None => None,
    }
}

/// The page of a part that a word names.
fn page_of(pages: &[PlacedPage<'_>], word: &str) -> Option<u32> {
    for page in pages {
        if page.name == word {
            return Some(page.page);
        }
    }
    None
}

/// Puts the name of what is in a slot.
fn push_slot(to: &mut String, slot: &Slot<'_>) -> Result<(), AllocError> {
    let name = slot.held.name();
    match slot.held.interrupt() {
        Some(number) => write!(to, "{name}.line{number}"),
        None => to.push_str(name),
    }
}

/// Puts the names of a part's slots.
fn push_slots(to: &mut String, part: &Part<'_>) -> Result<(), AllocError> {
    let mut before = "";
    for slot in &part.slots {
        to.push_str(before)?;
        push_slot(to, slot)?;
        before = ", ";
    }
    if let Some(pool) = part.pool {
        write!(to, "{before}pool, cnode, space")?;
        if pool.free > 0 {
            let free = pool.free;
            write!(to, ", pool.slot1 to pool.slot{free}")?;
        }
        before = ", ";
    }
    to.push_str(if before.is_empty() { "none" } else { "" })
}

/// Puts the names of a part's pages.
fn push_pages(to: &mut String, pages: &[PlacedPage<'_>]) -> Result<(), AllocError> {
    if pages.is_empty() {
        return to.push_str("none");
    }
    let mut before = "";
    for page in pages {
        let name = page.name;
        write!(to, "{before}{name}")?;
        before = ", ";
    }
    Ok(())
}

/// A part whose program is being written.
#[derive(Clone, Copy)]
pub(crate) struct Program<'a, 'p> {
    pub(crate) alloc: Global,
    pub(crate) part: &'p Part<'a>,
    pub(crate) plan: &'p PartPlan<'a>,
    /// The numbers that have names.
    pub(crate) numbers: &'p IndexMap<&'a str, &'a str>,
}

/// The label that a program starts at.
#[derive(Drop)]
pub(crate) struct Entry {
    pub(crate) label: String,
    /// The line before whose instruction it has to be written, if no label is there.
    line: Option<u64>,
}

/// The first label of lines up to the first instruction.
fn first_label<'a>(code: &[CodeLine<'a>]) -> Option<&'a str> {
    for line in code {
        if line.label.is_some() {
            return line.label;
        }
        if line.is_instruction() {
            return None;
        }
    }
    None
}

/// The line of the first instruction.
fn first_instruction(code: &[CodeLine<'_>]) -> Option<u64> {
    for line in code {
        if line.is_instruction() {
            return Some(line.line);
        }
    }
    None
}

/// Whether a label is on one of the lines.
fn has_label(code: &[CodeLine<'_>], label: &str) -> bool {
    for line in code {
        if line.label == Some(label) {
            return true;
        }
    }
    false
}

impl Program<'_, '_> {
    /// A label that is not in the program.
    fn new_label(&self) -> Result<String, AllocError> {
        let mut label = String::from_str(self.alloc, "entry")?;
        for _ in 0..self.part.code.len() {
            if !has_label(self.part.code.as_slice(), label.as_str()) {
                return Ok(label);
            }
            label.push_str("_")?;
        }
        Ok(label)
    }

    /// The label that the program starts at.
    pub(crate) fn entry(&self) -> Result<Entry, AllocError> {
        if self.part.sources.is_some() {
            return Ok(Entry {
                label: String::from_str(self.alloc, self.part.name)?,
                line: None,
            });
        }
        match first_label(self.part.code.as_slice()) {
            Some(label) => Ok(Entry {
                label: String::from_str(self.alloc, label)?,
                line: None,
            }),
            None => Ok(Entry {
                label: self.new_label()?,
                line: first_instruction(self.part.code.as_slice()),
            }),
        }
    }

    /// The fault of a name that is not one of the part's slots.
    fn no_slot(&self, line: u64, word: &str) -> Fault {
        let part = self.part.name;
        let said = match page_of(self.plan.places.pages.as_slice(), word) {
            Some(_) => format!(in self.alloc;
                "{word} is a page, and only `lui` takes the number of one"
            ),
            None => self.names_there(part, "slot", word),
        };
        refused(line, said)
    }

    /// The fault of a name that is not one of the part's pages.
    fn no_page(&self, line: u64, word: &str) -> Fault {
        let part = self.part.name;
        let said = match slot_of(self.part, word) {
            Some(_) => format!(in self.alloc;
                "{word} is in a slot, and `lui` takes the number of a page"
            ),
            None => self.names_there(part, "page", word),
        };
        refused(line, said)
    }

    /// Which names there are in place of an unknown one.
    fn names_there(&self, part: &str, what: &str, word: &str) -> Result<String, AllocError> {
        let mut said = format!(in self.alloc; "part {part} has no {what} `{word}`; it has ")?;
        if what == "page" {
            push_pages(&mut said, self.plan.places.pages.as_slice())?;
        } else {
            push_slots(&mut said, self.part)?;
        }
        if let Some(name) = self.nearest(what, word) {
            write!(&mut said, "; did you mean `{name}`?")?;
        }
        Ok(said)
    }

    /// The name of a slot or a page of the part, or of a number, that is most like a word.
    fn nearest(&self, what: &str, word: &str) -> Option<&str> {
        let mut nearest = Nearest::to(word);
        if what == "page" {
            for page in &self.plan.places.pages {
                nearest.consider(word, page.name);
            }
        } else {
            for slot in &self.part.slots {
                nearest.consider(word, slot.held.name());
            }
        }
        for name in self.numbers.keys() {
            nearest.consider(word, *name);
        }
        nearest.name
    }

    /// The number that has a name, as it is written.
    fn number(&self, name: &str) -> Option<&str> {
        match self.numbers.get(name) {
            Some(number) => Some(*number),
            None => None,
        }
    }

    /// Writes an offset and a register in brackets.
    fn put_place(&self, writer: &mut Writer<'_>, word: &str) -> Result<(), AllocError> {
        let Some((offset, register)) = word.split_once('(') else {
            return write!(&mut writer.text, " {word}");
        };
        let offset = self.number(offset).unwrap_or(offset);
        write!(&mut writer.text, " {offset}({register}")
    }

    /// Writes the number of a slot, or one that has a name.
    fn put_slot(&self, writer: &mut Writer<'_>, line: u64, word: &str) -> Result<(), Fault> {
        match (slot_of(self.part, word), self.number(word)) {
            (Some(slot), _) => Ok(write!(&mut writer.text, " {slot}")?),
            (None, Some(number)) => Ok(write!(&mut writer.text, " {number}")?),
            (None, None) => Err(self.no_slot(line, word)),
        }
    }

    /// Writes the number of a page's address, or one that has a name.
    fn put_page(&self, writer: &mut Writer<'_>, line: u64, word: &str) -> Result<(), Fault> {
        match (
            page_of(self.plan.places.pages.as_slice(), word),
            self.number(word),
        ) {
            (Some(page), _) => Ok(write!(&mut writer.text, " {page:#x}")?),
            (None, Some(number)) => Ok(write!(&mut writer.text, " {number}")?),
            (None, None) => Err(self.no_page(line, word)),
        }
    }

    /// Writes the last word of an instruction.
    fn put_last(
        &self,
        writer: &mut Writer<'_>,
        line: &CodeLine<'_>,
        operand: Operand,
        word: &str,
    ) -> Result<(), Fault> {
        match operand {
            Operand::Place => Ok(self.put_place(writer, word)?),
            Operand::Page if is_name(word) => self.put_page(writer, line.line, word),
            Operand::Slot if is_name(word) => self.put_slot(writer, line.line, word),
            _ => Ok(write!(&mut writer.text, " {word}")?),
        }
    }

    /// Writes the words of a line after its label.
    fn put_words(&self, writer: &mut Writer<'_>, line: &CodeLine<'_>) -> Result<(), Fault> {
        let [first, rest @ ..] = line.words.as_slice() else {
            return Ok(());
        };
        writer.text.push_str(*first)?;
        let [operands @ .., last] = rest else {
            return Ok(());
        };
        for word in operands {
            write!(&mut writer.text, " {word}")?;
        }
        self.put_last(writer, line, operand_of(*first), *last)
    }

    /// Writes a line of the program.
    fn put_line(
        &self,
        writer: &mut Writer<'_>,
        entry: &Entry,
        line: &CodeLine<'_>,
    ) -> Result<(), Fault> {
        if entry.line == Some(line.line) {
            let label = entry.label.as_str();
            write!(&mut writer.text, "{label}: ")?;
        }
        if let Some(label) = line.label {
            writer.text.push_str(label)?;
            writer
                .text
                .push_str(if line.words.is_empty() { ":" } else { ": " })?;
        }
        self.put_words(writer, line)?;
        Ok(writer.end(line.line)?)
    }

    /// Writes the program.
    pub(crate) fn put(&self, writer: &mut Writer<'_>, entry: &Entry) -> Result<(), Fault> {
        for line in &self.part.code {
            self.put_line(writer, entry, line)?;
        }
        Ok(())
    }
}
