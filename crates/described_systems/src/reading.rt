//! Reading a description line by line.

use crate::declared::{Declaration, Kind, Promise, System};
use crate::faults::{DescriptionFault, Mistake, fault};
use crate::forms;
use crate::joined::Joined;
use crate::names::Names;
use crate::part_lines::Place;
use crate::parts::{CodeLine, Part};
use crate::words::{is_number, listed, number, words_of};
use indexmap::IndexMap;
use source_words::{SourceKind, declares, kind_of};
use std::alloc::{AllocError, Global};

/// The bytes of a frame.
const FRAME_BYTES: usize = 4096;

/// The most frames of a page.
const MOST_FRAMES: u32 = 1024;

/// The most bounds of a promise: two for each word of a message.
const MOST_BOUNDS: usize = 16;

/// What is read of a description up to some line.
#[derive(Drop)]
struct Reader<'a> {
    alloc: Global,
    joined: &'a Joined,
    line: u64,
    names: Names<'a>,
    declared: Vec<Declaration<'a>>,
    promises: Vec<Promise<'a>>,
    parts: Vec<Part<'a>>,
    /// The part that is not at its end.
    open: Option<Part<'a>>,
    /// Whether the program of that part has begun.
    is_program: bool,
}

/// A line of a program, by its words.
fn code_line<'a>(alloc: Global, line: u64, words: &[&'a str]) -> Result<CodeLine<'a>, AllocError> {
    let (label, words) = match words {
        [first, rest @ ..] => match first.strip_suffix(":") {
            Some(label) => (Some(label), rest),
            None => (None, words),
        },
        [] => (None, words),
    };
    Ok(CodeLine {
        line,
        label,
        words: listed(alloc, words)?,
    })
}

/// The first word of a line that can be the name of a number: before it are names of other things.
fn first_number(head: Option<&&str>) -> usize {
    match head {
        Some(head) if matches!(*head, "pool" | "budget" | "within") => 1,
        _ => 2,
    }
}

/// How many frames bytes need.
fn frames_for(bytes: Option<&[u8]>) -> u32 {
    let count = match bytes {
        Some(bytes) => bytes.len().div_ceil(FRAME_BYTES),
        None => 1,
    };
    match u32::try_from(count) {
        Ok(count) => count.max(1).min(MOST_FRAMES),
        Err(_) => MOST_FRAMES,
    }
}

/// No interrupt is to be bound twice.
fn check_interrupts<'a>(alloc: Global, parts: &[Part<'a>]) -> Result<(), DescriptionFault<'a>> {
    let mut bound = IndexMap::new(alloc);
    for part in parts {
        for slot in &part.slots {
            if let Some(number) = slot.held.interrupt() {
                if let Some(line) = bound.insert(number, slot.line)? {
                    return Err(fault(slot.line, Mistake::LineBound { number, line }));
                }
            }
        }
    }
    Ok(())
}

impl<'a> Reader<'a> {
    fn new(alloc: Global, joined: &'a Joined) -> Self {
        Reader {
            alloc,
            joined,
            line: 0,
            names: Names::new(alloc),
            declared: Vec::new(alloc),
            promises: Vec::new(alloc),
            parts: Vec::new(alloc),
            open: None,
            is_program: false,
        }
    }

    /// `page NAME [pages N] [from FILE | WORD ..]`, or `device` likewise
    fn page(
        &mut self,
        kind: Kind,
        form: &'static str,
        words: &[&'a str],
    ) -> Result<(), DescriptionFault<'a>> {
        let (name, frames, content) = match words {
            [name, word, count, rest @ ..] if *word == "pages" => {
                (
                    *name,
                    Some(number(self.line, *count, 1, MOST_FRAMES)?),
                    rest,
                )
            }
            [name, rest @ ..] => (*name, None, rest),
            [] => return Err(self.other_form(form)),
        };
        let bytes = match content {
            [word, file] if *word == "from" => Some(self.bytes_of(*file)?),
            _ => None,
        };
        let page = Declaration {
            line: self.line,
            name,
            kind,
            frames: frames.unwrap_or(frames_for(bytes)),
            words: match bytes {
                Some(_) => Vec::new(self.alloc),
                None => self.first_words(content)?,
            },
            bytes,
        };
        self.names.add_page(self.line, name, kind, page.frames)?;
        self.declared.push(page)?;
        Ok(())
    }

    /// The bytes of a file that a page begins with.
    fn bytes_of(&self, file: &'a str) -> Result<&'a [u8], DescriptionFault<'a>> {
        match self.joined.bytes_on(self.line) {
            Some(bytes) => Ok(bytes),
            None => Err(fault(self.line, Mistake::NoBytes { file })),
        }
    }

    /// The words that a page begins with.
    fn first_words(&self, words: &[&'a str]) -> Result<Vec<&'a str>, DescriptionFault<'a>> {
        for word in words {
            number(self.line, *word, 0, u32::MAX)?;
        }
        Ok(listed(self.alloc, words)?)
    }

    /// `bell NAME` or `door NAME`
    fn meeting(
        &mut self,
        kind: Kind,
        form: &'static str,
        words: &[&'a str],
    ) -> Result<(), DescriptionFault<'a>> {
        let [name] = words else {
            return Err(self.other_form(form));
        };
        self.names.add(self.line, *name, kind)?;
        self.declared.push(Declaration {
            line: self.line,
            name: *name,
            kind,
            frames: 1,
            words: Vec::new(self.alloc),
            bytes: None,
        })?;
        Ok(())
    }

    /// The line on which something is promised of messages at a door.
    fn promise_line(&self, door: &str) -> Option<u64> {
        for promise in &self.promises {
            if promise.door == door {
                return Some(promise.line);
            }
        }
        None
    }

    /// `promise DOOR LOW HIGH [LOW HIGH] ..`
    fn promise(&mut self, words: &[&'a str]) -> Result<(), DescriptionFault<'a>> {
        let [door, bounds @ ..] = words else {
            return Err(self.other_form(forms::PROMISE));
        };
        self.names.check(self.alloc, self.line, *door, Kind::Door)?;
        if bounds.is_empty() || bounds.len() % 2 == 1 || MOST_BOUNDS < bounds.len() {
            return Err(self.other_form(forms::PROMISE));
        }
        if let Some(line) = self.promise_line(*door) {
            return Err(fault(self.line, Mistake::PromisedAlready { door: *door, line }));
        }
        let bounds = self.first_words(bounds)?;
        self.promises.push(Promise {
            line: self.line,
            door: *door,
            bounds,
        })?;
        Ok(())
    }

    /// `let NAME NUMBER`
    fn number(&mut self, words: &[&'a str]) -> Result<(), DescriptionFault<'a>> {
        let [name, said] = words else {
            return Err(self.other_form(forms::LET));
        };
        let word = self.joined.given(*name).unwrap_or(*said);
        if !is_number(word) {
            let (low, high) = (0, u32::MAX);
            return Err(fault(self.line, Mistake::NotANumber { word, low, high }));
        }
        self.names.add_number(self.line, *name, word)
    }

    /// The fault of a line that is not of its form.
    fn other_form(&self, form: &'static str) -> DescriptionFault<'a> {
        fault(self.line, Mistake::OtherForm { form })
    }

    /// `part NAME PRIORITY`
    fn begin(&mut self, words: &[&'a str]) -> Result<(), DescriptionFault<'a>> {
        match words {
            [name, priority] => {
                let priority = number(self.line, *priority, 0, 255)?;
                self.names.add(self.line, *name, Kind::Part)?;
                self.open = Some(Part::new(self.alloc, self.line, *name, priority));
                self.is_program = false;
                Ok(())
            }
            _ => Err(self.other_form(forms::PART)),
        }
    }

    /// A line outside of parts, by its first word and the others.
    fn add_outside(
        &mut self,
        head: &'a str,
        words: &[&'a str],
    ) -> Result<(), DescriptionFault<'a>> {
        match head {
            "page" => self.page(Kind::Page, forms::PAGE, words),
            "device" => self.page(Kind::Device, forms::DEVICE, words),
            "bell" => self.meeting(Kind::Bell, forms::BELL, words),
            "door" => self.meeting(Kind::Door, forms::DOOR, words),
            "promise" => self.promise(words),
            "let" => self.number(words),
            "include" if words.len() == 1 => Err(fault(self.line, Mistake::NotIncluded)),
            "include" => Err(self.other_form(forms::INCLUDE)),
            "part" => self.begin(words),
            word if forms::is_of_part(word) => {
                Err(fault(self.line, Mistake::OutsidePart { word }))
            }
            word => Err(fault(self.line, Mistake::UnknownLine { word })),
        }
    }

    /// The line `end`.
    fn end(&mut self) -> Result<(), DescriptionFault<'a>> {
        self.is_program = false;
        match self.open.take() {
            Some(part) => {
                if part.code.is_empty() && part.sources.is_none() {
                    return Err(fault(part.line, Mistake::NoProgram { part: part.name }));
                }
                part.check_within()?;
                self.parts.push(part)?;
                Ok(())
            }
            None => Err(fault(self.line, Mistake::OutsidePart { word: "end" })),
        }
    }

    /// A line inside of a part, by its first word and the others.
    fn add_inside(&mut self, head: &'a str, words: &[&'a str]) -> Result<(), DescriptionFault<'a>> {
        let place = Place {
            alloc: self.alloc,
            line: self.line,
            names: &self.names,
        };
        match &mut self.open {
            Some(part) if declares(head) => Err(fault(
                self.line,
                Mistake::InsidePart {
                    word: head,
                    part: part.name,
                },
            )),
            Some(part) => place.add(part, head, words),
            None => Ok(()),
        }
    }

    /// `code`
    fn begin_program(&mut self, words: &[&'a str]) -> Result<(), DescriptionFault<'a>> {
        if !words.is_empty() {
            return Err(self.other_form(forms::CODE));
        }
        if let Some(part) = &self.open {
            if let Some(sources) = &part.sources {
                return Err(part.held_already(self.line, "a program", sources.line));
            }
        }
        self.is_program = true;
        Ok(())
    }

    /// A line of the program of a part.
    fn add_code(&mut self, words: &[&'a str]) -> Result<(), DescriptionFault<'a>> {
        let line = code_line(self.alloc, self.line, words)?;
        if let Some(part) = &mut self.open {
            part.code.push(line)?;
        }
        Ok(())
    }

    /// The words of a line.
    fn add_words(&mut self, words: &[&'a str]) -> Result<(), DescriptionFault<'a>> {
        match words {
            [] => Ok(()),
            [only] if *only == "end" => self.end(),
            [head, rest @ ..] => {
                if self.open.is_none() {
                    self.add_outside(*head, rest)
                } else if self.is_program && !declares(*head) {
                    self.add_code(words)
                } else if *head == "code" {
                    self.begin_program(rest)
                } else {
                    self.add_inside(*head, rest)
                }
            }
        }
    }

    /// The next line.
    fn add_text(&mut self, text: &'a str) -> Result<(), DescriptionFault<'a>> {
        self.line = self.line.saturating_add(1);
        let mut words = words_of(self.alloc, text)?;
        if !self.is_program {
            let first = first_number(words.first());
            self.names.put_numbers(&mut words, first);
        }
        self.add_words(words.as_slice())
    }

    /// What is wrong with the whole, if something is.
    fn check(&self) -> Result<(), DescriptionFault<'a>> {
        if let Some(part) = &self.open {
            return Err(fault(part.line, Mistake::NoEnd { part: part.name }));
        }
        if self.parts.is_empty() {
            return Err(fault(self.line.max(1), Mistake::NoPart));
        }
        if let Some(name) = self.joined.given_in_vain(&self.names.numbers) {
            return Err(fault(1, Mistake::GivenInVain { name }));
        }
        self.names.check_owners()?;
        check_interrupts(self.alloc, self.parts.as_slice())
    }

    /// What was read, once all parts are at their ends.
    fn finish(self) -> Result<System<'a>, DescriptionFault<'a>> {
        self.check()?;
        Ok(System {
            declared: self.declared,
            promises: self.promises,
            numbers: self.names.into_numbers(),
            parts: self.parts,
        })
    }
}

/// What a description says, with the files that it includes in their places.
///
/// # Errors
///
/// The first line that is wrong by itself or by the lines before it; else what is wrong with the whole; or memory was refused.
pub fn read<'a>(alloc: Global, joined: &'a Joined) -> Result<System<'a>, DescriptionFault<'a>> {
    let mut reader = Reader::new(alloc, joined);
    for line in joined.text().lines() {
        reader.add_text(line)?;
    }
    reader.finish()
}

/// Whether a text begins as a description does, with one of its declarations or a part.
pub fn is_description(text: &str) -> bool {
    kind_of(text.as_bytes()) == Some(SourceKind::Description)
}
