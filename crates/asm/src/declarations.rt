//! The sections before the threads, as far as they are declared.

ghost use Rattle.std.specs.Prelude.{◌≡◌, ◌+◌, [], ◌∷◌, ◌++◌, map, position, OnOk, MatchResult};
ghost use Rattle.std.specs.List.{position_or_len};
ghost use Rattle.asm_line.specs.declared.lines.Line.TheVariants as said;
ghost use Rattle.asm.specs.declared.faults.Fault.{Fault};
ghost use Rattle.asm.specs.Keys.{has_room};
ghost use Rattle.asm.specs.Meaning.{declared_with, placed_with, promised_said, words_said};
ghost use Rattle.asm.specs.Outcomes.{Gives, Means};
ghost use Rattle.asm.specs.Sections.{entry_of, is_in_order, nothing_declared, number_of_source, on_line};

use crate::faults::Fault;
use crate::keys::insert;
use crate::names::{Names, Source};
use asm_line::{Name, Words};
use image::{Content, Promise};
use model::{
    CapabilityEntry, FrameEntry, InterruptEntry, ObjectEntry, PromisedWord, TableEntry,
    UntypedEntry,
};
use std::alloc::Global;
use std::marker::Model;

/// How many entries the sections have at most.
const MOST_UNTYPEDS: usize = model::MOST_UNTYPEDS as usize;

const MOST_OBJECTS: usize = model::MOST_OBJECTS as usize;

const MOST_CAPABILITIES: usize = model::MOST_CAPABILITIES as usize;

const MOST_INTERRUPTS: usize = model::MOST_INTERRUPTS as usize;

const MOST_TABLES: usize = model::MOST_TABLES as usize;

const MOST_FRAMES: usize = model::MOST_FRAMES as usize;

const MOST_CONTENTS: usize = model::MOST_CONTENTS as usize;

const MOST_PROMISES: usize = model::MOST_PROMISES as usize;

/// How many words a frame begins with at most.
const MOST_CONTENT_WORDS: usize = model::MOST_CONTENT_WORDS as usize;

/// How many words of a message are promised at most.
const MOST_PROMISED_WORDS: usize = 8;

/// A capability in a slot of a CNode, as it is declared.
#[derive(Clone, Copy)]
pub(crate) struct Capability {
    pub(crate) cnode: u32,
    pub(crate) index: u32,
    pub(crate) source: Source,
    pub(crate) rights: u32,
    pub(crate) payload: u32,
}

/// What is declared so far, each section in the order of the image.
#[derive(Drop)]
pub(crate) struct Declarations<'a> {
    pub(crate) names: Names<'a>,
    pub(crate) untypeds: Vec<UntypedEntry>,
    pub(crate) objects: Vec<ObjectEntry>,
    pub(crate) capabilities: Vec<Capability>,
    pub(crate) interrupts: Vec<InterruptEntry>,
    pub(crate) tables: Vec<TableEntry>,
    pub(crate) frames: Vec<FrameEntry>,
    pub(crate) contents: Vec<Content>,
    pub(crate) promises: Vec<Promise>,
}

impl<'a> Model for Declarations<'a> {
    ghost use Rattle.asm.specs.Sections.{Declared};

    ghost Value = { Declared };

    ghost view = { λ d. record {
      names = d.names;
      untypeds = d.untypeds.items;
      objects = d.objects.items;
      capabilities = d.capabilities.items;
      interrupts = d.interrupts.items;
      tables = d.tables.items;
      frames = d.frames.items;
      contents = d.contents.items;
      promises = d.promises.items;
    } };
}

/// Puts an entry after the others, of which there are to be less than `most`.
fn append<E: Drop>(entries: &mut Vec<E>, most: usize, entry: E) -> Result<(), Fault>
    ensures appended { OnOk result (entries.new.items ≡ entries.old.items ++ entry ∷ []) }
    ensures meant { Means result (λ _. tt) (has_room most entries.old.items) }
{
    if most <= entries.len() {
        return Err(Fault::Range);
    }
    entries.push(entry)?;
    Ok(())
}

/// The words of a `data` line.
fn words_of(alloc: Global, words: Words<'_>) -> Result<Vec<u32>, Fault>
    ensures { Means result (λ read. read.items) (words_said words.entry) }
{
    let mut read = Vec::new(alloc);
    let mut rest = words;
    'words: while let Some((word, words)) = rest.next_word() {
        append(&mut read, MOST_CONTENT_WORDS, word)?;
        rest = words;
    }
    Ok(read)
}

/// The words' ranges of a `promise` line.
fn promised_words_of(alloc: Global, words: Words<'_>) -> Result<Vec<PromisedWord>, Fault>
    ensures { Means result (λ read. read.items) (promised_said words.entry) }
{
    let mut read = Vec::new(alloc);
    let mut rest = words;
    'words: while let Some((word, words)) = rest.next_promised_word() {
        append(&mut read, MOST_PROMISED_WORDS, word)?;
        rest = words;
    }
    Ok(read)
}

/// Whether an object of an untyped may come after these, which are in the order of their untypeds.
fn is_in_order(untyped: u32, objects: &[ObjectEntry]) -> bool
    ensures { result ≡ is_in_order untyped objects.now }
{
    match objects.last() {
        Some(last) => last.untyped <= untyped,
        None => true,
    }
}

/// Where the interrupt on a line is.
fn place_on_line(line: u32, interrupts: &[InterruptEntry]) -> Option<usize>
    ensures { result ≡ position (on_line line) interrupts.now }
{
    interrupts.iter().position(|entry| entry.line == line)
}

/// The place of the interrupt on a line: after all others if it is not there.
fn place_or_end(line: u32, interrupts: &[InterruptEntry]) -> usize
    ensures { result ≡ position_or_len (on_line line) interrupts.now }
{
    match place_on_line(line, interrupts) {
        Some(place) => place,
        None => interrupts.len(),
    }
}

/// The number of the entry at a place after so many objects. More than there are numbers are refused as memory for them
/// is: no section has as many entries.
fn behind(objects: usize, place: usize) -> Result<u32, Fault>
    ensures { MatchResult result (λ number. number ≡ objects + place) (λ fault. fault ≡ Fault.Memory) }
{
    match objects.checked_add(place) {
        Some(number) if number <= u32::MAX as usize => Ok(number as u32),
        _ => Err(Fault::Memory),
    }
}

impl<'a> Declarations<'a> {
    pub(crate) fn new(alloc: Global) -> Declarations<'a>
        ensures { result ≡ nothing_declared }
    {
        Declarations {
            names: Names::new(alloc),
            untypeds: Vec::new(alloc),
            objects: Vec::new(alloc),
            capabilities: Vec::new(alloc),
            interrupts: Vec::new(alloc),
            tables: Vec::new(alloc),
            frames: Vec::new(alloc),
            contents: Vec::new(alloc),
            promises: Vec::new(alloc),
        }
    }

    #[tactic(auto, unfolding(crate::specs::Meaning::declared_with))]
    pub(crate) fn add_untyped(&mut self, name: &Name<'a>, entry: UntypedEntry) -> Result<(), Fault>
        ensures { Means result (λ _. self.new) (declared_with self.old (said.Untyped name.now entry)) }
    {
        self.names.check_free(name)?;
        append(&mut self.untypeds, MOST_UNTYPEDS, entry)?;
        self.names.add_untyped(name)
    }

    /// Objects come in the order of their untypeds.
    #[tactic(auto, unfolding(crate::specs::Meaning::declared_with))]
    pub(crate) fn add_object(
        &mut self,
        name: &Name<'a>,
        untyped: &Name<'a>,
        kind: u32,
        size: u32,
    ) -> Result<(), Fault>
        ensures { Means result (λ _. self.new) (declared_with self.old (said.Object name.now untyped.now kind size)) }
    {
        self.names.check_free(name)?;
        let untyped = self.names.untyped(untyped)?;
        if !is_in_order(untyped, &self.objects) {
            return Err(Fault::Range);
        }
        let entry = ObjectEntry {
            untyped,
            kind,
            size,
        };
        append(&mut self.objects, MOST_OBJECTS, entry)?;
        self.names.add_object(name)
    }

    #[tactic(auto, unfolding(crate::specs::Meaning::declared_with))]
    pub(crate) fn add_interrupt(
        &mut self,
        name: &Name<'a>,
        line: u32,
        notification: &Name<'a>,
        badge: u32,
    ) -> Result<(), Fault>
        ensures { Means result (λ _. self.new) (declared_with self.old (said.Interrupt name.now line notification.now badge)) }
    {
        self.names.check_free(name)?;
        let entry = InterruptEntry {
            line,
            notification: self.names.object(notification)?,
            badge,
        };
        insert(&mut self.interrupts, MOST_INTERRUPTS, entry)?;
        self.names.add_interrupt(name, line)
    }

    #[tactic(auto, unfolding(crate::specs::Meaning::placed_with))]
    pub(crate) fn add_capability(
        &mut self,
        cnode: &Name<'a>,
        index: u32,
        source: &Name<'a>,
        rights: u32,
        payload: u32,
    ) -> Result<(), Fault>
        ensures { Means result (λ _. self.new) (placed_with self.old (said.Capability cnode.now index source.now rights payload)) }
    {
        let cnode = self.names.object(cnode)?;
        let source = self.names.source(source)?;
        let entry = Capability {
            cnode,
            index,
            source,
            rights,
            payload,
        };
        insert(&mut self.capabilities, MOST_CAPABILITIES, entry)
    }

    #[tactic(auto, unfolding(crate::specs::Meaning::placed_with))]
    pub(crate) fn add_table(
        &mut self,
        root: &Name<'a>,
        address: u32,
        table: &Name<'a>,
    ) -> Result<(), Fault>
        ensures { Means result (λ _. self.new) (placed_with self.old (said.Table root.now address table.now)) }
    {
        let root = self.names.object(root)?;
        let table = self.names.object(table)?;
        let entry = TableEntry {
            root,
            address,
            table,
        };
        insert(&mut self.tables, MOST_TABLES, entry)
    }

    #[tactic(auto, unfolding(crate::specs::Meaning::placed_with))]
    pub(crate) fn add_frame(
        &mut self,
        root: &Name<'a>,
        address: u32,
        frame: &Name<'a>,
        rights: u32,
    ) -> Result<(), Fault>
        ensures { Means result (λ _. self.new) (placed_with self.old (said.Frame root.now address frame.now rights)) }
    {
        let root = self.names.object(root)?;
        let frame = self.names.object(frame)?;
        let entry = FrameEntry {
            root,
            address,
            frame,
            rights,
        };
        insert(&mut self.frames, MOST_FRAMES, entry)
    }

    #[tactic(auto, unfolding(crate::specs::Meaning::placed_with))]
    pub(crate) fn add_content(
        &mut self,
        alloc: Global,
        frame: &Name<'a>,
        words: Words<'a>,
    ) -> Result<(), Fault>
        ensures { Means result (λ _. self.new) (placed_with self.old (said.Content frame.now words.entry)) }
    {
        let frame = self.names.object(frame)?;
        let words = words_of(alloc, words)?;
        insert(&mut self.contents, MOST_CONTENTS, Content { frame, words })
    }

    #[tactic(auto, unfolding(crate::specs::Meaning::placed_with))]
    pub(crate) fn add_promise(
        &mut self,
        alloc: Global,
        endpoint: &Name<'a>,
        badge_low: u32,
        badge_high: u32,
        words: Words<'a>,
    ) -> Result<(), Fault>
        ensures { Means result (λ _. self.new) (placed_with self.old (said.Promise endpoint.now badge_low badge_high words.entry)) }
    {
        let endpoint = self.names.object(endpoint)?;
        let words = promised_words_of(alloc, words)?;
        let promise = Promise {
            endpoint,
            badge_low,
            badge_high,
            words,
        };
        insert(&mut self.promises, MOST_PROMISES, promise)
    }

    /// The number of a capability's source: that of the object, or the number of objects and that of
    /// the interrupt.
    fn source_number(&self, source: Source) -> Result<u32, Fault>
        ensures { MatchResult result (λ number. number ≡ number_of_source self.now source) (λ fault. fault ≡ Fault.Memory) }
    {
        match source {
            Source::Object(number) => Ok(number),
            Source::Handler { line } => {
                behind(self.objects.len(), place_or_end(line, &self.interrupts))
            }
        }
    }

    /// The entry of a capability.
    fn capability_entry(&self, capability: Capability) -> Result<CapabilityEntry, Fault>
        ensures { MatchResult result (λ entry. entry ≡ entry_of self.now capability) (λ fault. fault ≡ Fault.Memory) }
    {
        Ok(CapabilityEntry {
            cnode: capability.cnode,
            index: capability.index,
            source: self.source_number(capability.source)?,
            rights: capability.rights,
            payload: capability.payload,
        })
    }

    /// The capabilities of the image.
    pub(crate) fn capability_entries(&self, alloc: Global) -> Result<Vec<CapabilityEntry>, Fault>
        ensures { Gives result (λ made. made.items ≡ map (entry_of self.now) self.now.capabilities) }
    {
        let mut entries = Vec::new(alloc);
        'capabilities: for capability in &self.capabilities {
            entries.push(self.capability_entry(*capability)?)?;
        }
        Ok(entries)
    }
}
