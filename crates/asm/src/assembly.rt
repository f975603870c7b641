//! An image whose lines are being read.
//!
//! A function that ends early hands what it owns to `drop`: in place of that call, each field would be dropped on its own,
//! which is long to prove.

ghost use Rattle.std.specs.Prelude.{◌≡◌, ◌==◌, ◌⊎◌, not, true, length, map, IfOk, MatchResult, Ok, Err, Some, None};
ghost use Rattle.model.specs.Images.Image.{is_device_size, no_buffer, whole_image};
ghost use Rattle.model.specs.Images.Listing.{some_buffered, some_device, version_listed};
ghost use Rattle.asm_line.specs.declared.lines.Line.TheVariants as said;
ghost use Rattle.asm.specs.declared.faults.Fault.{Fault};
ghost use Rattle.asm.specs.Drafts.{assembled, nothing_read};
ghost use Rattle.asm.specs.Meaning.{add_line, ended, finished, first_line, fitting, in_thread, inside, is_blank, is_end, leaves_open};
ghost use Rattle.asm.specs.Meaning.{memory_known, outside, placed_with, read_line, thread_begins, thread_opened, with_declared};
ghost use Rattle.asm.specs.Outcomes.{Means, kind_of};
ghost use Rattle.asm.specs.Reading.{labels_at};
ghost use Rattle.asm.specs.Sections.{entry_of};

use crate::declarations::Declarations;
use crate::faults::Fault;
use crate::labels::Labels;
use crate::open_threads::{NO_BUFFER, OpenThread};
use asm_line::{Line, ThreadLine};
use image::{Image, Parts, Promise, ThreadParts};
use model::{CapabilityEntry, ObjectEntry};
use std::alloc::Global;
use std::marker::Model;

/// How many threads an image has at most.
const MOST_THREADS: usize = model::MOST_THREADS as usize;

/// Whether an object is a device page.
fn is_device(object: &ObjectEntry) -> bool
    ensures { result ≡ is_device_size object.now.kind object.now.size }
{
    object.kind == 6 && object.size == 1
}

/// Whether some object is a device page.
fn some_device(objects: &[ObjectEntry]) -> bool
    ensures { result ≡ some_device objects.now }
{
    objects.iter().any(|object| is_device(object))
}

/// Whether a thread has a message buffer.
fn is_buffered(thread: &ThreadParts) -> bool
    ensures { result ≡ not (thread.now.header.buffer == no_buffer) }
{
    thread.buffer != NO_BUFFER
}

/// Whether some thread has a message buffer.
fn some_buffered(threads: &[ThreadParts]) -> bool
    ensures { result ≡ some_buffered threads.now }
{
    threads.iter().any(|thread| is_buffered(thread))
}

/// The version of an image with these objects, promises and threads: the first that has all of them.
fn version_with(objects: &[ObjectEntry], promises: &[Promise], threads: &[ThreadParts]) -> u32
    ensures { result ≡ version_listed objects.now promises.now threads.now }
{
    if some_device(objects) {
        return 4;
    }
    if some_buffered(threads) {
        return 3;
    }
    match promises {
        [] => 1,
        [_, ..] => 2,
    }
}

/// What the line `memory` says.
#[derive(Clone, Copy)]
struct Memory {
    bits: u32,
    boot_radix: u32,
}

/// What is known of an image after some of its lines.
#[derive(Drop)]
pub(crate) struct Assembly<'a> {
    alloc: Global,
    memory: Option<Memory>,
    declared: Declarations<'a>,
    threads: Vec<ThreadParts>,
    /// The thread that is not at its end.
    open: Option<OpenThread>,
}

impl<'a> Model for Assembly<'a> {
    ghost use Rattle.asm_line.specs.declared.lines.Line.TheVariants as said;
    ghost use Rattle.asm.specs.Drafts.{Draft};

    ghost Value = { Draft };

    ghost view = { λ a. record { memory = a.memory; declared = a.declared; threads = a.threads.items; open_thread = a.open } };
}

impl<'a> Assembly<'a> {
    /// An image of which nothing is read.
    pub(crate) fn new(alloc: Global) -> Assembly<'a>
        ensures { result ≡ nothing_read }
    {
        Assembly {
            alloc,
            memory: None,
            declared: Declarations::new(alloc),
            threads: Vec::new(alloc),
            open: None,
        }
    }

    /// Whether a thread is open after a line.
    fn leaves_open(&self, line: &Line<'a>) -> bool
        ensures { result ≡ leaves_open self.now line.now }
    {
        match &self.open {
            Some(_) => !is_end(line),
            None => matches!(line, Line::Thread(_)),
        }
    }

    /// Adds what a line says. The last line of a text may leave no thread open, whatever else is wrong with it.
    ///
    /// # Errors
    ///
    /// What the line is at fault for. What is known of the image is then of no use.
    #[tactic(auto, unfolding(crate::specs::Meaning::add_line))]
    pub(crate) fn add_line(
        &mut self,
        line: Line<'a>,
        number: u64,
        is_last: bool,
        labels: &[Labels<'a>],
    ) -> Result<(), Fault>
        ensures { Means result (λ _. self.new) (add_line labels.now number is_last self.old line.entry) }
    {
        if is_last && self.leaves_open(&line) {
            return Err(Fault::Syntax);
        }
        self.add(line, number, labels)
    }

    /// Adds what a line says. `number` counts the lines from 1, and `labels` are those of each thread.
    ///
    /// # Errors
    ///
    /// What the line is at fault for. What is known of the image is then of no use.
    #[tactic(auto, unfolding(crate::specs::Meaning::read_line))]
    fn add(&mut self, line: Line<'a>, number: u64, labels: &[Labels<'a>]) -> Result<(), Fault>
        ensures { Means result (λ _. self.new) (read_line labels.now number self.old line.entry) }
    {
        if is_blank(&line) {
            return Ok(());
        }
        if self.memory.is_none() {
            return self.begin(line);
        }
        match self.open.take() {
            Some(thread) => self.add_to_thread(thread, line, number, labels),
            None => self.declare(line, labels),
        }
    }

    /// Adds the first line.
    #[tactic(auto, unfolding(crate::specs::Meaning::first_line))]
    fn begin(&mut self, line: Line<'a>) -> Result<(), Fault>
        ensures { Means result (λ _. self.new) (first_line self.old line.entry) }
    {
        match line {
            Line::Memory {
                memory_bits: bits,
                boot_radix,
            } => {
                self.memory = Some(Memory { bits, boot_radix });
                Ok(())
            }
            _ => Err(Fault::Syntax),
        }
    }

    /// Goes on with a new thread, of which there is to be room for one more.
    #[tactic(auto, unfolding(crate::specs::Meaning::thread_opened))]
    fn open_thread(&mut self, thread: OpenThread) -> Result<(), Fault>
        ensures { Means result (λ _. self.new) (thread_opened self.old thread) }
    {
        if MOST_THREADS <= self.threads.len() {
            drop(thread);
            return Err(Fault::Range);
        }
        put(&mut self.open, thread);
        Ok(())
    }

    /// A thread at its first line.
    fn begun(&self, line: &ThreadLine<'a>, labels: &[Labels<'a>]) -> Result<OpenThread, Fault>
        ensures { Means result (λ begun. begun) (thread_begins (labels_at labels.now (length self.now.threads)) self.now.declared.names line.now) }
    {
        match labels.get(self.threads.len()) {
            Some(labels) => OpenThread::begin(self.alloc, line, &self.declared.names, labels),
            None => {
                let none = Labels::new(self.alloc);
                OpenThread::begin(self.alloc, line, &self.declared.names, &none)
            }
        }
    }

    /// Adds the first line of a thread.
    #[tactic(auto, unfolding(crate::specs::Meaning::outside))]
    fn begin_thread(&mut self, line: &ThreadLine<'a>, labels: &[Labels<'a>]) -> Result<(), Fault>
        ensures { Means result (λ _. self.new) (outside (labels_at labels.now (length self.old.threads)) self.old (said.Thread line.now)) }
    {
        let thread = self.begun(line, labels)?;
        self.open_thread(thread)
    }

    /// Adds a line that is in no thread.
    #[tactic(auto, unfolding(crate::specs::Meaning::outside, crate::specs::Meaning::declared_with))]
    fn declare(&mut self, line: Line<'a>, labels: &[Labels<'a>]) -> Result<(), Fault>
        ensures { Means result (λ _. self.new) (outside (labels_at labels.now (length self.old.threads)) self.old line.entry) }
    {
        match line {
            Line::Untyped { name, entry } => self.declared.add_untyped(&name, entry),
            Line::Object {
                name,
                untyped,
                kind,
                size,
            } => self.declared.add_object(&name, &untyped, kind, size),
            Line::Interrupt {
                name,
                line,
                notification,
                badge,
            } => self
                .declared
                .add_interrupt(&name, line, &notification, badge),
            Line::Thread(line) => self.begin_thread(&line, labels),
            _ => self.place(line),
        }
    }

    /// Adds a line that says what a slot, a page or a frame holds, or what is promised at an endpoint.
    #[tactic(auto, unfolding(crate::specs::Meaning::placed_with))]
    fn place(&mut self, line: Line<'a>) -> Result<(), Fault>
        ensures { Means result (λ _. self.new) (with_declared self.old (placed_with self.old.declared line.entry)) }
    {
        match line {
            Line::Capability {
                cnode,
                index,
                source,
                rights,
                payload,
            } => self
                .declared
                .add_capability(&cnode, index, &source, rights, payload),
            Line::Table {
                root,
                address,
                table,
            } => self.declared.add_table(&root, address, &table),
            Line::Frame {
                root,
                address,
                frame,
                rights,
            } => self.declared.add_frame(&root, address, &frame, rights),
            Line::Content { frame, words } => self.declared.add_content(self.alloc, &frame, words),
            Line::Promise {
                endpoint,
                badge_low,
                badge_high,
                words,
            } => self
                .declared
                .add_promise(self.alloc, &endpoint, badge_low, badge_high, words),
            _ => Err(Fault::Syntax),
        }
    }

    /// Puts a thread after the others at its line `end`.
    #[tactic(auto, unfolding(crate::specs::Meaning::ended))]
    fn end_thread(&mut self, thread: OpenThread) -> Result<(), Fault>
        ensures meant { Means result (λ _. record self.new { open_thread = None }) (ended self.old thread) }
        ensures kept { self.new.open_thread ≡ self.old.open_thread }
    {
        self.threads.push(thread.end()?)?;
        Ok(())
    }

    /// Adds a line to a thread, if it is not the thread's last one.
    fn add_before_end(
        &self,
        thread: &mut OpenThread,
        line: Line<'a>,
        number: u64,
        labels: &[Labels<'a>],
    ) -> Result<(), Fault>
        ensures { Means result (λ _. thread.new)
            (inside (labels_at labels.now (length self.now.threads)) number self.now.declared.names thread.old line.entry) }
    {
        match labels.get(self.threads.len()) {
            Some(labels) => thread.add(self.alloc, line, number, &self.declared.names, labels),
            None => {
                let none = Labels::new(self.alloc);
                thread.add(self.alloc, line, number, &self.declared.names, &none)
            }
        }
    }

    /// Adds a line that is in a thread.
    fn add_to_thread(
        &mut self,
        mut thread: OpenThread,
        line: Line<'a>,
        number: u64,
        labels: &[Labels<'a>],
    ) -> Result<(), Fault>
        ensures { self.old.open_thread ≡ None → Means result (λ _. self.new)
            (in_thread (labels_at labels.now (length self.old.threads)) number self.old thread line.entry) }
    {
        if is_end(&line) {
            return self.end_thread(thread);
        }
        match self.add_before_end(&mut thread, line, number, labels) {
            Ok(()) => {
                put(&mut self.open, thread);
                Ok(())
            }
            Err(fault) => {
                drop(thread);
                Err(fault)
            }
        }
    }

    /// What the first line says, and the capabilities, if the last thread is at its end.
    #[tactic(auto, unfolding(crate::specs::Meaning::memory_known))]
    fn first_and_capabilities(&self) -> Result<(Memory, Vec<CapabilityEntry>), Fault>
        ensures { MatchResult result (λ found. (memory_known self.now ≡ Ok found.0)
            × (found.1.items ≡ map (entry_of self.now.declared) self.now.declared.capabilities))
            (λ fault. (fault ≡ Fault.Memory) ⊎ (memory_known self.now ≡ Err (kind_of fault))) }
    {
        match (self.memory, &self.open) {
            (Some(memory), None) => Ok((memory, self.declared.capability_entries(self.alloc)?)),
            _ => Err(Fault::Syntax),
        }
    }

    /// The parts of the image with these capabilities. The names and the open thread are of no more use.
    fn parts(self, memory: Memory, capabilities: Vec<CapabilityEntry>) -> Parts
        ensures { result ≡ assembled memory self.entry.declared capabilities.items self.entry.threads }
    {
        drop(self.open);
        let declared = self.declared;
        drop(declared.names);
        Parts {
            version: version_with(&declared.objects, &declared.promises, &self.threads),
            memory_bits: memory.bits,
            boot_radix: memory.boot_radix,
            untypeds: declared.untypeds,
            objects: declared.objects,
            capabilities,
            interrupts: declared.interrupts,
            tables: declared.tables,
            frames: declared.frames,
            contents: declared.contents,
            promises: declared.promises,
            threads: self.threads,
        }
    }

    /// The image with these capabilities.
    fn image(self, memory: Memory, capabilities: Vec<CapabilityEntry>) -> Result<Image, Fault>
        ensures fits { IfOk result (λ image. whole_image.fits image ≡ true) }
        ensures meant { Means result (λ image. image) (fitting (assembled memory self.entry.declared capabilities.items self.entry.threads)) }
    {
        match Image::checked(self.parts(memory, capabilities)) {
            Ok(image) => Ok(image),
            Err(parts) => {
                drop(parts);
                Err(Fault::Range)
            }
        }
    }

    /// The image after the last line.
    ///
    /// # Errors
    ///
    /// `Fault::Syntax` where the first line or the end of a thread is missing, `Fault::Range` where the entries make no
    /// image, `Fault::UnknownName` where a capability has no source, and `Fault::Memory`.
    #[tactic(auto, unfolding(crate::specs::Meaning::finished))]
    pub(crate) fn finish(self) -> Result<Image, Fault>
        ensures fits { IfOk result (λ image. whole_image.fits image ≡ true) }
        ensures meant { Means result (λ image. image) (finished self.entry) }
    {
        match self.first_and_capabilities() {
            Ok((memory, capabilities)) => self.image(memory, capabilities),
            Err(fault) => {
                drop(self);
                Err(fault)
            }
        }
    }
}

/// Whether a line says nothing.
fn is_blank(line: &Line<'_>) -> bool
    ensures { result ≡ is_blank line.now }
{
    matches!(line, Line::Blank)
}

/// Whether a line is the last one of its thread.
fn is_end(line: &Line<'_>) -> bool
    ensures { result ≡ is_end line.now }
{
    matches!(line, Line::End)
}

/// Puts a value in a place, and drops the one that stood there.
fn put<T: Drop>(place: &mut Option<T>, value: T)
    ensures { place.new ≡ Some value }
{
    *place = Some(value);
}
