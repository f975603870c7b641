//! Reading a text line by line.

use crate::declared::{
    CapabilityLine, ContentLine, FrameLine, InterruptLine, ObjectLine, PromiseLine, Source,
    SourceText, TableLine, UntypedLine,
};
use crate::faults::TextFault;
use crate::names::{Named, Names};
use crate::source_threads::{BufferLine, RecordLine, SourceThread};
use asm_line::{Line, Name, ThreadLine, Words, parse_line};
use model::{ObjectKind, ObjectType, PromisedWord};
use std::alloc::{AllocError, Global};

/// The size of a frame that is a device page; that of others is 0.
const DEVICE_SIZE: u32 = 1;

/// What is read of a text up to some line.
#[derive(Drop)]
struct Reader<'a> {
    alloc: Global,
    names: Names<'a>,
    text: SourceText<'a>,
    /// The thread that is not at its end.
    open: Option<SourceThread<'a>>,
}

/// Whether an object is a device page, by its kind and its size.
fn is_device(kind: ObjectType, size: u32) -> bool {
    match kind {
        ObjectType::Object(ObjectKind::Frame) => size == DEVICE_SIZE,
        _ => false,
    }
}

/// The words' ranges of a `promise` line.
fn promised_words(alloc: Global, words: Words<'_>) -> Result<Vec<PromisedWord>, AllocError> {
    let mut promised = Vec::new(alloc);
    let mut rest = words;
    'words: while let Some((word, words)) = rest.next_promised_word() {
        promised.push(word)?;
        rest = words;
    }
    Ok(promised)
}

impl<'a> Reader<'a> {
    fn new(alloc: Global) -> Self {
        Reader {
            alloc,
            names: Names::new(alloc),
            text: SourceText {
                untypeds: Vec::new(alloc),
                objects: Vec::new(alloc),
                interrupts: Vec::new(alloc),
                capabilities: Vec::new(alloc),
                tables: Vec::new(alloc),
                frames: Vec::new(alloc),
                contents: Vec::new(alloc),
                promises: Vec::new(alloc),
                threads: Vec::new(alloc),
            },
            open: None,
        }
    }

    fn add_untyped(&mut self, name: Name<'a>, offset: u32, bits: u32) -> Result<(), TextFault> {
        let number = self.text.untypeds.len();
        let name = self.names.add(&name, Named::Untyped(number))?;
        self.text.untypeds.push(UntypedLine {
            line: self.names.line,
            name,
            offset,
            bits,
        })?;
        Ok(())
    }

    fn add_object(
        &mut self,
        name: Name<'a>,
        untyped: Name<'a>,
        kind: u32,
        size: u32,
    ) -> Result<(), TextFault> {
        let number = self.text.objects.len();
        let Some(kind) = ObjectType::of(kind, size) else {
            return Err(TextFault::Line(self.names.line));
        };
        let untyped = self.names.untyped(&untyped)?;
        let name = self.names.add(&name, Named::Object(number))?;
        self.text.objects.push(ObjectLine {
            line: self.names.line,
            name,
            untyped,
            kind,
            is_device: is_device(kind, size),
        })?;
        Ok(())
    }

    fn add_interrupt(
        &mut self,
        name: Name<'a>,
        machine_line: u32,
        notification: Name<'a>,
        badge: u32,
    ) -> Result<(), TextFault> {
        let number = self.text.interrupts.len();
        let notification = self.names.object(&notification)?;
        let name = self.names.add(&name, Named::Interrupt(number))?;
        self.text.interrupts.push(InterruptLine {
            line: self.names.line,
            name,
            number: machine_line,
            notification,
            badge,
        })?;
        Ok(())
    }

    /// A line of untyped memory, an object or an interrupt.
    fn declare(&mut self, said: Line<'a>) -> Result<(), TextFault> {
        match said {
            Line::Untyped { name, entry } => self.add_untyped(name, entry.offset, entry.bits),
            Line::Object {
                name,
                untyped,
                kind,
                size,
            } => self.add_object(name, untyped, kind, size),
            Line::Interrupt {
                name,
                line,
                notification,
                badge,
            } => self.add_interrupt(name, line, notification, badge),
            said => self.bind(said),
        }
    }

    /// What a capability is to: an object or an interrupt.
    fn source(&self, name: Name<'a>) -> Result<Source, TextFault> {
        match self.names.named(&name)? {
            Named::Object(number) => Ok(Source::Object(number)),
            Named::Interrupt(number) => Ok(Source::Interrupt(number)),
            Named::Untyped(_) => Err(self.names.fault()),
        }
    }

    fn add_capability(
        &mut self,
        cnode: Name<'a>,
        index: u32,
        source: Name<'a>,
        rights: u32,
        payload: u32,
    ) -> Result<(), TextFault> {
        let source = self.source(source)?;
        let cnode = self.names.object(&cnode)?;
        self.text.capabilities.push(CapabilityLine {
            line: self.names.line,
            cnode,
            index,
            source,
            rights,
            payload,
        })?;
        Ok(())
    }

    fn add_table(
        &mut self,
        root: Name<'a>,
        address: u32,
        table: Name<'a>,
    ) -> Result<(), TextFault> {
        let root = self.names.object(&root)?;
        let table = self.names.object(&table)?;
        self.text.tables.push(TableLine {
            line: self.names.line,
            root,
            address,
            table,
        })?;
        Ok(())
    }

    fn add_frame(
        &mut self,
        root: Name<'a>,
        address: u32,
        frame: Name<'a>,
        rights: u32,
    ) -> Result<(), TextFault> {
        let root = self.names.object(&root)?;
        let frame = self.names.object(&frame)?;
        self.text.frames.push(FrameLine {
            line: self.names.line,
            root,
            address,
            frame,
            rights,
        })?;
        Ok(())
    }

    fn add_content(&mut self, frame: Name<'a>) -> Result<(), TextFault> {
        let frame = self.names.object(&frame)?;
        self.text.contents.push(ContentLine {
            line: self.names.line,
            frame,
        })?;
        Ok(())
    }

    fn add_promise(
        &mut self,
        endpoint: Name<'a>,
        badge_low: u32,
        badge_high: u32,
        words: Words<'a>,
    ) -> Result<(), TextFault> {
        let endpoint = self.names.object(&endpoint)?;
        let words = promised_words(self.alloc, words)?;
        self.text.promises.push(PromiseLine {
            line: self.names.line,
            endpoint,
            badge_low,
            badge_high,
            words,
        })?;
        Ok(())
    }

    /// A line that puts objects into one another.
    fn bind(&mut self, said: Line<'a>) -> Result<(), TextFault> {
        match said {
            Line::Capability {
                cnode,
                index,
                source,
                rights,
                payload,
            } => self.add_capability(cnode, index, source, rights, payload),
            Line::Table {
                root,
                address,
                table,
            } => self.add_table(root, address, table),
            Line::Frame {
                root,
                address,
                frame,
                rights,
            } => self.add_frame(root, address, frame, rights),
            Line::Content { frame, words: _ } => self.add_content(frame),
            Line::Promise {
                endpoint,
                badge_low,
                badge_high,
                words,
            } => self.add_promise(endpoint, badge_low, badge_high, words),
            _ => Ok(()),
        }
    }

    /// The line with which a thread begins.
    fn begin(&mut self, said: ThreadLine<'a>) -> Result<(), TextFault> {
        self.open = Some(SourceThread {
            line: self.names.line,
            tcb: self.names.object(&said.tcb)?,
            cnode: self.names.object(&said.cnode)?,
            root: self.names.object(&said.root)?,
            guard: said.guard,
            priority: said.priority,
            budget: said.budget,
            fault: said.fault,
            buffer: None,
            entry: said.entry.text(),
            base: said.base,
            points: Vec::new(self.alloc),
            records: Vec::new(self.alloc),
        });
        Ok(())
    }

    /// The frame of a thread's message buffer.
    fn add_buffer(&mut self, frame: Name<'a>) -> Result<(), TextFault> {
        let frame = self.names.object(&frame)?;
        let line = self.names.line;
        match &mut self.open {
            Some(thread) => {
                thread.buffer = Some(BufferLine { line, frame });
                Ok(())
            }
            None => Err(self.names.fault()),
        }
    }

    /// The line with which a thread ends.
    fn end(&mut self) -> Result<(), TextFault> {
        match self.open.take() {
            Some(thread) => {
                self.text.threads.push(thread)?;
                Ok(())
            }
            None => Err(self.names.fault()),
        }
    }

    /// A line inside a thread, or one that begins or ends it.
    fn add(&mut self, said: Line<'a>) -> Result<(), TextFault> {
        match said {
            Line::Thread(said) => self.begin(said),
            Line::End => self.end(),
            Line::Buffer(frame) => self.add_buffer(frame),
            Line::Code { .. } => self.add_point(),
            Line::Measure { .. } => self.add_record(),
            Line::Blank
            | Line::Memory { .. }
            | Line::Register(_)
            | Line::Range(_)
            | Line::Slot { .. }
            | Line::Label(_) => Ok(()),
            said => self.declare(said),
        }
    }

    /// The next line of the text.
    fn add_text(&mut self, line: &'a str) -> Result<(), TextFault> {
        self.names.line = self.names.line.saturating_add(1);
        match parse_line(line) {
            Ok(said) => self.add(said),
            Err(_) => Err(self.names.fault()),
        }
    }

    /// What was read, once the last thread is at its end.
    fn finish(self) -> Result<SourceText<'a>, TextFault> {
        match self.open {
            Some(_) => Err(self.names.fault()),
            None => Ok(self.text),
        }
    }

    /// One point more.
    fn add_point(&mut self) -> Result<(), TextFault> {
        match &mut self.open {
            Some(thread) => {
                thread.points.push(self.names.line)?;
                Ok(())
            }
            None => Err(self.names.fault()),
        }
    }

    /// The record of the next point.
    fn add_record(&mut self) -> Result<(), TextFault> {
        match &mut self.open {
            Some(thread) => {
                let point = thread.points.len();
                thread.records.push(RecordLine {
                    point,
                    line: self.names.line,
                })?;
                Ok(())
            }
            None => Err(self.names.fault()),
        }
    }
}

/// What a text declares. It is less strict than the assembler: what that refuses for numbers, order or labels is read.
///
/// # Errors
///
/// The first line that is none of the text form, or names what is not declared; or memory was refused.
pub fn read<'a>(alloc: Global, text: &'a str) -> Result<SourceText<'a>, TextFault> {
    let mut reader = Reader::new(alloc);
    for line in text.lines() {
        reader.add_text(line)?;
    }
    reader.finish()
}
