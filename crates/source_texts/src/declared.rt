//! What a text declares, with the lines that it is on. Numbers count what is in the text from 0.

use crate::source_threads::SourceThread;
use model::{ObjectKind, ObjectType, PromisedWord};

/// `untyped NAME OFFSET BITS`
#[derive(Clone, Copy, Debug)]
pub struct UntypedLine<'a> {
    pub line: u64,
    pub name: &'a str,
    pub offset: u32,
    pub bits: u32,
}

/// `object NAME UNTYPED KIND [SIZE]`
#[derive(Clone, Copy)]
pub struct ObjectLine<'a> {
    pub line: u64,
    pub name: &'a str,
    pub untyped: usize,
    /// What it is, by its kind and its size.
    pub kind: ObjectType,
    /// Whether it is a device page: a frame that the world writes and reads.
    pub is_device: bool,
}

/// `irq NAME LINE NOTIFICATION BADGE`
#[derive(Clone, Copy, Debug)]
pub struct InterruptLine<'a> {
    pub line: u64,
    pub name: &'a str,
    /// The machine's line, 0 to 63.
    pub number: u32,
    pub notification: usize,
    pub badge: u32,
}

/// What a capability is made from.
#[derive(Clone, Copy, Debug, PartialEq, Eq)]
pub enum Source {
    Object(usize),
    /// The handler of an interrupt.
    Interrupt(usize),
}

/// `cap CNODE INDEX SOURCE RIGHTS DATA`
#[derive(Clone, Copy, Debug)]
pub struct CapabilityLine {
    pub line: u64,
    pub cnode: usize,
    pub index: u32,
    pub source: Source,
    pub rights: u32,
    pub payload: u32,
}

/// `table ROOT ADDRESS TABLE`
#[derive(Clone, Copy, Debug)]
pub struct TableLine {
    pub line: u64,
    pub root: usize,
    pub address: u32,
    pub table: usize,
}

/// `map ROOT ADDRESS FRAME RIGHTS`
#[derive(Clone, Copy, Debug)]
pub struct FrameLine {
    pub line: u64,
    pub root: usize,
    pub address: u32,
    pub frame: usize,
    pub rights: u32,
}

/// `data FRAME WORD ..`
#[derive(Clone, Copy, Debug)]
pub struct ContentLine {
    pub line: u64,
    pub frame: usize,
}

/// `promise ENDPOINT LOW HIGH [LOW HIGH] ..`
#[derive(Drop)]
pub struct PromiseLine {
    pub line: u64,
    pub endpoint: usize,
    pub badge_low: u32,
    pub badge_high: u32,
    pub words: Vec<PromisedWord>,
}

/// All that a text declares, each section in the order of its lines.
#[derive(Drop)]
pub struct SourceText<'a> {
    pub untypeds: Vec<UntypedLine<'a>>,
    pub objects: Vec<ObjectLine<'a>>,
    pub interrupts: Vec<InterruptLine<'a>>,
    pub capabilities: Vec<CapabilityLine>,
    pub tables: Vec<TableLine>,
    pub frames: Vec<FrameLine>,
    pub contents: Vec<ContentLine>,
    pub promises: Vec<PromiseLine>,
    pub threads: Vec<SourceThread<'a>>,
}

impl<'a> SourceText<'a> {
    /// The name of an object, by its number.
    pub fn object_name(&self, number: usize) -> &'a str {
        match self.objects.get(number) {
            Some(object) => object.name,
            None => "?",
        }
    }

    /// The name of what a capability is made from.
    pub fn source_name(&self, source: Source) -> &'a str {
        match source {
            Source::Object(number) => self.object_name(number),
            Source::Interrupt(number) => match self.interrupts.get(number) {
                Some(interrupt) => interrupt.name,
                None => "?",
            },
        }
    }

    /// What an object is, by its number, if there is one.
    pub fn kind(&self, number: usize) -> Option<ObjectType> {
        match self.objects.get(number) {
            Some(object) => Some(object.kind),
            None => None,
        }
    }

    /// Whether an object is a device page.
    pub fn is_device(&self, number: usize) -> bool {
        match self.objects.get(number) {
            Some(object) => object.is_device,
            None => false,
        }
    }

    /// Whether an object is a CNode.
    pub fn is_cnode(&self, number: usize) -> bool {
        let kind = self.kind(number);
        matches!(&kind, Some(ObjectType::Object(ObjectKind::CNode { .. })))
    }

    /// The radix of a CNode, or 0 if the object is none.
    pub fn radix(&self, number: usize) -> u8 {
        match self.kind(number) {
            Some(ObjectType::Object(ObjectKind::CNode { radix })) => radix,
            _ => 0,
        }
    }

    /// The index in the root CNode of a thread that an address names, where the guard and the index are the whole address.
    pub fn root_index(&self, thread: &SourceThread<'_>, address: u32) -> Option<u32> {
        let radix = u32::from(self.radix(thread.cnode));
        let guard_size = thread.guard & 31;
        if radix == 0 || radix >= 32 || guard_size.saturating_add(radix) != 32 {
            return None;
        }
        if address >> radix != thread.guard >> 5 {
            return None;
        }
        Some(address & ((1 << radix) - 1))
    }

    /// What is promised of the messages to an endpoint.
    pub fn promise(&self, endpoint: usize) -> Option<&PromiseLine> {
        for promise in &self.promises {
            if promise.endpoint == endpoint {
                return Some(promise);
            }
        }
        None
    }

    /// What is in a slot of a CNode.
    pub fn capability(&self, cnode: usize, index: u32) -> Option<CapabilityLine> {
        for capability in &self.capabilities {
            if capability.cnode == cnode && capability.index == index {
                return Some(*capability);
            }
        }
        None
    }
}
