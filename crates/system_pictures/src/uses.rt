//! What the threads of a text may do, and with which objects and lines, by what it gives them.

use crate::reaches::{Reached, reached_in};
use model::{ObjectKind, ObjectType};
use source_texts::{CapabilityLine, FrameLine, Source, SourceText, SourceThread};
use std::alloc::{AllocError, Global};

/// Of the rights of a capability or a mapping.
const WRITE: u32 = 1;

const READ: u32 = 2;

/// Of the rights of a mapping.
const EXECUTE: u32 = 4;

/// Of the rights of a capability.
const GRANT_REPLY: u32 = 8;

/// What a thread may do with an object.
#[derive(Clone, Copy, Debug, PartialEq, Eq)]
pub enum Deed {
    /// What a mapping allows.
    Reads,
    Writes,
    Executes,
    /// What a capability to a frame allows.
    MapsToRead,
    MapsToWrite,
    /// The frame is that of its message buffer.
    Buffers,
    /// What a capability to a notification allows.
    Waits,
    Rings,
    /// What a capability to an endpoint allows.
    Receives,
    Sends,
    Calls,
    /// Its faults are reported there.
    Faults,
    /// What a capability to another object allows.
    MakesObjects,
    Controls,
    ChangesSlots,
    MapsUnder,
}

impl Deed {
    /// What is said of the thread.
    pub fn words(self) -> &'static str {
        match self {
            Deed::Reads => "reads",
            Deed::Writes => "writes",
            Deed::Executes => "executes",
            Deed::MapsToRead => "may map to read",
            Deed::MapsToWrite => "may map to write",
            Deed::Buffers => "message buffer",
            Deed::Waits => "waits",
            Deed::Rings => "rings",
            Deed::Receives => "receives",
            Deed::Sends => "sends",
            Deed::Calls => "calls",
            Deed::Faults => "faults go here",
            Deed::MakesObjects => "makes objects of it",
            Deed::Controls => "controls",
            Deed::ChangesSlots => "changes slots",
            Deed::MapsUnder => "maps under it",
        }
    }

    /// Whether something comes from the object to the thread by this.
    pub fn comes(self) -> bool {
        matches!(
            self,
            Deed::Reads
                | Deed::Executes
                | Deed::MapsToRead
                | Deed::Buffers
                | Deed::Waits
                | Deed::Receives
        )
    }

    /// Whether something goes from the thread to the object by this.
    pub fn goes(self) -> bool {
        !self.comes() || self == Deed::Buffers
    }

    /// Whether a frame of which this is done is drawn even where one thread alone does it.
    fn shows_frame(self) -> bool {
        matches!(self, Deed::MapsToRead | Deed::MapsToWrite | Deed::Buffers)
    }
}

/// What a thread may do with an object. Threads and objects are numbered from 0, in the order of the text.
#[derive(Clone, Copy, Debug)]
pub struct ObjectUse {
    pub thread: usize,
    pub object: usize,
    pub deed: Deed,
    /// The badge of what it sends or rings, 0 for none.
    pub badge: u32,
}

/// A thread may acknowledge the interrupts of a line. Lines are numbered from 0, in the order of the text.
#[derive(Clone, Copy, Debug)]
pub struct LineUse {
    pub thread: usize,
    pub line: usize,
}

/// What the threads of a text may do.
#[derive(Drop)]
pub struct Uses {
    /// In the order of the threads.
    pub objects: Vec<ObjectUse>,
    /// In the order of the threads.
    pub lines: Vec<LineUse>,
}

/// Whether a word of rights has a right.
fn has(rights: u32, right: u32) -> bool {
    rights & right != 0
}

/// What a capability to an object of a kind lets its thread do: with the right to read, and with the one to write.
fn deeds_of(kind: Option<ObjectType>, rights: u32) -> (Option<Deed>, Option<Deed>) {
    match kind {
        Some(ObjectType::Object(ObjectKind::Frame)) => {
            (Some(Deed::MapsToRead), Some(Deed::MapsToWrite))
        }
        Some(ObjectType::Object(ObjectKind::Notification)) => {
            (Some(Deed::Waits), Some(Deed::Rings))
        }
        Some(ObjectType::Object(ObjectKind::Endpoint)) => {
            if has(rights, GRANT_REPLY) {
                (Some(Deed::Receives), Some(Deed::Calls))
            } else {
                (Some(Deed::Receives), Some(Deed::Sends))
            }
        }
        _ => (None, None),
    }
}

/// What a capability to an object of another kind lets its thread do, whatever its rights.
fn deed_of(kind: Option<ObjectType>) -> Option<Deed> {
    match kind {
        Some(ObjectType::Untyped { .. }) => Some(Deed::MakesObjects),
        Some(ObjectType::Object(ObjectKind::Thread)) => Some(Deed::Controls),
        Some(ObjectType::Object(ObjectKind::CNode { .. })) => Some(Deed::ChangesSlots),
        Some(ObjectType::Object(ObjectKind::PageTable | ObjectKind::RootTable)) => {
            Some(Deed::MapsUnder)
        }
        _ => None,
    }
}

impl Uses {
    /// One use of an object more, if it is one.
    fn add(
        &mut self,
        thread: usize,
        object: usize,
        deed: Option<Deed>,
        badge: u32,
    ) -> Result<(), AllocError> {
        if let Some(deed) = deed {
            self.objects.push(ObjectUse {
                thread,
                object,
                deed,
                badge,
            })?;
        }
        Ok(())
    }

    /// What a mapping allows.
    fn add_frame(&mut self, thread: usize, line: &FrameLine) -> Result<(), AllocError> {
        for (right, deed) in [
            (READ, Deed::Reads),
            (WRITE, Deed::Writes),
            (EXECUTE, Deed::Executes),
        ] {
            if has(line.rights, right) {
                self.add(thread, line.frame, Some(deed), 0)?;
            }
        }
        Ok(())
    }

    /// What a capability to an object allows.
    fn add_capability(
        &mut self,
        text: &SourceText<'_>,
        thread: usize,
        capability: &CapabilityLine,
        object: usize,
    ) -> Result<(), AllocError> {
        let rights = capability.rights;
        let (read, written) = deeds_of(text.kind(object), rights);
        if has(rights, READ) {
            self.add(thread, object, read, 0)?;
        }
        if has(rights, WRITE) {
            self.add(thread, object, written, badge_of(written, capability))?;
        }
        self.add(thread, object, deed_of(text.kind(object)), 0)
    }

    /// What a capability in one of a thread's CNodes allows.
    fn add_held(
        &mut self,
        text: &SourceText<'_>,
        thread: usize,
        capability: &CapabilityLine,
    ) -> Result<(), AllocError> {
        match capability.source {
            Source::Object(object) => self.add_capability(text, thread, capability, object),
            Source::Interrupt(line) => {
                self.lines.push(LineUse { thread, line })?;
                Ok(())
            }
        }
    }

    /// What all capabilities that a thread reaches allow.
    fn add_all_held(
        &mut self,
        text: &SourceText<'_>,
        thread: usize,
        reached: &Reached,
    ) -> Result<(), AllocError> {
        for capability in &text.capabilities {
            if reached.contains(capability.cnode) {
                self.add_held(text, thread, capability)?;
            }
        }
        Ok(())
    }

    /// What all mappings of a thread allow.
    fn add_mappings(
        &mut self,
        text: &SourceText<'_>,
        thread: usize,
        root: usize,
    ) -> Result<(), AllocError> {
        for frame in &text.frames {
            if frame.root == root {
                self.add_frame(thread, frame)?;
            }
        }
        Ok(())
    }

    /// What the thread's own lines say: its message buffer and its fault handler.
    fn add_own(
        &mut self,
        text: &SourceText<'_>,
        number: usize,
        thread: &SourceThread<'_>,
    ) -> Result<(), AllocError> {
        if let Some(buffer) = thread.buffer {
            self.add(number, buffer.frame, Some(Deed::Buffers), 0)?;
        }
        match handler_of(text, thread) {
            Some(endpoint) => self.add(number, endpoint, Some(Deed::Faults), 0),
            None => Ok(()),
        }
    }

    /// What a thread may do.
    fn add_thread(
        &mut self,
        text: &SourceText<'_>,
        number: usize,
        thread: &SourceThread<'_>,
        reached: &Reached,
    ) -> Result<(), AllocError> {
        self.add_all_held(text, number, reached)?;
        self.add_mappings(text, number, thread.root)?;
        self.add_own(text, number, thread)
    }

    /// Of each object the set of the threads that use it, bit N for thread N; all bits where a frame is held or a message buffer.
    pub(crate) fn users(&self, alloc: Global, objects: usize) -> Result<Vec<u64>, AllocError> {
        let mut users = Vec::new(alloc);
        users.resize(objects, 0u64)?;
        for found in &self.objects {
            if let Some(set) = users.get_mut(found.object) {
                *set |= if found.deed.shows_frame() {
                    u64::MAX
                } else {
                    only(found.thread)
                };
            }
        }
        Ok(users)
    }
}

/// Whether these are the users of an object that threads share: more than one thread, or it is held.
pub(crate) fn are_several(users: u64) -> bool {
    users & users.wrapping_sub(1) != 0
}

/// The set of one thread.
fn only(thread: usize) -> u64 {
    match u32::try_from(thread) {
        Ok(number) if number < 64 => 1u64 << number,
        _ => 0,
    }
}

/// The badge of what is done by a capability: that of messages and signals.
fn badge_of(deed: Option<Deed>, capability: &CapabilityLine) -> u32 {
    match deed {
        Some(Deed::Rings | Deed::Sends | Deed::Calls) => capability.payload,
        _ => 0,
    }
}

/// The endpoint that a thread's faults are reported to, where the address of its handler is the number of a slot.
fn handler_of(text: &SourceText<'_>, thread: &SourceThread<'_>) -> Option<usize> {
    if thread.fault == 0 {
        return None;
    }
    let index = text.root_index(thread, thread.fault)?;
    match text.capability(thread.cnode, index)?.source {
        Source::Object(object) => Some(object),
        Source::Interrupt(_) => None,
    }
}

/// What the threads of a text may do, in the order of the threads: by the capabilities of their CNodes and of those that these name, by
/// mappings, message buffers and fault handlers.
///
/// # Errors
///
/// Memory may be refused.
pub fn uses_of(alloc: Global, text: &SourceText<'_>) -> Result<Uses, AllocError> {
    let reached = reached_in(alloc, text)?;
    let mut uses = Uses {
        objects: Vec::new(alloc),
        lines: Vec::new(alloc),
    };
    let mut number = 0usize;
    for (thread, reached) in text.threads.iter().zip(&reached) {
        uses.add_thread(text, number, thread, reached)?;
        number = number.saturating_add(1);
    }
    Ok(uses)
}
