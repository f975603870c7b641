//! What each thread holds, in comments.

use crate::entries::Entries;
use crate::places::bytes_of;
use crate::rights_words::{endpoint_words, frame_words, mapping_words, notification_words};
use crate::values::put_source;
use image_reading::ImageRef;
use model::{CapabilityEntry, FrameEntry, ObjectKind, ObjectType, ThreadHeader};
use std::alloc::{AllocError, Global};
use std::mem;

/// The number for no object.
const NO_OBJECT: u32 = u32::MAX;

/// A text in which CNodes and address spaces are listed, each once.
#[derive(Drop)]
struct Holdings<'e> {
    text: String,
    entries: &'e Entries,
    /// The CNodes that are listed, in this order.
    cnodes: Vec<u32>,
    /// Whether an object is listed, by its number.
    is_told: Vec<bool>,
}

/// None of so many objects is listed yet.
fn nothing_told(alloc: Global, objects: usize) -> Result<Vec<bool>, AllocError> {
    let mut is_told = Vec::new(alloc);
    for _ in 0..objects {
        is_told.push(false)?;
    }
    Ok(is_told)
}

/// Puts a badge, unless it is 0.
fn put_badge(text: &mut String, badge: u32) -> Result<(), AllocError> {
    if badge == 0 {
        Ok(())
    } else {
        write!(text, ", badge {badge}")
    }
}

/// Puts what a capability to an object of a kind lets its holder do.
fn put_use(
    text: &mut String,
    kind: ObjectType,
    capability: &CapabilityEntry,
) -> Result<(), AllocError> {
    let rights = capability.rights;
    match kind {
        ObjectType::Untyped { bits } => {
            let size = bytes_of(u32::from(bits));
            write!(text, " untyped memory of {size} bytes: make objects")
        }
        ObjectType::Object(ObjectKind::Thread) => text.push_str(" thread: control"),
        ObjectType::Object(ObjectKind::Endpoint) => {
            let words = endpoint_words(rights);
            write!(text, " endpoint: {words}")?;
            put_badge(text, capability.payload)
        }
        ObjectType::Object(ObjectKind::Notification) => {
            let words = notification_words(rights);
            write!(text, " notification: {words}")?;
            put_badge(text, capability.payload)
        }
        ObjectType::Object(ObjectKind::CNode { .. }) => text.push_str(" CNode: change slots"),
        ObjectType::Object(ObjectKind::Frame) => {
            let words = frame_words(rights);
            write!(text, " frame: {words}")
        }
        ObjectType::Object(ObjectKind::PageTable) => text.push_str(" page table: map"),
        ObjectType::Object(ObjectKind::RootTable) => text.push_str(" root table: map under it"),
    }
}

/// Puts a page that is mapped.
fn put_page(text: &mut String, entry: &FrameEntry) -> Result<(), AllocError> {
    let (address, frame) = (entry.address, entry.frame);
    let words = mapping_words(entry.rights);
    write!(text, "#   {address:#x}: o{frame}, {words}\n")
}

/// Puts how a thread runs.
fn put_running(text: &mut String, header: &ThreadHeader) -> Result<(), AllocError> {
    let (tcb, priority, budget) = (header.tcb, header.priority, header.budget);
    write!(
        text,
        "#\n# thread o{tcb}: priority {priority}, budget {budget}"
    )?;
    if header.buffer != NO_OBJECT {
        let buffer = header.buffer;
        write!(text, ", message buffer o{buffer}")?;
    }
    if header.fault != 0 {
        let fault = header.fault;
        write!(text, ", faults go to capability {fault:#x}")?;
    }
    text.push_str("\n")
}

impl Holdings<'_> {
    /// Notes that an object is listed, and says whether this is the first time.
    fn is_first(&mut self, object: u32) -> bool {
        match self.is_told.get_mut(object as usize) {
            Some(is_told) => !mem::replace(is_told, true),
            None => false,
        }
    }

    /// What a capability is to, and what it lets its holder do.
    fn put_capability(&mut self, capability: &CapabilityEntry) -> Result<(), AllocError> {
        let (index, source) = (capability.index, capability.source);
        write!(&mut self.text, "#   {index}: ")?;
        put_source(&mut self.text, self.entries.object_count(), source)?;
        match self.entries.kind(source) {
            Some(kind) => put_use(&mut self.text, kind, capability)?,
            None => self.put_handler(source)?,
        }
        self.text.push_str("\n")
    }

    /// What the handler of an interrupt lets its holder do.
    fn put_handler(&mut self, source: u32) -> Result<(), AllocError> {
        let number = source.saturating_sub(self.entries.object_count());
        match self.entries.interrupts.get(number as usize) {
            Some(interrupt) => {
                let line = interrupt.line;
                write!(&mut self.text, ": acknowledge interrupt line {line}")
            }
            None => Ok(()),
        }
    }

    /// What is in the slots of a CNode, which is listed for the first time.
    fn put_slots(&mut self, cnode: u32) -> Result<(), AllocError> {
        self.cnodes.push(cnode)?;
        write!(&mut self.text, "# CNode o{cnode}:\n")?;
        let entries = self.entries;
        for capability in entries.held_in(cnode) {
            self.put_capability(capability)?;
        }
        Ok(())
    }

    /// What is mapped under a root table, which is listed for the first time.
    fn put_pages(&mut self, root: u32) -> Result<(), AllocError> {
        write!(&mut self.text, "# root table o{root}:\n")?;
        let entries = self.entries;
        for entry in entries.mapped_in(root) {
            put_page(&mut self.text, entry)?;
        }
        Ok(())
    }

    /// What a thread holds.
    fn put_thread(&mut self, header: &ThreadHeader) -> Result<(), AllocError> {
        put_running(&mut self.text, header)?;
        let (cnode, root) = (header.cnode, header.root);
        if self.is_first(cnode) {
            self.put_slots(cnode)?;
        } else {
            write!(&mut self.text, "# CNode o{cnode}: as above\n")?;
        }
        if self.is_first(root) {
            self.put_pages(root)
        } else {
            write!(&mut self.text, "# root table o{root}: as above\n")
        }
    }

    /// The CNodes that the capabilities in one name, if they are not listed yet.
    fn put_named(&mut self, cnode: u32) -> Result<(), AllocError> {
        let entries = self.entries;
        for capability in entries.held_in(cnode) {
            if entries.is_cnode(capability.source) && self.is_first(capability.source) {
                self.text.push_str("#\n")?;
                self.put_slots(capability.source)?;
            }
        }
        Ok(())
    }

    /// The CNodes that are reached from those of threads. Each is followed once.
    fn put_reached(&mut self) -> Result<(), AllocError> {
        for place in 0..self.entries.objects.len() {
            match self.cnodes.get(place).copied() {
                Some(cnode) => self.put_named(cnode)?,
                None => return Ok(()),
            }
        }
        Ok(())
    }
}

/// Puts what each thread of an image holds after its text.
pub(crate) fn with_holdings(
    alloc: Global,
    text: String,
    image: &ImageRef<'_>,
    entries: &Entries,
) -> Result<String, AllocError> {
    let mut holdings = Holdings {
        text,
        entries,
        cnodes: Vec::new(alloc),
        is_told: nothing_told(alloc, entries.objects.len())?,
    };
    for thread in image.threads() {
        holdings.put_thread(&thread.header())?;
    }
    holdings.put_reached()?;
    Ok(holdings.text)
}
