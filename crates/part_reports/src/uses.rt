//! What each thread of a text does with each object, and by which capability, mapping or handler.

use image_reading::{ImageRef, ThreadRef};
use model::{ObjectKind, ObjectType};
use source_texts::{CapabilityLine, FrameLine, Source, SourceText, SourceThread};
use std::alloc::{AllocError, Global};
use thread_spaces::reached_of;
use wellformed::NumberSet;

/// Of the rights of a capability or a mapping.
const WRITE: u32 = 1;

const READ: u32 = 2;

/// The number of no thread.
const NOBODY: usize = usize::MAX;

/// What is done with an object.
#[derive(Clone, Copy)]
enum Deed {
    /// What it is mapped for.
    Loads,
    Stores,
    /// What a capability to a frame allows.
    MapsToLoad,
    MapsToStore,
    /// What a capability to an endpoint allows.
    Sends,
    Receives,
    /// What a capability to a notification allows.
    Rings,
    Waits,
    /// What a capability to another object allows.
    Holds,
    /// It is the frame of the thread's message buffer.
    Buffers,
    /// Who has the handler of this line of the machine, which signals the notification.
    Acknowledges(u32),
}

/// What makes it possible.
#[derive(Clone, Copy)]
enum Place {
    /// A mapping at this address.
    Address(u32),
    /// A capability in this slot of a CNode.
    Slot { cnode: usize, index: u32 },
    /// The thread's own line.
    Thread,
}

/// Something that a thread does with an object.
#[derive(Clone, Copy)]
struct Use {
    object: usize,
    deed: Deed,
    place: Place,
}

impl Deed {
    /// Whether the thread takes the object by this.
    fn takes(self) -> bool {
        !matches!(
            self,
            Deed::Rings | Deed::MapsToStore | Deed::Acknowledges(_)
        )
    }

    /// Whether it may change the object by this.
    fn changes(self) -> bool {
        !matches!(self, Deed::Loads | Deed::MapsToLoad)
    }

    /// What is said of the thread.
    fn words(self) -> &'static str {
        match self {
            Deed::Loads => "reads it",
            Deed::Stores => "writes it",
            Deed::MapsToLoad => "may map it to read",
            Deed::MapsToStore => "may map it to write",
            Deed::Sends => "sends there",
            Deed::Receives => "receives there",
            Deed::Rings => "rings it",
            Deed::Waits => "waits for it",
            Deed::Holds => "holds it",
            Deed::Buffers => "has it as message buffer",
            Deed::Acknowledges(_) => "acknowledges line ",
        }
    }
}

/// What is said of a use beside others.
#[derive(Clone, Copy, PartialEq, Eq)]
pub(crate) enum Side {
    Takes,
    Changes,
    Both,
}

/// What a thread does with each object that it may use: once all of it is known, in the order of the objects.
#[derive(Drop)]
pub(crate) struct Uses {
    all: Vec<Use>,
}

/// Whether a word of rights has a right.
fn has(rights: u32, right: u32) -> bool {
    rights & right != 0
}

impl Uses {
    /// One use more.
    fn add(&mut self, object: usize, deed: Deed, place: Place) -> Result<(), AllocError> {
        self.all.push(Use {
            object,
            deed,
            place,
        })?;
        Ok(())
    }

    /// What is done with an object, in the order in which it was found.
    fn of(&self, object: usize) -> &[Use] {
        let first = self.all.partition_point(|found| found.object < object);
        let (_, rest) = self.all.split_at(first.min(self.all.len()));
        let count = rest.partition_point(|found| found.object <= object);
        rest.split_at(count.min(rest.len())).0
    }

    /// What a mapping allows.
    fn add_frame(&mut self, frame: &FrameLine) -> Result<(), AllocError> {
        let deed = if has(frame.rights, WRITE) {
            Deed::Stores
        } else {
            Deed::Loads
        };
        self.add(frame.frame, deed, Place::Address(frame.address))
    }

    /// What a capability to an object allows.
    fn add_capability(
        &mut self,
        text: &SourceText<'_>,
        capability: &CapabilityLine,
        object: usize,
    ) -> Result<(), AllocError> {
        let place = Place::Slot {
            cnode: capability.cnode,
            index: capability.index,
        };
        let kind = text.kind(object);
        let (read, written) = match &kind {
            Some(ObjectType::Object(ObjectKind::Frame)) => (Deed::MapsToLoad, Deed::MapsToStore),
            Some(ObjectType::Object(ObjectKind::Endpoint)) => (Deed::Receives, Deed::Sends),
            Some(ObjectType::Object(ObjectKind::Notification)) => (Deed::Waits, Deed::Rings),
            _ => (Deed::Holds, Deed::Holds),
        };
        if has(capability.rights, READ) {
            self.add(object, read, place)?;
        }
        if has(capability.rights, WRITE) {
            self.add(object, written, place)?;
        }
        Ok(())
    }

    /// What a handler allows: it is for the notification that its line signals.
    fn add_handler(
        &mut self,
        text: &SourceText<'_>,
        capability: &CapabilityLine,
        interrupt: usize,
    ) -> Result<(), AllocError> {
        let place = Place::Slot {
            cnode: capability.cnode,
            index: capability.index,
        };
        match text.interrupts.get(interrupt) {
            Some(line) => {
                let deed = Deed::Acknowledges(line.number);
                self.add(line.notification, deed, place)
            }
            None => Ok(()),
        }
    }

    /// What a capability in one of the thread's CNodes allows.
    fn add_held(
        &mut self,
        text: &SourceText<'_>,
        capability: &CapabilityLine,
    ) -> Result<(), AllocError> {
        match capability.source {
            Source::Object(object) => self.add_capability(text, capability, object),
            Source::Interrupt(number) => self.add_handler(text, capability, number),
        }
    }

    /// Puts `NAME reads it at 0x2000 and ..` of what is done with an object, as far as it is of this side.
    pub(crate) fn put(
        &self,
        text: &SourceText<'_>,
        name: &str,
        object: usize,
        side: Side,
        line: &mut String,
    ) -> Result<(), AllocError> {
        line.push_str(name)?;
        let mut is_first = true;
        for found in self.of(object).iter() {
            if is_of_side(*found, side) {
                line.push_str(if is_first { " " } else { " and " })?;
                put_use(text, *found, line)?;
                is_first = false;
            }
        }
        Ok(())
    }
}

/// Whether a use is of this side.
fn is_of_side(found: Use, side: Side) -> bool {
    match side {
        Side::Takes => found.deed.takes(),
        Side::Changes => found.deed.changes(),
        Side::Both => true,
    }
}

/// Puts words one after another.
pub(crate) fn put_words(words: &[&str], line: &mut String) -> Result<(), AllocError> {
    for word in words {
        line.push_str(word)?;
    }
    Ok(())
}

/// Puts a use and where it is.
fn put_use(text: &SourceText<'_>, found: Use, line: &mut String) -> Result<(), AllocError> {
    line.push_str(found.deed.words())?;
    if let Deed::Acknowledges(number) = found.deed {
        write!(line, "{number}")?;
    }
    match found.place {
        Place::Address(address) => write!(line, " at {address:#x}"),
        Place::Slot { cnode, index } => {
            write!(line, " by slot {index}")?;
            put_words(&[" of ", text.object_name(cnode)], line)
        }
        Place::Thread => Ok(()),
    }
}

/// The threads by what belongs to each alone in an accepted image: the CNodes that it reaches, and its root table.
#[derive(Drop)]
struct Owners {
    /// By the numbers of objects.
    threads: Vec<usize>,
}

impl Owners {
    /// So many objects belong to nobody.
    fn none(alloc: Global, objects: usize) -> Result<Self, AllocError> {
        let mut threads = Vec::new(alloc);
        threads.resize(objects, NOBODY)?;
        Ok(Owners { threads })
    }

    /// An object belongs to a thread.
    fn put(&mut self, object: usize, thread: usize) {
        if let Some(owner) = self.threads.get_mut(object) {
            *owner = thread;
        }
    }

    /// What belongs to one thread more.
    fn add(&mut self, cnodes: &NumberSet, source: &SourceThread<'_>, thread: usize) {
        for place in 0..cnodes.len() {
            self.put(cnodes.at(place) as usize, thread);
        }
        self.put(source.root, thread);
    }

    /// What is done by the thread to which an object belongs.
    fn uses_of<'u>(&self, object: usize, all: &'u mut Vec<Uses>) -> Option<&'u mut Uses> {
        match self.threads.get(object) {
            Some(thread) => all.get_mut(*thread),
            None => None,
        }
    }
}

/// The CNodes that a thread reaches.
fn cnodes_of(
    alloc: Global,
    image: &ImageRef<'_>,
    thread: &ThreadRef<'_>,
) -> Result<NumberSet, AllocError> {
    match reached_of(alloc, image, thread) {
        Ok(cnodes) => Ok(cnodes),
        Err(_) => Err(AllocError),
    }
}

/// What each thread does with its message buffer, and what belongs to it.
fn begun(
    alloc: Global,
    text: &SourceText<'_>,
    image: &ImageRef<'_>,
    owners: &mut Owners,
) -> Result<Vec<Uses>, AllocError> {
    let mut all = Vec::new(alloc);
    for thread in image.threads() {
        let cnodes = cnodes_of(alloc, image, &thread)?;
        if let Some(source) = text.threads.get(all.len()) {
            owners.add(&cnodes, source, all.len());
        }
        all.push(Uses {
            all: Vec::new(alloc),
        })?;
    }
    Ok(all)
}

/// What each thread of an image does with each object, in the order of the threads. The text is that of the image, which is accepted: each
/// mapping and capability is looked at once.
pub(crate) fn all_uses(
    alloc: Global,
    text: &SourceText<'_>,
    image: &ImageRef<'_>,
) -> Result<Vec<Uses>, AllocError> {
    let mut owners = Owners::none(alloc, text.objects.len())?;
    let mut all = begun(alloc, text, image, &mut owners)?;
    for frame in &text.frames {
        if let Some(uses) = owners.uses_of(frame.root, &mut all) {
            uses.add_frame(frame)?;
        }
    }
    for capability in &text.capabilities {
        if let Some(uses) = owners.uses_of(capability.cnode, &mut all) {
            uses.add_held(text, capability)?;
        }
    }
    for (uses, thread) in all.iter_mut().zip(text.threads.iter()) {
        if let Some(buffer) = &thread.buffer {
            uses.add(buffer.frame, Deed::Buffers, Place::Thread)?;
        }
        uses.all.sort_by_key(|found| found.object)?;
    }
    Ok(all)
}
