//! What each thread of a text may do.

use crate::holdings::Holdings;
use crate::things::{Deed, Thing};
use indexmap::IndexMap;
use model::{ObjectKind, ObjectType};
use source_texts::{CapabilityLine, FrameLine, ObjectLine, Source, SourceText, SourceThread};
use std::alloc::{AllocError, Global};

/// Of the rights of a capability or a mapping, as the text has them.
const WRITE: u32 = 1;

const READ: u32 = 2;

const EXECUTE: u32 = 4;

const GRANT_REPLY: u32 = 8;

/// What a thread may do, and how it runs.
#[derive(Drop)]
pub(crate) struct Reach<'n> {
    pub(crate) line: u64,
    pub(crate) priority: u32,
    /// None where it is to be found.
    pub(crate) budget: Option<u64>,
    /// Each thing with the first line that says so.
    pub(crate) things: IndexMap<Thing<'n>, u64>,
}

/// The threads of a text by their names.
pub(crate) type Reaches<'n> = IndexMap<&'n str, Reach<'n>>;

impl<'n> Reach<'n> {
    /// One thing more, unless it is there already.
    fn add(&mut self, thing: Thing<'n>, line: u64) -> Result<(), AllocError> {
        if self.things.get(&thing).is_none() {
            self.things.insert(thing, line)?;
        }
        Ok(())
    }

    /// The same if a word of rights has a right.
    fn add_right(
        &mut self,
        rights: u32,
        right: u32,
        thing: Thing<'n>,
        line: u64,
    ) -> Result<(), AllocError> {
        if rights & right == right {
            self.add(thing, line)
        } else {
            Ok(())
        }
    }

    /// What a capability to an endpoint allows.
    fn add_endpoint(
        &mut self,
        name: &'n str,
        capability: &CapabilityLine,
    ) -> Result<(), AllocError> {
        let (line, rights, badge) = (capability.line, capability.rights, capability.payload);
        let call = Thing::with_number(Deed::Call, name, badge);
        let send = Thing::with_number(Deed::Send, name, badge);
        self.add_right(rights, WRITE | GRANT_REPLY, call, line)?;
        self.add_right(rights, WRITE, send, line)?;
        self.add_right(rights, READ, Thing::to(Deed::Receive, name), line)
    }

    /// What a capability to a notification allows.
    fn add_notification(
        &mut self,
        name: &'n str,
        capability: &CapabilityLine,
    ) -> Result<(), AllocError> {
        let (line, rights, badge) = (capability.line, capability.rights, capability.payload);
        let signal = Thing::with_number(Deed::Signal, name, badge);
        self.add_right(rights, WRITE, signal, line)?;
        self.add_right(rights, READ, Thing::to(Deed::Wait, name), line)
    }

    /// What a capability to a frame allows.
    fn add_frame(
        &mut self,
        name: &'n str,
        is_device: bool,
        capability: &CapabilityLine,
    ) -> Result<(), AllocError> {
        let (line, rights) = (capability.line, capability.rights);
        let read = Thing::to_page(Deed::MapToRead, name, is_device);
        let write = Thing::to_page(Deed::MapToWrite, name, is_device);
        self.add_right(rights, READ, read, line)?;
        self.add_right(rights, WRITE, write, line)
    }

    /// What a capability to an object allows.
    fn add_object(
        &mut self,
        object: &ObjectLine<'n>,
        capability: &CapabilityLine,
    ) -> Result<(), AllocError> {
        let (name, line) = (object.name, capability.line);
        match object.kind {
            ObjectType::Untyped { bits } => {
                let size = power_of_two(u32::from(bits));
                self.add(Thing::with_number(Deed::MakeObjects, name, size), line)
            }
            ObjectType::Object(ObjectKind::Thread) => {
                self.add(Thing::to(Deed::Control, name), line)
            }
            ObjectType::Object(ObjectKind::Endpoint) => self.add_endpoint(name, capability),
            ObjectType::Object(ObjectKind::Notification) => self.add_notification(name, capability),
            ObjectType::Object(ObjectKind::CNode { radix }) => {
                let slots = power_of_two(u32::from(radix));
                self.add(Thing::with_number(Deed::ChangeSlots, name, slots), line)
            }
            ObjectType::Object(ObjectKind::Frame) => {
                self.add_frame(name, object.is_device, capability)
            }
            ObjectType::Object(ObjectKind::PageTable) => {
                self.add(Thing::to(Deed::MapTable, name), line)
            }
            ObjectType::Object(ObjectKind::RootTable) => {
                self.add(Thing::to(Deed::MapUnder, name), line)
            }
        }
    }

    /// What a mapping allows.
    fn add_page(
        &mut self,
        name: &'n str,
        is_device: bool,
        page: &FrameLine,
    ) -> Result<(), AllocError> {
        let (line, rights) = (page.line, page.rights);
        for (right, deed) in [
            (READ, Deed::Read),
            (WRITE, Deed::Write),
            (EXECUTE, Deed::Execute),
        ] {
            self.add_right(rights, right, Thing::to_page(deed, name, is_device), line)?;
        }
        Ok(())
    }
}

/// 2 to the power of so many bits, or the greatest number where that is greater.
fn power_of_two(bits: u32) -> u32 {
    if bits < 32 { 1 << bits } else { u32::MAX }
}

/// A text, and what it puts where.
#[derive(Drop)]
struct Scene<'n, 't> {
    alloc: Global,
    text: &'t SourceText<'n>,
    holdings: Holdings,
}

impl<'n> Scene<'n, '_> {
    /// What a capability allows.
    fn add_held(
        &self,
        reach: &mut Reach<'n>,
        capability: &CapabilityLine,
    ) -> Result<(), AllocError> {
        match capability.source {
            Source::Object(number) => match self.text.objects.get(number) {
                Some(object) => reach.add_object(object, capability),
                None => Ok(()),
            },
            Source::Interrupt(number) => match self.text.interrupts.get(number) {
                Some(interrupt) => {
                    let thing = Thing::with_number(Deed::Acknowledge, "", interrupt.number);
                    reach.add(thing, capability.line)
                }
                None => Ok(()),
            },
        }
    }

    /// What the capabilities in the CNodes of a thread allow.
    fn add_all_held(
        &self,
        reach: &mut Reach<'n>,
        thread: &SourceThread<'n>,
    ) -> Result<(), AllocError> {
        let cnodes = self
            .holdings
            .cnodes_from(self.alloc, self.text, thread.cnode)?;
        for cnode in cnodes.iter() {
            for capability in self.holdings.held_in(*cnode) {
                self.add_held(reach, capability)?;
            }
        }
        Ok(())
    }

    /// What the pages of a thread allow.
    fn add_pages(
        &self,
        reach: &mut Reach<'n>,
        thread: &SourceThread<'n>,
    ) -> Result<(), AllocError> {
        for page in self.holdings.mapped_under(thread.root) {
            let is_device = self.text.is_device(page.frame);
            reach.add_page(self.text.object_name(page.frame), is_device, page)?;
        }
        Ok(())
    }

    /// Where the faults of a thread are reported.
    fn add_handler(
        &self,
        reach: &mut Reach<'n>,
        thread: &SourceThread<'n>,
    ) -> Result<(), AllocError> {
        if thread.fault == 0 {
            return Ok(());
        }
        let thing = match self.holdings.named_by(self.text, thread, thread.fault) {
            Some(source) => Thing::to(Deed::ReportFaults, self.text.source_name(source)),
            None => Thing::with_number(Deed::ReportFaults, "", thread.fault),
        };
        reach.add(thing, thread.line)
    }

    /// What a thread may do. Its budget is to be found if it is on one of these lines, which rise.
    fn reach(&self, thread: &SourceThread<'n>, automatic: &[u64]) -> Result<Reach<'n>, AllocError> {
        let is_automatic = automatic.binary_search(&thread.line).is_ok();
        let mut reach = Reach {
            line: thread.line,
            priority: thread.priority,
            budget: if is_automatic {
                None
            } else {
                Some(thread.budget)
            },
            things: IndexMap::new(self.alloc),
        };
        self.add_all_held(&mut reach, thread)?;
        self.add_pages(&mut reach, thread)?;
        self.add_handler(&mut reach, thread)?;
        if let Some(buffer) = thread.buffer {
            let name = self.text.object_name(buffer.frame);
            let is_device = self.text.is_device(buffer.frame);
            reach.add(Thing::to_page(Deed::Buffer, name, is_device), buffer.line)?;
        }
        Ok(reach)
    }
}

/// What each thread of a text may do, in the order of the threads. The budgets on these lines are to be found. It takes time in
/// proportion to what each thread holds, one after the other.
pub(crate) fn reaches_of<'n>(
    alloc: Global,
    text: &SourceText<'n>,
    automatic: &[u64],
) -> Result<Reaches<'n>, AllocError> {
    let scene = Scene {
        alloc,
        text,
        holdings: Holdings::of(alloc, text)?,
    };
    let mut reaches = IndexMap::new(alloc);
    for thread in &text.threads {
        let reach = scene.reach(thread, automatic)?;
        reaches.insert(text.object_name(thread.tcb), reach)?;
    }
    Ok(reaches)
}
