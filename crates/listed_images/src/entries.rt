//! The entries of an image that are looked up by number, and what follows from them.

use crate::places::{ends_of, places_of};
use crate::spans::Spans;
use image_reading::ImageRef;
use model::{
    CapabilityEntry, FrameEntry, InterruptEntry, ObjectEntry, ObjectKind, ObjectType, UntypedEntry,
};
use std::alloc::{AllocError, Global};
use wellformed::Place;

/// The entries of an image that are looked up by number, and what follows from them.
#[derive(Drop)]
pub(crate) struct Entries {
    pub(crate) untypeds: Vec<UntypedEntry>,
    /// Where the last object of each untyped ends.
    pub(crate) ends: Vec<u64>,
    pub(crate) objects: Vec<ObjectEntry>,
    /// Where each object is.
    pub(crate) places: Vec<Place>,
    pub(crate) interrupts: Vec<InterruptEntry>,
    pub(crate) capabilities: Vec<CapabilityEntry>,
    /// Which capabilities each object holds.
    pub(crate) held: Spans,
    pub(crate) frames: Vec<FrameEntry>,
    /// Which frames are mapped under each object.
    pub(crate) mapped: Spans,
}

/// Which capabilities each of so many objects holds.
fn held_by(
    alloc: Global,
    objects: usize,
    capabilities: &[CapabilityEntry],
) -> Result<Spans, AllocError> {
    let mut spans = Spans::none(alloc, objects)?;
    for (number, entry) in capabilities.iter().enumerate() {
        spans.note(entry.cnode, number);
    }
    Ok(spans)
}

/// Which frames are mapped under each of so many objects.
fn mapped_under(alloc: Global, objects: usize, frames: &[FrameEntry]) -> Result<Spans, AllocError> {
    let mut spans = Spans::none(alloc, objects)?;
    for (number, entry) in frames.iter().enumerate() {
        spans.note(entry.root, number);
    }
    Ok(spans)
}

impl Entries {
    /// Those of an image.
    pub(crate) fn of(alloc: Global, image: &ImageRef<'_>) -> Result<Entries, AllocError> {
        let untypeds: Vec<UntypedEntry> = image.untypeds().collect(alloc)?;
        let objects: Vec<ObjectEntry> = image.objects().collect(alloc)?;
        let capabilities: Vec<CapabilityEntry> = image.capabilities().collect(alloc)?;
        let frames: Vec<FrameEntry> = image.frames().collect(alloc)?;
        let places = places_of(alloc, image)?;
        Ok(Entries {
            ends: ends_of(alloc, &untypeds, &objects, &places)?,
            held: held_by(alloc, objects.len(), &capabilities)?,
            mapped: mapped_under(alloc, objects.len(), &frames)?,
            interrupts: image.interrupts().collect(alloc)?,
            untypeds,
            objects,
            places,
            capabilities,
            frames,
        })
    }

    /// How many objects there are.
    pub(crate) fn object_count(&self) -> u32 {
        self.objects.len().min(u32::MAX as usize) as u32
    }

    /// What an object is, by its number.
    pub(crate) fn kind(&self, number: u32) -> Option<ObjectType> {
        match self.objects.get(number as usize) {
            Some(object) => ObjectType::of(object.kind, object.size),
            None => None,
        }
    }

    /// Whether an object is a CNode.
    pub(crate) fn is_cnode(&self, number: u32) -> bool {
        let kind = self.kind(number);
        matches!(&kind, Some(ObjectType::Object(ObjectKind::CNode { .. })))
    }

    /// The capabilities that a CNode holds, in the order of their slots.
    pub(crate) fn held_in(&self, cnode: u32) -> &[CapabilityEntry] {
        self.held.of(self.capabilities.as_slice(), cnode)
    }

    /// The frames that are mapped under a root table, in the order of their addresses.
    pub(crate) fn mapped_in(&self, root: u32) -> &[FrameEntry] {
        self.mapped.of(self.frames.as_slice(), root)
    }
}
