//! The capabilities that a well-formed image lists.

ghost use Rattle.std.specs.Prelude.{◌≡◌, ◌≤◌, true};
ghost use Rattle.std.specs.Option.{option_map_or};
ghost use Rattle.model.specs.Acceptance.NotedStates.{listed_slot};
ghost use Rattle.model.specs.Capabilities.CapabilityWords.{IsCapability};
ghost use Rattle.model.specs.Images.Described.{limited, listed_capability};
ghost use Rattle.model.specs.Images.Image.{size_fits};
ghost use Rattle.model.specs.Kernel.Retype.{first_capability, type_of};
ghost use Rattle.model.specs.declared.capabilities.Cap.TheVariants.{Empty};
ghost use Rattle.thread_spaces.specs.Given.{IsEntry};

use crate::offsets::PlacedImage;
use image_reading::{ImageRef, header_of, object_of};
use model::{Cap, CapabilityEntry, ObjectEntry, ObjectType, Rights};
use typestate::{NotedSlot, SlotKey};

/// A capability with these rights, and with this badge or guard word, as far as its kind has them.
fn limited(capability: Cap, bits: u32, payload: u32) -> Cap
    requires { bits ≤ 255 }
    ensures { result ≡ limited capability bits payload }
{
    let rights = Rights(bits as u8);
    match capability {
        Cap::Endpoint { offset, .. } => Cap::Endpoint {
            offset,
            rights,
            badge: payload,
        },
        Cap::Notification { offset, .. } => Cap::Notification {
            offset,
            rights,
            badge: payload,
        },
        Cap::CNode { offset, radix, .. } => Cap::CNode {
            offset,
            radix,
            guard: payload,
        },
        Cap::Frame {
            offset,
            mapping,
            ..
        } => Cap::Frame {
            offset,
            rights,
            mapping,
        },
        _ => capability,
    }
}

/// The first capability to an object at an offset.
fn first_capability(object: ObjectEntry, offset: u32) -> Cap
    requires { size_fits object.kind object.size ≡ true }
    ensures { result ≡ option_map_or (λ kind. first_capability kind offset) (type_of object.kind object.size) Empty }
{
    match ObjectType::of(object.kind, object.size) {
        Some(kind) => kind.first_capability(offset),
        None => Cap::Empty,
    }
}

/// The handler of an interrupt's line.
fn handler(image: &ImageRef<'_>, entry: CapabilityEntry) -> Cap
    requires listed { IsEntry image.now entry }
    requires source { image.now.header.objects ≤ entry.source }
    ensures { result ≡ listed_capability image.now entry }
{
    let interrupt = image.interrupt(entry.source - header_of(image).objects);
    Cap::InterruptHandler {
        line: interrupt.line as u8,
    }
}

/// The capability that an entry lists.
pub(crate) fn listed_capability(placed: &PlacedImage<'_, '_>, entry: CapabilityEntry) -> Cap
    requires listed { IsEntry placed.now.image.now entry }
    ensures value { result ≡ listed_capability placed.now.image.now entry }
    ensures valid { IsCapability result }
{
    let image = placed.image;
    if image.header().objects <= entry.source {
        return handler(image, entry);
    }
    let object = object_of(image, entry.source);
    let offset = placed.offsets[entry.source as usize];
    let capability = first_capability(object, offset);
    limited(capability, entry.rights, entry.payload)
}

/// The slot that an entry fills.
pub(crate) fn listed_slot(placed: &PlacedImage<'_, '_>, entry: CapabilityEntry) -> NotedSlot
    requires listed { IsEntry placed.now.image.now entry }
    ensures { result ≡ listed_slot placed.now.image.now entry }
{
    NotedSlot {
        key: SlotKey {
            cnode: entry.cnode,
            index: entry.index,
        },
        capability: listed_capability(placed, entry),
        parent: None,
    }
}
