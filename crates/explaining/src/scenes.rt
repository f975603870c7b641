//! A thread whose program is looked at.

ghost use Rattle.std.specs.Prelude.{◌≡◌};
ghost use Rattle.model.specs.Acceptance.NotedStates.{record_of};

use certifying::Record;
use image::{RecordRef, ThreadRef};
use model::Cap;
use source_gaps::Text;
use source_texts::{SourceText, SourceThread};
use std::alloc::{AllocError, Global};
use thread_spaces::GivenThread;
use typestate::{NotedSlot, NotedSlots, SlotKey};

/// A thread of a well-formed image whose program is looked at, with what the text says of it.
#[derive(Clone, Copy)]
pub(crate) struct Scene<'a, 's, 'm, 'f, 't, 'x, 'k> {
    pub(crate) given: GivenThread<'a, 's>,
    /// The offsets of the image's objects.
    pub(crate) offsets: &'s [u32],
    pub(crate) alloc: Global,
    pub(crate) text: Text<'f, 't>,
    pub(crate) source: &'m SourceText<'x>,
    pub(crate) thread: &'m SourceThread<'x>,
    /// What was found at the points of a thread without a certificate, in their order.
    pub(crate) known: Option<&'k [Record]>,
}

/// The record of a point, if it has one.
pub(crate) fn record_at<'a>(thread: &ThreadRef<'a>, point: u32) -> Option<RecordRef<'a>>
    ensures { result ≡ record_of thread.now point }
{
    for record in thread.records() {
        if record.point() == point {
            return Some(record);
        }
    }
    None
}

/// What an image lists in a slot.
fn listed(slots: &[NotedSlot], key: SlotKey) -> Cap {
    for slot in slots {
        if slot.key.is_same(key) {
            return slot.capability;
        }
    }
    Cap::Empty
}

/// The changes that make a difference to the image's slots.
pub(crate) fn differing(
    alloc: Global,
    slots: &NotedSlots<'_>,
) -> Result<Vec<NotedSlot>, AllocError> {
    let mut kept = Vec::new(alloc);
    for change in slots.changes.iter() {
        let before = listed(slots.image, change.key);
        if before != change.capability || change.parent.is_some() {
            kept.push(change)?;
        }
    }
    Ok(kept)
}

/// Whether two slots were derived from the same.
fn is_same_parent(first: Option<SlotKey>, second: Option<SlotKey>) -> bool {
    match (first, second) {
        (None, None) => true,
        (Some(first), Some(second)) => first.is_same(second),
        _ => false,
    }
}

/// Whether a slot holds the same, derived from the same.
pub(crate) fn is_same_slot(first: &NotedSlot, second: &NotedSlot) -> bool {
    first.capability == second.capability && is_same_parent(first.parent, second.parent)
}

impl Scene<'_, '_, '_, '_, '_, '_, '_> {
    /// What a slot holds where these changes are made.
    pub(crate) fn slot_with(&self, changes: &[NotedSlot], key: SlotKey) -> NotedSlot {
        for change in changes {
            if change.key.is_same(key) {
                return *change;
            }
        }
        for slot in self.given.slots {
            if slot.key.is_same(key) {
                return *slot;
            }
        }
        NotedSlot {
            key,
            capability: Cap::Empty,
            parent: None,
        }
    }

    /// The address of a point.
    pub(crate) fn address(&self, point: u32) -> u32 {
        let base = self.given.space.thread.header().base;
        base.wrapping_add(point.wrapping_mul(4))
    }

    /// The point at an address, if the program has one there.
    pub(crate) fn point_at(&self, address: u32) -> Option<u32> {
        let distance = address.wrapping_sub(self.given.space.thread.header().base);
        let point = distance / 4;
        if distance % 4 == 0 && point < self.given.space.thread.word_count() {
            Some(point)
        } else {
            None
        }
    }

    /// The line of a point.
    pub(crate) fn line(&self, point: u32) -> u64 {
        self.thread.point_line(point as usize)
    }
}
