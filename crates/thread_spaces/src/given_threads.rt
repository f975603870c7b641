//! What a well-formed image gives a thread.

ghost use Rattle.std.specs.Prelude.{◌≡◌, [], Some, slice_get};
ghost use Rattle.std.specs.List.{list_any};
ghost use Rattle.model.specs.Acceptance.Accepted.{IsWellFormed};
ghost use Rattle.model.specs.Acceptance.NotedStates.{image_slots};
ghost use Rattle.typestate.specs.Orders.{Rise};
ghost use Rattle.typestate.specs.Strays.{is_stray_in};
ghost use Rattle.typestate.specs.Unlinked.{AreUnlinked};

use typestate::{NotedSlot, Space};

/// A thread of a well-formed image, with its CNodes and what the image puts into them. It is the same at each point of the thread's
/// program.
#[derive(Clone, Copy)]
pub struct GivenThread<'a, 's> {
    pub space: Space<'a, 's>,
    /// Which of the image's threads it is, from 0 on.
    pub number: u32,
    /// The slots that the image lists in the thread's CNodes, their keys rising.
    pub slots: &'s [NotedSlot],
    /// Whether one of these is one that the thread may not have, where no other slot is full.
    pub lists_stray: bool,
    ghost well_formed: { IsWellFormed space.image.now },
    ghost in_image: { slice_get space.image.now.threads number ≡ Some space.thread.now },
    ghost listed: { slots.now ≡ image_slots space.image.now space.thread.now },
    ghost sorted: { Rise slots.now },
    ghost unlinked: { AreUnlinked slots.now },
    ghost decides_stray: { lists_stray ≡ list_any (is_stray_in space []) slots.now },
}
