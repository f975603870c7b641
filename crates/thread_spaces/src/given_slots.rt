//! What an image puts into a thread's CNodes.

ghost use Rattle.std.specs.Prelude.{◌≡◌, ◌++◌, [], ◌∷◌, IfOk, if◌then◌else◌};
ghost use Rattle.model.specs.Acceptance.NotedStates.{image_slots, listed_slot};
ghost use Rattle.model.specs.Acceptance.ThreadRules.{is_member, reached};
ghost use Rattle.thread_spaces.specs.Given.{IsEntry};
ghost use Rattle.typestate.specs.Orders.{Rise};

use crate::capabilities::listed_slot;
use crate::offsets::PlacedImage;
use crate::placed_threads::PlacedThread;
use image_reading::{capability_of, header_of};
use model::CapabilityEntry;
use std::alloc::{AllocError, Global};
use typestate::NotedSlot;
use wellformed::NumberSet;

/// Appends the slot that an entry fills, if it lies in one of these CNodes.
fn note_listed(
    slots: &mut Vec<NotedSlot>,
    placed: &PlacedImage<'_, '_>,
    cnodes: &NumberSet,
    entry: CapabilityEntry,
) -> Result<(), AllocError>
    requires listed { IsEntry placed.now.image.now entry }
    ensures { IfOk result (λ _. slots.new.items
        ≡ slots.old.items ++ (if is_member entry.cnode cnodes.now then listed_slot placed.now.image.now entry ∷ [] else [])) }
{
    if !cnodes.contains(entry.cnode) {
        return Ok(());
    }
    slots.push(listed_slot(placed, entry))?;
    Ok(())
}

impl PlacedThread<'_, '_, '_, '_> {
    /// The full slots of the CNodes that the image gives the thread, their keys rising. Fails if out of memory.
    pub(crate) fn slots(
        &self,
        alloc: Global,
        cnodes: &NumberSet,
    ) -> Result<Vec<NotedSlot>, AllocError>
        requires cnodes { cnodes.now ≡ reached self.now.placed.now.image.now self.now.thread.now }
        ensures slots { IfOk result (λ slots. slots.items ≡ image_slots self.now.placed.now.image.now self.now.thread.now) }
        ensures rise { IfOk result (λ slots. Rise slots.items) }
    {
        let placed = self.placed;
        let image = placed.image;
        let mut slots = Vec::new(alloc);
        for number in 0..header_of(image).capabilities {
            note_listed(&mut slots, placed, cnodes, capability_of(image, number))?;
        }
        Ok(slots)
    }
}
