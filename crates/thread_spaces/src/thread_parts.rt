//! What is made of a well-formed image for one of its threads.

ghost use Rattle.std.proofs.Props.{props};
ghost use Rattle.std.specs.Prelude.{◌≡◌, IfOk};
ghost use Rattle.model.specs.Acceptance.NotedStates.{image_slots};
ghost use Rattle.model.specs.Acceptance.ThreadRules.{reached};
ghost use Rattle.thread_spaces.specs.Propositions.{AreWindows-prop};
ghost use Rattle.typestate.specs.Orders.{Rise};
ghost use Rattle.typestate.specs.Promises.{AreOfImage};
ghost use Rattle.typestate.specs.Spaces.{AreWindows};

use crate::given_threads::GivenThread;
use crate::placed_threads::PlacedThread;
use crate::reach::reached_of;
use std::alloc::{AllocError, Global};
use typestate::{NotedSlot, PlacedPromises, Windows};

/// The CNodes of a thread and the slots that the image lists in them, which a [`GivenThread`] borrows.
#[derive(Drop)]
pub struct ThreadParts<'p, 'i, 't, 'a> {
    pub owner: PlacedThread<'p, 'i, 't, 'a>,
    windows: Windows,
    slots: Vec<NotedSlot>,
    ghost cnodes: { AreWindows owner.placed.now.image.now
        (reached owner.placed.now.image.now owner.thread.now) windows } by { Prim.hlevel (props, AreWindows-prop) },
    ghost listed: { slots.items ≡ image_slots owner.placed.now.image.now owner.thread.now },
    ghost sorted: { Rise slots.items },
}

impl<'p, 'i, 't, 'a> ThreadParts<'p, 'i, 't, 'a> {
    /// The CNodes that the thread reaches, and their slots.
    ///
    /// # Errors
    ///
    /// Out of memory.
    pub fn of(alloc: Global, owner: PlacedThread<'p, 'i, 't, 'a>) -> Result<Self, AllocError>
        ensures { IfOk result (λ parts. parts.owner ≡ owner.entry) }
    {
        let Ok(cnodes) = reached_of(alloc, owner.placed.image, owner.thread) else {
            return Err(AllocError);
        };
        let windows = owner.windows(alloc, &cnodes)?;
        let slots = owner.slots(alloc, &cnodes)?;
        Ok(ThreadParts {
            owner,
            windows,
            slots,
        })
    }

    /// What the image gives the thread, with what it promises of messages.
    pub fn given<'s>(&'s self, promises: &'s PlacedPromises<'a>) -> GivenThread<'a, 's>
        requires { AreOfImage self.now.owner.placed.now.image.now promises.now }
        ensures image { result.space.image.now ≡ self.now.owner.placed.now.image.now }
        ensures thread { result.space.thread.now ≡ self.now.owner.thread.now }
        ensures number { result.number ≡ self.now.owner.number }
    {
        let slots = &self.slots;
        let space = self.owner.space(&self.windows, promises);
        GivenThread {
            space,
            number: self.owner.number,
            slots,
            lists_stray: space.lists_stray(slots),
        }
    }
}
