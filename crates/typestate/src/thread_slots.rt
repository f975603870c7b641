//! The slots of a thread's CNodes at a point, where none is one that the thread may not have.

ghost use Rattle.std.specs.Prelude.{◌≡◌};
ghost use Rattle.typestate.specs.Differences.{slots_of};
ghost use Rattle.typestate.specs.Spaces.{AreOwn, NothingLeadsOutside};

use crate::{NotedSlots, Space};

/// The slots at a point of a thread's program: each is full and is in one of the thread's CNodes, as is what it was derived
/// from, if that does not stand in the boot CNode; and none leads outside of them.
#[derive(Clone, Copy)]
pub struct ThreadSlots<'a, 's, 'n> {
    pub space: Space<'a, 's>,
    pub slots: NotedSlots<'n>,
    ghost inside: { NothingLeadsOutside space.image.now space.thread.now (slots_of slots) },
    ghost own: { AreOwn space.image.now space.thread.now (slots_of slots) },
}
