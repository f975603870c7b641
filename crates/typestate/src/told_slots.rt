//! The slots at a point, with what was said of them before.

ghost use Rattle.std.specs.Prelude.{◌≡◌, [], true};
ghost use Rattle.std.specs.List.{list_any};
ghost use Rattle.typestate.specs.Differences.{slots_of};
ghost use Rattle.typestate.specs.Strays.{NoneStray, is_stray_in};

use crate::{NotedSlots, Space};

/// The slots at a point of a thread's program, with what is known beforehand of those among them that the thread may not have.
#[derive(Clone, Copy)]
pub struct ToldSlots<'a, 's, 'n> {
    pub space: Space<'a, 's>,
    pub slots: NotedSlots<'n>,
    /// Whether one of those that the image lists is such a slot where no other one is full. They are the same at each point, so
    /// this is asked once.
    pub lists_stray: bool,
    /// Whether none is known to be such a slot.
    pub is_clean: bool,
    ghost listed: { lists_stray ≡ list_any (is_stray_in space []) slots.image.now },
    ghost clean: { is_clean ≡ true → NoneStray space.image.now space.thread.now (slots_of slots) },
}
