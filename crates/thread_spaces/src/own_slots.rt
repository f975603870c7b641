//! Slots at a point where none is stray.

ghost use Rattle.std.specs.Prelude.{ℕ, ◌≡◌, false};
ghost use Rattle.model.specs.Acceptance.NotedStates.{PointState, has_stray_slots};
ghost use Rattle.typestate.specs.Differences.{slots_of};
ghost use Rattle.typestate.specs.Spaces.{AreOwn};

use crate::given_threads::GivenThread;
use typestate::NotedSlots;

impl GivenThread<'_, '_> {
    /// Where no slot is one that the thread may not have, each is full and one of its CNodes', and so is what it was derived
    /// from, if that is not in the boot CNode.
    pub fn slots_are_own(&self, slots: &NotedSlots<'_>)
        requires { slots.now.image.now ≡ self.now.slots.now }
        ensures { (point : ℕ) (state : PointState) → state.slots ≡ slots_of slots.now
            → has_stray_slots self.now.space.image.now self.now.space.thread.now point state ≡ false
            → AreOwn self.now.space.image.now self.now.space.thread.now (slots_of slots.now) }
    {
        let _ = self.space.image.header();
    }
}
