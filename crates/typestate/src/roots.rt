//! A capability under which a thread names its slots.

ghost use Rattle.std.specs.Prelude.{◌≡◌, true};
ghost use Rattle.model.specs.Capabilities.CapabilityFields.{is_capability};
ghost use Rattle.typestate.specs.GivenSpaces.{is_inside};

use crate::ThreadSlots;
use model::Cap;

/// A capability that leads to no CNode but the thread's own, beside the thread's slots at a point: under it the thread names slots.
#[derive(Clone, Copy)]
pub(crate) struct OwnRoot<'a, 's, 'n> {
    pub(crate) own: ThreadSlots<'a, 's, 'n>,
    pub(crate) root: Cap,
    ghost inside: { is_inside own.space.image.now own.space.thread.now root ≡ true },
    ghost valid: { is_capability root ≡ true },
}
