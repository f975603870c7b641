//! The laws on single invocations that these are built on.

ghost use Rattle.headline.specs.invocations.Laws.{Laws};

use crate::invocations::copy_laws::{copies_go_well, mints_go_well, moves_go_well};
use crate::invocations::frame_laws::{maps_go_well, unmaps_go_well};
use crate::invocations::mirror_laws::threads_mirror_what_is_noted;
use crate::invocations::parent_laws::invocations_leave_a_parent_to_each_slot;
use crate::invocations::removing_laws::{deletes_go_well, revokes_go_well};
use crate::invocations::retype_laws::retypes_go_well;
use crate::invocations::standing_laws::changed_slots_keep_all_standing;
use crate::moves::laws_below;
use soundness::an_acknowledgement_keeps_soundness;

/// The laws below, and those on single invocations, together.
pub(crate) fn laws_on_invocations()
    ensures { Laws }
{
    laws_below();
    an_acknowledgement_keeps_soundness();
    threads_mirror_what_is_noted();
    copies_go_well();
    mints_go_well();
    moves_go_well();
    deletes_go_well();
    revokes_go_well();
    retypes_go_well();
    maps_go_well();
    unmaps_go_well();
    invocations_leave_a_parent_to_each_slot();
    changed_slots_keep_all_standing();
}
