//! Invocations of a thread of a part, in the whole and alone.

ghost use Rattle.part_laws.specs.Both.{OwnStepsAgree};
ghost use Rattle.part_laws.specs.own.Invocations.{OwnInvocationsAgreeWith};
ghost use Rattle.part_laws.specs.own.Whole.{OwnRemovalsAgree, OwnStepsAgreeAsRead, OwnStepsAgreeWithRemovals};
ghost use Rattle.headline.specs.invocations.Laws.{Laws};

use headline::invocations::{
    changed_slots_keep_all_standing, copies_go_well, deletes_go_well,
    invocations_leave_a_parent_to_each_slot, maps_go_well, mints_go_well, moves_go_well,
    retypes_go_well, revokes_go_well, steps_go_well, threads_mirror_what_is_noted, unmaps_go_well,
};
use headline::kept::threads_have_their_own_blocks;
use headline::moves::laws_below;
use soundness::an_acknowledgement_keeps_soundness;

/// The laws of the crate below on single invocations, together.
pub(crate) fn laws_on_invocations()
    ensures { Laws }
{
    laws_below();
    an_acknowledgement_keeps_soundness();
    threads_mirror_what_is_noted();
    copies_go_well();
    mints_go_well();
    moves_go_well();
    deletes_go_well();
    revokes_go_well();
    retypes_go_well();
    maps_go_well();
    unmaps_go_well();
    invocations_leave_a_parent_to_each_slot();
    changed_slots_keep_all_standing();
}

/// An invocation of a thread of a part is the same in the whole and alone, and keeps that they agree, where its removals do, and the
/// acknowledgement of a line.
pub fn own_invocations_agree_with()
    ensures { OwnInvocationsAgreeWith }
{
    laws_on_invocations();
    steps_go_well();
}

/// A step of a thread of a part is the same in the whole and alone, and keeps that they agree, where its removals do.
pub fn own_steps_agree_with_removals()
    ensures { OwnStepsAgreeWithRemovals }
{
    laws_on_invocations();
    steps_go_well();
}

/// A removal of a slot of a thread of a part, or of what derives from one, leaves the whole and the part alone in agreement.
pub fn own_removals_agree()
    ensures { OwnRemovalsAgree }
{
    laws_on_invocations();
    threads_have_their_own_blocks();
}

/// A step of a thread of a part is the same in the whole and alone, and keeps that they agree, where frames are mapped by capabilities that may
/// read.
pub fn own_steps_agree_as_read()
    ensures { OwnStepsAgreeAsRead }
{
    own_steps_agree_with_removals();
    own_removals_agree();
}

/// A step of a thread of a part that takes nothing from the others is the same in the whole and alone, and keeps that they agree.
pub fn own_steps_agree()
    ensures { OwnStepsAgree }
{
    own_steps_agree_as_read();
}
