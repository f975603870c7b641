//! What nobody outside of a part has that takes nothing from the others, and what a step outside leaves of the part.

ghost use Rattle.part_laws.specs.OutsideLaws.{OthersHaveNothing, OthersKeepAgreement};
ghost use Rattle.part_laws.specs.Using.{QueuesAreUsed};

use headline::authority::{
    a_tick_stays_within_authority, an_interrupt_stays_within_authority,
    events_stay_within_authority,
};
use headline::invocations::events_go_well;
use headline::kept::threads_have_their_own_blocks;
use headline::parts::threads_never_hold_more;
use headline::starts::threads_are_as_listed;

/// After any events of an accepted image each thread takes and changes the queue at which it waits, by the image, or has it in a pool of its own;
/// and so did both threads of which one may reply to the other.
pub fn queues_are_used()
    ensures { QueuesAreUsed }
{
    a_tick_stays_within_authority();
    an_interrupt_stays_within_authority();
    events_stay_within_authority();
    events_go_well();
    threads_have_their_own_blocks();
    threads_never_hold_more();
    threads_are_as_listed();
}

/// A thread outside of a part that takes nothing has nothing of it: no capability by which the part's objects change, no handler of its lines, no
/// memory around them, no place to store in its frames, and no right to reply to one of its threads.
pub fn others_have_nothing()
    ensures { OthersHaveNothing }
{}

/// A step of a thread that has nothing of the part's keeps that the whole and the part alone agree.
pub fn others_keep_agreement()
    ensures { OthersKeepAgreement }
{
    threads_have_their_own_blocks();
}
