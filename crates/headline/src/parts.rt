//! Parts of an image that take nothing from the others.

ghost use Rattle.std.specs.Prelude.{◌≡◌, ◌≢◌, ◌⊎◌};
ghost use Rattle.model.specs.Kernel.State.{ThreadState};
ghost use Rattle.headline.specs.parts.Laws.{AloneKeepsPhases, BlocksAgree, HeldQueuesAreListed, InstructionsDoSame, InterruptsAgree, OthersKeepAgreement};
ghost use Rattle.headline.specs.parts.Laws.{OthersLeaveLines, OthersLeaveObjects, OthersLeaveReady, OthersLeaveThreads, ReceivesAgree, RepliesAgree, SameRuns};
ghost use Rattle.headline.specs.parts.Laws.{SendsAgree, SignalsAgree, ThreadsHoldWhatTheyWereGiven, TicksAgree, WaitsAgree, WakesAgree, WithinKeepsGiven};

use crate::authority::events_stay_within_authority;
use crate::kept::threads_have_their_own_blocks;
use crate::starts::slots_are_as_listed;
use soundness::objects_stand_inside_their_untypeds;

/// Two threads are the same, or differ.
pub fn threads_are_told_apart()
    ensures { (a b : ThreadState) → (a ≡ b) ⊎ (a ≢ b) }
{}

/// The image of a part alone keeps and breaks the same rules on objects, capabilities and mappings.
pub fn a_part_alone_keeps_its_phases()
    ensures { AloneKeepsPhases }
{}

/// A step of another thread, which has nothing of what the part waits for, leaves the part's threads as they are, and their places in the
/// ready lists.
pub fn others_leave_a_part()
    ensures threads { OthersLeaveThreads }
    ensures ready { OthersLeaveReady }
{
    threads_have_their_own_blocks();
}

/// What a call is made of keeps that the whole and the part alone agree, and so does a tick in which a thread of the part runs.
pub fn changes_of_a_part_agree()
    ensures runs { SameRuns }
    ensures wakes { WakesAgree }
    ensures blocks { BlocksAgree }
    ensures ticks { TicksAgree }
{}

/// What stays within authority gives no thread more than the image gave it.
pub fn threads_hold_what_they_were_given()
    ensures { WithinKeepsGiven }
{}

/// After any events no thread of an accepted image holds more than the image gave it.
pub fn threads_never_hold_more()
    ensures { ThreadsHoldWhatTheyWereGiven }
{
    slots_are_as_listed();
    events_stay_within_authority();
}

/// What threads of a part send to one another, and receive, agrees on both sides.
pub fn messages_within_a_part_agree()
    ensures sends { SendsAgree }
    ensures receives { ReceivesAgree }
{}

/// So do replies, signals, waits and polls within a part, and interrupts of its lines.
pub fn signals_of_a_part_agree()
    ensures replies { RepliesAgree }
    ensures signals { SignalsAgree }
    ensures waits { WaitsAgree }
    ensures interrupts { InterruptsAgree }
{}

/// A step of another thread leaves what the part takes and makes as it is, and its lines.
pub fn others_leave_what_a_part_has()
    ensures objects { OthersLeaveObjects }
    ensures lines { OthersLeaveLines }
{
    threads_have_their_own_blocks();
}

/// A step of another thread, which has nothing of the part's, keeps that the whole and the part alone agree.
pub fn others_keep_agreement()
    ensures { OthersKeepAgreement }
{
    threads_have_their_own_blocks();
}

/// An instruction does the same over two views of memory that name the same places with the same bytes.
pub fn instructions_do_the_same()
    ensures { InstructionsDoSame }
{}

/// Who has a capability by which a queue of the image changes is let change it by the image.
pub fn held_queues_are_listed()
    ensures { HeldQueuesAreListed }
{
    objects_stand_inside_their_untypeds();
}
