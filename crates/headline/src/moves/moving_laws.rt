//! Threads that rest, wait, wake and pass.

ghost use Rattle.headline.specs.moves.Laws.{CallsThatPassLeadOn, ThreadsBeginToWait, ThreadsLeftAloneStandOn, WaitsThatEndLeadOn};

use crate::moves::below::laws_below;

/// A thread that keeps registers, status and queue places stays as its certificate says, and waits for what it asked.
pub fn threads_that_are_left_alone_stand_on()
    ensures { ThreadsLeftAloneStandOn }
{
    laws_below();
}

/// A thread is as its certificate says where it begins to wait at a call that waits.
pub fn threads_begin_to_wait()
    ensures { ThreadsBeginToWait }
{
    laws_below();
}

/// It is so after a wait that has ended.
pub fn waits_that_end_lead_on()
    ensures { WaitsThatEndLeadOn }
{
    laws_below();
}

/// It is so after a call that is no wait and leaves its slots as they were, within its budget.
pub fn calls_that_pass_lead_on()
    ensures { CallsThatPassLeadOn }
{
    laws_below();
}
