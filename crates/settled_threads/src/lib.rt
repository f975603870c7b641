//! Settled threads of a level: each takes from one object alone, and whomever it sends to or calls is settled before it. Where nothing of the level is
//! ready each waits at its input, and not in a call or a send: nobody is stuck. There is no code here: each law is the contract of a function that
//! does nothing.
#![tactic(auto)]

ghost use Rattle.settled_threads.specs.Laws.{CallersAreOwed, SettledLeftAtRest, SettledLevelsRestLater};
ghost use Rattle.settled_threads.specs.Laws.{SettledLevelsRestWithin, SettledLinesAreDealtWith, SettledLinesAreDealtWithLater};
ghost use Rattle.settled_threads.specs.Laws.{SettledThreadsDeal, SettledThreadsOweNothing, SettledThreadsRest};
ghost use Rattle.settled_threads.specs.Laws.{AloneResponsesDeal, RestedAloneResponsesDeal, RestedSettledResponsesDeal};
ghost use Rattle.settled_threads.specs.Laws.{RestedSettledResponsesHold, SettledResponsesDeal, SettledResponsesHold, TestedThreadsRest};

use headline::authority::{
    a_tick_stays_within_authority, an_interrupt_stays_within_authority,
    events_stay_within_authority,
};
use headline::invocations::{events_go_well, steps_go_well};
use headline::kept::threads_have_their_own_blocks;
use headline::measure_facts::measures_of_points_name_registers;
use headline::parts::threads_are_told_apart;
use headline::starts::threads_are_as_listed;
use headline::steps::{
    an_instruction_takes_an_edge, decoded_fields_lie_in_their_ranges, mapped_accesses_do_not_fault,
};
use response::{
    acknowledged_lines_rest, bindings_stay, laws_on_invocations, levels_come_to_rest,
    levels_rest_owing, threads_wait_where_they_asked, waiters_take,
};

/// Whoever called with a badge that the endpoint answers, and waits for the answer, is owed it.
pub fn callers_are_owed()
    ensures { CallersAreOwed }
{
    laws_on_invocations();
    steps_go_well();
    events_go_well();
    events_stay_within_authority();
    a_tick_stays_within_authority();
    an_interrupt_stays_within_authority();
    threads_are_told_apart();
    threads_are_as_listed();
    measures_of_points_name_registers();
    threads_wait_where_they_asked();
    an_instruction_takes_an_edge();
    mapped_accesses_do_not_fault();
    decoded_fields_lie_in_their_ranges();
}

/// Where nothing of a level is ready, each settled thread of it waits at its input, and not in a call or a send.
pub fn settled_threads_rest()
    ensures { SettledThreadsRest }
{
    laws_on_invocations();
    events_go_well();
    threads_wait_where_they_asked();
    callers_are_owed();
}

/// Such a thread owes nothing then.
pub fn settled_threads_owe_nothing()
    ensures { SettledThreadsOweNothing }
{
    settled_threads_rest();
}

/// And the line that it tends is dealt with.
pub fn settled_threads_deal()
    ensures { SettledThreadsDeal }
{
    laws_on_invocations();
    steps_go_well();
    events_go_well();
    events_stay_within_authority();
    a_tick_stays_within_authority();
    an_interrupt_stays_within_authority();
    threads_are_told_apart();
    measures_of_points_name_registers();
    waiters_take();
    bindings_stay();
    settled_threads_rest();
}

/// So at rest no word is left at their inputs, nobody waits to send there, nothing is pending on lines that they tend, and only the other threads count.
pub fn settled_levels_leave_others()
    ensures { SettledLeftAtRest }
{
    laws_on_invocations();
    events_go_well();
    threads_wait_where_they_asked();
    settled_threads_rest();
    settled_threads_owe_nothing();
    settled_threads_deal();
}

/// The bound for levels with settled threads.
pub fn settled_levels_rest_within()
    ensures start { SettledLevelsRestWithin }
    ensures later { SettledLevelsRestLater }
{
    levels_rest_owing();
    settled_levels_leave_others();
}

/// Each line that a settled thread tends is dealt with within the bound of its level.
pub fn settled_lines_are_dealt_with()
    ensures start { SettledLinesAreDealtWith }
    ensures later { SettledLinesAreDealtWithLater }
{
    levels_come_to_rest();
    settled_threads_deal();
    settled_levels_rest_within();
}

/// A response that passes the test with settled threads holds: no more steps on end are of the level than it says, each line that it opens is dealt
/// with within as many, and so is each that a thread acknowledges which waits for no message; and its settled threads wait at their inputs wherever
/// the level rests.
pub fn tested_settled_responses_hold()
    ensures steps { SettledResponsesHold }
    ensures rested_steps { RestedSettledResponsesHold }
    ensures lines { SettledResponsesDeal }
    ensures rested_lines { RestedSettledResponsesDeal }
    ensures alone { AloneResponsesDeal }
    ensures rested_alone { RestedAloneResponsesDeal }
    ensures inputs { TestedThreadsRest }
{
    threads_have_their_own_blocks();
    levels_come_to_rest();
    acknowledged_lines_rest();
    settled_threads_rest();
    settled_levels_rest_within();
    settled_lines_are_dealt_with();
}
