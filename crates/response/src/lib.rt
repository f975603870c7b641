//! Response bounds: for how many steps on end a level of threads runs, the threads of a priority and above, and after how many a line is dealt
//! with. There is no code here yet: each law is the contract of a function that does nothing.
#![tactic(auto)]

ghost use Rattle.headline.specs.invocations.Laws.{Laws};
ghost use Rattle.response.specs.Laws.{AllCallsAreWork, AllLevelsRestLater, AllLevelsRestWithin, AllStepsBelowRest, LeftAtRest, LevelsRestOwing};
ghost use Rattle.response.specs.Laws.{LevelsRestOwingLater, MessageResponsesDeal, MessageResponsesHold, RestedMessageResponsesDeal};
ghost use Rattle.response.specs.Laws.{RestedMessageResponsesHold, ServersRest, StepsBelowRestOwing, ThreadsWaitWhereAsked};
ghost use Rattle.response.specs.Laws.{AcknowledgedLinesRest, LevelsComeToRest, LinesAreDealtWith, LinesAreDealtWithLater, InterruptsMask, NoWaySkips};
ghost use Rattle.response.specs.Laws.{ResponsesDeal, ResponsesHold, RestedResponsesDeal, RestedResponsesHold, NotificationCallsAreWork};
ghost use Rattle.response.specs.Laws.{NotificationLevelsRestLater, NotificationLevelsRestWithin, NotificationStepsBelowRest, BindingsStay};
ghost use Rattle.response.specs.Laws.{NoWordAtRest, InterruptsBeyond, InvocationsRingNothing, LevelsRestWithin, EconomiesBound, EconomiesBoundLater};
ghost use Rattle.response.specs.Laws.{LevelsRestLater, InterruptsCost, LevelsAreSeen, LevelsRun, PlainStepsAreWork, PrioritiesStay, TicksLeaveTheWork};
ghost use Rattle.response.specs.Laws.{WaitersTake, WhoRunsHasLeft, WritesLeaveTheWork, LooksLeaveTheWork};

use headline::authority::{
    a_tick_stays_within_authority, an_interrupt_stays_within_authority,
    events_stay_within_authority,
};
use headline::invocations::{
    changed_slots_keep_all_standing, copies_go_well, deletes_go_well, events_go_well,
    invocations_leave_a_parent_to_each_slot, maps_go_well, mints_go_well, moves_go_well,
    retypes_go_well, revokes_go_well, steps_go_well, threads_mirror_what_is_noted, unmaps_go_well,
};
use headline::kept::threads_have_their_own_blocks;
use headline::measure_facts::{least_values_are_least, measures_of_points_name_registers};
use headline::moves::laws_below;
use headline::parts::threads_are_told_apart;
use headline::starts::threads_are_as_listed;
use soundness::an_acknowledgement_keeps_soundness;

/// Threads keep the priorities that the image gives them.
pub fn priorities_stay()
    ensures { PrioritiesStay }
{
    a_tick_stays_within_authority();
    an_interrupt_stays_within_authority();
    events_stay_within_authority();
    events_go_well();
    threads_are_as_listed();
}

/// Where a thread of a level may run, one does.
pub fn levels_run()
    ensures { LevelsRun }
{
    priorities_stay();
    events_go_well();
}

/// The step of a thread of a level is of the level by its label.
pub fn levels_are_seen()
    ensures { LevelsAreSeen }
{}

/// Where what is left falls at each step of the level, and rises by what interrupts cost alone, their rates bound the steps on end.
pub fn economies_bound()
    ensures start { EconomiesBound }
    ensures later { EconomiesBoundLater }
{}

/// Who runs has an instruction left of its budget.
pub fn who_runs_has_left()
    ensures { WhoRunsHasLeft }
{
    events_go_well();
    least_values_are_least();
    measures_of_points_name_registers();
}

/// A tick leaves as much work as there was.
pub fn ticks_leave_the_work()
    ensures { TicksLeaveTheWork }
{
    a_tick_stays_within_authority();
    events_go_well();
}

/// So does what the world writes, and what it looks at.
pub fn the_world_leaves_the_work()
    ensures writes { WritesLeaveTheWork }
    ensures looks { LooksLeaveTheWork }
{}

/// Who waits in the queue of a notification is at a point that takes from it.
pub fn waiters_take()
    ensures { WaitersTake }
{
    events_go_well();
    laws_below();
}

/// An interrupt adds at most what its line costs, and one of no line nothing.
pub fn interrupts_cost()
    ensures cost { InterruptsCost }
    ensures beyond { InterruptsBeyond }
{
    events_go_well();
    laws_below();
    waiters_take();
}

/// A step of a thread of a level that makes no system call takes 1 off what is left, at least.
pub fn plain_steps_are_work()
    ensures { PlainStepsAreWork }
{
    events_go_well();
    measures_of_points_name_registers();
    threads_have_their_own_blocks();
    who_runs_has_left();
}

/// Each line is bound as the image describes it.
pub fn bindings_stay()
    ensures { BindingsStay }
{
    events_go_well();
}

/// The bound of stage one, where system calls are work too, and steps of threads below leave little.
pub fn levels_rest_within()
    ensures start { LevelsRestWithin }
    ensures later { LevelsRestLater }
{
    events_go_well();
    threads_have_their_own_blocks();
    bindings_stay();
    no_word_at_rest();
    acknowledged_lines_rest();
    levels_run();
    levels_are_seen();
    plain_steps_are_work();
    ticks_leave_the_work();
    the_world_leaves_the_work();
    interrupts_cost();
    economies_bound();
}

/// An invocation of what is no line's handler rings no notification, and takes no word.
pub fn invocations_ring_nothing()
    ensures { InvocationsRingNothing }
{
    events_stay_within_authority();
}

/// Where a thread rests that takes from one notification alone, no word stands there.
pub fn no_word_at_rest()
    ensures { NoWordAtRest }
{
    events_go_well();
    laws_below();
}

/// Where the thread rests that acknowledges a line on each way from one take to the next, the line is dealt with.
pub fn acknowledged_lines_rest()
    ensures { AcknowledgedLinesRest }
{
    laws_on_invocations();
    steps_go_well();
    events_go_well();
    events_stay_within_authority();
    a_tick_stays_within_authority();
    an_interrupt_stays_within_authority();
    threads_are_told_apart();
    measures_of_points_name_registers();
    waiters_take();
    bindings_stay();
}

/// An interrupt masks its line, which only an acknowledgement opens.
pub fn interrupts_mask_their_lines()
    ensures { InterruptsMask }
{
    events_stay_within_authority();
    bindings_stay();
}

/// A thread that acknowledges a line has no way around the acknowledgement from one take to the next.
pub fn no_way_skips_an_acknowledgement()
    ensures { NoWaySkips }
{}

/// The laws of the crate below on single invocations, together.
pub fn laws_on_invocations()
    ensures { Laws }
{
    laws_below();
    an_acknowledgement_keeps_soundness();
    threads_mirror_what_is_noted();
    copies_go_well();
    mints_go_well();
    moves_go_well();
    deletes_go_well();
    revokes_go_well();
    retypes_go_well();
    maps_go_well();
    unmaps_go_well();
    invocations_leave_a_parent_to_each_slot();
    changed_slots_keep_all_standing();
}

/// Where no thread of a level waits for a message, a system call of one of them takes 1 off what is left, at least.
pub fn notification_calls_are_work()
    ensures { NotificationCallsAreWork }
{
    laws_on_invocations();
    steps_go_well();
    events_go_well();
    events_stay_within_authority();
    threads_are_told_apart();
    waiters_take();
    bindings_stay();
    who_runs_has_left();
}

/// After a step of another thread no more is left than at rest, and what that rings.
pub fn notification_steps_below_rest()
    ensures { NotificationStepsBelowRest }
{
    laws_on_invocations();
    steps_go_well();
    events_go_well();
    events_stay_within_authority();
    threads_are_told_apart();
    waiters_take();
    bindings_stay();
    levels_run();
    no_word_at_rest();
    acknowledged_lines_rest();
}

/// The bound of stage one for levels that wait for notifications alone, without premises on steps.
pub fn notification_levels_rest_within()
    ensures start { NotificationLevelsRestWithin }
    ensures later { NotificationLevelsRestLater }
{
    notification_calls_are_work();
    notification_steps_below_rest();
    levels_rest_within();
}

/// Where no more than so many steps on end are of a level, it rests within as many.
pub fn levels_come_to_rest()
    ensures { LevelsComeToRest }
{
    levels_run();
    levels_are_seen();
}

/// Each acknowledged line of a level that waits for notifications alone is dealt with within its bound.
pub fn lines_are_dealt_with()
    ensures start { LinesAreDealtWith }
    ensures later { LinesAreDealtWithLater }
{
    notification_levels_rest_within();
    levels_come_to_rest();
    acknowledged_lines_rest();
}

/// A response that passes its test holds: no more steps on end are of the level than it says, and each line that it opens is dealt with within as many.
pub fn tested_responses_hold()
    ensures steps { ResponsesHold }
    ensures rested_steps { RestedResponsesHold }
    ensures lines { ResponsesDeal }
    ensures rested_lines { RestedResponsesDeal }
{
    threads_have_their_own_blocks();
    notification_levels_rest_within();
    lines_are_dealt_with();
}

/// A thread waits for an answer at a call alone, and is queued as a caller there.
pub fn threads_wait_where_they_asked()
    ensures { ThreadsWaitWhereAsked }
{
    laws_on_invocations();
    steps_go_well();
    events_go_well();
    events_stay_within_authority();
    a_tick_stays_within_authority();
    an_interrupt_stays_within_authority();
    threads_are_told_apart();
    threads_are_as_listed();
}

/// Where a thread rests that waits for messages at one endpoint alone, it waits there, and nobody waits to send there.
pub fn servers_rest_at_their_endpoints()
    ensures { ServersRest }
{
    laws_on_invocations();
    events_go_well();
    threads_wait_where_they_asked();
}

/// A system call of a thread of a level takes 1 off all work that there is, at least, whatever it asks.
pub fn calls_are_work()
    ensures { AllCallsAreWork }
{
    laws_on_invocations();
    steps_go_well();
    events_go_well();
    events_stay_within_authority();
    threads_are_told_apart();
    waiters_take();
    bindings_stay();
    who_runs_has_left();
    threads_wait_where_they_asked();
}

/// What is left at rest: where threads take alone no word, and on lines that are acknowledged nothing; and no thread waits with more than where it may.
pub fn left_at_rest()
    ensures { LeftAtRest }
{
    laws_on_invocations();
    events_go_well();
    threads_wait_where_they_asked();
    no_word_at_rest();
    acknowledged_lines_rest();
}

/// After a step of another thread no more work is there than at rest, and what that brings.
pub fn steps_below_rest_owing()
    ensures { StepsBelowRestOwing }
{
    laws_on_invocations();
    steps_go_well();
    events_go_well();
    events_stay_within_authority();
    threads_are_told_apart();
    waiters_take();
    bindings_stay();
    levels_run();
    threads_wait_where_they_asked();
}

/// So it is where each thread owes at most so much wherever it may wait.
pub fn steps_below_rest()
    ensures { AllStepsBelowRest }
{
    left_at_rest();
    steps_below_rest_owing();
}

/// The bound for all levels, whatever their threads ask: they may send, call and serve.
pub fn levels_rest_owing()
    ensures start { LevelsRestOwing }
    ensures later { LevelsRestOwingLater }
{
    laws_on_invocations();
    steps_go_well();
    events_go_well();
    events_stay_within_authority();
    a_tick_stays_within_authority();
    an_interrupt_stays_within_authority();
    threads_are_told_apart();
    threads_are_as_listed();
    threads_have_their_own_blocks();
    bindings_stay();
    levels_run();
    levels_are_seen();
    plain_steps_are_work();
    ticks_leave_the_work();
    the_world_leaves_the_work();
    interrupts_cost();
    threads_wait_where_they_asked();
    calls_are_work();
    steps_below_rest_owing();
    economies_bound();
}

/// So it is where each thread owes at most so much wherever it may wait.
pub fn all_levels_rest_within()
    ensures start { AllLevelsRestWithin }
    ensures later { AllLevelsRestLater }
{
    left_at_rest();
    levels_rest_owing();
}

/// A response that passes the test with messages holds, whatever the threads of the level ask; and each line that it opens is dealt with.
pub fn tested_message_responses_hold()
    ensures steps { MessageResponsesHold }
    ensures rested_steps { RestedMessageResponsesHold }
    ensures lines { MessageResponsesDeal }
    ensures rested_lines { RestedMessageResponsesDeal }
{
    threads_have_their_own_blocks();
    all_levels_rest_within();
    levels_come_to_rest();
    acknowledged_lines_rest();
}
