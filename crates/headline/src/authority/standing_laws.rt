//! Steps stay within authority where all threads of an accepted image are as certified.

ghost use Rattle.headline.specs.authority.Laws.{EventsStayWithin, MessagesStayWithin, NotedCopiesStayWithin, NotedDeletesStayWithin, NotedMapsStayWithin};
ghost use Rattle.headline.specs.authority.Laws.{NotedMintsStayWithin, NotedMovesStayWithin, NotedRetypesStayWithin, NotedRevokesStayWithin};
ghost use Rattle.headline.specs.authority.Laws.{NotedUnmapsStayWithin, PlainStepsStayWithin, StepsStayWithin, ThreadsStartHoldingInside};
ghost use Rattle.headline.specs.authority.Laws.{ThreadsStartMappingOwn, WithinKeepsHoldingInside, WithinKeepsMappingOwn, WordsOfDataStay};

use crate::events_keep_all_standing;
use crate::invocations::laws_on_invocations;
use crate::kept::{all_stand_at_the_start, stores_touch_no_thread};
use crate::moves::laws_below;
use crate::steps::{instructions_write_where_stores_may, plain_steps_keep_threads};

/// A step whose system call sends, receives, replies, signals, waits for a signal, yields or puts a character stays within authority.
pub fn calls_that_invoke_nothing_stay_within_authority()
    ensures { MessagesStayWithin }
{
    laws_below();
}

/// An instruction that is no system call stays within authority: it writes registers of its thread, and bytes where this may store.
pub fn instructions_stay_within_authority()
    ensures { PlainStepsStayWithin }
{
    laws_below();
    plain_steps_keep_threads();
    instructions_write_where_stores_may();
    stores_touch_no_thread();
}

/// A Copy, a Mint and a Map that the rules allow stay within authority, where the thread's slots hold what is noted.
pub fn noted_calls_stay_within_authority()
    ensures copies { NotedCopiesStayWithin }
    ensures mints { NotedMintsStayWithin }
    ensures maps { NotedMapsStayWithin }
{}

/// So do a Move and an Unmap, where what the thread maps is under its own root table.
pub fn noted_mappings_stay_within_authority()
    ensures moves { NotedMovesStayWithin }
    ensures unmaps { NotedUnmapsStayWithin }
{}

/// So does a Retype to endpoints, notifications or frames: they lie in the unused part of a pool of the thread's own, and their
/// capabilities are in empty slots of its own.
pub fn noted_retypes_stay_within_authority()
    ensures { NotedRetypesStayWithin }
{}

/// So do a Delete and a Revoke, where what the thread maps is under its own root table, and what its slots name lasts by the boot CNode
/// or lies inside untyped memory of its own.
pub fn noted_removals_stay_within_authority()
    ensures deletes { NotedDeletesStayWithin }
    ensures revokes { NotedRevokesStayWithin }
{}

/// In the state that an accepted image describes what threads map is under their own root tables, and what stays within authority
/// keeps this.
pub fn threads_map_under_their_own_root_tables()
    ensures start { ThreadsStartMappingOwn }
    ensures kept { WithinKeepsMappingOwn }
{}

/// In the state that an accepted image describes the objects that threads' slots name are those that the boot CNode names. After a step
/// that stays within authority, and leaves each thread its untyped memory, they are those still, or lie inside that memory.
pub fn threads_hold_objects_inside_their_own_memory()
    ensures start { ThreadsStartHoldingInside }
    ensures kept { WithinKeepsHoldingInside }
{}

/// A step stays within authority, whoever runs and whatever it does, where what threads map is under their own root tables, and the
/// objects that their slots name last by the boot CNode or lie inside untyped memory of their own.
pub fn steps_stay_within_authority()
    ensures { StepsStayWithin }
{
    laws_on_invocations();
    plain_steps_keep_threads();
    instructions_write_where_stores_may();
    stores_touch_no_thread();
}

/// Whatever has happened to an accepted image, the next event stays within authority.
pub fn events_stay_within_authority()
    ensures { EventsStayWithin }
{
    laws_on_invocations();
    plain_steps_keep_threads();
    instructions_write_where_stores_may();
    stores_touch_no_thread();
    events_keep_all_standing();
    all_stand_at_the_start();
}

/// Whatever has happened to an accepted image, the words that the world outside may write are in frames still.
pub fn words_of_data_stay()
    ensures { WordsOfDataStay }
{}
