//! Laws on threads that join queues, and leave them.

ghost use Rattle.queues.specs.links.Laws.{FirstIsDropped, LeavingTakesOut, NamedStandThere, NoOwnerNoQueue, OnlyOwnedCount, PushingJoins};

/// A thread that is linked after the last one of a queue comes after all others of it, and no other queue changes.
pub fn pushing_joins()
    ensures { PushingJoins }
{}

/// A thread that is unlinked from both its neighbours is in no queue, and all others are as they were.
pub fn leaving_takes_out()
    ensures { LeavingTakesOut }
{}

/// A thread is in no queue where its links name none.
pub fn without_an_owner_is_in_no_queue()
    ensures { NoOwnerNoQueue }
{}

/// A queue without its first thread is what follows that.
pub fn a_first_thread_is_dropped()
    ensures { FirstIsDropped }
{}

/// Whoever is named by the links of a queue is in it.
pub fn whoever_is_named_stands_there()
    ensures { NamedStandThere }
{}

/// The links of those who are in no queue do not matter.
pub fn only_links_of_queues_count()
    ensures { OnlyOwnedCount }
{}
