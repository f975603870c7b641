//! All threads, after a call that changes slots of the thread that makes it.

ghost use Rattle.headline.specs.invocations.Laws.{OwnSlotsDeriveFromSome, StandBehindChanges};

use crate::calls::{calls_lead_behind, messages_fit_behind};
use crate::kept::{
    points_note_all_ranges, threads_have_their_own_blocks, untouched_threads_stand_on,
};

/// The threads' invariant holds after a call that changes slots of the thread that makes it, where its slots are then
/// those that are known after the call, and nobody waits at what it made or ended.
pub fn changed_slots_keep_all_standing()
    ensures { StandBehindChanges }
{
    calls_lead_behind();
    messages_fit_behind();
    points_note_all_ranges();
    threads_have_their_own_blocks();
    untouched_threads_stand_on();
}

/// What is known before a call says that each full slot of the thread's derives from something; after the call that has
/// to be shown of what the call left.
pub fn own_slots_derive_from_something()
    ensures { OwnSlotsDeriveFromSome }
{}
