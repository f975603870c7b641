//! The laws of the crates below that all of these are built on.

ghost use Rattle.headline.specs.moves.Laws.{Laws};

use crate::calls::{
    allowed_calls_are_known, calls_lead_behind, messages_fit_behind, rules_on_messages_are_known,
    what_is_sent_keeps_its_promise,
};
use crate::kept::{
    points_note_all_ranges, threads_have_their_own_blocks, untouched_threads_stand_on,
};
use crate::lookups::{lookups_find_what_is_noted, own_slots_hold_what_is_noted};
use soundness::{events_keep_soundness, reply_keeps_soundness, signal_keeps_soundness};
use thread_spaces::programs_have_their_places;

/// The laws below, together.
pub fn laws_below()
    ensures { Laws }
{
    untouched_threads_stand_on();
    threads_have_their_own_blocks();
    points_note_all_ranges();
    calls_lead_behind();
    messages_fit_behind();
    what_is_sent_keeps_its_promise();
    allowed_calls_are_known();
    rules_on_messages_are_known();
    programs_have_their_places();
    events_keep_soundness();
    reply_keeps_soundness();
    signal_keeps_soundness();
    own_slots_hold_what_is_noted();
    lookups_find_what_is_noted();
}
