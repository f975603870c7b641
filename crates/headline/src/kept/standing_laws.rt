//! Threads that a change leaves alone, and all threads at the start.

ghost use Rattle.headline.specs.kept.Laws.{AllStandAtTheStart, StandsOn};

use crate::starts::{threads_are_as_listed, threads_start_as_certified};
use soundness::described_states_are_sound;

/// A thread whose slots, mappings and code a change leaves alone still is where it was, or at another point that notes
/// the same slots, if its registers lie in the ranges there.
pub fn untouched_threads_stand_on()
    ensures { StandsOn }
{}

/// The threads' invariant holds in the state that an accepted image describes.
pub fn all_stand_at_the_start()
    ensures { AllStandAtTheStart }
{
    described_states_are_sound();
    threads_are_as_listed();
    threads_start_as_certified();
}
