//! A thread's slots and what its certificate notes of them, side by side.

ghost use Rattle.headline.specs.invocations.Laws.{MirrorNoted};

use typestate::no_stray_slot_leads_outside;

/// Where the threads' invariant holds, what a thread's slots hold is what is noted at its point: the same capabilities,
/// parents, depths and lookups.
pub fn threads_mirror_what_is_noted()
    ensures { MirrorNoted }
{
    no_stray_slot_leads_outside();
}
