//! All threads, over a step that leaves slots and the bytes of code as they are.

ghost use Rattle.headline.specs.moves.Laws.{AllStandWhereOthersRest, SameGroundTouchesNone};

use crate::moves::below::laws_below;

/// Where slots and the bytes of code stay, each thread's slots, mappings and code do.
pub fn what_keeps_slots_and_bytes_touches_no_thread()
    ensures { SameGroundTouchesNone }
{}

/// All threads are as they should be after a step that keeps slots and the bytes of code, if those that it moves are,
/// and the others rest.
pub fn all_stand_where_others_rest()
    ensures { AllStandWhereOthersRest }
{
    laws_below();
}
