//! One event after another.

ghost use Rattle.headline.specs.SafeRuns.{EventsKeepAllStanding};

use crate::invocations::steps_go_well;
use crate::moves::{
    interrupts_keep_all_standing, reads_keep_all_standing, ticks_keep_all_standing,
    writes_keep_all_standing,
};

/// In a state in which all threads of an accepted image are as their certificates say, each event goes well: a step is
/// no fault and no error, and after the event all threads are so again.
pub fn events_keep_all_standing()
    ensures { EventsKeepAllStanding }
{
    steps_go_well();
    ticks_keep_all_standing();
    interrupts_keep_all_standing();
    writes_keep_all_standing();
    reads_keep_all_standing();
}
