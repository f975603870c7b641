//! All threads of an accepted image, whatever happens.

ghost use Rattle.headline.specs.invocations.Laws.{AnyStepGoesWell, EventsHaveGoneWell};

use crate::invocations::invocation_laws::invocations_go_well;
use crate::kept::all_stand_at_the_start;
use crate::moves::{
    calls_that_invoke_nothing_go_well, interrupts_keep_all_standing, laws_below,
    plain_steps_go_well, reads_keep_all_standing, ticks_keep_all_standing,
    writes_keep_all_standing,
};

/// A step goes well, whoever runs and whatever it does.
pub fn steps_go_well()
    ensures { AnyStepGoesWell }
{
    laws_below();
    invocations_go_well();
    calls_that_invoke_nothing_go_well();
    plain_steps_go_well();
}

/// Whatever happens to an accepted image goes well: each thread is as its certificate says, with no fault and no error.
pub fn events_go_well()
    ensures { EventsHaveGoneWell }
{
    all_stand_at_the_start();
    ticks_keep_all_standing();
    interrupts_keep_all_standing();
    writes_keep_all_standing();
    reads_keep_all_standing();
    steps_go_well();
}
