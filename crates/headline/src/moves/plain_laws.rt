//! All threads, over a step that makes no system call.

ghost use Rattle.headline.specs.moves.Laws.{PlainStepsGoWell};

use crate::kept::stores_touch_no_thread;
use crate::moves::below::laws_below;
use crate::steps::{instructions_write_where_stores_may, plain_steps_keep_threads};

/// An instruction that is no system call has no fault and no error, and keeps the threads' invariant.
pub fn plain_steps_go_well()
    ensures { PlainStepsGoWell }
{
    laws_below();
    plain_steps_keep_threads();
    instructions_write_where_stores_may();
    stores_touch_no_thread();
}
