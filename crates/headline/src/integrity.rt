//! Integrity of whole runs, by the image alone.

ghost use Rattle.headline.specs.integrity.Laws.{RunsHaveIntegrity, ThreadsMapAsTheyHold};

use crate::authority::events_stay_within_authority;
use crate::invocations::{events_go_well, laws_on_invocations};
use crate::kept::stores_touch_no_thread;
use crate::parts::threads_never_hold_more;
use crate::starts::{slots_are_as_listed, threads_are_as_listed};
use crate::steps::{instructions_write_where_stores_may, plain_steps_keep_threads};

/// After any events no thread of an accepted image maps a frame with write whose capability it has without.
pub fn threads_map_as_they_hold()
    ensures { ThreadsMapAsTheyHold }
{
    laws_on_invocations();
    plain_steps_keep_threads();
    instructions_write_where_stores_may();
    stores_touch_no_thread();
    slots_are_as_listed();
    events_go_well();
    events_stay_within_authority();
}

/// Over any events of an accepted image a byte changes only where a thread that ran may write it by the image, or the world wrote it; objects
/// appear and end only in untyped memory of threads that ran, slots change only in their CNodes, and registers only of such threads.
pub fn runs_have_integrity()
    ensures { RunsHaveIntegrity }
{
    threads_are_as_listed();
    threads_never_hold_more();
    threads_map_as_they_hold();
    events_go_well();
    events_stay_within_authority();
}
