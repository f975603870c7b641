//! What the kernel does with accepted images.

ghost use Rattle.headline.specs.SafeRuns.{AcceptedImagesRunSafely};

use crate::authority::events_stay_within_authority;
use crate::budget_laws::standing_threads_keep_their_budgets;
use crate::integrity::runs_have_integrity;
use crate::invocations::events_go_well;
use crate::moves::waiting_messages_keep_their_promises;
use soundness::{objects_stand_inside_their_untypeds, well_formed_images_boot};

/// An accepted image boots into the state that it describes, inside its untyped memory; over any events nothing is a fault or an error
/// in the trace from there, each thread waits again within its budget, each event stays within authority,
/// all of them change only what threads that ran may change by the image, and what waits keeps what is promised.
pub fn accepted_images_run_safely()
    ensures { AcceptedImagesRunSafely }
{
    well_formed_images_boot();
    objects_stand_inside_their_untypeds();
    events_go_well();
    standing_threads_keep_their_budgets();
    events_stay_within_authority();
    runs_have_integrity();
    waiting_messages_keep_their_promises();
}
