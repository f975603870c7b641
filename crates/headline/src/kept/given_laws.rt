//! What is fixed for the threads of an accepted image.

ghost use Rattle.headline.specs.kept.Laws.{HaveOwnBlocks, IsLong};

use crate::steps::noted_points_have_their_form;
use format_laws::images_that_fit_keep_their_limits;
use soundness::objects_stand_inside_their_untypeds;

/// Threads of an accepted image with one control block are one thread.
pub fn threads_have_their_own_blocks()
    ensures { HaveOwnBlocks }
{
    images_that_fit_keep_their_limits();
    objects_stand_inside_their_untypeds();
}

/// What a thread's certificate notes of a point has a range for each register but register 0.
pub fn points_note_all_ranges()
    ensures { IsLong }
{
    images_that_fit_keep_their_limits();
    noted_points_have_their_form();
}
