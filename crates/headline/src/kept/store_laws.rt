//! What a thread stores touches no thread.

ghost use Rattle.headline.specs.kept.Laws.{StoresTouchNone};

use format_laws::images_that_fit_keep_their_limits;
use soundness::objects_stand_inside_their_untypeds;

/// A thread that is as certified leaves every thread alone, itself too, where it sets its registers and writes only
/// where its stores may: no frame of code is among those.
pub fn stores_touch_no_thread()
    ensures { StoresTouchNone }
{
    images_that_fit_keep_their_limits();
    objects_stand_inside_their_untypeds();
}
