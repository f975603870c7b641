//! Where the whole and a part alone start.

ghost use Rattle.part_laws.specs.PromiseLaws.{StartsAgree};

use headline::kept::threads_have_their_own_blocks;

/// The states that an accepted image and the image of a part alone describe agree for the part.
pub fn both_start_alike()
    ensures { StartsAgree }
{
    threads_have_their_own_blocks();
}
