//! What is promised of parts that take nothing from the others.

ghost use Rattle.headline.specs.parts.Laws.{PartsAboveAreUndisturbed, PartsRunAsAlone};

use crate::own_calls::own_steps_agree;
use crate::promises::{parts_above_are_undisturbed, parts_run_as_alone};

/// A part of an accepted image that takes nothing from the others runs as if alone: over any events its labels in the whole are those of its own
/// events alone, where the image of the part alone is accepted too.
pub fn accepted_parts_run_as_alone()
    ensures { PartsRunAsAlone }
{
    parts_run_as_alone();
    own_steps_agree();
}

/// Where its priorities are all above the others' besides, it is undisturbed: over any events it does in the whole what it does alone over the
/// same ones, but that it alone is idle where the others run.
pub fn accepted_parts_above_are_undisturbed()
    ensures { PartsAboveAreUndisturbed }
{
    parts_above_are_undisturbed();
    own_steps_agree();
}
