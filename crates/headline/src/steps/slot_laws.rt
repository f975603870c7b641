//! Noted slots that the rules compare as the same are the same.

ghost use Rattle.headline.specs.steps.Laws.{EqualSlotsAreTheSame, NotedPointsHaveTheirForm, SlotsInPlaceHaveTheirForm};

/// Keys differ by their numbers, and capabilities by their words.
pub fn slots_that_compare_as_the_same_are_the_same()
    ensures { EqualSlotsAreTheSame }
{}

/// Slots that are not stray are such slots, where parents have indices of 32 bits.
pub fn slots_that_are_not_stray_have_their_form()
    ensures { SlotsInPlaceHaveTheirForm }
{}

/// What is noted of a point has 31 ranges, and parents with indices of 32 bits.
pub fn noted_points_have_their_form()
    ensures { NotedPointsHaveTheirForm }
{}
