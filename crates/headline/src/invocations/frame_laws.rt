//! Map and Unmap of frames.

ghost use Rattle.headline.specs.invocations.Laws.{MapsGoWell, UnmapsGoWell};

/// A Map that the rules allow has no error, and leaves what is noted.
pub fn maps_go_well()
    ensures { MapsGoWell }
{}

/// So does an Unmap.
pub fn unmaps_go_well()
    ensures { UnmapsGoWell }
{}
