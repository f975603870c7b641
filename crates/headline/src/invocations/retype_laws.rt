//! Retype to endpoints, notifications and frames.

ghost use Rattle.headline.specs.invocations.Laws.{RetypesGoWell};

/// Where Retype has no error on what is noted, it has none: new objects lie in the free part of the pool.
pub fn retypes_go_well()
    ensures { RetypesGoWell }
{}
