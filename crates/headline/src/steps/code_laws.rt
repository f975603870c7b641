//! Programs stay in their pages.

ghost use Rattle.headline.specs.steps.Laws.{ProgramsStayWhereTheyStand, WritesWhereStoresMay};

/// An instruction leaves a byte as it is where no address names it for a store.
pub fn instructions_write_where_stores_may()
    ensures { WritesWhereStoresMay }
{}

/// A thread's program stays where a step writes only where the thread's stores may.
pub fn programs_stay_where_they_stand()
    ensures { ProgramsStayWhereTheyStand }
{}
