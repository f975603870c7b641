//! Lookups in the slots of a thread.

ghost use Rattle.headline.specs.lookups.Laws.{HoldsNoted, LooksUpNoted, ParentsAreNoted};

/// Where the slots of a thread are the noted ones, each of them holds the noted capability.
pub fn own_slots_hold_what_is_noted()
    ensures { HoldsNoted }
{}

/// Then each lookup that begins at the thread's root finds what is noted, if no noted slot is one that the thread may not have.
pub fn lookups_find_what_is_noted()
    ensures { LooksUpNoted }
{}

/// The parent of each full slot of a thread is the noted one, where a noted slot without parent hangs below a boot slot.
pub fn parents_are_noted()
    ensures { ParentsAreNoted }
{}
