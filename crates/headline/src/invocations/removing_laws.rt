//! Removals of a thread's slots.

ghost use Rattle.headline.specs.invocations.Laws.{DeletesGoWell, RevokesGoWell};

/// A Delete that the rules allow has no error, and leaves the thread's slots as they are noted.
pub fn deletes_go_well()
    ensures { DeletesGoWell }
{}

/// A Revoke does, too.
pub fn revokes_go_well()
    ensures { RevokesGoWell }
{}
