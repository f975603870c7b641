//! Where system calls lead.

ghost use Rattle.headline.specs.calls.Laws.{LeadsOn};

/// A system call that the rules allow at a point with a state leads to the next point, where what is known is noted.
pub fn calls_lead_behind()
    ensures { LeadsOn }
{}
