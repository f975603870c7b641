//! What a thread's slots derive from, after an invocation.

ghost use Rattle.headline.specs.invocations.Laws.{DeriveBehind};

/// After an invocation each full slot of the thread's derives from something still.
pub fn invocations_leave_a_parent_to_each_slot()
    ensures { DeriveBehind }
{}
