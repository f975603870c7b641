//! New objects keep soundness.

ghost use Rattle.soundness.specs.Laws.{RetypeKeepsSoundness};

/// New objects in untyped memory.
pub fn retype_keeps_soundness()
    ensures { RetypeKeepsSoundness }
{}
