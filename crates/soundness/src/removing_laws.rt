//! Removals keep soundness.

ghost use Rattle.soundness.specs.Laws.{DeleteKeepsSoundness, RemovalsKeepSoundness, RevokeKeepsSoundness};

/// Open slots lose what they hold, all at once; what was named there alone ends, and whoever waited there runs again.
pub fn removals_keep_soundness()
    ensures { RemovalsKeepSoundness }
{}

/// One slot.
pub fn delete_keeps_soundness()
    ensures { DeleteKeepsSoundness }
{}

/// All descendants of one.
pub fn revoke_keeps_soundness()
    ensures { RevokeKeepsSoundness }
{}
