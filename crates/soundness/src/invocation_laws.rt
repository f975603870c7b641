//! Every call on a capability keeps soundness.

ghost use Rattle.soundness.specs.Laws.{InvocationsKeepSoundness};

/// A call with words of 32 bits.
pub fn invocations_keep_soundness()
    ensures { InvocationsKeepSoundness }
{}
