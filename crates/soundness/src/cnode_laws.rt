//! Calls on CNodes keep soundness.

ghost use Rattle.soundness.specs.Laws.{CopyKeepsSoundness, MintKeepsSoundness, MoveKeepsSoundness, MutateKeepsSoundness};

/// A copy keeps soundness.
pub fn copy_keeps_soundness()
    ensures { CopyKeepsSoundness }
{}

/// So does a copy with a badge or a guard word.
pub fn mint_keeps_soundness()
    ensures { MintKeepsSoundness }
{}

/// A move keeps soundness.
pub fn move_keeps_soundness()
    ensures { MoveKeepsSoundness }
{}

/// So does a move with another guard word.
pub fn mutate_keeps_soundness()
    ensures { MutateKeepsSoundness }
{}
