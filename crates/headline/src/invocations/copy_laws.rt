//! Copy, Mint and Move.

ghost use Rattle.headline.specs.invocations.Laws.{CopiesGoWell, MintsGoWell, MovesGoWell};

/// A Copy that the rules allow has no error, and leaves what is noted.
pub fn copies_go_well()
    ensures { CopiesGoWell }
{}

/// So does a Mint.
pub fn mints_go_well()
    ensures { MintsGoWell }
{}

/// So does a Move.
pub fn moves_go_well()
    ensures { MovesGoWell }
{}
