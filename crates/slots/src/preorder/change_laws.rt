//! Laws on what changes leave of rows, their slots and their links.

ghost use Rattle.slots.specs.preorder.Laws.{ChangesKeepDepths, ChangesKeepRising, ChangesOrderSlots, FirstKeepsChain};
ghost use Rattle.slots.specs.preorder.Laws.{LoweringKeepsDepths, PutAfterAddsOne, PutAfterKeepsChain, WithoutKeepsChain};

/// Rows rise by one at most after each change.
pub fn changes_keep_rising()
    ensures { ChangesKeepRising }
{}

/// The order of the slots after each change.
pub fn changes_order_slots()
    ensures { ChangesOrderSlots }
{}

/// A slot that is put after another occurs in the list once more.
pub fn put_after_adds_one()
    ensures { PutAfterAddsOne }
{}

/// What is linked stays a chain when a slot is put after one of it.
pub fn put_after_keeps_chain()
    ensures { PutAfterKeepsChain }
{}

/// What is linked stays a chain when a slot is put in front of it.
pub fn first_keeps_chain()
    ensures { FirstKeepsChain }
{}

/// What is linked stays a chain when a slot is taken out from between its neighbours.
pub fn without_keeps_chain()
    ensures { WithoutKeepsChain }
{}

/// New depths are those of the rows after each change, if they are the old ones but for what changed.
pub fn changes_keep_depths()
    ensures { ChangesKeepDepths }
{}

/// The run after a row is lowered along the links, and the depths are those of the rows without that row.
pub fn lowering_keeps_depths()
    ensures { LoweringKeepsDepths }
{}
