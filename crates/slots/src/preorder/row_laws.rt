//! Laws on the parents and depths of rows in preorder.

ghost use Rattle.slots.specs.preorder.Laws.{DescendantsAreTheRunBehind, FirstHasNone, NoRowNoParent, PutBehindHasParent};
ghost use Rattle.slots.specs.preorder.Laws.{RenamedIsAdopted, RowsHaveTheirDepths, TakenOutIsAdopted};

/// A row right after its parent's has that parent, and the others keep theirs.
pub fn a_row_behind_its_parent_has_it()
    ensures { PutBehindHasParent }
{}

/// A first row has no parent, and the others keep theirs.
pub fn a_first_row_has_no_parent()
    ensures { FirstHasNone }
{}

/// The children of a row that is taken out get its parent, and the others keep theirs.
pub fn children_of_a_row_taken_out_get_its_parent()
    ensures { TakenOutIsAdopted }
{}

/// A renamed row keeps its parent, and its children.
pub fn a_renamed_row_keeps_parent_and_children()
    ensures { RenamedIsAdopted }
{}

/// A slot without a row has no parent.
pub fn a_slot_without_a_row_has_no_parent()
    ensures { NoRowNoParent }
{}

/// The depth of a row is that of its slot by the map of parents.
pub fn rows_have_their_depths()
    ensures { RowsHaveTheirDepths }
{}

/// The descendants of a slot are the run after its row.
pub fn descendants_are_the_run_behind()
    ensures { DescendantsAreTheRunBehind }
{}
