//! Laws on walks along links.

ghost use Rattle.slots.specs.preorder.Laws.{DescentIsBack, LinksLeadThroughRows, NextBelowIsLinked, NextIsLinked, ParentIsBack, RowsAreFew};

/// The rows are found along the links.
pub fn links_lead_through_rows()
    ensures { LinksLeadThroughRows }
{}

/// Distinct slots below a number are at most as many.
pub fn rows_are_few()
    ensures { RowsAreFew }
{}

/// The slot after another is the linked one.
pub fn next_is_linked()
    ensures { NextIsLinked }
{}

/// Among the descendants of a root it is the linked one, if that is deeper than the root.
pub fn next_below_is_linked()
    ensures { NextBelowIsLinked }
{}

/// The parent of a slot is the first one back that is less deep.
pub fn parent_is_back()
    ensures { ParentIsBack }
{}

/// A slot descends from another if the first one back that is as deep as that, or less deep, is that.
pub fn descent_is_back()
    ensures { DescentIsBack }
{}
