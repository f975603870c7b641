//! What an invocation makes of slots of the thread's own stays within authority, and that the thread goes on after it.

ghost use Rattle.headline.specs.authority.Laws.{CompletedStayWithin, CopiesStayWithin, MintsStayWithin, MovesStayWithin, UnmapsStayWithin};

/// A Copy from a slot of the thread's own to another stays within authority.
pub fn copies_stay_within_authority()
    ensures { CopiesStayWithin }
{}

/// A Mint from a slot of the thread's own to another stays within authority.
pub fn mints_stay_within_authority()
    ensures { MintsStayWithin }
{}

/// A Move from a slot of the thread's own to another stays within authority, where what derives from the source is the thread's own, and
/// what it maps is under the thread's own root table.
pub fn moves_stay_within_authority()
    ensures { MovesStayWithin }
{}

/// An Unmap of a frame of the thread's own under its own root table stays within authority.
pub fn unmaps_stay_within_authority()
    ensures { UnmapsStayWithin }
{}

/// Where what an invocation leaves is within authority, so is what the thread leaves that goes on after it, with an answer where it called.
pub fn completed_invocations_stay_within_authority()
    ensures { CompletedStayWithin }
{}
