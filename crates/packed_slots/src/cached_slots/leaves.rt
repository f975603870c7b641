//! Laws on the leaves that are kept. Each is the contract of a function that does nothing.

ghost use Rattle.packed_slots.specs.cached_slots.Laws.{LeavesStayWhereEntriesDo, OneLeafMoreIsKept};

/// Once the leaf of a page is kept, what is kept was kept before or is that leaf.
pub fn one_leaf_more_is_kept()
    ensures { OneLeafMoreIsKept }
{}

/// The leaf of a page is the same where the bytes of its two entries are.
pub fn leaves_stay_where_entries_do()
    ensures { LeavesStayWhereEntriesDo }
{}
