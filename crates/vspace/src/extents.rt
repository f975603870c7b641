//! How far the end of a page table reaches.

/// Which mappings of frames go along with a page table.
#[derive(Clone, Copy)]
pub(crate) enum Extent {
    /// Those in its region.
    Region,
    /// All under its root table, which ends as well.
    Root,
}
