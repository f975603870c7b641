//! The sizes of Sv32: physical memory, pages and tables.

/// Where physical memory starts.
pub(crate) const MEMORY_BASE: u64 = 0x8000_0000;

/// A page has two to this many bytes, and the last table has an entry for it.
pub(crate) const PAGE_BITS: u32 = 12;

/// A great page has two to this many bytes, and the root table has an entry for it.
pub(crate) const GREAT_PAGE_BITS: u32 = 22;

/// Bytes of a page.
pub(crate) const PAGE_SIZE: u32 = 0x1000;

/// Entries of a table.
pub(crate) const TABLE_ENTRIES: u32 = 0x400;

/// The number of the first page of physical memory.
pub(crate) const FIRST_PAGE: u32 = 0x8_0000;

/// The lowest bit of the page's number in an entry.
pub(crate) const PAGE_NUMBER: u32 = 0x400;
