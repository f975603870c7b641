//! The sizes of address spaces. RISC-V Privileged Architecture, "Sv32".

/// Bytes of a page, and of a page table.
pub(crate) const PAGE_SIZE: u32 = 0x1000;

/// Pages that one page table maps: those of a region.
pub(crate) const REGION_PAGES: u32 = 0x400;

/// Bytes of the addresses of a region.
pub(crate) const REGION_SIZE: u32 = 0x40_0000;

/// Addresses from here on are never mapped: the upper half.
pub(crate) const ADDRESS_LIMIT: u32 = 0x8000_0000;

/// Regions of the lower half.
pub(crate) const LOWER_REGIONS: u32 = 0x200;

/// Memory has at most so many bytes.
pub(crate) const MEMORY_LIMIT: u64 = 0x100_0000;
