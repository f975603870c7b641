//! Powers of two.

/// The bytes of a page of memory, and of a table.
pub(crate) const PAGE_BYTES: u64 = 4096;

/// The bytes of a slot.
pub(crate) const SLOT_BYTES: u64 = 16;

/// 2^BITS, or the greatest number where that is greater.
pub(crate) fn power_of_two(bits: u32) -> u64 {
    if bits < 64 { 1 << bits } else { u64::MAX }
}

/// The least number of bits from `low` to `high` with which so much has room, if it has.
pub(crate) fn bits_for(count: u64, low: u32, high: u32) -> Option<u32> {
    for bits in low..=high {
        if count <= power_of_two(bits) {
            return Some(bits);
        }
    }
    None
}

/// A count of something.
pub(crate) fn count_of(length: usize) -> u64 {
    length as u64
}
