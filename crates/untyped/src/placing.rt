//! Places after a watermark.

ghost use Rattle.std.specs.Prelude.{◌≡◌, ◌+◌, ◌*◌, ◌^◌, ◌%◌, ◌<◌, ◌≤◌, ℕ, Some, IfOk};
ghost use Rattle.std.specs.Result.{result_ok};
ghost use Rattle.model.specs.Capabilities.Placement.{align, place_of_object, placement};

/// The untyped has no room for the objects.
#[derive(Clone, Copy, Debug, PartialEq, Eq)]
pub struct NotEnoughMemory;

/// 2 to the power of `bits`: so many bytes an object or an untyped has.
pub fn power(bits: u32) -> u64
    requires { bits ≤ 31 }
    ensures value { result ≡ 2 ^ bits }
    ensures least { 1 ≤ result }
    ensures most { result ≤ 2 ^ 31 }
{
    1u64 << bits
}

/// Where an object of 2^`object_bits` bytes begins after the bytes of an untyped that are used, at a multiple of its size, and
/// where it ends, both in bytes from the begin of the untyped, which may be too small for it.
pub fn next_place(used: u64, object_bits: u32) -> (u64, u64)
    requires used { used ≤ 2 ^ 50 }
    requires object_size { object_bits ≤ 31 }
    ensures first { result.0 ≡ align used (2 ^ object_bits) }
    ensures end { result.1 ≡ place_of_object used object_bits 1 }
    ensures order { result.0 ≤ result.1 }
    ensures near { result.1 ≤ used + 2 ^ 32 }
{
    let size = power(object_bits);
    let first = (used + (size - 1)) / size * size;
    (first, first + size)
}

/// Where `count` objects of 2^`object_bits` bytes lie after the watermark of an untyped of 2^`bits` bytes: the place of the
/// first one within the untyped, and the new watermark, after the last. The objects are aligned to their size and lie one
/// after another.
///
/// # Errors
///
/// They do not fit (`NotEnoughMemory`).
pub fn place(
    bits: u8,
    watermark: u32,
    object_bits: u8,
    count: u32,
) -> Result<(u32, u32), NotEnoughMemory>
    requires size { bits ≤ 24 }
    requires used { watermark ≤ 2 ^ bits }
    requires object_size { object_bits ≤ 24 }
    requires few { count ≤ 256 }
    ensures exact { result_ok result ≡ placement bits watermark object_bits count }
    ensures behind { IfOk result (λ placed. watermark ≤ placed.0) }
    ensures aligned { IfOk result (λ placed. (i : ℕ)
        → (placed.0 + i * 2 ^ object_bits) % 2 ^ object_bits ≡ 0) }
    ensures within { IfOk result (λ placed. (i : ℕ) → i < count
        → placed.0 + i * 2 ^ object_bits + 2 ^ object_bits ≤ 2 ^ bits) }
    ensures apart { IfOk result (λ placed. (i j : ℕ) → i < j
        → placed.0 + i * 2 ^ object_bits + 2 ^ object_bits ≤ placed.0 + j * 2 ^ object_bits) }
{
    let (first, _) = next_place(u64::from(watermark), u32::from(object_bits));
    let end = first + u64::from(count) * power(u32::from(object_bits));
    if end <= power(u32::from(bits)) {
        Ok((first as u32, end as u32))
    } else {
        Err(NotEnoughMemory)
    }
}
