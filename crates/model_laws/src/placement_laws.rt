//! Laws of retype placement.

ghost use Rattle.std.specs.Prelude.{◌≡◌, ◌+◌, ◌*◌, ◌^◌, ◌%◌, ◌<◌, ◌≤◌, ℕ, Some};
ghost use Rattle.model.specs.Capabilities.Placement.{placement};

/// New objects lie after the watermark, each at a multiple of its size.
pub fn placement_is_aligned()
    ensures { (bits watermark object_bits count first end : ℕ)
        → placement bits watermark object_bits count ≡ Some (first, end)
        → (watermark ≤ first) × ((i : ℕ) → (first + i * 2 ^ object_bits) % 2 ^ object_bits ≡ 0) }
{}

/// They do not overlap.
pub fn placement_is_disjoint()
    ensures { (first object_bits i j : ℕ) → i < j
        → first + i * 2 ^ object_bits + 2 ^ object_bits ≤ first + j * 2 ^ object_bits }
{}

/// They end within the untyped, and the new watermark is after the last.
pub fn placement_is_inside()
    ensures { (bits watermark object_bits count first end : ℕ)
        → placement bits watermark object_bits count ≡ Some (first, end)
        → (end ≤ 2 ^ bits) × (end ≡ first + count * 2 ^ object_bits)
        × ((i : ℕ) → i < count → first + i * 2 ^ object_bits + 2 ^ object_bits ≤ end) }
{}
