//! Where threads begin.

ghost use Rattle.std.specs.Prelude.{◌≡◌, ◌+◌, ◌*◌, ◌%◌, ◌^◌};

use model::ThreadHeader;

/// The address where a thread begins.
pub(crate) fn start_of(header: &ThreadHeader) -> u32
    ensures { result ≡ (header.now.base + 4 * header.now.entry) % 2 ^ 32 }
{
    let start = u64::from(header.base) + 4 * u64::from(header.entry);
    (start % (1 << 32)) as u32
}
