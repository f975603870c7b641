//! Whether what an image lists is in its ranges and in order.

ghost use Rattle.std.specs.Prelude.{◌≡◌, length};
ghost use Rattle.model.specs.Images.Format.{many_fit};

use image_reading::{Counts, Listed};

/// Whether entries are in their ranges and in order, with no key below `first`.
pub(crate) fn all_fit<E: Listed>(entries: &[E], counts: Counts, first: u64) -> bool
    ensures { result ≡ many_fit (E.format counts) E.next first (length entries.now) entries.now }
{
    let mut least = first;
    for entry in entries {
        match entry.fits(counts, least) {
            Some(next) => least = next,
            None => return false,
        }
    }
    true
}
