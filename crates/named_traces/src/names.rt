//! Lists of names.

use std::alloc::AllocError;

/// Puts a name after those before it in a list, of which this many are there.
pub(crate) fn push_next(to: &mut String, before: usize, name: &str) -> Result<(), AllocError> {
    to.push_str(if before == 0 { "" } else { ", " })?;
    to.push_str(name)
}
