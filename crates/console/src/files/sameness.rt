//! Whether two names are of one file.

use std::fs;
use std::os::unix::fs::MetadataExt;
use std::rt::Files;

/// A file by the numbers that the system gives it.
#[derive(Clone, Copy, PartialEq, Eq)]
struct Identity {
    device: u64,
    number: u64,
}

/// The numbers of a file, if it is there and the system gives it some.
fn identity_of<R: Files>(rt: &R, name: &str) -> Option<Identity> {
    let found = fs::metadata(rt, name).ok()?;
    let (device, number) = (found.dev(), found.ino());
    if number == 0 {
        return None;
    }
    Some(Identity { device, number })
}

/// Whether two names are of one file, also by another path or a link.
pub fn is_same_file<R: Files>(rt: &R, one: &str, other: &str) -> bool {
    if one == other {
        return true;
    }
    match (identity_of(rt, one), identity_of(rt, other)) {
        (Some(one), Some(other)) => one == other,
        _ => false,
    }
}
