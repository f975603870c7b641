//! What an open slot holds.

use crate::{Cap, Slot};

/// What an open slot holds: a capability or nothing, and the slot that the capability was derived
/// from, if there is one.
#[derive(Clone, Copy, Debug, PartialEq, Eq)]
pub struct Entry {
    pub capability: Cap,
    pub parent: Option<Slot>,
}
