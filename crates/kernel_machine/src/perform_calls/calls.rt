//! The context of a call on a capability.

use model::{Cap, Slot};

/// The context of a call on a capability: the root of the capability space in which it names slots,
/// the thread that calls (nobody, where the system is set up), and the slot with the capability that it
/// is made on.
#[derive(Clone, Copy)]
pub struct KernelCall {
    pub root: Cap,
    pub caller: Option<u32>,
    pub slot: Slot,
    pub capability: Cap,
}
