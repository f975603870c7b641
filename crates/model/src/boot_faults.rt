//! Why an image does not boot.

use crate::KError;
use thiserror::Error;

/// Why an image that can be read does not boot.
#[derive(Clone, Copy, Debug, PartialEq, Eq, Error)]
pub enum BootFault {
    /// Memory for the machine was refused.
    #[error("out of memory")]
    OutOfMemory,
    /// The kernel refused the call with this number, counted from 0.
    #[error("the kernel refused call {0}: {1:?}")]
    Kernel(u32, KError),
    /// This untyped, object or thread does not fit the machine.
    #[error("item {0} does not fit the machine")]
    Outside(u32),
}
