//! An image's entries by number and by key: where a CNode's capabilities are, and what is mapped at an address.

mod entries;
mod frames;
mod keys;
mod listed_mappings;

pub use entries::{capability_of, header_of, object_of, untyped_of};
pub use frames::frame_at;
pub use keys::{CapabilityRange, listed_in};
pub use listed_mappings::{lists_page, lists_region};
