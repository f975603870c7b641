//! Capability slots packed into the memory of the machine: 16 bytes a slot, and one list of all full slots in preorder.
//! Reads are methods of [`PackedSlots`], whose invariant says what is packed; changes are put together from functions over
//! the memory alone.
#![tactic(auto)]

mod cached_slots;
mod capability_words;
mod handlers;
mod indexed;
mod links;
mod named_pages;
mod neighbours;
mod open_slots;
mod reads;
mod roots;
mod store;
mod words;

pub use cached_slots::{
    CachedSlots, WalkStore, leaves_stay_where_entries_do, one_leaf_more_is_kept,
};
pub use indexed::IndexedSlots;
pub use roots::RootStore;
pub use store::PackedSlots;
