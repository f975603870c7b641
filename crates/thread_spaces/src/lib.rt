//! The CNodes that a well-formed image gives a thread: where they lie, and what its capabilities put into them.
#![tactic(auto)]

mod capabilities;
mod given_slots;
mod given_threads;
mod offsets;
mod own_slots;
mod placed_threads;
mod promises;
mod reach;
mod space_laws;
mod spaces;
mod thread_parts;
mod windows;

pub use given_threads::GivenThread;
pub use offsets::{PlacedImage, offsets_of};
pub use placed_threads::PlacedThread;
pub use promises::promises_of;
pub use reach::reached_of;
pub use space_laws::{
    mappings_are_listed, programs_have_their_places, root_tables_are_placed, threads_stand_apart,
};
pub use thread_parts::ThreadParts;
