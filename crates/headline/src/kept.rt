//! What leaves the threads of an accepted image where they are: definitions of what stays true of all of them, and laws
//! on changes elsewhere. Each law is the contract of a function that does nothing.

mod given_laws;
mod standing_laws;
mod store_laws;

pub use given_laws::{points_note_all_ranges, threads_have_their_own_blocks};
pub use standing_laws::{all_stand_at_the_start, untouched_threads_stand_on};
pub use store_laws::stores_touch_no_thread;
