//! Invocations of a thread of an accepted image: what the rules allow has no error, and keeps the threads' invariant.
//! Each law is the contract of a function that does nothing.

mod copy_laws;
mod frame_laws;
mod invocation_laws;
mod laws;
mod mirror_laws;
mod parent_laws;
mod removing_laws;
mod retype_laws;
mod run_laws;
mod standing_laws;

pub use copy_laws::{copies_go_well, mints_go_well, moves_go_well};
pub use frame_laws::{maps_go_well, unmaps_go_well};
pub use invocation_laws::invocations_go_well;
pub(crate) use laws::laws_on_invocations;
pub use mirror_laws::threads_mirror_what_is_noted;
pub use parent_laws::invocations_leave_a_parent_to_each_slot;
pub use removing_laws::{deletes_go_well, revokes_go_well};
pub use retype_laws::retypes_go_well;
pub use run_laws::{events_go_well, steps_go_well};
pub use standing_laws::{changed_slots_keep_all_standing, own_slots_derive_from_something};
