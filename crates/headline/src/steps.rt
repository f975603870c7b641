//! Threads of accepted images stay at their certificates: laws on a step that reaches no system call. Each law is the
//! contract of a function that does nothing.

mod access_laws;
mod code_laws;
mod edge_laws;
mod rule_laws;
mod slot_laws;
mod step_laws;

pub use access_laws::mapped_accesses_do_not_fault;
pub use code_laws::{instructions_write_where_stores_may, programs_stay_where_they_stand};
pub use edge_laws::{an_instruction_takes_an_edge, decoded_fields_lie_in_their_ranges};
pub use rule_laws::points_keep_their_rules;
pub use slot_laws::{
    noted_points_have_their_form, slots_that_are_not_stray_have_their_form,
    slots_that_compare_as_the_same_are_the_same,
};
pub use step_laws::plain_steps_keep_threads;
