//! What an event changes stays within authority: ticks, interrupts, and steps that change registers and bytes or make a call. Each law
//! is the contract of a function that does nothing; what authority rules out is in `model_laws`.

mod call_laws;
mod ready_laws;
mod slot_laws;
mod standing_laws;
mod step_laws;

pub use call_laws::{
    acknowledgements_stay_within_authority, calls_on_nothing_stay_within_authority,
    handlers_stay_within_authority, mappings_stay_within_authority, receives_stay_within_authority,
    replies_stay_within_authority, sends_stay_within_authority, signals_stay_within_authority,
    waits_stay_within_authority,
};
pub use ready_laws::the_ready_list_holds_no_thread_twice;
pub use slot_laws::{
    completed_invocations_stay_within_authority, copies_stay_within_authority,
    mints_stay_within_authority, moves_stay_within_authority, unmaps_stay_within_authority,
};
pub use standing_laws::{
    calls_that_invoke_nothing_stay_within_authority, events_stay_within_authority,
    instructions_stay_within_authority, noted_calls_stay_within_authority,
    noted_mappings_stay_within_authority, noted_removals_stay_within_authority,
    noted_retypes_stay_within_authority, steps_stay_within_authority,
    threads_hold_objects_inside_their_own_memory, threads_map_under_their_own_root_tables,
    words_of_data_stay,
};
pub use step_laws::{
    a_new_endpoint_stays_within_authority, a_plain_step_stays_within_authority,
    a_tick_stays_within_authority, a_write_stays_within_authority,
    an_interrupt_stays_within_authority,
};
