//! Calls and events keep what is true of every state that the kernel reaches. Each law is the
//! contract of a function that does nothing.
#![tactic(auto)]

mod boot_laws;
mod cnode_laws;
mod copying_laws;
mod fresh_laws;
mod invocation_laws;
mod mapping_laws;
mod message_laws;
mod removing_laws;
mod retype_laws;
mod setup_laws;
mod step_laws;
mod thread_laws;
mod unused_laws;

pub use boot_laws::{
    described_states_are_sound, objects_stand_inside_their_untypeds, well_formed_images_boot,
};
pub use cnode_laws::{
    copy_keeps_soundness, mint_keeps_soundness, move_keeps_soundness, mutate_keeps_soundness,
};
pub use copying_laws::{
    bind_keeps_soundness, configure_keeps_soundness, get_handler_keeps_soundness,
    set_buffer_keeps_soundness,
};
pub use fresh_laws::a_fresh_machine_is_sound;
pub use invocation_laws::invocations_keep_soundness;
pub use mapping_laws::{frame_calls_keep_soundness, table_calls_keep_soundness};
pub use message_laws::{
    an_acknowledgement_keeps_soundness, an_interrupt_keeps_soundness, fault_keeps_soundness,
    poll_keeps_soundness, receive_keeps_soundness, reply_keeps_soundness, send_keeps_soundness,
    signal_keeps_soundness, try_to_receive_keeps_soundness, try_to_send_keeps_soundness,
    wait_keeps_soundness,
};
pub use removing_laws::{delete_keeps_soundness, removals_keep_soundness, revoke_keeps_soundness};
pub use retype_laws::retype_keeps_soundness;
pub use setup_laws::{
    calls_of_the_loader_keep_soundness, filling_keeps_soundness, interrupt_control_keeps_soundness,
    untyped_memory_is_put_behind_objects, untyped_memory_keeps_soundness,
};
pub use step_laws::{events_keep_soundness, system_calls_keep_soundness};
pub use thread_laws::{
    a_plain_step_keeps_soundness, a_tick_keeps_soundness, resume_keeps_soundness,
    set_priority_keeps_soundness, set_register_keeps_soundness, suspend_keeps_soundness,
    yield_keeps_soundness,
};
pub use unused_laws::unused_memory_is_free;
