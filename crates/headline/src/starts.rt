//! Where the threads of an accepted image start. There is no code here: each law is the contract of a function that
//! does nothing.

mod start_laws;

pub use start_laws::{
    mappings_are_as_listed, programs_stand_at_their_addresses, slots_are_as_listed,
    threads_are_as_listed, threads_start_as_certified,
};
