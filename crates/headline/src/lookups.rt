//! The slots that a thread of an accepted image names: laws that lookups find what its certificate notes. Each law is
//! the contract of a function that does nothing.

mod lookup_laws;

pub use lookup_laws::{
    lookups_find_what_is_noted, own_slots_hold_what_is_noted, parents_are_noted,
};
