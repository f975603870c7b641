//! What the rules on measures say of the registers of a machine. Each law is the contract of a function that does
//! nothing.

mod falling_laws;

pub use falling_laws::{
    falls_is_less, falls_over_calls_is_less, least_values_are_least,
    measures_of_points_name_registers, what_stays_below_is_within,
};
