//! Parts of an image that take nothing from the others: what such a part does in the whole it does alone. There is no code here: each law is the
//! contract of a function that does nothing.
#![tactic(auto)]

pub mod changes;
pub mod outside;
pub mod own_calls;
pub mod own_steps;
pub mod promised;
pub mod promises;
pub mod starts;
