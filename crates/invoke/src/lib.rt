//! From the words of a message to the call that they make on a capability.
//! seL4 Reference Manual, "System Calls".
#![tactic(auto)]

mod calls;
mod decoding;
mod methods;
mod words;

pub use decoding::{decode_call, listed_words};
pub use methods::Method;
