//! The verifier: whether the bytes of an image keep every rule of acceptance, and which rule they break first.
#![tactic(auto)]

mod accepted;

pub use accepted::{Accepted, verify};
pub use model::Refusal;
