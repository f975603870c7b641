//! What follows from an image's fitting its format: definitions, and laws on them. There is no code here.
#![tactic(auto)]

mod fitting_laws;

pub use fitting_laws::{
    certificates_that_fit_keep_their_limits, images_that_fit_keep_their_limits,
};
