//! What the verifier says of images.

mod calls;
mod pairs;
mod promises;
mod rules;
mod texts;
