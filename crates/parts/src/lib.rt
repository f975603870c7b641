//! Parts of an accepted image, which are sets of its threads: what a part takes from the others.
#![tactic(auto)]

mod alone;
mod image_parts;
mod object_sets;
mod outside_laws;
mod taken;
mod uses;

pub use alone::{Alone, NotAlone};
pub use image_parts::{Parts, parts_of};
pub use outside_laws::nothing_taken_is_held_outside;
pub use taken::Taken;
