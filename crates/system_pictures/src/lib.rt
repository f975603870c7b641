//! Pictures of systems that need no other program: threads by priority, what they share, and what comes from outside, laid out in layers.
#![tactic(auto)]

mod arrows;
mod faults;
mod layouts;
mod pictures;
mod reaches;
mod shapes;
mod uses;
mod words;

pub use faults::PictureFault;
pub use pictures::{picture, picture_of};
pub use reaches::{Reached, reached_in};
pub use uses::{Deed, LineUse, ObjectUse, Uses, uses_of};
pub use words::{push_kind, push_said, push_size};
