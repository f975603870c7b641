//! Images from their text: the assembler. What the lines so far make is an `Assembly`; the labels of each thread are found before.
#![tactic(auto)]

mod assembling;
mod assembly;
mod declarations;
mod faults;
mod keys;
mod labels;
mod names;
mod open_threads;

pub use assembling::assemble;
pub use faults::SourceFault;
pub use image::Image;
