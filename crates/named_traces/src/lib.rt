//! What the lines of a trace mean in the text of the image: threads, interrupt lines and words of device pages by their names, and
//! addresses by labels and lines.
#![tactic(auto)]

mod addresses;
mod device_words;
mod interrupts;
mod labels;
mod named_lines;
mod names;
mod places;
mod threads;

pub use device_words::{DevicePage, DeviceWord};
pub use places::SourcePlace;
pub use threads::{NamedThread, TextNames};
