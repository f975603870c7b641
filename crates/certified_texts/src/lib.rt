//! The text of an image without its certificates, and with those that were found: all other lines stay as they are.
#![tactic(auto)]

mod bare;
mod comparing;
mod layouts;
mod pieces;
mod records;
mod writing;

pub use bare::{bare_text, budgeted_text};
pub use comparing::is_same_but_certificates;
pub use layouts::{Layout, ThreadText, layout_of};
pub use writing::{Draft, certified_text};
