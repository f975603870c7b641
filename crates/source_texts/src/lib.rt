//! What the text of an image declares, by its names and the lines that it is on.
#![tactic(auto)]

mod automatic;
mod declared;
mod faults;
mod names;
mod origins;
mod reading;
mod source_threads;

pub use automatic::{Budgets, has_automatic_budget, with_budgets, without_programs};
pub use declared::{
    CapabilityLine, ContentLine, FrameLine, InterruptLine, ObjectLine, PromiseLine, Source,
    SourceText, TableLine, UntypedLine,
};
pub use faults::TextFault;
pub use names::word_at;
pub use origins::source_place;
pub use reading::read;
pub use source_threads::{BufferLine, RecordLine, SourceThread};
