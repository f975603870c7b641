//! Why a text is refused: by its lines and names, what is known there, and by how much it misses.
#![tactic(auto)]

mod builds;
mod call_words;
mod caps;
mod causes;
mod entry_gaps;
mod explained_images;
mod explanations;
mod faults;
mod faulty_lines;
mod findings;
mod gaps;
mod loops;
mod page_gaps;
mod point_words;
mod programs;
mod promises;
mod reports;
mod requests;
mod scenes;
mod slot_gaps;
mod states;
mod system_calls;
mod texts;
mod ways;

pub use explanations::{explain, report_refused};
pub use faults::{ExplainFault, Explanation};
pub use programs::point_of;
pub use requests::Certificates;
pub use source_gaps::{Text, push_place};
pub use texts::wants_certificates;
