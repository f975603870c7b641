//! Pictures of systems: what a text describes as a graph, and what a trace records as a chart.
#![tactic(auto)]

mod answers;
mod cells;
mod charts;
mod faults;
mod graphs;
mod lane_names;
mod layouts;
mod links;
mod nodes;
mod rights_words;
mod scenes;
mod signs;
mod threads;
mod words;

pub use answers::LineAnswer;
pub use charts::{ChartRequest, chart};
pub use faults::DrawingFault;
pub use graphs::draw;
