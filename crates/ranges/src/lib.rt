//! What an instruction makes of the ranges of the registers.
#![tactic(auto)]

mod bounds;
mod branches;
mod edges;
mod results;

pub use bounds::Bounds;
pub use branches::refine;
pub use edges::{Edge, Edges, after, pass};
pub use model::Range;
