//! How soon the threads of an accepted image come to rest: for how many steps on end those of a priority and above run at most, whatever the
//! others do, where interrupts come no more often than their rates say. The weights that show it are found in any way, and checked in one pass.
#![tactic(auto)]

mod answers;
mod asks;
mod bounds;
mod checks;
mod doors;
mod drafts;
mod edge_checks;
mod finding;
mod keepers;
mod kinds;
mod lines;
mod marks;
mod outlines;
mod price;
mod prices;
mod rows;
mod settled;
mod settling;
mod shares;
mod spans;
mod stretches;
mod sums;
mod systems;
mod threads;
mod weighing;
mod weights;

pub use bounds::{Bound, PlacedPoint, Rate, Response, Why, respond};
pub use rows::{LineParts, Parts, Responses, Row, responded};
pub use shares::{Reason, Share};
pub use stretches::{Cause, How, Stretch};
pub use systems::{Levels, levels_of};
