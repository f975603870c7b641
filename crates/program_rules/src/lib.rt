//! The rules on the programs of a well-formed image: what each thread's certificate notes of the points of its program, and the
//! first rule that is broken, of all threads in their order.
#![tactic(auto)]

mod asked_parts;
mod at_points;
mod call_checks;
mod called_points;
mod checking;
mod following;
mod kept;
mod kept_points;
mod notes;
mod own_checks;
mod places;
mod point_rules;
mod points;
mod points_checks;
mod programs;
mod read_points;
mod records;
mod space_rules;
mod views;
mod visits;
mod walks;
mod ways;

pub use at_points::AtPoint;
pub use checking::check_programs;
pub use point_rules::{Left, follows, follows_call, registers_of};
pub use views::{PointView, PointViews, ProgramView, SeenPoint, view_of, views_of_programs};
