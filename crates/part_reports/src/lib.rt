//! The parts of an accepted image by the names of its text: groups, what each takes from others and by what, and the text of a part alone.
#![tactic(auto)]

mod arrows;
mod groups;
mod names;
mod objects;
mod reports;
mod texts;
mod unlisted;
mod uses;

pub use groups::Groups;
pub use names::{NoPart, part_named};
pub use reports::{alone_report, groups_report, part_groups, parts_report};
pub use texts::text_alone;
pub use unlisted::{declared_in, image_names};
