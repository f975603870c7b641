//! A description of a system: which parts there are, what they share, and who may ask whom. No number is decided here.
#![tactic(auto)]

mod declared;
mod faults;
mod forms;
mod holdings;
mod joined;
mod names;
mod part_lines;
mod parts;
mod reading;
mod reports;
mod words;

pub use declared::{Declaration, Kind, Promise, System};
pub use faults::{DescriptionFault, Mistake};
pub use joined::{Joined, Named, Place, named_on};
pub use parts::{
    Budget, Buffer, CodeLine, Held, Part, Pool, Rate, RegisterLine, Slot, Sources, View, Within,
};
pub use reading::{is_description, read};
pub use reports::push_fault;
