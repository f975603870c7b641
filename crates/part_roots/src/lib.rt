//! Parts of a log of changes to slots, by states that share what is the same: parts with the same root leave the same slots.
#![tactic(auto)]

mod bases;
mod entries;
mod leaves;
mod part_roots;
mod slot_numbers;

use bases::{Base, Draft, Root, note_parent, put};
use leaves::Leaves;
pub use part_roots::{PartRoots, RootedPart};
use slot_numbers::SlotNumber;
