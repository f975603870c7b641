//! States: maps from numbers, as trees in which what is the same in two of them is there once.
#![tactic(auto)]

mod entries;
mod puts;
mod sames;
mod states;
mod trees;

use entries::Entry;
pub use puts::Puts;
use sames::Sames;
pub use states::States;
use trees::Trees;
