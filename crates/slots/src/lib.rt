//! Capability slots beside the memory of the machine: what each open slot holds and what it was
//! derived from.
#![tactic(auto)]

mod kin;
mod maps;
mod plain;
pub mod preorder;
mod probes;
mod stores;
mod table;

pub use capwords::Cap;
pub use kin::{is_handler_of, object_of};
pub use maps::SlotMap;
pub use model::{Entry, Slot};
pub use plain::PlainSlots;
pub use probes::{is_free, is_taken};
pub use stores::SlotStore;
