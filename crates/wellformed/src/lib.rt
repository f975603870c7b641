//! Well-formed images: the rules on untypeds, objects, capabilities, mappings and threads, before any program is looked at.
#![tactic(auto)]

mod capabilities;
mod mappings;
mod number_sets;
mod object_places;
mod object_types;
mod objects;
mod reach;
mod threads;
mod whole;

pub use model::Refusal;
pub use number_sets::NumberSet;
pub use object_places::{Place, UsedMemory};
pub use object_types::{
    is_cnode_source, is_endpoint, is_frame, is_page_table, is_root_table, is_thread, is_untyped,
    radix_of, source_type, type_at,
};
pub use whole::well_formed;
