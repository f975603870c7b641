//! Address spaces: mapping frames and page tables under root tables, over any store of slots.
//! seL4 Reference Manual, "Address Spaces and Virtual Memory".
#![tactic(auto)]

mod agreement;
mod arguments;
mod endings;
mod extents;
mod frames;
mod page_tables;
mod regions;
mod sizes;
mod slot_mappings;
mod spaces;
mod tables;

pub use agreement::{
    a_capability_without_tables_may_change, a_full_slot_may_be_emptied,
    a_moved_capability_keeps_its_mapping, a_watermark_may_be_set_back, an_empty_slot_may_be_closed,
    an_unmapped_capability_may_be_put, an_unmapped_capability_may_be_removed,
    bytes_beside_tables_may_change, bytes_of_slots_may_change, slots_may_be_closed,
    slots_may_be_opened, what_may_be_put_stays_so,
};
pub use endings::end_tables;
pub use frames::{FrameCap, map_frame, mapping_rights, may_be_mapped, page_named, unmap_frame};
pub use model::SlotName;
pub use page_tables::{PageTableCap, map_table, unmap_table};
pub use slot_mappings::unmap_cap;
pub use spaces::place_under;
