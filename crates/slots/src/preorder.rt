//! Slots in preorder: the parent of each is the last one before it that is less deep. Laws on lists of rows, each a slot and its depth,
//! and on links that lead through them. Each law is the contract of a function that does nothing.

mod change_laws;
mod row_laws;
mod run_laws;
mod walk_laws;

pub use change_laws::{
    changes_keep_depths, changes_keep_rising, changes_order_slots, first_keeps_chain,
    lowering_keeps_depths, put_after_adds_one, put_after_keeps_chain, without_keeps_chain,
};
pub use row_laws::{
    a_first_row_has_no_parent, a_renamed_row_keeps_parent_and_children,
    a_row_behind_its_parent_has_it, a_slot_without_a_row_has_no_parent,
    children_of_a_row_taken_out_get_its_parent, descendants_are_the_run_behind,
    rows_have_their_depths,
};
pub use run_laws::{changes_keep_runs, neighbours_tell, runs_end_beside};
pub use walk_laws::{
    descent_is_back, links_lead_through_rows, next_below_is_linked, next_is_linked, parent_is_back,
    rows_are_few,
};
