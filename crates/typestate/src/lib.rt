//! What a certificate notes of the slots of a thread's CNodes at a point of its program, and what a system call leaves of it.
#![tactic(auto)]

mod behind;
mod calls_at_points;
mod change_lists;
mod changes;
mod cnode_calls;
mod comparisons;
mod families;
mod frame_calls;
mod handler_calls;
mod held_slots;
mod holders;
mod invocations;
mod keys;
mod levels;
mod lines;
mod log_entries;
mod logs;
mod mapped_pages;
mod messages;
mod names;
mod new_objects;
mod noted;
mod own_slots;
mod packed_change;
mod packed_changes;
mod packed_slot;
mod plain_calls;
mod points;
mod pool_calls;
mod pools;
mod promises;
mod records;
mod removal;
mod roots;
mod shown;
mod slot_changes;
mod slot_laws;
mod slot_runs;
mod spaces;
mod staying;
mod stays;
mod strays;
mod system_calls;
mod thread_slots;
mod tidy;
mod told_slots;
mod window;
mod windows;

pub use behind::{Behind, Written};
pub use changes::{Changes, ChangesLeft};
pub use holders::allows;
pub use keys::{NotedSlot, SlotKey};
pub use log_entries::LogEntry;
pub use logs::{Part, ShownPart, SlotLog};
pub use mapped_pages::MappedPages;
pub use messages::message_call;
pub use own_slots::OwnSlots;
pub use packed_slot::PackedSlot;
pub use points::NotedSlots;
pub use promises::{MessagePromise, PlacedPromises};
pub use records::note_record;
pub use slot_changes::{
    Removed, SlotChange, changes_make_slots, slots_come_back, slots_decide_calls,
    slots_decide_cnode_calls,
};
pub use slot_laws::{
    no_stray_slot_leads_outside, points_without_stray_slots_have_none, records_note_changes,
    tidy_changes_leave_no_stray_slot, tidy_puts_leave_no_stray_slot,
};
pub use spaces::Space;
pub use system_calls::SystemCall;
pub use thread_slots::ThreadSlots;
pub use told_slots::ToldSlots;
pub use window::Window;
pub use windows::Windows;
