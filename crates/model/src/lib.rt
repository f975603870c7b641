//! The words that every layer shares: events, trace labels, errors, faults, instructions,
//! capabilities, slots and the entries of an image, and in `specs/` the definitions of what they mean.
#![tactic(auto)]

mod boot_faults;
mod capabilities;
mod entries;
mod errors;
mod events;
mod faults;
mod instructions;
mod invocations;
mod labels;
mod limits;
mod lookup_failures;
mod object_types;
mod ranges;
mod refusals;
mod rights;
mod slot_entries;
mod slot_numbers;
mod system_calls;

pub use boot_faults::BootFault;
pub use capabilities::{Cap, FrameMapping, TableMapping};
pub use entries::{
    CapabilityEntry, ContentHeader, FrameEntry, ImageHeader, InterruptEntry, ObjectEntry,
    PromiseHeader, PromisedWord, RangeEntry, RecordHeader, RegisterEntry, SlotEntry, TableEntry,
    TermEntry, ThreadHeader, UntypedEntry,
};
pub use errors::KError;
pub use events::Event;
pub use faults::FaultKind;
pub use instructions::{
    Access, AccessSize, BranchOp, Cause, Exec, ImmediateOp, Instr, LoadOp, MemoryFault, PageFault,
    Register, RegisterOp, ShiftOp, StoreOp, UpperOp,
};
pub use invocations::{
    CNodeCall, FrameCall, HandlerCall, Invocation, RetypeCall, SlotName, TableCall, ThreadCall,
    UntypedMemory,
};
pub use labels::{Label, Outcome};
pub use limits::{
    MOST_CAPABILITIES, MOST_CONTENT_WORDS, MOST_CONTENTS, MOST_FRAMES, MOST_INTERRUPTS,
    MOST_OBJECTS, MOST_PROMISES, MOST_REGISTERS, MOST_SLOTS, MOST_TABLES, MOST_THREADS,
    MOST_UNTYPEDS, MOST_WORDS,
};
pub use lookup_failures::LookupFailure;
pub use object_types::{ObjectKind, ObjectType};
pub use ranges::Range;
pub use refusals::{Point, Refusal};
pub use rights::Rights;
pub use slot_entries::Entry;
pub use slot_numbers::Slot;
pub use system_calls::{ReceiveCall, SendCall, SystemCall};
