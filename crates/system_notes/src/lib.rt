//! What is no fault of a system, but seldom meant: by the calls that its threads make, and by the events that it is run over.
#![tactic(auto)]

mod calls;
mod events;
mod faults;
mod meetings;
mod notes;
mod rings;
mod thread_calls;
mod ways;

pub use events::notes_on_events;
pub use faults::NotesFault;
pub use notes::notes_on_threads;
