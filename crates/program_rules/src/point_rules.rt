//! The rules at a point of a program whose state a certificate notes: its memory, its ways on, and the entry.

mod calls;
mod entries;
mod following;
mod found_pages;
mod found_runs;
mod laws;
mod listed_pages;
mod page_numbers;
mod pages;
mod reach;
mod ways;

pub use calls::{follows_call, registers_of};
pub(crate) use entries::entered;
pub(crate) use following::writes_term;
pub use following::{Left, follows};
pub use found_pages::FoundPages;
pub use found_runs::FoundRuns;
pub use laws::{left_calls_are_kept, left_states_are_kept};
pub use listed_pages::{PageRun, runs_of};
pub(crate) use pages::{size_of_load, size_of_store};
pub(crate) use reach::{AccessPages, Pages, ReachedBytes};
pub use ways::Way;
pub(crate) use ways::kept_at;
