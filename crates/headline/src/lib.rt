//! The headline: whatever happens to an accepted image goes well; and the laws below it, on its threads: where they start, what a step
//! leaves of them, that all of them stay as their certificates say, and what an event may change. There is no code here: each law is the contract
//! of a function that does nothing. What several of them use, definitions and lemmas on threads and on the states in
//! which they are, is in `specs/facts` and `proofs/facts`.
#![tactic(auto)]

pub mod authority;
mod budget_laws;
pub mod calls;
mod event_laws;
pub mod integrity;
pub mod invocations;
pub mod kept;
pub mod lookups;
pub mod measure_facts;
pub mod moves;
pub mod parts;
mod safety_laws;
pub mod starts;
pub mod steps;

pub use budget_laws::standing_threads_keep_their_budgets;
pub use event_laws::events_keep_all_standing;
pub use safety_laws::accepted_images_run_safely;
