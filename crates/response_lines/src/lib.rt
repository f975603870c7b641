//! How soon a system rests, in words: what its text asks, lines by its names, and which parts keep what they are to.
#![tactic(auto)]

mod answers;
mod asked;
mod broken_rates;
mod faults;
mod keeping;
mod level_runs;
mod levels;
mod lines;
mod rates;
mod telling;
mod wanted;

pub use answers::{Answer, answers_in};
pub use asked::{asks_responses, rates_in, says_rates};
pub use broken_rates::notes_on_rates;
pub use faults::NotTold;
pub use keeping::{Kept, KeptWithin, keep};
pub use level_runs::longest_runs;
pub use telling::{Told, tell};
