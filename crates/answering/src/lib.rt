//! Whether a thread answers who calls with a badge: on each way that a message with this badge can take from one take to the next there is a reply, or the
//! next take is a ReplyRecv. From the message on the ranges of the registers are followed, with the badge single, so that a branch on a register that
//! holds the badge leads only where it may with that one value.
#![tactic(auto)]

mod answers;
mod effects;
mod known;
mod tests;
mod walks;

pub use answers::{Answered, answers_at, answers_of};
