//! The points of a program that make system calls: laws on where such a call leads, on what a call that is done writes, on what is known of
//! the one that is made, and on what the rules allow. Each law is the contract of a function that does nothing.

mod call_laws;
mod known_laws;
mod message_rules;
mod waking_laws;

pub use call_laws::calls_lead_behind;
pub use known_laws::allowed_calls_are_known;
pub use message_rules::rules_on_messages_are_known;
pub use waking_laws::{messages_fit_behind, what_is_sent_keeps_its_promise};
