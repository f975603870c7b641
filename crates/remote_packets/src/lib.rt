//! Packets of gdb's remote serial protocol: `$`, a payload, `#` and the sum of its bytes in two digits.
//! GDB manual, "Remote Protocol", "Overview".
#![tactic(auto)]

mod frames;
mod hexadecimal;
mod incoming;

pub use frames::{checksum, push_frame};
pub use hexadecimal::{push_byte, push_bytes, push_word, split_number};
pub use incoming::{Arrived, LONGEST, Packets};
