//! Memory as a thread sees it through the page tables in the machine's bytes, and one instruction of a
//! thread over it. RISC-V Privileged Architecture, "Sv32"; seL4 Reference Manual, "Address Spaces and
//! Virtual Memory".
#![tactic(auto)]

mod code_pages;
mod execution;
mod filling;
mod keeping;
mod known_words;
mod labels;
mod one_byte;
mod page;
mod pages;
mod plain_runs;
mod roots;
mod spaces;
mod thread_registers;
mod view;
mod world;

pub use execution::{execute, fetch};
pub use filling::fill;
pub use known_words::KnownWords;
pub use labels::Labels;
pub use plain_runs::{PlainRun, run_plain};
pub use roots::root_of;
pub use world::{read_word, write_word};
