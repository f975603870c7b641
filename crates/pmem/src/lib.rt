//! Physical memory: one list of bytes, read and written by the byte and by the little-endian word.
//! RISC-V Unprivileged ISA, 1.4 "Memory".
#![tactic(auto)]

mod memory;

pub use memory::Mem;
