//! The effect of RV32I instructions on registers, and on memory that a [`View`] shows
//! (RISC-V Unprivileged ISA, chapter 2).
#![tactic(auto)]

mod execution;
mod registers;
mod results;
mod view;

pub use execution::{advance, exec, plus, write_register};
pub use model::{Access, AccessSize, Cause, Exec, Instr, MemoryFault, Register};
pub use registers::{Registers, Regs};
pub use results::{
    immediate_result, load_result, load_size, register_result, shift_result, store_size,
    upper_result,
};
pub use view::View;
