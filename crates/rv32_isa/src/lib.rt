//! The spelling of RV32I instructions in 32-bit words (RISC-V Unprivileged ISA, chapter 2).
#![tactic(auto)]

mod decoding;
mod encoding;
mod fields;
mod operations;

pub use decoding::decode;
pub use encoding::{encode, has_spelling};
pub use model::{
    BranchOp, ImmediateOp, Instr, LoadOp, Register, RegisterOp, ShiftOp, StoreOp, UpperOp,
};
