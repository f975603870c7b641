//! The names of instructions (RISC-V Unprivileged ISA, RV32I), by their formats.

ghost use Rattle.std.specs.Prelude.{◌≡◌};
ghost use Rattle.asm_line.specs.Instructions.{branch_op_of, immediate_op_of, load_op_of, register_op_of, shift_op_of, store_op_of, upper_op_of};

use crate::keywords::beside_name;
use rv32_isa::{BranchOp, ImmediateOp, LoadOp, RegisterOp, ShiftOp, StoreOp, UpperOp};

#[tactic(auto, unfolding(crate::specs::Instructions::upper_op_of))]
pub(crate) fn upper_op(word: &[u8]) -> Option<UpperOp>
    ensures { result ≡ upper_op_of word.now }
{
    beside_name(word, &[("lui", UpperOp::Lui), ("auipc", UpperOp::Auipc)])
}

#[tactic(auto, unfolding(crate::specs::Instructions::branch_op_of))]
pub(crate) fn branch_op(word: &[u8]) -> Option<BranchOp>
    ensures { result ≡ branch_op_of word.now }
{
    beside_name(
        word,
        &[
            ("beq", BranchOp::Beq),
            ("bne", BranchOp::Bne),
            ("blt", BranchOp::Blt),
            ("bge", BranchOp::Bge),
            ("bltu", BranchOp::Bltu),
            ("bgeu", BranchOp::Bgeu),
        ],
    )
}

#[tactic(auto, unfolding(crate::specs::Instructions::load_op_of))]
pub(crate) fn load_op(word: &[u8]) -> Option<LoadOp>
    ensures { result ≡ load_op_of word.now }
{
    beside_name(
        word,
        &[
            ("lb", LoadOp::Lb),
            ("lh", LoadOp::Lh),
            ("lw", LoadOp::Lw),
            ("lbu", LoadOp::Lbu),
            ("lhu", LoadOp::Lhu),
        ],
    )
}

#[tactic(auto, unfolding(crate::specs::Instructions::store_op_of))]
pub(crate) fn store_op(word: &[u8]) -> Option<StoreOp>
    ensures { result ≡ store_op_of word.now }
{
    beside_name(
        word,
        &[
            ("sb", StoreOp::Sb),
            ("sh", StoreOp::Sh),
            ("sw", StoreOp::Sw),
        ],
    )
}

#[tactic(auto, unfolding(crate::specs::Instructions::immediate_op_of))]
pub(crate) fn immediate_op(word: &[u8]) -> Option<ImmediateOp>
    ensures { result ≡ immediate_op_of word.now }
{
    beside_name(
        word,
        &[
            ("addi", ImmediateOp::Addi),
            ("slti", ImmediateOp::Slti),
            ("sltiu", ImmediateOp::Sltiu),
            ("xori", ImmediateOp::Xori),
            ("ori", ImmediateOp::Ori),
            ("andi", ImmediateOp::Andi),
        ],
    )
}

#[tactic(auto, unfolding(crate::specs::Instructions::shift_op_of))]
pub(crate) fn shift_op(word: &[u8]) -> Option<ShiftOp>
    ensures { result ≡ shift_op_of word.now }
{
    beside_name(
        word,
        &[
            ("slli", ShiftOp::Slli),
            ("srli", ShiftOp::Srli),
            ("srai", ShiftOp::Srai),
        ],
    )
}

#[tactic(auto, unfolding(crate::specs::Instructions::register_op_of))]
pub(crate) fn register_op(word: &[u8]) -> Option<RegisterOp>
    ensures { result ≡ register_op_of word.now }
{
    beside_name(
        word,
        &[
            ("add", RegisterOp::Add),
            ("sub", RegisterOp::Sub),
            ("sll", RegisterOp::Sll),
            ("slt", RegisterOp::Slt),
            ("sltu", RegisterOp::Sltu),
            ("xor", RegisterOp::Xor),
            ("srl", RegisterOp::Srl),
            ("sra", RegisterOp::Sra),
            ("or", RegisterOp::Or),
            ("and", RegisterOp::And),
        ],
    )
}
