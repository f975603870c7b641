//! From words to instructions.

ghost use Rattle.std.specs.Prelude.{◌≡◌, ◌⊎◌, Some, IfSome};
ghost use Rattle.model.specs.declared.instructions.Instr.{Instr};
ghost use Rattle.model.specs.Machine.Instructions.{IsBranchOffset, Spells, b_type, bits, upper_opcode};
ghost use Rattle.model.specs.Machine.Decoding.{b_offset, decoded, decoded_branch, decoded_immediate, decoded_jal, decoded_jalr, decoded_load};
ghost use Rattle.model.specs.Machine.Decoding.{decoded_registers, decoded_shift, decoded_store, decoded_system, decoded_upper};

use crate::fields::{field, register, signed};
use crate::operations::{branch_op, immediate_op, load_op, register_op, shift_op, store_op};
use model::{Instr, UpperOp};

/// The instruction that a word spells, or `None` where it spells none of RV32I.
pub fn decode(word: u32) -> Option<Instr>
    ensures value { result ≡ decoded word }
    ensures some { IfSome result (λ i. Spells word i) }
    ensures only { (i : Instr) → Spells word i → result ≡ Some i }
{
    by_opcode(word)
}

/// The same, by the word's lowest seven bits.
#[tactic(auto, unfolding(model::specs::Machine::Decoding::decoded))]
fn by_opcode(word: u32) -> Option<Instr>
    ensures value { result ≡ decoded word }
    ensures some { IfSome result (λ i. Spells word i) }
{
    match field(word, 0, 7) {
        0x37 => Some(upper(UpperOp::Lui, word)),
        0x17 => Some(upper(UpperOp::Auipc, word)),
        0x6F => Some(jal(word)),
        0x67 => jalr(word),
        0x63 => branch(word),
        0x03 => load(word),
        0x23 => store(word),
        0x13 => immediate(word),
        0x33 => registers(word),
        0x0F if field(word, 12, 3) == 0 => Some(Instr::Fence),
        0x73 => system(word),
        _ => None,
    }
}

/// LUI or AUIPC (2.4), as the opcode says.
fn upper(op: UpperOp, word: u32) -> Instr
    requires { bits word 0 7 ≡ upper_opcode op }
    ensures value { result ≡ decoded_upper op word }
    ensures some { Spells word result }
{
    Instr::Upper {
        op,
        rd: register(word, 7),
        immediate: field(word, 12, 20),
    }
}

/// JAL (2.5). The offset's bits are in the order 20, 10 to 1, 11, 19 to 12.
fn jal(word: u32) -> Instr
    requires { bits word 0 7 ≡ 0x6F }
    ensures value { result ≡ decoded_jal word }
    ensures some { Spells word result }
{
    let offset = (field(word, 21, 10) << 1)
        + (field(word, 20, 1) << 11)
        + (field(word, 12, 8) << 12)
        + (field(word, 31, 1) << 20);
    Instr::Jal {
        rd: register(word, 7),
        offset: signed(offset, 1 << 20),
    }
}

/// JALR (2.5).
fn jalr(word: u32) -> Option<Instr>
    requires { bits word 0 7 ≡ 0x67 }
    ensures value { result ≡ decoded_jalr word }
    ensures some { IfSome result (λ i. Spells word i) }
{
    if field(word, 12, 3) != 0 {
        return None;
    }
    Some(Instr::Jalr {
        rd: register(word, 7),
        rs1: register(word, 15),
        offset: signed(field(word, 20, 12), 1 << 11),
    })
}

/// A branch (2.5).
fn branch(word: u32) -> Option<Instr>
    requires { bits word 0 7 ≡ 0x63 }
    ensures value { result ≡ decoded_branch word }
    ensures some { IfSome result (λ i. Spells word i) }
{
    Some(Instr::Branch {
        op: branch_op(field(word, 12, 3))?,
        rs1: register(word, 15),
        rs2: register(word, 20),
        offset: branch_offset(word),
    })
}

/// The offset of a branch, whose bits are in the order 12, 10 to 5, and 4 to 1, 11.
fn branch_offset(word: u32) -> i32
    ensures value { result ≡ b_offset word }
    ensures range { IsBranchOffset result }
    ensures spelled { word ≡ b_type (bits word 0 7) (bits word 12 3) (record { 0 = bits word 15 5 }) (record { 0 = bits word 20 5 }) result }
{
    let offset = (field(word, 8, 4) << 1)
        + (field(word, 25, 6) << 5)
        + (field(word, 7, 1) << 11)
        + (field(word, 31, 1) << 12);
    signed(offset, 1 << 12)
}

/// A load (2.6).
fn load(word: u32) -> Option<Instr>
    requires { bits word 0 7 ≡ 0x03 }
    ensures value { result ≡ decoded_load word }
    ensures some { IfSome result (λ i. Spells word i) }
{
    Some(Instr::Load {
        op: load_op(field(word, 12, 3))?,
        rd: register(word, 7),
        rs1: register(word, 15),
        offset: signed(field(word, 20, 12), 1 << 11),
    })
}

/// A store (2.6).
fn store(word: u32) -> Option<Instr>
    requires { bits word 0 7 ≡ 0x23 }
    ensures value { result ≡ decoded_store word }
    ensures some { IfSome result (λ i. Spells word i) }
{
    let offset = field(word, 7, 5) + (field(word, 25, 7) << 5);
    Some(Instr::Store {
        op: store_op(field(word, 12, 3))?,
        rs1: register(word, 15),
        rs2: register(word, 20),
        offset: signed(offset, 1 << 11),
    })
}

/// A register-immediate operation (2.4), of which two values of funct3 are shifts.
fn immediate(word: u32) -> Option<Instr>
    requires { bits word 0 7 ≡ 0x13 }
    ensures value { result ≡ decoded_immediate word }
    ensures some { IfSome result (λ i. Spells word i) }
{
    let funct3 = field(word, 12, 3);
    if funct3 == 1 || funct3 == 5 {
        return shift(word);
    }
    Some(Instr::Immediate {
        op: immediate_op(funct3)?,
        rd: register(word, 7),
        rs1: register(word, 15),
        immediate: signed(field(word, 20, 12), 1 << 11),
    })
}

/// A shift by a fixed amount (2.4), whose upper seven bits are as in a register-register operation.
fn shift(word: u32) -> Option<Instr>
    requires opcode { bits word 0 7 ≡ 0x13 }
    requires funct3 { (bits word 12 3 ≡ 1) ⊎ (bits word 12 3 ≡ 5) }
    ensures value { result ≡ decoded_shift word }
    ensures some { IfSome result (λ i. Spells word i) }
{
    Some(Instr::Shift {
        op: shift_op(field(word, 12, 3), field(word, 25, 7))?,
        rd: register(word, 7),
        rs1: register(word, 15),
        amount: field(word, 20, 5) as u8,
    })
}

/// A register-register operation (2.4).
fn registers(word: u32) -> Option<Instr>
    requires { bits word 0 7 ≡ 0x33 }
    ensures value { result ≡ decoded_registers word }
    ensures some { IfSome result (λ i. Spells word i) }
{
    Some(Instr::Registers {
        op: register_op(field(word, 12, 3), field(word, 25, 7))?,
        rd: register(word, 7),
        rs1: register(word, 15),
        rs2: register(word, 20),
    })
}

/// ECALL or EBREAK (2.8).
fn system(word: u32) -> Option<Instr>
    requires { bits word 0 7 ≡ 0x73 }
    ensures value { result ≡ decoded_system word }
    ensures some { IfSome result (λ i. Spells word i) }
{
    match word {
        0x0000_0073 => Some(Instr::Ecall),
        0x0010_0073 => Some(Instr::Ebreak),
        _ => None,
    }
}
