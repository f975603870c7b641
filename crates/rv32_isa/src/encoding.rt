//! From instructions to words.

ghost use Rattle.std.specs.Prelude.{◌≡◌, ◌+◌, ◌*◌, ◌^◌, ◌<◌, ◌↔◌, IsTrue, pos, neg_ℤ, ◌≤ℤ◌, ◌<ℤ◌};
ghost use Rattle.model.specs.Machine.Instructions.{IsImmediate, IsInstr, IsRegister, Spells, b_type, bits, i_type, r_type, s_type, word_of};

use crate::fields::field;
use crate::operations::{
    branch_funct3, immediate_funct3, load_funct3, register_functs, shift_functs, store_funct3,
    upper_opcode,
};
use model::{Instr, Register};

/// The word that spells an instruction whose fields lie in their ranges. FENCE is written with all
/// its sets full.
pub fn encode(instr: Instr) -> u32
    requires { IsInstr instr }
    ensures spells { Spells result instr }
    ensures fence { instr ≡ Instr.Fence → result ≡ 0x0FF0000F }
{
    match instr {
        Instr::Upper { op, rd, immediate } => upper_opcode(op) + rd_bits(rd) + (immediate << 12),
        Instr::Jal { rd, offset } => 0x6F + rd_bits(rd) + jump_bits(offset),
        Instr::Jalr { rd, rs1, offset } => i_type(0x67, rd, 0, rs1, offset),
        Instr::Branch {
            op,
            rs1,
            rs2,
            offset,
        } => b_type(branch_funct3(op), rs1, rs2, offset),
        Instr::Load {
            op,
            rd,
            rs1,
            offset,
        } => i_type(0x03, rd, load_funct3(op), rs1, offset),
        Instr::Store {
            op,
            rs1,
            rs2,
            offset,
        } => s_type(store_funct3(op), rs1, rs2, offset),
        Instr::Immediate {
            op,
            rd,
            rs1,
            immediate,
        } => i_type(0x13, rd, immediate_funct3(op), rs1, immediate),
        Instr::Shift {
            op,
            rd,
            rs1,
            amount,
        } => r_type(0x13, rd, shift_functs(op), rs1, u32::from(amount)),
        Instr::Registers { op, rd, rs1, rs2 } => {
            r_type(0x33, rd, register_functs(op), rs1, u32::from(rs2.0))
        }
        Instr::Fence => 0x0FF0_000F,
        Instr::Ecall => 0x0000_0073,
        Instr::Ebreak => 0x0010_0073,
    }
}

/// A word of R-type with a funct3 and a funct7.
fn r_type(opcode: u32, rd: Register, functs: (u32, u32), rs1: Register, rs2: u32) -> u32
    requires opcode { opcode < 2 ^ 7 }
    requires rd { IsRegister rd }
    requires funct3 { functs.0 < 2 ^ 3 }
    requires funct7 { functs.1 < 2 ^ 7 }
    requires rs1 { IsRegister rs1 }
    requires rs2 { rs2 < 2 ^ 5 }
    ensures { result ≡ r_type opcode rd functs.0 rs1 rs2 functs.1 }
{
    let (funct3, funct7) = functs;
    opcode + rd_bits(rd) + (funct3 << 12) + rs1_bits(rs1) + (rs2 << 20) + (funct7 << 25)
}

/// A word of I-type.
fn i_type(opcode: u32, rd: Register, funct3: u32, rs1: Register, immediate: i32) -> u32
    requires opcode { opcode < 2 ^ 7 }
    requires rd { IsRegister rd }
    requires funct3 { funct3 < 2 ^ 3 }
    requires rs1 { IsRegister rs1 }
    ensures { result ≡ i_type opcode rd funct3 rs1 immediate }
{
    opcode + rd_bits(rd) + (funct3 << 12) + rs1_bits(rs1) + immediate_bits(immediate)
}

/// A store, the only S-type.
fn s_type(funct3: u32, rs1: Register, rs2: Register, immediate: i32) -> u32
    requires funct3 { funct3 < 2 ^ 3 }
    requires rs1 { IsRegister rs1 }
    requires rs2 { IsRegister rs2 }
    ensures { result ≡ s_type 0x23 funct3 rs1 rs2 immediate }
{
    0x23 + (funct3 << 12) + rs1_bits(rs1) + rs2_bits(rs2) + store_bits(immediate)
}

/// A branch, the only B-type.
fn b_type(funct3: u32, rs1: Register, rs2: Register, offset: i32) -> u32
    requires funct3 { funct3 < 2 ^ 3 }
    requires rs1 { IsRegister rs1 }
    requires rs2 { IsRegister rs2 }
    ensures { result ≡ b_type 0x63 funct3 rs1 rs2 offset }
{
    0x63 + (funct3 << 12) + rs1_bits(rs1) + rs2_bits(rs2) + branch_bits(offset)
}

/// Whether the fields of an instruction lie in their ranges, so that a word spells it.
pub fn has_spelling(instr: Instr) -> bool
    ensures { IsTrue result ↔ IsInstr instr }
{
    match instr {
        Instr::Upper { rd, immediate, .. } => is_register(rd) && immediate < 1 << 20,
        Instr::Jal { rd, offset } => is_register(rd) && is_offset(offset, 1 << 20),
        Instr::Jalr { rd, rs1, offset } => {
            is_register(rd) && is_register(rs1) && is_immediate(offset)
        }
        Instr::Branch {
            rs1,
            rs2,
            offset,
            ..
        } => { is_register(rs1) && is_register(rs2) && is_offset(offset, 1 << 12) }
        Instr::Load {
            rd,
            rs1,
            offset,
            ..
        } => { is_register(rd) && is_register(rs1) && is_immediate(offset) }
        Instr::Store {
            rs1,
            rs2,
            offset,
            ..
        } => { is_register(rs1) && is_register(rs2) && is_immediate(offset) }
        Instr::Immediate {
            rd,
            rs1,
            immediate,
            ..
        } => { is_register(rd) && is_register(rs1) && is_immediate(immediate) }
        Instr::Shift {
            rd,
            rs1,
            amount,
            ..
        } => { is_register(rd) && is_register(rs1) && amount < 1 << 5 }
        Instr::Registers { rd, rs1, rs2, .. } => {
            is_register(rd) && is_register(rs1) && is_register(rs2)
        }
        Instr::Fence | Instr::Ecall | Instr::Ebreak => true,
    }
}

fn is_register(register: Register) -> bool
    ensures { IsTrue result ↔ IsRegister register }
{
    register.0 < 32
}

fn is_immediate(immediate: i32) -> bool
    ensures { IsTrue result ↔ IsImmediate immediate }
{
    -2048 <= immediate && immediate <= 2047
}

/// Whether the offset is even, and from `-limit` to below `limit`.
fn is_offset(offset: i32, limit: i32) -> bool
    requires positive { pos 0 ≤ℤ limit }
    ensures { IsTrue result ↔ ((neg_ℤ limit ≤ℤ offset) × (offset <ℤ limit) × (bits (word_of offset) 0 1 ≡ 0)) }
{
    -limit <= offset && offset < limit && field(offset.cast_unsigned(), 0, 1) == 0
}

/// The register in its place as rd.
fn rd_bits(rd: Register) -> u32
    requires { IsRegister rd }
    ensures { result ≡ 2 ^ 7 * rd.0 }
{
    (rd.0 as u32) << 7
}

/// The register in its place as rs1.
fn rs1_bits(rs1: Register) -> u32
    requires { IsRegister rs1 }
    ensures { result ≡ 2 ^ 15 * rs1.0 }
{
    (rs1.0 as u32) << 15
}

/// The register in its place as rs2.
fn rs2_bits(rs2: Register) -> u32
    requires { IsRegister rs2 }
    ensures { result ≡ 2 ^ 20 * rs2.0 }
{
    (rs2.0 as u32) << 20
}

/// An I-type immediate in its place.
fn immediate_bits(immediate: i32) -> u32
    ensures { result ≡ 2 ^ 20 * bits (word_of immediate) 0 12 }
{
    field(immediate.cast_unsigned(), 0, 12) << 20
}

/// An S-type immediate in its places.
fn store_bits(immediate: i32) -> u32
    ensures { let n = word_of immediate in result ≡ 2 ^ 7 * bits n 0 5 + 2 ^ 25 * bits n 5 7 }
{
    let bits = immediate.cast_unsigned();
    (field(bits, 0, 5) << 7) + (field(bits, 5, 7) << 25)
}

/// A B-type offset in its places.
fn branch_bits(offset: i32) -> u32
    ensures { let n = word_of offset in
        result ≡ 2 ^ 7 * bits n 11 1 + 2 ^ 8 * bits n 1 4 + 2 ^ 25 * bits n 5 6 + 2 ^ 31 * bits n 12 1 }
{
    let bits = offset.cast_unsigned();
    (field(bits, 11, 1) << 7)
        + (field(bits, 1, 4) << 8)
        + (field(bits, 5, 6) << 25)
        + (field(bits, 12, 1) << 31)
}

/// A J-type offset in its places.
fn jump_bits(offset: i32) -> u32
    ensures { let n = word_of offset in
        result ≡ 2 ^ 12 * bits n 12 8 + 2 ^ 20 * bits n 11 1 + 2 ^ 21 * bits n 1 10 + 2 ^ 31 * bits n 20 1 }
{
    let bits = offset.cast_unsigned();
    (field(bits, 12, 8) << 12)
        + (field(bits, 11, 1) << 20)
        + (field(bits, 1, 10) << 21)
        + (field(bits, 20, 1) << 31)
}
