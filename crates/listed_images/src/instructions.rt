//! Instructions in the words of a text. Branches and jumps have the address that they go to in place of a label.

use model::{
    BranchOp, ImmediateOp, Instr, LoadOp, Register, RegisterOp, ShiftOp, StoreOp, UpperOp,
};
use std::alloc::AllocError;

/// The name of an operation on a 20-bit immediate.
fn upper_name(op: UpperOp) -> &'static str {
    match op {
        UpperOp::Lui => "lui",
        UpperOp::Auipc => "auipc",
    }
}

/// The name of a branch.
fn branch_name(op: BranchOp) -> &'static str {
    match op {
        BranchOp::Beq => "beq",
        BranchOp::Bne => "bne",
        BranchOp::Blt => "blt",
        BranchOp::Bge => "bge",
        BranchOp::Bltu => "bltu",
        BranchOp::Bgeu => "bgeu",
    }
}

/// The name of a load.
fn load_name(op: LoadOp) -> &'static str {
    match op {
        LoadOp::Lb => "lb",
        LoadOp::Lh => "lh",
        LoadOp::Lw => "lw",
        LoadOp::Lbu => "lbu",
        LoadOp::Lhu => "lhu",
    }
}

/// The name of a store.
fn store_name(op: StoreOp) -> &'static str {
    match op {
        StoreOp::Sb => "sb",
        StoreOp::Sh => "sh",
        StoreOp::Sw => "sw",
    }
}

/// The name of an operation on a register and an immediate.
fn immediate_name(op: ImmediateOp) -> &'static str {
    match op {
        ImmediateOp::Addi => "addi",
        ImmediateOp::Slti => "slti",
        ImmediateOp::Sltiu => "sltiu",
        ImmediateOp::Xori => "xori",
        ImmediateOp::Ori => "ori",
        ImmediateOp::Andi => "andi",
    }
}

/// The name of a shift by a fixed amount.
fn shift_name(op: ShiftOp) -> &'static str {
    match op {
        ShiftOp::Slli => "slli",
        ShiftOp::Srli => "srli",
        ShiftOp::Srai => "srai",
    }
}

/// The name of an operation on two registers.
fn register_name(op: RegisterOp) -> &'static str {
    match op {
        RegisterOp::Add => "add",
        RegisterOp::Sub => "sub",
        RegisterOp::Sll => "sll",
        RegisterOp::Slt => "slt",
        RegisterOp::Sltu => "sltu",
        RegisterOp::Xor => "xor",
        RegisterOp::Srl => "srl",
        RegisterOp::Sra => "sra",
        RegisterOp::Or => "or",
        RegisterOp::And => "and",
    }
}

/// Puts `addi x1 x2 4`.
fn put_numbered(
    text: &mut String,
    name: &str,
    first: Register,
    second: Register,
    number: i32,
) -> Result<(), AllocError> {
    let (first, second) = (first.0, second.0);
    write!(text, "{name} x{first} x{second} {number}")
}

/// Puts `lw x1 4(x2)`.
fn put_addressed(
    text: &mut String,
    name: &str,
    register: Register,
    offset: i32,
    base: Register,
) -> Result<(), AllocError> {
    let (register, base) = (register.0, base.0);
    write!(text, "{name} x{register} {offset}(x{base})")
}

/// Puts `add x1 x2 x3`.
fn put_registers(
    text: &mut String,
    name: &str,
    rd: Register,
    rs1: Register,
    rs2: Register,
) -> Result<(), AllocError> {
    let (rd, rs1, rs2) = (rd.0, rs1.0, rs2.0);
    write!(text, "{name} x{rd} x{rs1} x{rs2}")
}

/// Puts `beq x1 x2` and an address.
fn put_branch(
    text: &mut String,
    op: BranchOp,
    rs1: Register,
    rs2: Register,
    target: u32,
) -> Result<(), AllocError> {
    let name = branch_name(op);
    let (rs1, rs2) = (rs1.0, rs2.0);
    write!(text, "{name} x{rs1} x{rs2} {target:#x}")
}

/// Puts a name, a register and a number: `lui x1 0x2`.
fn put_single(
    text: &mut String,
    name: &str,
    register: Register,
    number: u32,
) -> Result<(), AllocError> {
    let register = register.0;
    write!(text, "{name} x{register} {number:#x}")
}

/// Puts the instruction at an address.
pub(crate) fn put_instruction(
    text: &mut String,
    address: u32,
    instr: Instr,
) -> Result<(), AllocError> {
    match instr {
        Instr::Upper { op, rd, immediate } => put_single(text, upper_name(op), rd, immediate),
        Instr::Jal { rd, offset } => {
            let target = address.wrapping_add(offset.cast_unsigned());
            put_single(text, "jal", rd, target)
        }
        Instr::Jalr { rd, rs1, offset } => put_addressed(text, "jalr", rd, offset, rs1),
        Instr::Branch {
            op,
            rs1,
            rs2,
            offset,
        } => {
            let target = address.wrapping_add(offset.cast_unsigned());
            put_branch(text, op, rs1, rs2, target)
        }
        Instr::Load {
            op,
            rd,
            rs1,
            offset,
        } => put_addressed(text, load_name(op), rd, offset, rs1),
        Instr::Store {
            op,
            rs1,
            rs2,
            offset,
        } => put_addressed(text, store_name(op), rs2, offset, rs1),
        Instr::Immediate {
            op,
            rd,
            rs1,
            immediate,
        } => put_numbered(text, immediate_name(op), rd, rs1, immediate),
        Instr::Shift {
            op,
            rd,
            rs1,
            amount,
        } => put_numbered(text, shift_name(op), rd, rs1, i32::from(amount)),
        Instr::Registers { op, rd, rs1, rs2 } => {
            put_registers(text, register_name(op), rd, rs1, rs2)
        }
        Instr::Fence => text.push_str("fence"),
        Instr::Ecall => text.push_str("ecall"),
        Instr::Ebreak => text.push_str("ebreak"),
    }
}
