//! What operations make of their operands (RISC-V Unprivileged ISA, 2.4 to 2.6).

ghost use Rattle.std.specs.Prelude.{◌≡◌, ◌*◌, ◌+◌, ◌<◌, ◌^◌};
ghost use Rattle.model.specs.Machine.ProgramMemory.{FitsSize};
ghost use Rattle.model.specs.Machine.Effects.{immediate_result, is_taken, load_result, load_size, register_result, shift_result, store_size, upper_result};

use model::{AccessSize, BranchOp, ImmediateOp, LoadOp, RegisterOp, ShiftOp, StoreOp, UpperOp};

/// LUI or AUIPC of a 20-bit immediate.
pub fn upper_result(op: UpperOp, pc: u32, immediate: u32) -> u32
    requires { immediate < 2 ^ 20 }
    ensures { result ≡ upper_result op pc immediate }
{
    match op {
        UpperOp::Lui => immediate << 12,
        UpperOp::Auipc => pc.wrapping_add(immediate << 12),
    }
}

/// Whether a branch is taken.
pub fn is_taken(op: BranchOp, a: u32, b: u32) -> bool
    ensures { result ≡ is_taken op a b }
{
    match op {
        BranchOp::Beq => a == b,
        BranchOp::Bne => a != b,
        BranchOp::Blt => a.cast_signed() < b.cast_signed(),
        BranchOp::Bge => a.cast_signed() >= b.cast_signed(),
        BranchOp::Bltu => a < b,
        BranchOp::Bgeu => a >= b,
    }
}

/// How much a load reads.
pub fn load_size(op: LoadOp) -> AccessSize
    ensures { result ≡ load_size op }
{
    match op {
        LoadOp::Lb | LoadOp::Lbu => AccessSize::Byte,
        LoadOp::Lh | LoadOp::Lhu => AccessSize::Halfword,
        LoadOp::Lw => AccessSize::Word,
    }
}

/// The register's value after a load of a number of this size.
pub fn load_result(op: LoadOp, loaded: u32) -> u32
    requires { FitsSize (load_size op) loaded }
    ensures { result ≡ load_result op loaded }
{
    match op {
        LoadOp::Lb => i32::from((loaded as u8).cast_signed()).cast_unsigned(),
        LoadOp::Lh => i32::from((loaded as u16).cast_signed()).cast_unsigned(),
        LoadOp::Lw | LoadOp::Lbu | LoadOp::Lhu => loaded,
    }
}

/// How much a store writes.
pub fn store_size(op: StoreOp) -> AccessSize
    ensures { result ≡ store_size op }
{
    match op {
        StoreOp::Sb => AccessSize::Byte,
        StoreOp::Sh => AccessSize::Halfword,
        StoreOp::Sw => AccessSize::Word,
    }
}

/// A register-immediate operation.
pub fn immediate_result(op: ImmediateOp, value: u32, immediate: i32) -> u32
    ensures { result ≡ immediate_result op value immediate }
{
    let word = immediate.cast_unsigned();
    match op {
        ImmediateOp::Addi => value.wrapping_add(word),
        ImmediateOp::Slti => u32::from(value.cast_signed() < immediate),
        ImmediateOp::Sltiu => u32::from(value < word),
        ImmediateOp::Xori => value ^ word,
        ImmediateOp::Ori => value | word,
        ImmediateOp::Andi => value & word,
    }
}

/// A shift by less than 32.
pub fn shift_result(op: ShiftOp, value: u32, amount: u32) -> u32
    requires { amount < 2 ^ 5 }
    ensures { result ≡ shift_result op value amount }
{
    match op {
        ShiftOp::Slli => value << amount,
        ShiftOp::Srli => value >> amount,
        ShiftOp::Srai => (value.cast_signed() >> amount).cast_unsigned(),
    }
}

/// A register-register operation.
pub fn register_result(op: RegisterOp, a: u32, b: u32) -> u32
    ensures { result ≡ register_result op a b }
{
    match op {
        RegisterOp::Add => a.wrapping_add(b),
        RegisterOp::Sub => a.wrapping_sub(b),
        RegisterOp::Sll => shift_result(ShiftOp::Slli, a, b % 32),
        RegisterOp::Slt => u32::from(a.cast_signed() < b.cast_signed()),
        RegisterOp::Sltu => u32::from(a < b),
        RegisterOp::Xor => a ^ b,
        RegisterOp::Srl => shift_result(ShiftOp::Srli, a, b % 32),
        RegisterOp::Sra => shift_result(ShiftOp::Srai, a, b % 32),
        RegisterOp::Or => a | b,
        RegisterOp::And => a & b,
    }
}
