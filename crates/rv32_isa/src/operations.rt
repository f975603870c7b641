//! The tables of operations (RISC-V Unprivileged ISA, RV32/64G Instruction Set Listings), each read
//! in both directions.

ghost use Rattle.std.specs.Prelude.{◌≡◌, Some, IfSome};
ghost use Rattle.model.specs.declared.instructions.BranchOp.{BranchOp};
ghost use Rattle.model.specs.declared.instructions.LoadOp.{LoadOp};
ghost use Rattle.model.specs.declared.instructions.StoreOp.{StoreOp};
ghost use Rattle.model.specs.declared.instructions.ImmediateOp.{ImmediateOp};
ghost use Rattle.model.specs.declared.instructions.ShiftOp.{ShiftOp};
ghost use Rattle.model.specs.declared.instructions.RegisterOp.{RegisterOp};
ghost use Rattle.model.specs.Machine.Instructions.{upper_opcode, branch_funct3, load_funct3, store_funct3, immediate_funct3};
ghost use Rattle.model.specs.Machine.Instructions.{shift_funct3, shift_funct7, register_funct3, register_funct7};
ghost use Rattle.model.specs.Machine.Decoding.{branch_op, load_op, store_op, immediate_op, shift_op, register_op};

use model::{BranchOp, ImmediateOp, LoadOp, RegisterOp, ShiftOp, StoreOp, UpperOp};

/// The opcode of an operation on a 20-bit immediate.
pub fn upper_opcode(op: UpperOp) -> u32
    ensures { result ≡ upper_opcode op }
{
    match op {
        UpperOp::Lui => 0x37,
        UpperOp::Auipc => 0x17,
    }
}

/// A branch by its funct3.
pub fn branch_op(funct3: u32) -> Option<BranchOp>
    ensures value { result ≡ branch_op funct3 }
    ensures some { IfSome result (λ op. funct3 ≡ branch_funct3 op) }
    ensures only { (op : BranchOp) → funct3 ≡ branch_funct3 op → result ≡ Some op }
{
    let op = match funct3 {
        0 => BranchOp::Beq,
        1 => BranchOp::Bne,
        4 => BranchOp::Blt,
        5 => BranchOp::Bge,
        6 => BranchOp::Bltu,
        7 => BranchOp::Bgeu,
        _ => return None,
    };
    Some(op)
}

/// The funct3 of a branch.
pub fn branch_funct3(op: BranchOp) -> u32
    ensures { result ≡ branch_funct3 op }
{
    match op {
        BranchOp::Beq => 0,
        BranchOp::Bne => 1,
        BranchOp::Blt => 4,
        BranchOp::Bge => 5,
        BranchOp::Bltu => 6,
        BranchOp::Bgeu => 7,
    }
}

/// A load by its funct3.
pub fn load_op(funct3: u32) -> Option<LoadOp>
    ensures value { result ≡ load_op funct3 }
    ensures some { IfSome result (λ op. funct3 ≡ load_funct3 op) }
    ensures only { (op : LoadOp) → funct3 ≡ load_funct3 op → result ≡ Some op }
{
    let op = match funct3 {
        0 => LoadOp::Lb,
        1 => LoadOp::Lh,
        2 => LoadOp::Lw,
        4 => LoadOp::Lbu,
        5 => LoadOp::Lhu,
        _ => return None,
    };
    Some(op)
}

/// The funct3 of a load.
pub fn load_funct3(op: LoadOp) -> u32
    ensures { result ≡ load_funct3 op }
{
    match op {
        LoadOp::Lb => 0,
        LoadOp::Lh => 1,
        LoadOp::Lw => 2,
        LoadOp::Lbu => 4,
        LoadOp::Lhu => 5,
    }
}

/// A store by its funct3.
pub fn store_op(funct3: u32) -> Option<StoreOp>
    ensures value { result ≡ store_op funct3 }
    ensures some { IfSome result (λ op. funct3 ≡ store_funct3 op) }
    ensures only { (op : StoreOp) → funct3 ≡ store_funct3 op → result ≡ Some op }
{
    let op = match funct3 {
        0 => StoreOp::Sb,
        1 => StoreOp::Sh,
        2 => StoreOp::Sw,
        _ => return None,
    };
    Some(op)
}

/// The funct3 of a store.
pub fn store_funct3(op: StoreOp) -> u32
    ensures { result ≡ store_funct3 op }
{
    match op {
        StoreOp::Sb => 0,
        StoreOp::Sh => 1,
        StoreOp::Sw => 2,
    }
}

/// A register-immediate operation by its funct3.
pub fn immediate_op(funct3: u32) -> Option<ImmediateOp>
    ensures value { result ≡ immediate_op funct3 }
    ensures some { IfSome result (λ op. funct3 ≡ immediate_funct3 op) }
    ensures only { (op : ImmediateOp) → funct3 ≡ immediate_funct3 op → result ≡ Some op }
{
    let op = match funct3 {
        0 => ImmediateOp::Addi,
        2 => ImmediateOp::Slti,
        3 => ImmediateOp::Sltiu,
        4 => ImmediateOp::Xori,
        6 => ImmediateOp::Ori,
        7 => ImmediateOp::Andi,
        _ => return None,
    };
    Some(op)
}

/// The funct3 of a register-immediate operation.
pub fn immediate_funct3(op: ImmediateOp) -> u32
    ensures { result ≡ immediate_funct3 op }
{
    match op {
        ImmediateOp::Addi => 0,
        ImmediateOp::Slti => 2,
        ImmediateOp::Sltiu => 3,
        ImmediateOp::Xori => 4,
        ImmediateOp::Ori => 6,
        ImmediateOp::Andi => 7,
    }
}

/// A shift by a fixed amount by its funct3 and funct7.
pub fn shift_op(funct3: u32, funct7: u32) -> Option<ShiftOp>
    ensures value { result ≡ shift_op funct3 funct7 }
    ensures some { IfSome result (λ op. (funct3 ≡ shift_funct3 op) × (funct7 ≡ shift_funct7 op)) }
    ensures only { (op : ShiftOp) → funct3 ≡ shift_funct3 op → funct7 ≡ shift_funct7 op → result ≡ Some op }
{
    let op = match (funct3, funct7) {
        (1, 0) => ShiftOp::Slli,
        (5, 0) => ShiftOp::Srli,
        (5, 0x20) => ShiftOp::Srai,
        _ => return None,
    };
    Some(op)
}

/// The funct3 and the funct7 of a shift by a fixed amount.
pub fn shift_functs(op: ShiftOp) -> (u32, u32)
    ensures funct3 { result.0 ≡ shift_funct3 op }
    ensures funct7 { result.1 ≡ shift_funct7 op }
{
    match op {
        ShiftOp::Slli => (1, 0),
        ShiftOp::Srli => (5, 0),
        ShiftOp::Srai => (5, 0x20),
    }
}

/// A register-register operation by its funct3 and funct7.
pub fn register_op(funct3: u32, funct7: u32) -> Option<RegisterOp>
    ensures value { result ≡ register_op funct3 funct7 }
    ensures some { IfSome result (λ op. (funct3 ≡ register_funct3 op) × (funct7 ≡ register_funct7 op)) }
    ensures only { (op : RegisterOp) → funct3 ≡ register_funct3 op → funct7 ≡ register_funct7 op → result ≡ Some op }
{
    let op = match (funct3, funct7) {
        (0, 0) => RegisterOp::Add,
        (0, 0x20) => RegisterOp::Sub,
        (1, 0) => RegisterOp::Sll,
        (2, 0) => RegisterOp::Slt,
        (3, 0) => RegisterOp::Sltu,
        (4, 0) => RegisterOp::Xor,
        (5, 0) => RegisterOp::Srl,
        (5, 0x20) => RegisterOp::Sra,
        (6, 0) => RegisterOp::Or,
        (7, 0) => RegisterOp::And,
        _ => return None,
    };
    Some(op)
}

/// The funct3 and the funct7 of a register-register operation.
pub fn register_functs(op: RegisterOp) -> (u32, u32)
    ensures funct3 { result.0 ≡ register_funct3 op }
    ensures funct7 { result.1 ≡ register_funct7 op }
{
    match op {
        RegisterOp::Add => (0, 0),
        RegisterOp::Sub => (0, 0x20),
        RegisterOp::Sll => (1, 0),
        RegisterOp::Slt => (2, 0),
        RegisterOp::Sltu => (3, 0),
        RegisterOp::Xor => (4, 0),
        RegisterOp::Srl => (5, 0),
        RegisterOp::Sra => (5, 0x20),
        RegisterOp::Or => (6, 0),
        RegisterOp::And => (7, 0),
    }
}
