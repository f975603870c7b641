//! The instructions of RV32I (RISC-V Unprivileged ISA, chapter 2), grouped by format, and what may
//! come of one.

ghost use Rattle.std.specs.Prelude.{◌≡◌};
ghost use Rattle.model.specs.Machine.Effects.{access_number, cause_number};

/// The number of a register, 0 to 31. Register 0 reads as zero.
#[derive(Clone, Copy, Debug, PartialEq, Eq)]
pub struct Register(pub u8);

impl Register {
    /// `a0` of the calling convention: a system call's capability, and what it answers.
    pub const A0: Register = Register(10);
    /// `a1` of the calling convention: a message's info word.
    pub const A1: Register = Register(11);
    /// `a7` of the calling convention: a system call's number.
    pub const A7: Register = Register(17);
}

/// What an instruction makes of a 20-bit immediate (2.4).
#[derive(Clone, Copy, Debug, PartialEq, Eq)]
pub enum UpperOp {
    /// The immediate in bits 12 to 31.
    Lui,
    /// The pc plus that.
    Auipc,
}

/// When a branch is taken (2.5): by a comparison of `rs1` with `rs2`.
#[derive(Clone, Copy, Debug, PartialEq, Eq)]
pub enum BranchOp {
    Beq,
    Bne,
    /// Less, of signed numbers.
    Blt,
    /// Greater or equal, of signed numbers.
    Bge,
    /// Less, of unsigned numbers.
    Bltu,
    /// Greater or equal, of unsigned numbers.
    Bgeu,
}

/// What a load reads (2.6).
#[derive(Clone, Copy, Debug, PartialEq, Eq)]
pub enum LoadOp {
    /// A byte, with its sign.
    Lb,
    /// Two bytes, with their sign.
    Lh,
    Lw,
    /// A byte, without sign.
    Lbu,
    /// Two bytes, without sign.
    Lhu,
}

/// What a store writes (2.6): the low byte, the low two bytes, or all four.
#[derive(Clone, Copy, Debug, PartialEq, Eq)]
pub enum StoreOp {
    Sb,
    Sh,
    Sw,
}

/// An operation on a register and a 12-bit immediate (2.4).
#[derive(Clone, Copy, Debug, PartialEq, Eq)]
pub enum ImmediateOp {
    Addi,
    /// 1 if less, of signed numbers, else 0.
    Slti,
    /// 1 if less, of unsigned numbers, else 0.
    Sltiu,
    Xori,
    Ori,
    Andi,
}

/// A shift of a register by a fixed amount (2.4).
#[derive(Clone, Copy, Debug, PartialEq, Eq)]
pub enum ShiftOp {
    Slli,
    /// To the right, with zeros.
    Srli,
    /// To the right, with the sign.
    Srai,
}

/// An operation on two registers (2.4). Shifts use the low five bits of `rs2`.
#[derive(Clone, Copy, Debug, PartialEq, Eq)]
pub enum RegisterOp {
    Add,
    Sub,
    Sll,
    /// 1 if less, of signed numbers, else 0.
    Slt,
    /// 1 if less, of unsigned numbers, else 0.
    Sltu,
    Xor,
    /// To the right, with zeros.
    Srl,
    /// To the right, with the sign.
    Sra,
    Or,
    And,
}

/// One instruction, with its fields named as in the manual.
#[derive(Clone, Copy, Debug, PartialEq, Eq)]
pub enum Instr {
    /// U-type: `rd` becomes the operation on the immediate, 0 to 2^20 - 1.
    Upper {
        op: UpperOp,
        rd: Register,
        immediate: u32,
    },
    /// J-type: jumps by `offset` bytes, an even number from -2^20 to 2^20 - 2, and writes the
    /// address of the next instruction to `rd`.
    Jal {
        rd: Register,
        offset: i32,
    },
    /// I-type: jumps to the sum of `rs1` and the offset, -2048 to 2047, without its lowest bit, and
    /// writes the address of the next instruction to `rd`.
    Jalr {
        rd: Register,
        rs1: Register,
        offset: i32,
    },
    /// B-type: jumps by `offset` bytes, an even number from -4096 to 4094, if the comparison holds.
    Branch {
        op: BranchOp,
        rs1: Register,
        rs2: Register,
        offset: i32,
    },
    /// I-type: `rd` becomes what memory holds at the sum of `rs1` and the offset, -2048 to 2047.
    Load {
        op: LoadOp,
        rd: Register,
        rs1: Register,
        offset: i32,
    },
    /// S-type: stores `rs2` at the sum of `rs1` and the offset, -2048 to 2047.
    Store {
        op: StoreOp,
        rs1: Register,
        rs2: Register,
        offset: i32,
    },
    /// I-type: `rd` becomes the operation on `rs1` and the immediate, -2048 to 2047.
    Immediate {
        op: ImmediateOp,
        rd: Register,
        rs1: Register,
        immediate: i32,
    },
    /// I-type: `rd` becomes `rs1` shifted by the amount, 0 to 31.
    Shift {
        op: ShiftOp,
        rd: Register,
        rs1: Register,
        amount: u8,
    },
    /// R-type: `rd` becomes the operation on `rs1` and `rs2`.
    Registers {
        op: RegisterOp,
        rd: Register,
        rs1: Register,
        rs2: Register,
    },
    /// Orders memory accesses (2.7), which does nothing here.
    Fence,
    /// Calls the kernel (2.8).
    Ecall,
    /// Asks for a debugger (2.8), which there is none of: a trap.
    Ebreak,
}

/// How many bytes a load or store moves.
#[derive(Clone, Copy, Debug, PartialEq, Eq)]
pub enum AccessSize {
    /// One byte.
    Byte,
    /// Two bytes.
    Halfword,
    /// Four bytes.
    Word,
}

/// What an access to memory is for. The numbers are those that a fault message carries.
#[derive(Clone, Copy, Debug, PartialEq, Eq)]
pub enum Access {
    Load = 1,
    Store = 2,
    Fetch = 3,
}

impl Access {
    /// The access's number, 1 to 3.
    pub fn number(self) -> u8
        ensures { result ≡ access_number self }
    {
        self as u8
    }
}

/// An access that failed.
#[derive(Clone, Copy, Debug, PartialEq, Eq)]
pub struct MemoryFault {
    /// The first byte address without the right.
    pub address: u32,
    /// What the access was for.
    pub access: Access,
}

/// A virtual address that names no place in memory for an access.
#[derive(Clone, Copy, Debug, PartialEq, Eq)]
pub struct PageFault;

/// Why an instruction traps. The numbers are those that a fault message carries.
#[derive(Clone, Copy, Debug, PartialEq, Eq)]
pub enum Cause {
    /// The word is no instruction, or is EBREAK.
    Illegal = 1,
    /// A jump or a taken branch goes to an address that is no multiple of 4.
    Misaligned = 2,
}

impl Cause {
    /// The cause's number, 1 or 2.
    pub fn number(self) -> u8
        ensures { result ≡ cause_number self }
    {
        self as u8
    }
}

/// What came of one instruction.
#[derive(Clone, Copy, Debug, PartialEq, Eq)]
pub enum Exec {
    /// It was carried out, and the pc is that of the next instruction.
    Next,
    /// It calls the kernel. Nothing has changed.
    Ecall,
    /// It traps. Nothing has changed.
    Trap(Cause),
    /// It reaches a byte at this address without the right for this access. Nothing has changed.
    Memory(u32, Access),
}
