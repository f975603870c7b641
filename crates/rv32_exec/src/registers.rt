//! The registers of one thread.

ghost use Rattle.std.specs.Prelude.{◌≡◌, ◌^◌, ◌<◌, replicate, length};
ghost use Rattle.model.specs.Machine.Instructions.{IsRegister};
ghost use Rattle.model.specs.Machine.ProgramMemory.{RegisterFile, read, write};

use model::Register;
use std::marker::Model;

/// The registers of one thread, wherever they are kept.
pub trait Registers {
    /// The pc and the words of the registers.
    ghost file: { Self → RegisterFile };

    /// What else the owner of the registers holds. No write changes it.
    ghost Rest: { Type 0 };

    ghost rest: { Self → Rest };

    /// The address of the instruction that runs next.
    fn pc(&self) -> u32
        ensures { result ≡ (file self.now).pc };

    /// Lets the thread go on at this address.
    fn set_pc(&mut self, pc: u32)
        ensures file { file self.new ≡ record (file self.old) { pc = pc } }
        ensures rest { rest self.new ≡ rest self.old };

    /// The value of a register.
    fn read(&self, register: Register) -> u32
        requires { IsRegister register }
        ensures { result ≡ read (file self.now) register };

    /// Sets a register. Register 0 stays zero.
    fn write(&mut self, register: Register, value: u32)
        requires { IsRegister register }
        ensures file { file self.new ≡ write (file self.old) register value }
        ensures rest { rest self.new ≡ rest self.old };
}

/// The pc and the 32 registers, of which register 0 reads as zero
/// (RISC-V Unprivileged ISA, 2.1). Clauses see them as a `RegisterFile`.
#[derive(Clone, Copy, Debug, PartialEq, Eq)]
pub struct Regs {
    pc: u32,
    words: [u32; 32],
}

impl Model for Regs {
    ghost Value = { RegisterFile };

    ghost view = { λ r. record { pc = r.pc; words = r.words } };

    ghost inverse = { λ v. record { pc = v.pc; words = v.words } };
}

impl Regs {
    /// All registers are 0, and so is the pc.
    pub fn new() -> Self
        ensures { result ≡ record { pc = 0; words = replicate 32 0 } }
    {
        Regs {
            pc: 0,
            words: [0; 32],
        }
    }

    /// The registers of a thread: its pc, and the words of registers 0 to 31.
    pub fn from_words(pc: u32, words: [u32; 32]) -> Self
        ensures { result ≡ record { pc = pc; words = words } }
    {
        Regs { pc, words }
    }

    /// The words of registers 0 to 31. The first is never read as a register.
    pub fn words(&self) -> &[u32; 32]
        ensures { result.now ≡ self.now.words }
    {
        &self.words
    }

    /// The address of the instruction that runs next.
    pub fn pc(&self) -> u32
        ensures { result ≡ self.now.pc }
    {
        self.pc
    }

    /// Lets the thread go on at this address.
    pub fn set_pc(&mut self, pc: u32)
        ensures { self.new ≡ record self.old { pc = pc } }
    {
        self.pc = pc;
    }

    /// The value of a register.
    pub fn read(&self, register: Register) -> u32
        requires { IsRegister register }
        ensures { result ≡ read self.now register }
    {
        if register.0 == 0 {
            0
        } else {
            self.words[register.0 as usize]
        }
    }

    /// Sets a register. Register 0 stays zero.
    pub fn write(&mut self, register: Register, value: u32)
        requires { IsRegister register }
        ensures { self.new ≡ write self.old register value }
    {
        if register.0 != 0 {
            self.words[register.0 as usize] = value;
        }
    }
}

impl Registers for Regs {
    ghost file = { λ registers. registers };

    ghost Rest = { Unit {0} };

    ghost rest = { λ registers. tt };

    fn pc(&self) -> u32 {
        Regs::pc(self)
    }

    fn set_pc(&mut self, pc: u32) {
        Regs::set_pc(self, pc);
    }

    fn read(&self, register: Register) -> u32 {
        Regs::read(self, register)
    }

    fn write(&mut self, register: Register, value: u32) {
        Regs::write(self, register, value);
    }
}
