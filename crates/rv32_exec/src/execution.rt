//! The effect of one instruction.

ghost use Rattle.std.specs.Prelude.{◌≡◌, ◌%◌, ◌==◌, if◌then◌else◌};
ghost use Rattle.model.specs.Machine.Instructions.{IsInstr, IsRegister};
ghost use Rattle.model.specs.Machine.ProgramMemory.{stored, write};
ghost use Rattle.model.specs.Machine.Effects.{advanced, effect, next_pc, plus, stores, store_size};

use crate::results::{
    immediate_result, is_taken, load_result, load_size, register_result, shift_result, store_size,
    upper_result,
};
use crate::{Registers, View};
use model::{Cause, Exec, Instr, Register, StoreOp};

/// The register that loses what is written to it.
const ZERO: Register = Register(0);

/// Runs one instruction. Where it does not answer `Next`, nothing has changed.
#[tactic(auto, unfolding(model::specs::Machine::Effects::effect))]
pub fn exec<R: Registers, V: View>(registers: &mut R, instr: Instr, view: &mut V) -> Exec
    requires { IsInstr instr }
    ensures outcome { result ≡ (effect (R.file registers.old) (V.content view.old) instr).exec }
    ensures registers { R.file registers.new ≡ (effect (R.file registers.old) (V.content view.old) instr).registers }
    ensures beside { R.rest registers.new ≡ R.rest registers.old }
    ensures content { V.content view.new ≡ (effect (R.file registers.old) (V.content view.old) instr).content }
    ensures rest { V.rest view.new ≡ V.rest view.old }
{
    match instr {
        Instr::Upper { op, rd, immediate } => {
            let value = upper_result(op, registers.pc(), immediate);
            write_register(registers, rd, value)
        }
        Instr::Jal { rd, offset } => {
            let target = plus(registers.pc(), offset);
            jump(registers, rd, target)
        }
        Instr::Jalr { rd, rs1, offset } => {
            let sum = plus(registers.read(rs1), offset);
            jump(registers, rd, sum - sum % 2)
        }
        Instr::Branch {
            op,
            rs1,
            rs2,
            offset,
        } => {
            if is_taken(op, registers.read(rs1), registers.read(rs2)) {
                let target = plus(registers.pc(), offset);
                jump(registers, ZERO, target)
            } else {
                advance(registers)
            }
        }
        Instr::Load {
            op,
            rd,
            rs1,
            offset,
        } => {
            let address = plus(registers.read(rs1), offset);
            match view.load(address, load_size(op)) {
                Ok(number) => write_register(registers, rd, load_result(op, number)),
                Err(fault) => Exec::Memory(fault.address, fault.access),
            }
        }
        Instr::Store {
            op,
            rs1,
            rs2,
            offset,
        } => {
            let address = plus(registers.read(rs1), offset);
            let value = registers.read(rs2);
            store(registers, view, op, address, value)
        }
        Instr::Immediate {
            op,
            rd,
            rs1,
            immediate,
        } => {
            let value = immediate_result(op, registers.read(rs1), immediate);
            write_register(registers, rd, value)
        }
        Instr::Shift {
            op,
            rd,
            rs1,
            amount,
        } => {
            let value = shift_result(op, registers.read(rs1), u32::from(amount));
            write_register(registers, rd, value)
        }
        Instr::Registers { op, rd, rs1, rs2 } => {
            let value = register_result(op, registers.read(rs1), registers.read(rs2));
            write_register(registers, rd, value)
        }
        Instr::Fence => advance(registers),
        Instr::Ecall => Exec::Ecall,
        Instr::Ebreak => Exec::Trap(Cause::Illegal),
    }
}

/// The sum of a word and an offset, which wraps.
pub fn plus(word: u32, offset: i32) -> u32
    ensures { result ≡ plus word offset }
{
    word.wrapping_add(offset.cast_unsigned())
}

/// Goes on after the instruction.
pub fn advance<R: Registers>(registers: &mut R) -> Exec
    ensures outcome { result ≡ Exec.Next }
    ensures registers { R.file registers.new ≡ advanced (R.file registers.old) }
    ensures beside { R.rest registers.new ≡ R.rest registers.old }
{
    let next = registers.pc().wrapping_add(4);
    registers.set_pc(next);
    Exec::Next
}

/// Writes a register and goes on after the instruction.
pub fn write_register<R: Registers>(registers: &mut R, rd: Register, value: u32) -> Exec
    requires { IsRegister rd }
    ensures outcome { result ≡ Exec.Next }
    ensures registers { R.file registers.new ≡ advanced (write (R.file registers.old) rd value) }
    ensures beside { R.rest registers.new ≡ R.rest registers.old }
{
    registers.write(rd, value);
    advance(registers)
}

/// Goes on at an address and writes that of the next instruction, unless the target is misaligned
/// (2.5).
fn jump<R: Registers>(registers: &mut R, rd: Register, target: u32) -> Exec
    requires { IsRegister rd }
    ensures outcome { result ≡ (if target % 4 == 0 then Exec.Next else Exec.Trap Cause.Misaligned) }
    ensures registers { R.file registers.new
        ≡ (if target % 4 == 0 then record (write (R.file registers.old) rd (next_pc (R.file registers.old))) { pc = target } else R.file registers.old) }
    ensures beside { R.rest registers.new ≡ R.rest registers.old }
{
    if target % 4 != 0 {
        return Exec::Trap(Cause::Misaligned);
    }
    let next = registers.pc().wrapping_add(4);
    registers.write(rd, next);
    registers.set_pc(target);
    Exec::Next
}

/// Stores at an address (2.6).
fn store<R: Registers, V: View>(
    registers: &mut R,
    view: &mut V,
    op: StoreOp,
    address: u32,
    value: u32,
) -> Exec
    ensures outcome { let content = V.content view.old in
        result ≡ (stores (R.file registers.old) content (stored content (store_size op) address value)).exec }
    ensures registers { let content = V.content view.old in
        R.file registers.new ≡ (stores (R.file registers.old) content (stored content (store_size op) address value)).registers }
    ensures beside { R.rest registers.new ≡ R.rest registers.old }
    ensures content { let content = V.content view.old in
        V.content view.new ≡ (stores (R.file registers.old) content (stored content (store_size op) address value)).content }
    ensures rest { V.rest view.new ≡ V.rest view.old }
{
    match view.store(address, store_size(op), value) {
        Ok(()) => advance(registers),
        Err(fault) => Exec::Memory(fault.address, fault.access),
    }
}
