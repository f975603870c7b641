//! Instructions: their operands in the manual's order, and loads, stores and `jalr` as `lw x1 4(x2)`.

ghost use Rattle.std.specs.Prelude.{◌≡◌, ◌==◌, ◌<◌, ◌≤ℤ◌, IfOk, Ok, Some, pos, negsuc, option_map, position, drop};
ghost use Rattle.asm_line.specs.Instructions.{address_first, address_of, address_in_parts, bare_line, bare_of, branch_line, coded, immediate_line};
ghost use Rattle.asm_line.specs.Instructions.{immediate_of, instruction_of, jump_line, jump_register_line, load_line, opened, unclosed, register_and_address};
ghost use Rattle.asm_line.specs.Instructions.{register_operand, registers_and_number_of, registers_line, shift_line, spelling, store_line, upper_line};
ghost use Rattle.model.specs.Machine.Instructions.{IsInstr};

use crate::faults::LineFault;
use crate::keywords::is;
use crate::lines::Code;
use crate::numbers::{between, number_in};
use crate::operations::{
    branch_op, immediate_op, load_op, register_op, shift_op, store_op, upper_op,
};
use crate::registers::register_in;
use crate::words::Words;
use rv32_isa::{
    BranchOp, ImmediateOp, Instr, LoadOp, Register, RegisterOp, ShiftOp, StoreOp, UpperOp, encode,
};

/// A 12-bit immediate.
#[tactic(auto, unfolding(crate::specs::Instructions::immediate_of))]
fn immediate_in(number: i64) -> Result<i32, LineFault>
    ensures value { result ≡ immediate_of number }
    ensures range { IfOk result (λ n. (negsuc 2047 ≤ℤ n) × (n ≤ℤ pos 2047)) }
{
    if -2048 <= number && number <= 2047 {
        Ok(number as i32)
    } else {
        Err(LineFault::Range)
    }
}

/// A register, and the words after it.
fn register(words: Words<'_>) -> Result<(Register, Words<'_>), LineFault>
    ensures value { result ≡ register_operand words.entry }
    ensures small { IfOk result (λ x. x.0.0 < 32) }
{
    let (number, words) = words.register()?;
    Ok((Register(number), words))
}

/// What is before the parenthesis with which a word ends.
fn unclosed(word: &[u8]) -> Option<&[u8]>
    ensures { option_map (λ text. text.now) result ≡ unclosed word.now }
{
    match word {
        [front @ .., b')'] => Some(front),
        _ => None,
    }
}

/// Where the first parenthesis is.
fn opening(text: &[u8]) -> Option<usize>
    ensures { result ≡ position (λ byte. byte == 40) text.now }
{
    text.iter().position(|byte| *byte == b'(')
}

/// What follows the first byte.
fn behind_first(text: &[u8]) -> &[u8]
    ensures { result.now ≡ drop 1 text.now }
{
    match text {
        [_, rest @ ..] => rest,
        [] => text,
    }
}

/// What is before the first parenthesis and after it.
fn opened(text: &[u8]) -> Option<(&[u8], &[u8])>
    ensures { option_map (λ parts. (parts.0.now, parts.1.now)) result ≡ opened text.now }
{
    match opening(text) {
        Some(at) => {
            let (front, rest) = text.split_at(at);
            Some((front, behind_first(rest)))
        }
        None => None,
    }
}

/// An offset and a register, as `4` and `x2`.
fn address_parts(offset: &[u8], base: &[u8]) -> Result<(i64, Register), LineFault>
    ensures value { result ≡ address_in_parts (Some (offset.now, base.now)) }
    ensures small { IfOk result (λ x. x.1.0 < 32) }
{
    let number = register_in(base)?;
    Ok((number_in(offset)?, Register(number)))
}

/// An offset and a register, as `4(x2)`.
#[tactic(auto, unfolding(crate::specs::Instructions::address_of))]
fn address_in(word: &[u8]) -> Result<(i64, Register), LineFault>
    ensures value { result ≡ address_of word.now }
    ensures small { IfOk result (λ x. x.1.0 < 32) }
{
    match unclosed(word) {
        Some(front) => match opened(front) {
            Some((offset, base)) => address_parts(offset, base),
            None => Err(LineFault::Syntax),
        },
        None => Err(LineFault::Syntax),
    }
}

/// An offset and a register, and the words after them.
#[tactic(auto, unfolding(crate::specs::Instructions::address_first))]
fn address(words: Words<'_>) -> Result<(i64, Register, Words<'_>), LineFault>
    ensures value { result ≡ address_first words.entry }
    ensures small { IfOk result (λ x. x.1.0 < 32) }
{
    match words.first() {
        Some((word, words)) => {
            let (offset, base) = address_in(word)?;
            Ok((offset, base, words))
        }
        None => Err(LineFault::Syntax),
    }
}

/// A register and a signed 12-bit offset from another one, as `x1 4(x2)`, and no more.
#[tactic(auto, unfolding(crate::specs::Instructions::register_and_address))]
fn register_and_place(words: Words<'_>) -> Result<(Register, Register, i32), LineFault>
    ensures value { result ≡ register_and_address words.entry }
    ensures ranges { IfOk result (λ x. (x.0.0 < 32) × (x.1.0 < 32) × (negsuc 2047 ≤ℤ x.2) × (x.2 ≤ℤ pos 2047)) }
{
    let (first, words) = register(words)?;
    let (offset, base, words) = address(words)?;
    words.end()?;
    Ok((first, base, immediate_in(offset)?))
}

/// Two registers and a number, as `x1 x2 4`, and no more.
#[tactic(auto, unfolding(crate::specs::Instructions::registers_and_number_of))]
fn registers_and_number(words: Words<'_>) -> Result<(Register, Register, i64), LineFault>
    ensures value { result ≡ registers_and_number_of words.entry }
    ensures small { IfOk result (λ x. (x.0.0 < 32) × (x.1.0 < 32)) }
{
    let (first, words) = register(words)?;
    let (second, words) = register(words)?;
    Ok((first, second, words.last_number()?))
}

/// The word of an instruction.
#[tactic(auto, unfolding(crate::specs::Instructions::spelling))]
fn spelled(instr: Instr) -> u32
    requires { IsInstr instr }
    ensures { result ≡ spelling instr }
{
    encode(instr)
}

/// The operands `rd number`.
#[tactic(auto, unfolding(crate::specs::Instructions::upper_line))]
fn upper<'a>(op: UpperOp, words: Words<'a>) -> Result<Code<'a>, LineFault>
    ensures { result ≡ upper_line op words.entry }
{
    let (rd, words) = register(words)?;
    let number = words.last_number()?;
    let immediate = between(number, 0, (1 << 20) - 1)?;
    Ok(Code::Word(spelled(Instr::Upper { op, rd, immediate })))
}

/// The operands `rd label`.
#[tactic(auto, unfolding(crate::specs::Instructions::jump_line))]
fn jump<'a>(words: Words<'a>) -> Result<Code<'a>, LineFault>
    ensures { result ≡ jump_line words.entry }
{
    let (rd, words) = register(words)?;
    let (target, words) = words.name()?;
    words.end()?;
    Ok(Code::Jump { rd, target })
}

/// The operands `rd offset(rs1)` of `jalr`.
#[tactic(auto, unfolding(crate::specs::Instructions::jump_register_line))]
fn jump_register<'a>(words: Words<'a>) -> Result<Code<'a>, LineFault>
    ensures { result ≡ jump_register_line words.entry }
{
    let (rd, rs1, offset) = register_and_place(words)?;
    Ok(Code::Word(spelled(Instr::Jalr { rd, rs1, offset })))
}

/// The operands `rs1 rs2 label`.
#[tactic(auto, unfolding(crate::specs::Instructions::branch_line))]
fn branch<'a>(op: BranchOp, words: Words<'a>) -> Result<Code<'a>, LineFault>
    ensures { result ≡ branch_line op words.entry }
{
    let (rs1, words) = register(words)?;
    let (rs2, words) = register(words)?;
    let (target, words) = words.name()?;
    words.end()?;
    Ok(Code::Branch {
        op,
        rs1,
        rs2,
        target,
    })
}

/// The operands `rd offset(rs1)` of a load.
#[tactic(auto, unfolding(crate::specs::Instructions::load_line))]
fn load<'a>(op: LoadOp, words: Words<'a>) -> Result<Code<'a>, LineFault>
    ensures { result ≡ load_line op words.entry }
{
    let (rd, rs1, offset) = register_and_place(words)?;
    Ok(Code::Word(spelled(Instr::Load {
        op,
        rd,
        rs1,
        offset,
    })))
}

/// The operands `rs2 offset(rs1)`.
#[tactic(auto, unfolding(crate::specs::Instructions::store_line))]
fn store<'a>(op: StoreOp, words: Words<'a>) -> Result<Code<'a>, LineFault>
    ensures { result ≡ store_line op words.entry }
{
    let (rs2, rs1, offset) = register_and_place(words)?;
    Ok(Code::Word(spelled(Instr::Store {
        op,
        rs1,
        rs2,
        offset,
    })))
}

/// The operands `rd rs1 number`.
#[tactic(auto, unfolding(crate::specs::Instructions::immediate_line))]
fn immediate<'a>(op: ImmediateOp, words: Words<'a>) -> Result<Code<'a>, LineFault>
    ensures { result ≡ immediate_line op words.entry }
{
    let (rd, rs1, number) = registers_and_number(words)?;
    let immediate = immediate_in(number)?;
    Ok(Code::Word(spelled(Instr::Immediate {
        op,
        rd,
        rs1,
        immediate,
    })))
}

/// The operands `rd rs1 amount`.
#[tactic(auto, unfolding(crate::specs::Instructions::shift_line))]
fn shift<'a>(op: ShiftOp, words: Words<'a>) -> Result<Code<'a>, LineFault>
    ensures { result ≡ shift_line op words.entry }
{
    let (rd, rs1, number) = registers_and_number(words)?;
    let amount = between(number, 0, 31)? as u8;
    Ok(Code::Word(spelled(Instr::Shift {
        op,
        rd,
        rs1,
        amount,
    })))
}

/// The operands `rd rs1 rs2`.
#[tactic(auto, unfolding(crate::specs::Instructions::registers_line))]
fn registers<'a>(op: RegisterOp, words: Words<'a>) -> Result<Code<'a>, LineFault>
    ensures { result ≡ registers_line op words.entry }
{
    let (rd, words) = register(words)?;
    let (rs1, words) = register(words)?;
    let (rs2, words) = register(words)?;
    words.end()?;
    Ok(Code::Word(spelled(Instr::Registers { op, rd, rs1, rs2 })))
}

/// An instruction without operands.
#[tactic(auto, unfolding(crate::specs::Instructions::bare_line))]
fn alone<'a>(instr: Instr, words: Words<'a>) -> Result<Code<'a>, LineFault>
    requires { IsInstr instr }
    ensures { result ≡ bare_line instr words.entry }
{
    words.end()?;
    Ok(Code::Word(spelled(instr)))
}

/// The instruction without operands that has this name.
#[tactic(auto, unfolding(crate::specs::Instructions::bare_of))]
fn bare<'a>(word: &[u8], words: Words<'a>) -> Result<Code<'a>, LineFault>
    ensures { result ≡ bare_of word.now words.entry }
{
    if is(word, "fence") {
        alone(Instr::Fence, words)
    } else if is(word, "ecall") {
        alone(Instr::Ecall, words)
    } else if is(word, "ebreak") {
        alone(Instr::Ebreak, words)
    } else {
        Err(LineFault::Syntax)
    }
}

/// The instruction that begins with this word.
#[tactic(auto, unfolding(crate::specs::Instructions::instruction_of))]
pub(crate) fn instruction<'a>(word: &[u8], words: Words<'a>) -> Result<Code<'a>, LineFault>
    ensures { result ≡ instruction_of word.now words.entry }
{
    if let Some(op) = immediate_op(word) {
        immediate(op, words)
    } else if let Some(op) = register_op(word) {
        registers(op, words)
    } else if let Some(op) = load_op(word) {
        load(op, words)
    } else if let Some(op) = store_op(word) {
        store(op, words)
    } else if let Some(op) = branch_op(word) {
        branch(op, words)
    } else if let Some(op) = shift_op(word) {
        shift(op, words)
    } else if let Some(op) = upper_op(word) {
        upper(op, words)
    } else if is(word, "jal") {
        jump(words)
    } else if is(word, "jalr") {
        jump_register(words)
    } else {
        bare(word, words)
    }
}
