//! Instructions over a flat memory.

use crate::machine::flat::Flat;
use crate::machine::rows::row;
use crate::machine::table;
use rv32_exec::{Access, AccessSize, Cause, Exec, MemoryFault, Register, Regs, View, exec};
use rv32_isa::{decode, encode};
use std::test::Fail;

/// What there is beside the memory.
const BESIDE: u32 = 7;

#[test]
fn a_loop_of_four_words(rt: HostRuntime) {
    let program = [0x0010_0513, 0x0050_0893, 0x0000_0073, 0xFF5F_F06F];
    let mut memory = Flat::new(BESIDE);
    let mut address = Flat::BASE;
    for word in program {
        assert_eq!(rt; memory.store(address, AccessSize::Word, word), Ok(()));
        address = address.wrapping_add(4);
    }
    let mut regs = Regs::new();
    regs.set_pc(Flat::BASE);
    assert_eq!(rt; step(&mut regs, &mut memory), Some(Exec::Next));
    assert_eq!(rt; step(&mut regs, &mut memory), Some(Exec::Next));
    assert_eq!(rt; step(&mut regs, &mut memory), Some(Exec::Ecall));
    assert_eq!(rt; regs.pc(), Flat::BASE + 8);
    assert_eq!(rt; regs.read(Register(10)), 1);
    assert_eq!(rt; regs.read(Register(17)), 5);
    regs.set_pc(Flat::BASE + 12);
    assert_eq!(rt; step(&mut regs, &mut memory), Some(Exec::Next));
    assert_eq!(rt; regs.pc(), Flat::BASE);
    assert_eq!(rt; memory.beside(), BESIDE);
}

#[test]
fn a_jump_to_a_misaligned_address(rt: HostRuntime) {
    let mut memory = Flat::new(BESIDE);
    let mut regs = Regs::new();
    assert_eq!(rt; run(&mut regs, &mut memory, 0xFFF0_0093), Some(Exec::Next));
    assert_eq!(rt; run(&mut regs, &mut memory, 0x4040_D093), Some(Exec::Next));
    assert_eq!(rt; regs.read(Register(1)), 0xFFFF_FFFF);
    let trap = Exec::Trap(Cause::Misaligned);
    assert_eq!(rt; run(&mut regs, &mut memory, 0x0000_8067), Some(trap));
    assert_eq!(rt; regs.pc(), 8);
}

#[test]
fn a_store_across_the_end_changes_nothing(rt: HostRuntime) {
    let mut memory = Flat::new(BESIDE);
    let fault = MemoryFault {
        address: Flat::END,
        access: Access::Store,
    };
    assert_eq!(rt;
        memory.store(Flat::END - 2, AccessSize::Word, 0xFFFF_FFFF),
        Err(fault)
    );
    assert_eq!(rt; memory.load(Flat::END - 2, AccessSize::Halfword), Ok(0));
}

/// The words that memory has before each row of the table.
const LOW: u32 = 0x80FF_7F01;

const HIGH: u32 = 0x8001_FE7F;

#[test]
fn results_of_another_machine(rt: HostRuntime) -> Result<(), Fail> {
    for line in table::ROWS.lines() {
        let ([word, pc, a, b, x7, next, low, high], _) = row::<8>(line)?;
        assert_eq!(rt; encode(decode(word).ok_or(line)?), word, "{line}");
        let found = behind(word, pc, a, b).ok_or(line)?;
        assert_eq!(rt; found, [x7, next, low, high], "{line}");
    }
    Ok(())
}

/// x7, the pc and the two words of memory after one word of the table.
fn behind(word: u32, pc: u32, a: u32, b: u32) -> Option<[u32; 4]> {
    let mut memory = Flat::new(BESIDE);
    memory.store(Flat::BASE, AccessSize::Word, LOW).ok()?;
    memory.store(Flat::BASE + 4, AccessSize::Word, HIGH).ok()?;
    let mut regs = Regs::new();
    regs.set_pc(pc);
    regs.write(Register(5), a);
    regs.write(Register(6), b);
    regs.write(Register(7), a);
    run(&mut regs, &mut memory, word)?;
    let low = memory.load(Flat::BASE, AccessSize::Word).ok()?;
    let high = memory.load(Flat::BASE + 4, AccessSize::Word).ok()?;
    Some([regs.read(Register(7)), regs.pc(), low, high])
}

/// Fetches one word and runs it.
fn step(regs: &mut Regs, memory: &mut Flat) -> Option<Exec> {
    let word = memory.fetch(regs.pc()).ok()?;
    run(regs, memory, word)
}

/// Decodes one word and runs it.
fn run(regs: &mut Regs, memory: &mut Flat, word: u32) -> Option<Exec> {
    Some(exec(regs, decode(word)?, memory))
}
