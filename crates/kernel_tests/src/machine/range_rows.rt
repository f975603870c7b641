//! Ranges after instructions and on the ways of branches, worked out by hand from the rules.

use crate::machine::rows::row;
use model::Register;
use ranges::{Bounds, Edge, Edges, Range, after};
use rv32_isa::decode;
use std::test::Fail;

/// The word; the ends of x5 and of x6; where it leads, and the ends of x7 there.
const RESULTS: &str = "\
0x006283B3 0x7FFFFFFF 0x80000000 0 0x7FFFFFFF 0x1004 0x7FFFFFFF 0xFFFFFFFF | add x7, x5, x6
0x006283B3 0x7FFFFFFF 0x80000000 0 0x80000000 0x1004 0 0xFFFFFFFF | add x7, x5, x6
0x006283B3 0x80000000 0x80000000 0x80000000 0x80000000 0x1004 0 0 | add x7, x5, x6
0x406283B3 5 9 2 5 0x1004 0 7 | sub x7, x5, x6
0x406283B3 4 9 2 5 0x1004 0 0xFFFFFFFF | sub x7, x5, x6
0x406283B3 0 0 1 1 0x1004 0xFFFFFFFF 0xFFFFFFFF | sub x7, x5, x6
0x0062F3B3 3 12 5 9 0x1004 0 9 | and x7, x5, x6
0x0062E3B3 3 12 5 9 0x1004 5 15 | or x7, x5, x6
0x0062E3B3 0 16 0 3 0x1004 0 31 | or x7, x5, x6
0x0062E3B3 0 0x7FFFFFFF 0 1 0x1004 0 0x7FFFFFFF | or x7, x5, x6
0x0062E3B3 0 0x80000000 0 1 0x1004 0 0xFFFFFFFF | or x7, x5, x6
0x0062C3B3 0 8 1 7 0x1004 0 15 | xor x7, x5, x6
0x0062C3B3 0 1 0 0 0x1004 0 1 | xor x7, x5, x6
0x006293B3 3 5 33 33 0x1004 6 10 | sll x7, x5, x6
0x006293B3 3 5 1 2 0x1004 0 0xFFFFFFFF | sll x7, x5, x6
0x0062D3B3 16 255 4 4 0x1004 1 15 | srl x7, x5, x6
0x0062D3B3 16 255 1 2 0x1004 0 255 | srl x7, x5, x6
0x4062D3B3 16 0x7FFFFFFF 4 4 0x1004 1 0x07FFFFFF | sra x7, x5, x6
0x4062D3B3 0x80000000 0xFFFFFFFF 4 4 0x1004 0 0xFFFFFFFF | sra x7, x5, x6
0x4062D3B3 0xFFFFFFF0 0xFFFFFFF0 2 2 0x1004 0xFFFFFFFC 0xFFFFFFFC | sra x7, x5, x6
0x0062A3B3 3 5 7 9 0x1004 0 1 | slt x7, x5, x6
0x0062A3B3 0xFFFFFFFF 0xFFFFFFFF 0 0 0x1004 1 1 | slt x7, x5, x6
0x0062B3B3 0xFFFFFFFF 0xFFFFFFFF 0 0 0x1004 0 0 | sltu x7, x5, x6
0xFFF28393 1 10 0 0 0x1004 0 9 | addi x7, x5, -1
0xFFF28393 0 10 0 0 0x1004 0 0xFFFFFFFF | addi x7, x5, -1
0xFFF28393 0 0 0 0 0x1004 0xFFFFFFFF 0xFFFFFFFF | addi x7, x5, -1
0x00128393 0 0xFFFFFFFE 0 0 0x1004 1 0xFFFFFFFF | addi x7, x5, 1
0x00F2F393 3 1000 0 0 0x1004 0 15 | andi x7, x5, 15
0x0102E393 3 12 0 0 0x1004 16 31 | ori x7, x5, 16
0xFFF2C393 3 12 0 0 0x1004 0 0xFFFFFFFF | xori x7, x5, -1
0x00429393 3 0x0FFFFFFF 0 0 0x1004 0x30 0xFFFFFFF0 | slli x7, x5, 4
0x00129393 1 0x7FFFFFFF 0 0 0x1004 2 0xFFFFFFFE | slli x7, x5, 1
0x00129393 1 0x80000000 0 0 0x1004 0 0xFFFFFFFF | slli x7, x5, 1
0x0042D393 16 0xFFFFFFFF 0 0 0x1004 1 0x0FFFFFFF | srli x7, x5, 4
0x4042D393 16 0x7FFFFFFF 0 0 0x1004 1 0x07FFFFFF | srai x7, x5, 4
0x4042D393 16 0x80000000 0 0 0x1004 0 0xFFFFFFFF | srai x7, x5, 4
0x0002A383 0 0 0 0 0x1004 0 0xFFFFFFFF | lw x7, 0(x5)
0x0002C383 0 0 0 0 0x1004 0 255 | lbu x7, 0(x5)
0x0002D383 0 0 0 0 0x1004 0 65535 | lhu x7, 0(x5)
0x800003B7 0 1 0 1 0x1004 0x80000000 0x80000000 | lui x7, 0x80000
0x00001397 0 1 0 1 0x1004 0x2000 0x2000 | auipc x7, 1
0x0062A023 0 1 0 1 0x1004 0 0xFFFFFFFF | sw x6, 0(x5)
0x00628033 1 2 3 4 0x1004 0 0xFFFFFFFF | add x0, x5, x6
0x008003EF 0 0xFFFFFFFF 0 0xFFFFFFFF 0x1008 0x1004 0x1004 | jal x7, 8: it writes the address behind it";

/// The word of a branch; the ends of x5 and of x6; where it leads, and their ends there.
const BRANCHES: &str = "\
0x00628463 0 10 5 20 0x1008 5 10 5 10 | beq x5, x6
0x00629463 0 9 0 0 0x1008 1 9 0 0 | bne x5, x6
0x00629463 0 9 5 5 0x1008 0 9 5 5 | bne x5, x6
0x0062E463 3 10 1 6 0x1008 3 5 4 6 | bltu x5, x6
0x0062F463 0 10 5 20 0x1008 5 10 5 10 | bgeu x5, x6
0x0062C463 0 0x7FFFFFFF 5 5 0x1008 0 4 5 5 | blt x5, x6
0x0062C463 0 0x80000000 5 5 0x1008 0 0x80000000 5 5 | blt x5, x6
0x0062C463 0x80000000 0xFFFFFFFF 5 5 0x1008 0x80000000 0xFFFFFFFF 5 5 | blt x5, x6
0x0062D463 0x80000000 0xFFFFFFFF 0xFFFFFFFE 0xFFFFFFFE 0x1008 0xFFFFFFFE 0xFFFFFFFF 0xFFFFFFFE 0xFFFFFFFE | bge x5, x6
0x00528463 0 10 7 8 0x1008 0 10 7 8 | beq x5, x5
0x0052E463 0 10 7 8 0x1008 1 9 7 8 | bltu x5, x5
0x00029463 0 9 7 8 0x1008 1 9 7 8 | bne x5, x0
0x00506463 0 10 7 8 0x1008 1 10 7 8 | bltu x0, x5
0x00628463 0 10 5 20 0x1004 0 10 5 20 | beq x5, x6, not taken
0x00629463 0 9 0 0 0x1004 0 0 0 0 | bne x5, x6, not taken
0x0062E463 3 10 1 6 0x1004 3 10 1 6 | bltu x5, x6, not taken
0x0062F463 0 10 5 20 0x1004 0 10 5 20 | bgeu x5, x6, not taken
0x0062D463 0x80000000 0xFFFFFFFF 0xFFFFFFFE 0xFFFFFFFE 0x1004 0x80000000 0xFFFFFFFD 0xFFFFFFFE 0xFFFFFFFE | bge x5, x6, not taken
0x0002E463 0 10 7 8 0x1004 0 10 7 8 | bltu x5, x0, not taken
0x00506463 0 10 7 8 0x1004 0 0 7 8 | bltu x0, x5, not taken";

/// The word of a branch that cannot be taken; the ends of x5 and of x6.
const NEVER_TAKEN: &str = "\
0x00628463 0 4 5 20 | beq x5, x6
0x00629463 0xFFFFFFFF 0xFFFFFFFF 0xFFFFFFFF 0xFFFFFFFF | bne x5, x6: an end moves past the last word
0x0062E463 0 10 0 0 | bltu x5, x6
0x0062E463 0xFFFFFFFF 0xFFFFFFFF 0 0xFFFFFFFF | bltu x5, x6
0x00529463 3 3 7 8 | bne x5, x5
0x0002E463 0 10 7 8 | bltu x5, x0";

#[test]
fn results_lie_in(rt: HostRuntime) -> Result<(), Fail> {
    for line in RESULTS.lines() {
        let ([word, a, b, c, d, target, low, high], _) = row::<8>(line)?;
        let edge = way(word, [a, b, c, d], target).ok_or(line)?;
        let range = edge.bounds.get(Register(7));
        assert_eq!(rt;
            [edge.target, range.low, range.high],
            [target, low, high],
            "{line}"
        );
    }
    Ok(())
}

#[test]
fn branches_narrow(rt: HostRuntime) -> Result<(), Fail> {
    for line in BRANCHES.lines() {
        let ([word, a, b, c, d, target, e, f, g, h], _) = row::<10>(line)?;
        let edge = way(word, [a, b, c, d], target).ok_or(line)?;
        let first = edge.bounds.get(Register(5));
        let second = edge.bounds.get(Register(6));
        let found = [edge.target, first.low, first.high, second.low, second.high];
        assert_eq!(rt; found, [target, e, f, g, h], "{line}");
    }
    Ok(())
}

#[test]
fn some_branches_are_never_taken(rt: HostRuntime) -> Result<(), Fail> {
    for line in NEVER_TAKEN.lines() {
        let ([word, a, b, c, d], _) = row::<5>(line)?;
        let ways = ways(word, [a, b, c, d]).ok_or(line)?;
        assert!(rt; ways.taken.is_none(), "{line}");
        assert!(rt; ways.fall_through.is_some(), "{line}");
    }
    Ok(())
}

/// The way to `target`, or else the other one.
fn way(word: u32, ends: [u32; 4], target: u32) -> Option<Edge> {
    let ways = ways(word, ends)?;
    if target == 0x1004 {
        ways.fall_through
    } else {
        ways.taken
    }
}

/// The ways on from a word at 0x1000, where x5 and x6 have these ends, and every other register has every value.
fn ways(word: u32, [a, b, c, d]: [u32; 4]) -> Option<Edges> {
    if b < a || d < c {
        return None;
    }
    let mut bounds = Bounds::full();
    bounds.set(Register(5), Range { low: a, high: b });
    bounds.set(Register(6), Range { low: c, high: d });
    Some(after(0x1000, decode(word)?, &bounds))
}
