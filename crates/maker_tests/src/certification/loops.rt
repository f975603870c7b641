//! Loops of each kind that gets a measure. A budget is what runs at most: the instructions before the loop, those of each turn by the
//! number of turns, and the three up to the wait.

use crate::certification::rows::loops_have;
use std::process::Abort;
use std::test::Fail;

#[test]
fn loops_in_loops(rt: HostRuntime) -> Result<(), Fail> {
    // 1 + 3 * (1 + 4 * 2 + 2) + 3
    let loops = "start: addi x5 x0 3\nouter: addi x6 x0 4\ninner: addi x6 x6 -1\nbne x6 x0 inner\n\
        addi x5 x5 -1\nbne x5 x0 outer\n";
    loops_have(&rt, loops, "main budget 37\n")
}

#[test]
fn counting_up_by_an_index(rt: HostRuntime) -> Result<(), Fail> {
    // 3 + 64 * 5 + 3
    let loops = "start: lui x8 2\naddi x5 x0 0\naddi x6 x0 64\nnext: slli x7 x5 2\nadd x7 x7 x8\n\
        sw x5 0(x7)\naddi x5 x5 1\nbltu x5 x6 next\n";
    loops_have(&rt, loops, "main budget 326\n")
}

#[test]
fn counting_up_until_equal(rt: HostRuntime) -> Result<(), Fail> {
    // 2 + 50 * 2 + 3
    let loops = "start: addi x5 x0 0\naddi x6 x0 50\nnext: addi x5 x5 1\nbne x5 x6 next\n";
    loops_have(&rt, loops, "main budget 105\n")
}

#[test]
fn counting_up_by_strides(rt: HostRuntime) -> Result<(), Fail> {
    // 2 + 104: coefficients are whole numbers, so that the measure of a turn is 104 - x5, which leaves the two of the last turn and
    // the three after it where x5 is 99, the most that its range has there
    let loops = "start: addi x5 x0 0\naddi x6 x0 100\nnext: addi x5 x5 4\nbltu x5 x6 next\n";
    loops_have(&rt, loops, "main budget 106\n")
}

#[test]
fn early_exits(rt: HostRuntime) -> Result<(), Fail> {
    // 2 + 20 * 4 + 3
    let loops =
        "start: lui x8 2\naddi x5 x0 20\nlook: lbu x6 0(x8)\nbeq x6 x0 wait\naddi x5 x5 -1\n\
        bne x5 x0 look\n";
    loops_have(&rt, loops, "main budget 85\n")
}

#[test]
fn loops_as_long_as_the_outer_one_stands(rt: HostRuntime) -> Result<(), Fail> {
    // 1 + 10 * (3 + 2 * 10) + 3: measures are linear, so that each turn costs as much as the longest
    let loops = "start: addi x5 x0 10\nouter: addi x6 x5 0\ninner: addi x6 x6 -1\nbne x6 x0 inner\n\
        addi x5 x5 -1\nbne x5 x0 outer\n";
    loops_have(&rt, loops, "main budget 234\n")
}

#[test]
fn a_counter_that_is_copied_tested_and_copied_back(rt: HostRuntime) -> Result<(), Fail> {
    // 2 + 31 * 4 + 2 + 3: the copy is 32 in the last turn
    let loops = "start: addi x9 x0 0\naddi x28 x0 31\nagain: addi x11 x9 1\nbltu x28 x11 wait\n\
        addi x9 x11 0\njal x0 again\n";
    loops_have(&rt, loops, "main budget 131\n")
}

#[test]
fn two_counters_of_which_each_turn_moves_one(rt: HostRuntime) -> Result<(), Fail> {
    // 4 + 31 * 7 + 1 + 3: the two arrays of 16 bytes are merged after 15 steps in one and 16 in the other
    let loops =
        "start: lui x8 2\naddi x9 x0 0\naddi x18 x0 0\naddi x28 x0 16\nagain: add x6 x9 x8\n\
        lbu x5 0(x6)\nadd x6 x18 x8\nlbu x7 64(x6)\nbltu x5 x7 left\naddi x18 x18 1\n\
        bltu x18 x28 again\njal x0 wait\nleft: addi x9 x9 1\nbltu x9 x28 again\n";
    loops_have(&rt, loops, "main budget 225\n")
}

#[test]
fn a_way_that_ranges_rule_out(rt: HostRuntime) -> Result<(), Fail> {
    // 2 + (4 + 2) + 14 * (4 + 2 * 15) + 1 + 3: the first turn counts down from 1, the others from 15 at most; the way to `zero`, on
    // which the outer loop would never end, is not gone, since x10 is not 0
    let loops = "start: addi x20 x0 1\naddi x21 x0 16\nouter: addi x10 x20 0\naddi x20 x20 1\n\
        beq x10 x0 zero\ninner: addi x10 x10 -1\nbne x10 x0 inner\nbltu x20 x21 outer\njal x0 wait\n\
        zero: addi x20 x0 1\njal x0 outer\n";
    loops_have(&rt, loops, "main budget 488\n")
}
