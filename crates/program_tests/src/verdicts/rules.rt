//! One thread that counts down from ten and then waits for its bell for ever: the rules on its objects, capabilities, mappings,
//! thread and program.

use crate::verdicts::texts::{are_said, changed, verdict};
use std::test::Fail;
use test_sessions::SOLO;

/// What is said where lines are put another way.
const ROWS: &str = "
    accepted | 1 memory 16 4

    # The untyped memory in the boot area, at no multiple of its size, past the end of memory, and over the untyped before.
    UntypedOverlap 0 0 | 2 untyped u 0 15
    UntypedOverlap 0 0 | 2 untyped u 0x9000 15
    UntypedOverlap 0 0 | 2 untyped u 0x10000 15
    UntypedOverlap 1 0 | 2 untyped u 0x8000 15/untyped v 0xC000 14
    # Two pages hold two of the four pages.
    NoRoom 2 0 | 2 untyped u 0x8000 13
    # Thirteen boot slots are asked for, and there are eight.
    BadObject 7 0 | 1 memory 16 3

    # A CNode that is a thread, and a slot behind the last.
    BadCap 0 0 | 11 cap main 1 bell 2 0
    BadCap 1 0 | 12 cap cs 16 line 0 0
    # A thread and a page table as sources.
    BadCap 0 0 | 11 cap cs 1 main 0 0
    BadCap 1 0 | 12 cap cs 2 pt 0 0
    # Rights that a notification, a frame and a handler do not have.
    BadCap 0 0 | 11 cap cs 1 bell 4 0
    BadCap 0 0 | 11 cap cs 1 data 4 0
    BadCap 1 0 | 12 cap cs 2 line 1 0
    # Data that are no badge, no guard word, or stand where there are none.
    BadCap 0 0 | 11 cap cs 1 bell 2 0x10000000
    BadCap 0 0 | 11 cap cs 1 cs 0 29
    BadCap 0 0 | 11 cap cs 1 data 3 1
    # An interrupt of a frame, numbered on from the two capabilities.
    BadCap 2 0 | 10 irq line 3 data 1
    # Untyped memory is listed twice: the second is told.
    BadCap 3 0 | 9 object bell u notification/object pool u untyped 4 ; 11 cap cs 1 bell 2 0/cap cs 4 pool 0 0/cap cs 5 pool 0 0

    # A CNode may hold its own thread's root table, and no other.
    accepted | 12 cap cs 2 line 0 0/cap cs 3 vs 0 0
    SharedVSpace 0 0 | 9 object bell u notification/object vs2 u root ; 12 cap cs 2 line 0 0/cap cs 3 vs2 0 0

    BadMapping 0 0 | 13 table vs 0 data
    BadMapping 0 0 | 13 table vs 0x1000 pt
    BadMapping 0 0 | 13 table vs 0x80000000 pt
    BadMapping 1 0 | 13 table vs 0 pt/table vs 0x400000 pt
    # Rights to write alone, no page table there, no multiple of a page, and no frame.
    BadMapping 2 0 | 15 map vs 0x2000 data 1
    BadMapping 2 0 | 15 map vs 0x2000 data 5
    BadMapping 2 0 | 15 map vs 0x400000 data 3
    BadMapping 2 0 | 15 map vs 0x2004 data 3
    BadMapping 2 0 | 15 map vs 0x2000 bell 3
    BadMapping 3 0 | 15 map vs 0x2000 data 3/data bell 1
    # Code that can be written, or that is mapped, listed or filled otherwise.
    WritableCode 1 0 | 14 map vs 0x1000 code 7
    WritableCode 1 0 | 15 map vs 0x2000 code 3
    WritableCode 1 0 | 12 cap cs 2 code 2 0
    WritableCode 1 0 | 15 map vs 0x2000 data 3/data code 1

    # What a thread needs: its objects, a guard, its program mapped with execute, and at last an entry within the program.
    BadThread 0 0 | 14 # none
    BadThread 0 0 | 16 thread bell cs 28 vs 100 24 0 start 0x1000
    BadThread 0 0 | 16 thread main bell 28 vs 100 24 0 start 0x1000
    BadThread 0 0 | 16 thread main cs 28 pt 100 24 0 start 0x1000
    BadThread 0 0 | 16 thread main cs 29 vs 100 24 0 start 0x1000
    BadThread 0 0 | 16 thread main cs 28 vs 100 24 0 start 0x1004
    BadThread 0 0 | 16 thread main cs 28 vs 100 24 0 start 0x2000
    BadThread 0 0 | 16 thread main cs 28 vs 100 24 0 behind 0x1000 ; 28 jal x0 again/behind:

    # A message buffer is a frame that no capability names and that is not executed; where else it is mapped does not matter.
    accepted | 17 buffer data/measure 24
    BadBuffer 0 0 | 17 buffer pt/measure 24
    BadBuffer 0 0 | 17 buffer code/measure 24
    BadBuffer 0 0 | 12 cap cs 2 line 0 0/cap cs 3 data 2 0 ; 17 buffer data/measure 24
    BadThread 0 0 | 16 thread main cs 28 vs 100 24 0 start 0x2000 ; 17 buffer pt/measure 24

    IllegalInstruction 0 3 | 25 again: ebreak
    IllegalInstruction 0 3 | 25 again: word 0
    IllegalInstruction 0 3 | 25 again: word 0xFFFFFFFF
    ComputedJump 0 3 | 25 again: jalr x0 0(x1)

    # Behind the program, before it (a jump by -28), between two words (by -10), and to a point without a state.
    BadTarget 0 6 | 28 addi x1 x0 0
    BadTarget 0 6 | 28 word 0xFE5FF06F
    BadTarget 0 6 | 28 word 0xFF7FF06F
    BadTarget 0 6 | 28 jal x0 lost/lost: jal x0 lost
    # At the head of the loop 0 would be possible: 0 - 1 wraps.
    RangeNotKept 0 1 | 20 range x5 0 10
    # The taken side of the branch leads to the loop's head with 1 to 9.
    RangeNotKept 0 2 | 20 range x5 2 10
    # What comes before the loop is ten.
    RangeNotKept 0 0 | 20 range x5 1 9
    # The entry has no state, or begins with another value.
    RangeNotKept 0 0 | 17 # none
    RangeNotKept 0 0 | 17 measure 24/range x6 1 1
    RangeNotKept 0 0 | 17 reg x6 1/measure 24/range x6 0 0

    # One less at the loop's head, or at the branch, is too little for what comes behind.
    MeasureNotFalling 0 1 | 19 measure 2 x5 2
    MeasureNotFalling 0 2 | 22 measure 3 x5 2
    # One less at the entry does not reach the loop's, and neither does its own with three for each round.
    MeasureNotFalling 0 0 | 17 measure 23
    MeasureNotFalling 0 0 | 19 measure 3 x5 3
    # A measure that can be 0.
    MeasureNotFalling 0 2 | 22 measure 0 x5 2
    # Yield is no wait, and neither is NBRecv.
    MeasureNotFalling 0 6 | 26 addi x17 x0 7
    MeasureNotFalling 0 6 | 26 addi x17 x0 8
    # Behind a register of the measure nothing is derived.
    MeasureNotFalling 0 1 | 22 # none ; 23 # none

    OverBudget 0 0 | 16 thread main cs 28 vs 100 23 0 start 0x1000
    # Behind the wait more is noted than the budget.
    OverBudget 0 5 | 28 measure 25/jal x0 again
    accepted | 28 measure 24/range x5 0 0/jal x0 again
";

#[test]
fn what_is_changed_in_solo_is_told(rt: HostRuntime) -> Result<(), Fail> {
    are_said(&rt, SOLO, ROWS)
}

/// Changes that give the thread room for two instructions more before the wait.
const ROOM: &str =
    "16 thread main cs 28 vs 100 26 0 start 0x1000 ; 17 measure 26 ; 19 measure 5 x5 2 ; 22 measure 6 x5 2";

/// What is said then of loads and stores before the wait.
const ACCESSES: &str = "
    # The page of data is read and written, up to its last byte.
    accepted | 25 again: lui x6 2/lw x7 0(x6)/addi x10 x0 1
    accepted | 25 again: lui x6 2/sw x7 0(x6)/addi x10 x0 1
    accepted | 25 again: lui x6 3/sb x7 -1(x6)/addi x10 x0 1
    NotMapped 0 4 | 25 again: lui x6 3/sh x7 -1(x6)/addi x10 x0 1
    NotMapped 0 4 | 25 again: lui x6 2/lb x7 -1(x6)/addi x10 x0 1
    NotMapped 0 4 | 25 again: lui x6 3/lw x7 -3(x6)/addi x10 x0 1
    # Code may be neither read nor written.
    NotMapped 0 4 | 25 again: lui x6 1/lw x7 0(x6)/addi x10 x0 1
    NotMapped 0 4 | 25 again: lui x6 1/sw x7 0(x6)/addi x10 x0 1
    # Below 0, and past the end of the addresses.
    NotMapped 0 4 | 25 again: lui x6 0/lw x7 -4(x6)/addi x10 x0 1
    NotMapped 0 4 | 25 again: addi x6 x0 -1/lb x7 1(x6)/addi x10 x0 1
";

#[test]
fn memory_is_mapped(rt: HostRuntime) -> Result<(), Fail> {
    let roomy = changed(rt.alloc(), SOLO, ROOM)?;
    are_said(&rt, roomy.as_str(), ACCESSES)
}

/// A thread that yields again and again.
const YIELD: &str = "memory 16 4
untyped u 0x8000 15
object code u frame
object vs u root
object pt u table
object main u tcb
object cs u cnode 4
table vs 0 pt
map vs 0x1000 code 4
thread main cs 28 vs 100 4 0 again 0x1000
measure 3
again: addi x17 x0 7
ecall
jal x0 again
end
";

#[test]
fn yield_is_no_wait(rt: HostRuntime) -> Result<(), Fail> {
    assert_eq!(rt;
        verdict(rt.alloc(), YIELD)?.as_str(),
        "MeasureNotFalling 0 2"
    );
    Ok(())
}
