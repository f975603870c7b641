//! Two threads of one priority that take turns, and one above them that an interrupt wakes.
//! seL4 Reference Manual, "Scheduling".

use crate::kernel_calls::systems::{OBJECTS, plays};
use std::test::Fail;

// Two threads of priority 100 jump to where they are, at 0x100c. A thread of priority 101 waits for the line again and
// again, from 0x1000 on.
const THREADS: &str = "
    code ecall a0=1 two_back stay
    call cnode2 mint 1 4 notification 32 read 0
    call tcb0 configure 0 cnode0 32 root 32 28
    call tcb0 set_priority 100
    set tcb0 pc 0x100c
    call tcb0 resume
    call tcb1 configure 0 cnode1 32 root 32 28
    call tcb1 set_priority 100
    set tcb1 pc 0x100c
    call tcb1 resume
    call tcb2 configure 0 cnode2 32 root 32 28
    call tcb2 set_priority 101
    set tcb2 pc 0x1000 a0 1 a7 Recv
    call tcb2 resume
";

// A turn of the first thread.
const FIRST: &str = "
    80013000 0000100c plain
    tick
    80013000 0000100c plain
    tick
    80013000 0000100c plain
    tick
    80013000 0000100c plain
    tick
    80013000 0000100c plain
    tick
";

// Each has five ticks. The second has had two of them when the interrupt comes, and three are left after it.
#[test]
fn a_turn_is_five_ticks_long(rt: HostRuntime) -> Result<(), Fail> {
    let waits = "80013400 00001000 wait";
    let second = "
        80013200 0000100c plain
        tick
        80013200 0000100c plain
        tick
        80013200 0000100c plain
        irq 3
        reg t2 a0 = 1
        80013400 00001004 plain
        80013400 00001008 plain
        80013400 00001000 wait
        80013200 0000100c plain
        tick
        80013200 0000100c plain
        tick
        80013200 0000100c plain
        tick
    ";
    plays(&rt, &[OBJECTS, THREADS], &[waits, FIRST, second, FIRST])
}
