//! Signals to a notification before a thread waits for it.
//! seL4 Reference Manual, "Notifications".

use crate::kernel_calls::systems::{OBJECTS, plays};
use std::test::Fail;

// Badges 1 and 4 are one word. The next receive waits.
#[test]
fn badges_of_signals_are_joined(rt: HostRuntime) -> Result<(), Fail> {
    let thread = "
        code ecall a0=2 ecall a0=3 a7=Recv ecall a0=3 ecall
        call cnode0 mint 1 4 notification 32 write 1
        call cnode0 mint 2 4 notification 32 write 4
        call cnode0 mint 3 4 notification 32 read 0
        call tcb0 configure 0 cnode0 32 root 32 28
        call tcb0 set_priority 100
        set tcb0 pc 0x1000 a0 1 a7 Send
        call tcb0 resume
    ";
    let signals = "
        80013000 00001000 plain
        80013000 00001004 plain
        80013000 00001008 plain
        80013000 0000100c plain
        80013000 00001010 plain
        80013000 00001014 wait
        reg t0 a0 = 5
        80013000 00001018 plain
        80013000 0000101c wait
        idle
        reg t0 pc = 0x101c
    ";
    plays(&rt, &[OBJECTS, thread], &[signals])
}
