//! An interrupt line that signals a notification.
//! seL4 Reference Manual, "Hardware I/O", "Interrupt Delivery".

use crate::kernel_calls::systems::{OBJECTS, plays};
use std::test::Fail;

// A line that is raised three times signals once, and once more when it is acknowledged. The thread polls twice,
// acknowledges by Call, polls, acknowledges by Send, and polls.
#[test]
fn a_line_signals_once_until_it_is_acknowledged(rt: HostRuntime) -> Result<(), Fail> {
    let thread = "
        code a0=1 a7=NBRecv ecall a0=1 a7=NBRecv ecall a0=2 a1=0x12000 a7=Call ecall a0=1 a7=NBRecv ecall \
            a0=2 a1=0x12000 a7=Send ecall a0=1 a7=NBRecv ecall
        call cnode0 mint 1 4 notification 32 read 0
        call cnode0 mint 2 4 handler 32 0 0
        call tcb0 configure 0 cnode0 32 root 32 28
        call tcb0 set_priority 100
        set tcb0 pc 0x1000
        call tcb0 resume
    ";
    let run = "
        irq 3
        irq 3
        irq 3
        80013000 00001000 plain
        80013000 00001004 plain
        80013000 00001008 plain
        reg t0 a0 = 1
        80013000 0000100c plain
        80013000 00001010 plain
        80013000 00001014 plain
        reg t0 a0 = 0
        80013000 00001018 plain
        80013000 0000101c plain
        80013000 00001020 plain
        80013000 00001024 ok
        80013000 00001028 plain
        80013000 0000102c plain
        80013000 00001030 plain
        reg t0 a0 = 1
        80013000 00001034 plain
        80013000 00001038 plain
        80013000 0000103c plain
        80013000 00001040 ok
        80013000 00001044 plain
        80013000 00001048 plain
        80013000 0000104c plain
        reg t0 a0 = 0
    ";
    plays(&rt, &[OBJECTS, thread], &[run])
}
