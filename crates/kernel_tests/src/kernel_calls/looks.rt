//! What is filled into a frame, and what is seen of memory and of threads.

use crate::kernel_calls::systems::{OBJECTS, builds};
use std::test::Fail;

// A thread that begins at 0x1004.
const THREAD: &str = "
    code ecall stay
    call tcb0 configure 0 cnode0 32 root 32 28
    call tcb0 set_priority 100
    set tcb0 pc 0x1004 a0 9 a7 Recv
    call tcb0 resume
";

// The frame has the bytes of ECALL, those of a jump, and zeros; the root table is after it.
#[test]
fn only_frames_have_bytes(rt: HostRuntime) -> Result<(), Fail> {
    let bytes = "
        byte 0x10000 = 0x73
        byte 0x10001 = 0
        byte 0x10004 = 0x6F
        byte 0x10FFF = 0
        byte 0x11000 = none
        byte 0 = none
        byte 0x20000 = none
        fill 0x10000 1 2
        fill 0x10004 3 = no
        fill 0x11000 4 = no
        byte 0x10000 = 1
        byte 0x10004 = 0x6F
    ";
    builds(&rt, &[OBJECTS, THREAD, bytes])
}

// A thread has registers 0 to 31, and nothing else has any.
#[test]
fn only_threads_have_registers(rt: HostRuntime) -> Result<(), Fail> {
    let looks = "
        reg t0 pc a0 a7 31 = 0x1004 9 Recv 0
        reg t0 32 = none
        reg 0x10000 0 = none
        reg 0x13004 0 = none
        reg 0x20000 0 = none
    ";
    builds(&rt, &[OBJECTS, THREAD, looks])
}
