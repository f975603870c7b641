//! Threads that fault, with a handler and without one.
//! seL4 Reference Manual, "Faults"; the words of the messages are this project's own.

use crate::kernel_calls::systems::{OBJECTS, plays};
use std::test::Fail;

// The handler (thread 0, priority 101) begins at 0x100c, receives, replies with the label 0 and one word, and receives
// again. The thread (priority 100) receives at 0x1000 from slot 9, where nothing is; its faults go to the handler, by
// badge 8.
const HANDLER_AND_THREAD: &str = "
    call cnode0 mint 1 4 endpoint 32 read 0
    call tcb0 configure 0 cnode0 32 root 32 28
    call tcb0 set_priority 101
    set tcb0 pc 0x100c a0 1 a7 Recv s2 77
    call tcb0 resume

    call cnode1 mint 1 4 endpoint 32 write_reply 8
    call tcb1 configure 1 cnode1 32 root 32 28
    call tcb1 set_priority 100
    set tcb1 pc 0x1000 a0 9 a7 Recv
    call tcb1 resume
";

// The handler waits, and the thread faults since it lacks a capability.
const FAULTED: &str = "
    80013000 0000100c wait
    80013200 00001000 fault 1
";

// The handler replies, and waits.
const REPLIES: &str = "
    80013000 00001010 plain
    80013000 00001014 plain
    80013000 00001018 plain
    80013000 0000101c plain
    80013000 00001020 plain
    80013000 00001024 plain
    80013000 00001028 plain
    80013000 0000102c wait
";

// Kind 1 with five words: where the thread was, the capability, that it was to receive, that it is missing, and 0. The
// reply's word 0x1002 is 0x1000 without its low two bits, where the thread faults again; the thread's own registers are
// as they were.
#[test]
fn a_fault_goes_to_its_handler(rt: HostRuntime) -> Result<(), Fail> {
    let code = "code ecall stay stay ecall a1=1 a2=0x1000 a2+2 a7=Reply ecall a0=1 a7=Recv ecall";
    let told = "reg t0 pc a0 a1 a2 a3 a4 a5 s2 = 0x1010 8 0x1005 0x1000 9 1 2 0";
    let again = "
        reg t1 pc = 0x1000
        80013200 00001000 fault 1
        reg t0 pc a0 a1 a2 a3 = 0x1030 8 0x1005 0x1000 9
        reg t1 a0 a1 a2 a3 = 9 0 0 0
    ";
    plays(
        &rt,
        &[OBJECTS, HANDLER_AND_THREAD, code],
        &[FAULTED, told, REPLIES, again],
    )
}

// The word 0x100B is 0x1008 without its low two bits.
#[test]
fn a_handler_sends_a_thread_elsewhere(rt: HostRuntime) -> Result<(), Fail> {
    let code = "code ecall stay stay ecall a1=1 a2=0x1000 a2+11 a7=Reply ecall a0=1 a7=Recv ecall";
    let elsewhere = "
        80013200 00001008 plain
        reg t1 a0 a1 a2 a3 = 9 0 0 0
    ";
    plays(
        &rt,
        &[OBJECTS, HANDLER_AND_THREAD, code],
        &[FAULTED, REPLIES, elsewhere],
    )
}

// The thread alone, with nobody to go to.
const THREAD: &str = "
    call tcb1 configure 0 cnode1 32 root 32 28
    call tcb1 set_priority 100
    set tcb1 pc 0x1000 a0 9 a7 Recv
    call tcb1 resume
";

#[test]
fn a_thread_without_a_handler_stops(rt: HostRuntime) -> Result<(), Fail> {
    let stops = "
        80013200 00001000 fault 1
        idle
        reg t1 pc = 0x1000
    ";
    plays(&rt, &[OBJECTS, THREAD, "code ecall stay"], &[stops])
}

// addi x1, x0, -1; srai x1, x1, 4; jalr x0, 0(x1): the target 0xFFFFFFFE is no multiple of 4.
#[test]
fn a_jump_to_no_word_faults(rt: HostRuntime) -> Result<(), Fail> {
    let code = "code 0xFFF00093 0x4040D093 0x00008067";
    let faults = "
        80013200 00001000 plain
        80013200 00001004 plain
        reg t1 1 = 0xFFFFFFFF
        80013200 00001008 fault 3
        reg t1 1 = 0xFFFFFFFF
        idle
    ";
    plays(&rt, &[OBJECTS, THREAD, code], &[faults])
}
