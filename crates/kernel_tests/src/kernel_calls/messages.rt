//! A server that waits for calls, and a client of a lower priority that calls it.
//! seL4 Reference Manual, "Message Passing (IPC)".

use crate::kernel_calls::systems::{OBJECTS, plays};
use std::process::Abort;
use std::test::Fail;

// The server (thread 0, priority 101) begins at 0x1008, with 1000 and its index in each register but those of its
// first call. Its slot 1 has the endpoint to receive from, and slot 2 the client. The client (thread 1, priority 100)
// begins at 0x1000, and calls with the words 3 and 4, by badge 7.
const SERVER_AND_CLIENT: &str = "
    call cnode0 mint 1 4 endpoint 32 read 0
    call cnode0 mint 2 4 tcb1 32 0 0
    call tcb0 configure 0 cnode0 32 root 32 28
    call tcb0 set_priority 101
    set tcb0 pc 0x1008 1 1001 2 1002 3 1003 4 1004 5 1005 6 1006 7 1007 8 1008 9 1009 a0 1 11 1011 12 1012 13 1013
    set tcb0 14 1014 15 1015 16 1016 a7 Recv 18 1018 19 1019 20 1020 21 1021 22 1022 23 1023 24 1024 25 1025 26 1026
    set tcb0 27 1027 28 1028 29 1029 30 1030 31 1031
    call tcb0 resume

    call cnode1 mint 1 4 endpoint 32 write_reply 7
    call tcb1 configure 0 cnode1 32 root 32 28
    call tcb1 set_priority 100
    set tcb1 pc 0x1000 a0 1 a1 0x5002 a2 3 a3 4 a7 Call
    call tcb1 resume
";

// The server waits, the client calls, and the server has the call: no register of it has changed but those of the
// message.
const CALLED: &str = "
    80013000 00001008 wait
    80013200 00001000 wait
    reg t0 pc a0 a1 a2 a3 = 0x100c 7 0x5002 3 4
    reg t0 1 2 3 4 5 6 7 8 9 = 1001 1002 1003 1004 1005 1006 1007 1008 1009
    reg t0 14 15 16 a7 18 19 20 21 22 = 1014 1015 1016 Recv 1018 1019 1020 1021 1022
    reg t0 23 24 25 26 27 28 29 30 31 = 1023 1024 1025 1026 1027 1028 1029 1030 1031
";

// The reply has the word 9. A second one, with the word 10, has nobody to go to.
#[test]
fn a_call_has_one_reply(rt: HostRuntime) -> Result<(), Fail> {
    let code = "code ecall stay ecall a1=0x1000 a1+1 a2=9 a7=Reply ecall a2=10 ecall";
    let replies = "
        80013000 0000100c plain
        80013000 00001010 plain
        80013000 00001014 plain
        80013000 00001018 plain
        80013000 0000101c plain
        reg t1 pc a0 a1 a2 a3 = 0x1004 0 0x1001 9 4
        80013000 00001020 plain
        80013000 00001024 plain
        reg t1 pc a0 a1 a2 a3 = 0x1004 0 0x1001 9 4
    ";
    plays(&rt, &[OBJECTS, SERVER_AND_CLIENT, code], &[CALLED, replies])
}

// The server suspends the client that waits for its reply, and resumes it: the reply then has nobody to go to.
#[test]
fn a_thread_that_was_resumed_gets_no_reply(rt: HostRuntime) -> Result<(), Fail> {
    let code = "
        code ecall stay ecall a0=2 a1=0x6000 a7=Call ecall a0=2 a1=0x5000 ecall a1=0x1000 a1+1 a2=9 a7=Reply ecall
    ";
    let replies = "
        80013000 0000100c plain
        80013000 00001010 plain
        80013000 00001014 plain
        80013000 00001018 ok
        80013000 0000101c plain
        80013000 00001020 plain
        80013000 00001024 ok
        80013000 00001028 plain
        80013000 0000102c plain
        80013000 00001030 plain
        80013000 00001034 plain
        80013000 00001038 plain
        reg t1 pc a0 a1 a2 a3 = 0x1000 1 0x5002 3 4
    ";
    plays(&rt, &[OBJECTS, SERVER_AND_CLIENT, code], &[CALLED, replies])
}
