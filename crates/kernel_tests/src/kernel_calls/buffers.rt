//! Message buffers: which words of a message are copied, and the call that sets a buffer.
//! Word i of a message is at byte 4 * i of a buffer; words 0 to 7 are in registers.

use crate::kernel_calls::systems::{OBJECTS, builds, plays};
use std::process::Abort;
use std::test::Fail;

// Two frames, at 0x14000 and 0x15000. The server (thread 0, priority 101) waits at 0x1008, and replies with 16 words; the
// client (thread 1, priority 100) calls it from 0x1000 with 12 words by badge 7. Bytes 31 to 48 of the client's frame are 31, 1 to 16
// and 48, and byte 479 and 480 are 79 and 80; of the server's frame bytes 31, 48 and 480 are 131, 148 and 180.
const SERVER_AND_CLIENT: &str = "
    code ecall stay ecall a1=16 a7=Reply ecall
    call memory retype Frame 0 0 0 buffer0 2
    fill 0x14000 0*31 131 0*16 148 0*431 180
    fill 0x15000 0*31 31 1 2 3 4 5 6 7 8 9 10 11 12 13 14 15 16 48 0*430 79 80

    call cnode0 mint 1 4 endpoint 32 read 0
    call tcb0 configure 0 cnode0 32 root 32 28
    call tcb0 set_priority 101
    set tcb0 pc 0x1008 a0 1 a7 Recv
    call tcb0 resume

    call cnode1 mint 1 4 endpoint 32 write_reply 7
    call tcb1 configure 0 cnode1 32 root 32 28
    call tcb1 set_priority 100
    set tcb1 pc 0x1000 a0 1 a1 0x500c a2 3 a3 4 a7 Call
    call tcb1 resume
";

const SERVERS_BUFFER: &str = "call tcb0 set_buffer buffer0 32";

const CLIENTS_BUFFER: &str = "call tcb1 set_buffer buffer1 32";

// The server waits, and the client calls.
const CALLS: &str = "
    80013000 00001008 wait
    80013200 00001000 wait
";

// The server's frame is as it was.
const NOTHING_COPIED: &str = "
    byte 0x1401f = 131
    byte 0x14020 = 0
    byte 0x1402f = 0
    byte 0x14030 = 148
";

// Of 12 words the first 8 are in registers, and the others are bytes 32 to 47; of 16 words, bytes 32 to 63.
#[test]
fn words_go_from_buffer_to_buffer(rt: HostRuntime) -> Result<(), Fail> {
    let run = "
        reg t0 pc a0 a1 a2 a3 = 0x100c 7 0x500c 3 4
        byte 0x1401f = 131
        byte 0x14020 = 1
        byte 0x14024 = 5
        byte 0x1402f = 16
        byte 0x14030 = 148
        byte 0x15020 = 1
        80013000 0000100c plain
        80013000 00001010 plain
        80013000 00001014 plain
        reg t1 pc a0 a1 a2 a3 = 0x1004 0 16 3 4
        byte 0x1501f = 31
        byte 0x15020 = 1
        byte 0x1502f = 16
        byte 0x15030 = 148
        byte 0x15040 = 0
    ";
    let before = [OBJECTS, SERVER_AND_CLIENT, SERVERS_BUFFER, CLIENTS_BUFFER];
    plays(&rt, &before, &[CALLS, run])
}

// A length of 127 counts as 120: bytes 32 to 479 are copied.
#[test]
fn a_message_has_up_to_120_words(rt: HostRuntime) -> Result<(), Fail> {
    let long = "set tcb1 a1 0x507f";
    let run = "
        reg t0 a0 a1 a2 a3 = 7 0x5078 3 4
        byte 0x1401f = 131
        byte 0x14020 = 1
        byte 0x14030 = 48
        byte 0x141df = 79
        byte 0x141e0 = 180
    ";
    let before = [
        OBJECTS,
        SERVER_AND_CLIENT,
        long,
        SERVERS_BUFFER,
        CLIENTS_BUFFER,
    ];
    plays(&rt, &before, &[CALLS, run])
}

// Where one of the two has no buffer, the message has 8 words.
#[test]
fn both_threads_need_a_buffer(rt: HostRuntime) -> Result<(), Fail> {
    let eight = "reg t0 a0 a1 a2 a3 = 7 0x5008 3 4";
    for buffer in [SERVERS_BUFFER, CLIENTS_BUFFER] {
        let before = [OBJECTS, SERVER_AND_CLIENT, buffer];
        plays(&rt, &before, &[CALLS, eight, NOTHING_COPIED])?;
    }
    Ok(())
}

// Two threads with one frame: each word is where it was.
#[test]
fn one_frame_may_be_two_buffers(rt: HostRuntime) -> Result<(), Fail> {
    let shared = "call tcb1 set_buffer buffer0 32";
    let twelve = "reg t0 a0 a1 a2 a3 = 7 0x500c 3 4";
    let before = [OBJECTS, SERVER_AND_CLIENT, SERVERS_BUFFER, shared];
    plays(&rt, &before, &[CALLS, twelve, NOTHING_COPIED])
}

// A buffer is an unmapped copy of a frame's capability with the rights to read and write, and goes with its source. A
// thread that has one does not end.
#[test]
fn a_buffer_is_a_copy(rt: HostRuntime) -> Result<(), Fail> {
    let calls = "
        call memory retype Frame 0 0 0 buffer0 1
        call boot mint 24 32 buffer0 32 read 0
        call tcb0 set_buffer 40 32 = FailedLookup
        call tcb0 set_buffer buffer0 33 = RangeError
        call tcb0 set_buffer endpoint 32 = InvalidCapability
        call tcb0 set_buffer 24 32 = InvalidCapability
        slot t0 2 = Empty 0 0 0
        call tcb0 set_buffer buffer0 32
        slot t0 2 = Frame 0x14000 3 0 0 buffer0
        slot t0 3 = none
        call tcb0 set_buffer buffer0 32 = DeleteFirst
        call boot delete tcb0 32 = RevokeFirst
        call boot revoke buffer0 32
        slot t0 2 = Empty 0 0 0
        call boot delete tcb0 32
        slot t0 2 = none
    ";
    builds(&rt, &[OBJECTS, calls])
}
