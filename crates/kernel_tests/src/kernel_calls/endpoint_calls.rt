//! The nine system calls on an endpoint where nobody waits, or a sender, a caller, a thread that faulted, or a receiver.
//! seL4 Reference Manual, "Message Passing (IPC)" and "Faults"; numbers of calls, words and labels are this project's own.

use crate::kernel_calls::systems::{OBJECTS, plays};
use std::test::Fail;

// The partner (thread 0) and the caller (thread 1) begin at 0x1000 and have one priority. The lengths 3 and 2 are
// beside bits that no message has.
const BOTH: &str = "
    code ecall stay
    call tcb0 set_priority 100
    set tcb0 pc 0x1000 a0 1 a1 0x7F83 a2 11 a3 12 a4 13 a5 14
    call cnode1 mint 1 4 endpoint 32 all 6
    call tcb1 configure 0 cnode1 32 root 32 28
    call tcb1 set_priority 100
    set tcb1 pc 0x1000 a0 1 a1 0x5F82 a2 21 a3 22 a4 23 a5 24
";

// The partner's system call is the first one; its badge is 5. FAULTS stops by a fault that nobody handles, and HANDLED
// has the endpoint for its fault address.
//
// After its name and what comes of its call is what comes of the caller's, for each of Call, ReplyRecv, Send,
// NBSend, Recv, Reply, Yield, NBRecv and PutChar.
const ROWS: &str = "
    FAULTS   fault blocks blocks      blocks passes blocks      passes passes finds_nothing prints
    SENDS    wait  blocks from_sender blocks passes from_sender passes passes polls_sender  prints
    CALLS    wait  blocks from_caller blocks passes from_caller passes passes polls_caller  prints
    NO_REPLY wait  blocks from_caller blocks passes from_caller passes passes polls_caller  prints
    HANDLED  fault blocks from_fault  blocks passes from_fault  passes passes polls_fault   prints
    RECEIVES wait  calls_receiver blocks to_receiver polled_to_receiver blocks passes passes finds_nothing prints
";

// What the names of the rows mean: of a partner its setting up; of what comes of a call the label, the caller and
// the partner after it, and who runs next and five ticks later. Who is ready jumps to where it is.
//
// `blocks`: the caller joins the list of the endpoint. `passes`: nothing else happens. `prints`: the low byte of a0.
// `finds_nothing`: with nothing there a0 becomes 0. `from_sender`: by badge 5, with the label 7 and three words, and the
// sender passes after the caller. `from_caller`: who called waits for the reply, or stops. `from_fault`: by badge 5, with
// the label 2 and two words, where the thread was and the number in its a7; it waits for its handler's reply.
// `to_receiver`: by badge 6, with the label 5 and two words, and the receiver passes after the caller. `calls_receiver`:
// the caller waits for the reply. `polls_..` and `polled_..` are the same by a call that does not wait.
const PARTS: &str = "
FAULTS
    call cnode0 mint 1 4 endpoint 32 write_reply 5
    call tcb0 configure 0 cnode0 32 root 32 28
    set tcb0 a7 Unknown

SENDS
    call cnode0 mint 1 4 endpoint 32 write 5
    call tcb0 configure 0 cnode0 32 root 32 28
    set tcb0 a7 Send

CALLS
    call cnode0 mint 1 4 endpoint 32 write_reply 5
    call tcb0 configure 0 cnode0 32 root 32 28
    set tcb0 a7 Call

NO_REPLY
    call cnode0 mint 1 4 endpoint 32 write 5
    call tcb0 configure 0 cnode0 32 root 32 28
    set tcb0 a7 Call

HANDLED
    call cnode0 mint 1 4 endpoint 32 write_reply 5
    call tcb0 configure 1 cnode0 32 root 32 28
    set tcb0 a7 Unknown

RECEIVES
    call cnode0 mint 1 4 endpoint 32 read 5
    call tcb0 configure 0 cnode0 32 root 32 28
    set tcb0 a7 Recv

fault
    80013000 00001000 fault 2

wait
    80013000 00001000 wait

blocks
    80013200 00001000 wait
    reg t1 pc a0 a1 a2 a3 a4 a5 = 0x1000 1 0x5F82 21 22 23 24
    reg t0 pc a0 a1 a2 a3 a4 a5 = 0x1000 1 0x7F83 11 12 13 14
    idle
    tick; tick; tick; tick; tick
    idle

passes
    80013200 00001000 plain
    reg t1 pc a0 a1 a2 a3 a4 a5 = 0x1004 1 0x5F82 21 22 23 24
    reg t0 pc a0 a1 a2 a3 a4 a5 = 0x1000 1 0x7F83 11 12 13 14
    80013200 00001004 plain
    tick; tick; tick; tick; tick
    80013200 00001004 plain

prints
    80013200 00001000 byte 01
    reg t1 pc a0 a1 a2 a3 a4 a5 = 0x1004 1 0x5F82 21 22 23 24
    reg t0 pc a0 a1 a2 a3 a4 a5 = 0x1000 1 0x7F83 11 12 13 14
    80013200 00001004 plain
    tick; tick; tick; tick; tick
    80013200 00001004 plain

finds_nothing
    80013200 00001000 plain
    reg t1 pc a0 a1 a2 a3 a4 a5 = 0x1004 0 0x5F82 21 22 23 24
    reg t0 pc a0 a1 a2 a3 a4 a5 = 0x1000 1 0x7F83 11 12 13 14
    80013200 00001004 plain
    tick; tick; tick; tick; tick
    80013200 00001004 plain

from_sender
    80013200 00001000 wait
    reg t1 pc a0 a1 a2 a3 a4 a5 = 0x1004 5 0x7003 11 12 13 24
    reg t0 pc a0 a1 a2 a3 a4 a5 = 0x1004 1 0x7F83 11 12 13 14
    80013200 00001004 plain
    tick; tick; tick; tick; tick
    80013000 00001004 plain

polls_sender
    80013200 00001000 plain
    reg t1 pc a0 a1 a2 a3 a4 a5 = 0x1004 5 0x7003 11 12 13 24
    reg t0 pc a0 a1 a2 a3 a4 a5 = 0x1004 1 0x7F83 11 12 13 14
    80013200 00001004 plain
    tick; tick; tick; tick; tick
    80013000 00001004 plain

from_caller
    80013200 00001000 wait
    reg t1 pc a0 a1 a2 a3 a4 a5 = 0x1004 5 0x7003 11 12 13 24
    reg t0 pc a0 a1 a2 a3 a4 a5 = 0x1000 1 0x7F83 11 12 13 14
    80013200 00001004 plain
    tick; tick; tick; tick; tick
    80013200 00001004 plain

polls_caller
    80013200 00001000 plain
    reg t1 pc a0 a1 a2 a3 a4 a5 = 0x1004 5 0x7003 11 12 13 24
    reg t0 pc a0 a1 a2 a3 a4 a5 = 0x1000 1 0x7F83 11 12 13 14
    80013200 00001004 plain
    tick; tick; tick; tick; tick
    80013200 00001004 plain

from_fault
    80013200 00001000 wait
    reg t1 pc a0 a1 a2 a3 a4 a5 = 0x1004 5 0x2002 0x1000 Unknown 23 24
    reg t0 pc a0 a1 a2 a3 a4 a5 = 0x1000 1 0x7F83 11 12 13 14
    80013200 00001004 plain
    tick; tick; tick; tick; tick
    80013200 00001004 plain

polls_fault
    80013200 00001000 plain
    reg t1 pc a0 a1 a2 a3 a4 a5 = 0x1004 5 0x2002 0x1000 Unknown 23 24
    reg t0 pc a0 a1 a2 a3 a4 a5 = 0x1000 1 0x7F83 11 12 13 14
    80013200 00001004 plain
    tick; tick; tick; tick; tick
    80013200 00001004 plain

to_receiver
    80013200 00001000 wait
    reg t1 pc a0 a1 a2 a3 a4 a5 = 0x1004 1 0x5F82 21 22 23 24
    reg t0 pc a0 a1 a2 a3 a4 a5 = 0x1004 6 0x5002 21 22 13 14
    80013200 00001004 plain
    tick; tick; tick; tick; tick
    80013000 00001004 plain

polled_to_receiver
    80013200 00001000 plain
    reg t1 pc a0 a1 a2 a3 a4 a5 = 0x1004 1 0x5F82 21 22 23 24
    reg t0 pc a0 a1 a2 a3 a4 a5 = 0x1004 6 0x5002 21 22 13 14
    80013200 00001004 plain
    tick; tick; tick; tick; tick
    80013000 00001004 plain

calls_receiver
    80013200 00001000 wait
    reg t1 pc a0 a1 a2 a3 a4 a5 = 0x1000 1 0x5F82 21 22 23 24
    reg t0 pc a0 a1 a2 a3 a4 a5 = 0x1004 6 0x5002 21 22 13 14
    80013000 00001004 plain
    tick; tick; tick; tick; tick
    80013000 00001004 plain
";

/// The part of a name.
fn part(name: &str) -> Result<&'static str, Fail> {
    for text in PARTS.split("\n\n") {
        if let Some((head, part)) = text.trim().split_once('\n') {
            if head == name {
                return Ok(part);
            }
        }
    }
    Err("no such part")?
}

#[test]
fn calls_of_each_number(rt: HostRuntime) -> Result<(), Fail> {
    for line in ROWS.trim().lines() {
        let mut names = line.split_whitespace();
        let partner = part(names.next().unwrap_or(""))?;
        let first = part(names.next().unwrap_or(""))?;
        let mut number = 0u32;
        for name in names {
            number = number.wrapping_add(1);
            let row = format!(in rt.alloc(); "{partner}\nset tcb1 a7 {number}\n{RESUMED}")?;
            let before = [OBJECTS, BOTH, row.as_str()];
            plays(&rt, before.as_slice(), &[first, part(name)?])?;
        }
        assert_eq!(rt; number, 9, "{line}");
    }
    Ok(())
}

const RESUMED: &str = "
    call tcb0 resume
    call tcb1 resume
";

// The caller receives from the partner, and replies with the message that it got. Only a caller with the right to a
// reply gets one: badge 0, and the three words that it sent.
#[test]
fn a_reply_goes_to_who_waits_for_it(rt: HostRuntime) -> Result<(), Fail> {
    let replies = "
        code ecall a7=Reply ecall stay
        set tcb1 a7 Recv
    ";
    let run = "
        80013000 00001000 wait
        80013200 00001000 wait
        80013200 00001004 plain
        80013200 00001008 plain
    ";
    let replied = "reg t0 pc a0 a1 a2 a3 a4 a5 = 0x1004 0 0x7003 11 12 13 14";
    let none = "reg t0 pc a0 a1 a2 a3 a4 a5 = 0x1000 1 0x7F83 11 12 13 14";
    let [caller, other] = [part("CALLS")?, part("NO_REPLY")?];
    plays(
        &rt,
        &[OBJECTS, BOTH, caller, RESUMED, replies],
        &[run, replied],
    )?;
    plays(&rt, &[OBJECTS, BOTH, other, RESUMED, replies], &[run, none])
}
