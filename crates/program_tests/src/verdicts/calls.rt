//! Each rule on system calls, by programs that it accepts and programs that it refuses.

use crate::verdicts::texts::verdict;
use std::alloc::Global;
use std::process::Abort;
use std::test::Fail;
use test_sessions::number;

/// One thread whose CNode holds a notification to read (slot 0), a pool of two pages (1), the CNode itself (2), the root table (3), a
/// frame (4), an endpoint with all rights and a badge (5), the notification with both rights (6), the handler of line 3 (7), and the
/// endpoint to read (8) and to write (9). The other slots are empty.
const HEAD: &str = "memory 17 5
untyped u 0x10000 16
object code u frame
object vs u root
object pt u table
object page u frame
object main u tcb
object cs u cnode 4
object ep u endpoint
object bell u notification
object pool u untyped 13
irq line 3 bell 1
cap cs 0 bell 2 0
cap cs 1 pool 0 0
cap cs 2 cs 0 28
cap cs 3 vs 0 0
cap cs 4 page 3 0
cap cs 5 ep 11 5
cap cs 6 bell 3 0
cap cs 7 line 0 0
cap cs 8 ep 2 0
cap cs 9 ep 1 0
table vs 0 pt
map vs 0x1000 code 4
thread main cs 28 vs 100 201 0 start 0x1000
measure 200
start: addi x5 x0 0
";

/// A wait on the notification, and back to the beginning, where the slots have to be as they were.
const TAIL: &str = "addi x10 x0 6
addi x17 x0 5
ecall
jal x0 start
end
";

/// The registers of a call: its number, the address, the message's info, and its words.
const REGISTERS: &str = "17 10 11 12 13 14 15 18 19 20 21";

/// What brings a badge into x5: a wait.
const BADGE: &str = "addi x10 x0 6\naddi x17 x0 5\necall\naddi x5 x10 0\n";

/// The lines that give a register its value.
fn put_value(alloc: Global, lines: &mut String, register: &str, value: u32) -> Result<(), Fail> {
    let (high, low) = (value / 0x1000, value % 0x1000);
    let pair = format!(in alloc; "lui x{register} {high}\naddi x{register} x{register} {low}\n")?;
    Ok(lines.push_str(pair.as_str())?)
}

/// The lines of what the registers of a call hold.
fn put_values(alloc: Global, lines: &mut String, values: &str) -> Result<(), Fail> {
    for (register, value) in REGISTERS.split_whitespace().zip(values.split_whitespace()) {
        put_value(alloc, lines, register, number(value)?)?;
    }
    Ok(())
}

/// The lines of a call: what its registers hold, and perhaps after `?` a register that may hold any badge.
fn put_call(alloc: Global, lines: &mut String, call: &str) -> Result<(), Fail> {
    match call.split_once(" ?") {
        Some((values, unknown)) => {
            lines.push_str(BADGE)?;
            put_values(alloc, lines, values)?;
            let line = format!(in alloc; "addi x{unknown} x5 0\n")?;
            lines.push_str(line.as_str())?;
        }
        None => put_values(alloc, lines, call)?,
    }
    Ok(lines.push_str("ecall\n")?)
}

/// Asserts what is said of the calls of each row, which ` ; ` parts; `@` is the point of the last.
fn are_said(rt: &(impl Abort + AllocGlobal), rows: &str) -> Result<(), Fail> {
    for row in rows.trim().lines() {
        let row = row.trim_start();
        if row.starts_with('#') {
            continue;
        }
        let (want, calls) = row.split_once(" | ").ok_or(row)?;
        let mut lines = String::new(rt.alloc());
        for call in calls.split(" ; ") {
            put_call(rt.alloc(), &mut lines, call)?;
        }
        // Each line is an instruction, and one is before them.
        let point = format!(in rt.alloc(); "{}", lines.lines().count())?;
        let want = want.replace(rt.alloc(), '@', point.as_str())?;
        let text = format!(in rt.alloc(); "{}{lines}{}", HEAD, TAIL)?;
        assert_eq!(rt; verdict(rt.alloc(), text.as_str())?, want, "for {row}");
    }
    Ok(())
}

/// Recv, NBRecv and ReplyRecv: an endpoint or a notification with read.
const WAITS: &str = "
    accepted | 5 0 0
    accepted | 5 5 0
    accepted | 5 6 0
    accepted | 5 8 0
    CapNotThere 0 @ | 5 1 0
    CapNotThere 0 @ | 5 2 0
    CapNotThere 0 @ | 5 3 0
    CapNotThere 0 @ | 5 4 0
    CapNotThere 0 @ | 5 7 0
    CapNotThere 0 @ | 5 9 0
    CapNotThere 0 @ | 5 10 0
    CallNotConstant 0 @ | 5 6 0 ?10
    accepted | 8 0 0
    accepted | 8 5 0
    accepted | 8 6 0
    accepted | 8 8 0
    CapNotThere 0 @ | 8 1 0
    CapNotThere 0 @ | 8 2 0
    CapNotThere 0 @ | 8 3 0
    CapNotThere 0 @ | 8 4 0
    CapNotThere 0 @ | 8 7 0
    CapNotThere 0 @ | 8 9 0
    CapNotThere 0 @ | 8 10 0
    CallNotConstant 0 @ | 8 6 0 ?10
    accepted | 2 0 0
    accepted | 2 5 0
    accepted | 2 6 0
    accepted | 2 8 0
    CapNotThere 0 @ | 2 1 0
    CapNotThere 0 @ | 2 2 0
    CapNotThere 0 @ | 2 3 0
    CapNotThere 0 @ | 2 4 0
    CapNotThere 0 @ | 2 7 0
    CapNotThere 0 @ | 2 9 0
    CapNotThere 0 @ | 2 10 0
    CallNotConstant 0 @ | 2 6 0 ?10
";

#[test]
fn receives(rt: HostRuntime) -> Result<(), Fail> {
    are_said(&rt, WAITS)
}

/// Call, Send and NBSend: an endpoint or a notification with write, and Call on an endpoint with the right to hand over a
/// reply, too. Reply, Yield and PutChar need nothing, and other numbers are none.
const SENDS: &str = "
    accepted | 1 5 0
    accepted | 1 6 0
    CapNotThere 0 @ | 1 0 0
    CapNotThere 0 @ | 1 8 0
    CapNotThere 0 @ | 1 10 0
    CallNotConstant 0 @ | 1 6 0 ?10
    accepted | 3 5 0
    accepted | 3 6 0
    CapNotThere 0 @ | 3 0 0
    CapNotThere 0 @ | 3 8 0
    CapNotThere 0 @ | 3 10 0
    CallNotConstant 0 @ | 3 6 0 ?10
    accepted | 4 5 0
    accepted | 4 6 0
    CapNotThere 0 @ | 4 0 0
    CapNotThere 0 @ | 4 8 0
    CapNotThere 0 @ | 4 10 0
    CallNotConstant 0 @ | 4 6 0 ?10
    CapNotThere 0 @ | 1 9 0
    accepted | 3 9 0
    accepted | 4 9 0
    accepted | 6 10 0
    accepted | 6 0 0 ?10
    accepted | 7 10 0
    accepted | 7 0 0 ?10
    accepted | 9 10 0
    accepted | 9 0 0 ?10
    CallRefused 0 @ 3 | 0 6 0
    CallRefused 0 @ 3 | 10 6 0
    CallRefused 0 @ 3 | 2047 6 0
    CallNotConstant 0 @ | 5 6 0 ?17
";

#[test]
fn sends(rt: HostRuntime) -> Result<(), Fail> {
    are_said(&rt, SENDS)
}

/// How invocations are decoded.
const MESSAGES: &str = "
    # Revoke of slot 1 by Call, Send and NBSend. A word that is not listed may be any.
    accepted | 1 2 0xC002 1 32
    accepted | 3 2 0xC002 1 32
    accepted | 4 2 0xC002 1 32
    CallNotConstant 0 @ | 1 2 0xC002 1 32 ?11
    CallNotConstant 0 @ | 1 2 0xC002 1 32 ?12
    CallNotConstant 0 @ | 1 2 0xC002 1 32 ?13
    accepted | 1 2 0xC002 1 32 ?14
    # Capabilities come along, before the label is looked at; a label of something else; a word too few.
    CallRefused 0 @ 7 | 1 2 0x5082 1 32
    CallRefused 0 @ 3 | 1 2 0x5002 1 32
    CallRefused 0 @ 7 | 1 2 0xC001 1
    # Nothing may be asked of a root table; a line is acknowledged, and no handler set or cleared.
    CallRefused 0 @ 3 | 1 3 0xD004 3 32 0x3000 3
    accepted | 1 7 0x12000
    CallRefused 0 @ 3 | 1 7 0x13002 6 32
    CallRefused 0 @ 3 | 1 7 0x14000
";

#[test]
fn messages_are_decoded(rt: HostRuntime) -> Result<(), Fail> {
    are_said(&rt, MESSAGES)
}

/// What is made of the pool.
const RETYPES: &str = "
    # Endpoints, notifications and frames are made, and taken back.
    accepted | 1 1 0x1006 3 0 0 0 10 2 ; 1 2 0xC002 1 32
    accepted | 1 1 0x1006 3 0 2 32 10 1 ; 1 2 0xC002 1 32
    accepted | 1 1 0x1006 4 0 0 0 10 2 ; 1 2 0xC002 1 32
    accepted | 1 1 0x1006 4 0 2 32 10 1 ; 1 2 0xC002 1 32
    accepted | 1 1 0x1006 6 0 0 0 10 2 ; 1 2 0xC002 1 32
    accepted | 1 1 0x1006 6 0 2 32 10 1 ; 1 2 0xC002 1 32
    CallRefused 0 @ 3 | 1 1 0x1006 1 4 0 0 10 1
    CallRefused 0 @ 3 | 1 1 0x1006 2 0 0 0 10 1
    CallRefused 0 @ 3 | 1 1 0x1006 5 1 0 0 10 1
    CallRefused 0 @ 3 | 1 1 0x1006 7 0 0 0 10 1
    CallRefused 0 @ 3 | 1 1 0x1006 8 0 0 0 10 1
    CallRefused 0 @ 1 | 1 1 0x1006 9 0 0 0 10 1
    CallRefused 0 @ 6 | 1 1 0x1006 3 0 4 32 10 1
    CallRefused 0 @ 4 | 1 1 0x1006 3 0 0 0 10 0
    CallRefused 0 @ 4 | 1 1 0x1006 3 0 0 0 15 2
    CallRefused 0 @ 8 | 1 1 0x1006 3 0 0 0 9 1
    CallRefused 0 @ 10 | 1 1 0x1006 6 0 0 0 10 3
";

#[test]
fn retypes(rt: HostRuntime) -> Result<(), Fail> {
    are_said(&rt, RETYPES)
}

/// Copy, Mint, Move and Mutate in the CNode.
const COPIES: &str = "
    # Endpoints, notifications and frames, by Copy, Mint and Move.
    accepted | 1 2 0x7005 10 32 4 32 2 ; 1 2 0xB002 10 32
    accepted | 1 2 0x9004 10 32 4 32 ; 1 2 0x9004 4 32 10 32
    accepted | 1 2 0x7005 10 32 5 32 2 ; 1 2 0xB002 10 32
    accepted | 1 2 0x9004 10 32 5 32 ; 1 2 0x9004 5 32 10 32
    accepted | 1 2 0x7005 10 32 6 32 2 ; 1 2 0xB002 10 32
    accepted | 1 2 0x9004 10 32 6 32 ; 1 2 0x9004 6 32 10 32
    accepted | 1 2 0x8006 10 32 4 32 2 7 ; 1 2 0xB002 10 32
    accepted | 1 2 0x8006 10 32 6 32 2 7 ; 1 2 0xB002 10 32
    accepted | 1 2 0x8006 10 32 8 32 2 7 ; 1 2 0xB002 10 32
    # A copy that stays is not noted at the beginning, where the last of the tail's four instructions leads.
    CapNotThere 0 21 | 1 2 0x7005 10 32 5 32 2
    # CNodes, root tables, handlers and untyped memory do not travel, and nothing is mutated.
    CallRefused 0 @ 3 | 1 2 0x7005 10 32 1 32 0
    CallRefused 0 @ 3 | 1 2 0x8006 10 32 1 32 0 28
    CallRefused 0 @ 3 | 1 2 0xA005 10 32 1 32 28
    CallRefused 0 @ 3 | 1 2 0x7005 10 32 2 32 0
    CallRefused 0 @ 3 | 1 2 0x8006 10 32 2 32 0 28
    CallRefused 0 @ 3 | 1 2 0xA005 10 32 2 32 28
    CallRefused 0 @ 3 | 1 2 0x7005 10 32 3 32 0
    CallRefused 0 @ 3 | 1 2 0x8006 10 32 3 32 0 28
    CallRefused 0 @ 3 | 1 2 0xA005 10 32 3 32 28
    CallRefused 0 @ 3 | 1 2 0x7005 10 32 7 32 0
    CallRefused 0 @ 3 | 1 2 0x8006 10 32 7 32 0 28
    CallRefused 0 @ 3 | 1 2 0xA005 10 32 7 32 28
    CallRefused 0 @ 3 | 1 2 0x9004 10 32 2 32
    CallRefused 0 @ 3 | 1 2 0x9004 10 32 3 32
    CallRefused 0 @ 3 | 1 2 0x9004 10 32 7 32
    PoolLost 0 @ | 1 2 0x9004 10 32 1 32
    CallRefused 0 @ 3 | 1 2 0xA005 10 32 4 32 0
    CallRefused 0 @ 3 | 1 2 0xA005 10 32 5 32 0
    CallRefused 0 @ 3 | 1 2 0xA005 10 32 6 32 0
    # A badge stays.
    CallRefused 0 @ 3 | 1 2 0x8006 10 32 5 32 2 7
    CallRefused 0 @ 4 | 1 2 0x8006 10 32 6 32 2 0x10000000
    CallRefused 0 @ 6 | 1 2 0x7005 10 32 11 32 2
    CallRefused 0 @ 8 | 1 2 0x7005 5 32 6 32 2
    CallRefused 0 @ 6 | 1 2 0x9004 10 32 11 32
    CallRefused 0 @ 8 | 1 2 0x9004 5 32 6 32
    CallRefused 0 @ 6 | 1 2 0x7005 10 31 6 32 2
";

#[test]
fn copies(rt: HostRuntime) -> Result<(), Fail> {
    are_said(&rt, COPIES)
}

/// Delete and Revoke in the CNode.
const REMOVALS: &str = "
    # A copy and a copy of it go by Delete of both, by Revoke of the first and Delete of it, or by Revoke of what was copied.
    accepted | 1 2 0x7005 10 32 5 32 2 ; 1 2 0x7005 11 32 10 32 2 ; 1 2 0xB002 10 32 ; 1 2 0xB002 11 32
    accepted | 1 2 0x7005 10 32 5 32 2 ; 1 2 0x7005 11 32 10 32 2 ; 1 2 0xC002 10 32 ; 1 2 0xB002 10 32
    accepted | 1 2 0x7005 10 32 5 32 2 ; 1 2 0x7005 11 32 10 32 2 ; 1 2 0xC002 5 32
    PoolLost 0 @ | 1 2 0xB002 1 32
";

#[test]
fn removals(rt: HostRuntime) -> Result<(), Fail> {
    are_said(&rt, REMOVALS)
}

/// Map and Unmap of the frame.
const FRAMES: &str = "
    accepted | 1 4 0xD004 3 32 0x3000 2 ; 1 4 0xE000
    accepted | 1 4 0xD004 3 32 0x3000 3 ; 1 4 0xE000
    accepted | 1 4 0xE000
    CallRefused 0 @ 2 | 1 4 0xD004 3 32 0x3000 3 ; 1 4 0xD004 3 32 0x3000 3
    CallRefused 0 @ 2 | 1 4 0xD004 2 32 0x3000 3
    CallRefused 0 @ 1 | 1 4 0xD004 3 32 0x80000000 3
    CallRefused 0 @ 5 | 1 4 0xD004 3 32 0x3004 3
    CallRefused 0 @ 6 | 1 4 0xD004 3 32 0x400000 3
    CallRefused 0 @ 8 | 1 4 0xD004 3 32 0x1000 3
    CallRefused 0 @ 1 | 1 4 0xD004 3 32 0x3000 1
    # Execute is the kernel's to give, and no program's to take.
    CallRefused 0 @ 3 | 1 4 0xD004 3 32 0x3000 4
    CallRefused 0 @ 3 | 1 4 0xD004 3 32 0x3000 7
";

#[test]
fn frames(rt: HostRuntime) -> Result<(), Fail> {
    are_said(&rt, FRAMES)
}
