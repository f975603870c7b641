//! A service whose loop counts down from the word of each message, which is promised at its endpoint, and a client that sends one.

use crate::verdicts::texts::{are_said, bytes_of, changed};
use std::test::Fail;

/// The whole budget is used: a message of 9 makes 31 instructions up to the next wait.
const SERVICE: &str = "memory 16 4
untyped u 0x8000 15
object code u frame
object code2 u frame
object vs u root
object vs2 u root
object pt u table
object pt2 u table
object service u tcb
object client u tcb
object cs u cnode 4
object cs2 u cnode 4
object port u endpoint
object bell u notification
cap cs 1 port 2 0
cap cs2 1 port 9 0
table vs 0 pt
table vs2 0 pt2
map vs 0x1000 code 4
map vs2 0x1000 code2 4
promise port 0 0 0 9
thread service cs 28 vs 100 31 0 start 0x1000
measure 3
start: addi x10 x0 1
addi x17 x0 5
ecall
measure 4 x12 3
range x12 0 9
loop: beq x12 x0 start
addi x12 x12 -1
measure 5 x12 3
range x12 0 8
jal x0 loop
end
thread client cs2 28 vs2 99 8 0 start 0x1000
measure 5
start: addi x10 x0 1
addi x11 x0 1
addi x12 x0 5
addi x17 x0 3
ecall
jal x0 start
end
";

/// What is said where lines are put another way.
const ROWS: &str = "
    accepted | 1 memory 16 4
    OverBudget 0 2 | 22 thread service cs 28 vs 100 30 0 start 0x1000
    # Nothing is promised, or no word, or more than the loop can bear.
    RangeNotKept 0 2 | 21 # none
    RangeNotKept 0 2 | 21 promise port 0 0
    RangeNotKept 0 2 | 21 promise port 0 0 0 10
    accepted | 21 promise port 0 0 0 9 0 0xFFFFFFFF ; 38 addi x11 x0 2
    # A promise of a notification is item 4, after two tables and two frames.
    BadPromise 4 0 | 21 promise bell 0 0 0 9
    # The client's word, badge and length: more than 8 count as 8.
    PromiseNotKept 1 4 | 39 addi x12 x0 12
    PromiseNotKept 1 4 | 39 addi x12 x0 10
    accepted | 39 addi x12 x0 9
    PromiseNotKept 1 4 | 16 cap cs2 1 port 9 1
    accepted | 16 cap cs2 1 port 9 1 ; 21 promise port 0 1 0 9
    PromiseNotKept 1 4 | 38 addi x11 x0 0
    accepted | 38 addi x11 x0 9
    PromiseNotKept 1 4 | 21 promise port 0 0 0 9 0 9
    # The right is looked at first, then that a1 is known, and then the promise.
    CapNotThere 1 4 | 16 cap cs2 1 port 2 1 ; 38 addi x11 x5 0
    CallNotConstant 1 4 | 16 cap cs2 1 port 9 1 ; 38 addi x11 x5 0
    # Where every badge and no word is promised, a1 has to be known all the same.
    CallNotConstant 1 4 | 21 promise port 0 0xFFFFFFF ; 27 measure 4 ; 28 # none ; 29 loop: jal x0 start ; 30 # none ; 31 # none ; 32 # none ; 33 # none ; \
        38 addi x11 x5 0
    accepted | 21 promise port 0 0xFFFFFFF ; 27 measure 4 ; 28 # none ; 29 loop: jal x0 start ; 30 # none ; 31 # none ; 32 # none ; 33 # none
    # NBSend and Call keep it too.
    PromiseNotKept 1 4 | 39 addi x12 x0 12 ; 40 addi x17 x0 4
    PromiseNotKept 1 4 | 39 addi x12 x0 12 ; 40 addi x17 x0 1
    # What NBRecv leaves is not promised: a0 is 0 where nobody sends.
    RangeNotKept 0 2 | 25 addi x17 x0 8
";

#[test]
fn what_is_promised_is_counted_on_and_kept(rt: HostRuntime) -> Result<(), Fail> {
    are_said(&rt, SERVICE, ROWS)
}

#[test]
fn a_text_with_promises_is_of_version_2(rt: HostRuntime) -> Result<(), Fail> {
    let bytes = bytes_of(rt.alloc(), SERVICE)?;
    assert_eq!(rt; bytes.get(4).copied(), Some(2));
    let bare = changed(rt.alloc(), SERVICE, "21 # none")?;
    let bytes = bytes_of(rt.alloc(), bare.as_str())?;
    assert_eq!(rt; bytes.get(4).copied(), Some(1));
    Ok(())
}
