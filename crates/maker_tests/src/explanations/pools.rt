//! Mistakes in a text of a thread that makes a frame of its untyped memory, maps it, stores into it, and then waits for its bell.

use crate::explanations::rows::check;
use std::test::Fail;

/// The text, which is accepted.
const TEXT: &str = "memory 17 5
untyped u 0x10000 16
object code u frame
object vs u root
object pt u table
object worker u tcb
object cs u cnode 4
object bell u notification
object pool u untyped 13
cap cs 1 pool 0 0
cap cs 2 cs 0 28
cap cs 3 vs 0 0
cap cs 5 bell 2 0
table vs 0 pt
map vs 0x1000 code 4
thread worker cs 28 vs 100 40 0 start 0x1000
measure 30
start: addi x17 x0 1
addi x10 x0 1
lui x11 1
addi x11 x11 6
addi x12 x0 6
addi x13 x0 0
addi x14 x0 0
addi x15 x0 0
addi x18 x0 4
addi x19 x0 1
ecall
addi x10 x0 4
lui x11 0xD
addi x11 x11 4
addi x12 x0 3
addi x13 x0 32
lui x14 3
addi x15 x0 3
ecall
sw x19 0(x14)
addi x17 x0 5
measure 4
range x17 5 5
slot cs 1 0x014000D1 0x1000 boot 0
slot cs 4 0x01400636 0x6023 cs 1
again: addi x10 x0 5
ecall
jal x0 again
end
";

/// What is refused of calls, and of what they leave in slots.
const IN_CALLS: &str = "
@ 41 # none
text:38: CapNotThere: thread worker, `addi x17 x0 5`: the slots after it are not those that are noted there
  slot cs 1 holds untyped memory `pool`, 0x1000 bytes used, made from the boot CNode on the way to line 43, `addi x10 x0 5`, where it is noted with untyped \
    memory `pool`, 0x0 bytes used, made from the boot CNode; write `slot cs 1 0x014000d1 0x1000 boot 0` after line 39
  known here: x10 0, x11 0, x12 3, x13 32, x14 0x3000, x15 3, x17 1, x18 4, x19 1; measure 10; budget 40
@ 22 addi x12 x0 2
text:28: CallRefused: thread worker, `ecall`: Retype (label 1), by Call on a0 = 1, slot cs 1, untyped memory `pool`, 0x0 bytes used: error 3, IllegalOperation
  accepted programs make endpoints (type 3), notifications (4) and frames (6) alone
  words: 6 of 6 given, 0 (x12) 2, 1 (x13) 0, 2 (x14) 0, 3 (x15) 0, 4 (x18) 4, 5 (x19) 1
  full slots: cs 1 untyped memory `pool`, 0x0 bytes used; cs 2 CNode `cs`; cs 3 root table `vs`; cs 5 notification `bell` (read), badge 0
  known here: x10 1, x11 0x1006, x12 2, x13 0, x14 0, x15 0, x17 1, x18 4, x19 1; measure 20; budget 40
@ 35 addi x15 x0 7
text:36: CallRefused: thread worker, `ecall`: Map (label 13), by Call on a0 = 4, slot cs 4, frame at 0x14000 (read, write): error 3, IllegalOperation
  accepted programs map without execute: take 4 off the rights (word 3)
  words: 4 of 4 given, 0 (x12) 3, 1 (x13) 32, 2 (x14) 0x3000, 3 (x15) 7
  full slots: cs 1 untyped memory `pool`, 0x1000 bytes used; cs 2 CNode `cs`; cs 3 root table `vs`; cs 4 frame at 0x14000 (read, write); \
    cs 5 notification `bell` (read), badge 0
  known here: x10 4, x11 0xd004, x12 3, x13 32, x14 0x3000, x15 7, x17 1, x18 4, x19 1; measure 12; budget 40
@ 34 addi x14 x0 100
text:36: CallRefused: thread worker, `ecall`: Map (label 13), by Call on a0 = 4, slot cs 4, frame at 0x14000 (read, write): error 5, AlignmentError
  the address (word 2) is no multiple of 4096
  words: 4 of 4 given, 0 (x12) 3, 1 (x13) 32, 2 (x14) 100, 3 (x15) 3
  full slots: cs 1 untyped memory `pool`, 0x1000 bytes used; cs 2 CNode `cs`; cs 3 root table `vs`; cs 4 frame at 0x14000 (read, write); \
    cs 5 notification `bell` (read), badge 0
  known here: x10 4, x11 0xd004, x12 3, x13 32, x14 100, x15 3, x17 1, x18 4, x19 1; measure 12; budget 40
@ 1 memory 17 5
accepted
";

#[test]
fn mistakes_in_calls_and_slots(rt: HostRuntime) -> Result<(), Fail> {
    check(&rt, TEXT, IN_CALLS)
}
