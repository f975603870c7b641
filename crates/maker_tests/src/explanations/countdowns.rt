//! Mistakes in a text of a thread that counts down, storing each number, and then waits for its bell.

use crate::explanations::rows::check;
use std::test::Fail;
use test_sessions::with_line;

/// The text, which is accepted.
const TEXT: &str = "memory 16 4
untyped u 0x8000 15
object code u frame
object vs u root
object pt u table
object page u frame
object main u tcb
object cs u cnode 4
object bell u notification
irq line 3 bell 1
cap cs 1 bell 2 0
cap cs 2 line 0 0
table vs 0 pt
map vs 0x1000 code 4
map vs 0x2000 page 3
thread main cs 28 vs 100 35 0 start 0x1000
measure 35
start: addi x5 x0 10
lui x14 2
measure 3 x5 3
range x5 1 10
range x14 0x2000 0x2000
loop: sw x5 0(x14)
addi x5 x5 -1
measure 4 x5 3
range x5 0 9
range x14 0x2000 0x2000
bne x5 x0 loop
again: addi x10 x0 1
addi x17 x0 5
ecall
jal x0 again
end
";

/// What is refused at a point of the program.
const IN_PROGRAMS: &str = "
@ 21 range x5 1 9
text:19: RangeNotKept: thread main, `lui x14 2`: a register can leave its range on a way on
  x5 is 10 on the way to line 23, `sw x5 0(x14)`, where it is 1..9, as its record says (line 20)
  known here: x5 10; measure 34; budget 35
@ 22 range x14 0x2000 0x2ffd
text:23: NotMapped: thread main, `sw x5 0(x14)`: store to bytes 0x2000 to 0x3000, where x14 is 0x2000..0x2ffd
  page 0x3000 is not mapped to write; mapped: 0x1000 code (execute), 0x2000 page (read, write)
  known here: x5 1..10, x14 0x2000..0x2ffd; measure 3 + 3*x5; budget 35
@ 15 map vs 0x2000 page 2
text:23: NotMapped: thread main, `sw x5 0(x14)`: store to bytes 0x2000 to 0x2003, where x14 is 0x2000
  page 0x2000 is not mapped to write; mapped: 0x1000 code (execute), 0x2000 page (read)
  known here: x5 1..10, x14 0x2000; measure 3 + 3*x5; budget 35
@ 16 thread main cs 28 vs 100 34 0 start 0x1000
text:18: OverBudget: thread main, `addi x5 x0 10`: the thread does not start as the entry's record says
  the measure is 35 at the start, above the budget 34 by 1
@ 20 measure 3 x5 2
text:24: MeasureNotFalling: thread main, `addi x5 x5 -1`: the measure does not fall
  on the way to line 28, `bne x5 x0 loop`: the measure is 2 + 2*x5 here, and there 4 + 3*x5: it has to fall by 1, and misses that by 10; \
    the record there is on line 25
  known here: x5 1..10, x14 0x2000; measure 2 + 2*x5; budget 35
@ 25 measure 3 x5 3
text:28: MeasureNotFalling: thread main, `bne x5 x0 loop`: the measure does not fall
  on the way to line 23, `sw x5 0(x14)`: the measure is 3 + 3*x5 here, and there 3 + 3*x5: it has to fall by 1, and misses that by 1; \
    the record there is on line 20
  known here: x5 0..9, x14 0x2000; measure 3 + 3*x5; budget 35
@ 17 # none
text:18: RangeNotKept: thread main, `addi x5 x0 10`: the entry has no record
  put `measure NUMBER` before line 18: at most so many instructions come before the next wait is done
@ 11 cap cs 1 bell 1 0
text:31: CapNotThere: thread main, `ecall`: Recv on a0 = 1, slot cs 1, notification `bell` (write), badge 0: the capability lacks read (2)
  full slots: cs 1 notification `bell` (write), badge 0; cs 2 interrupt handler of line 3
  known here: x5 0, x10 1, x14 0x2000, x17 5; measure 1 + 3*x5; budget 35
@ 29 again: addi x10 x0 3
text:31: CapNotThere: thread main, `ecall`: Recv on a0 = 3: no full slot has this address
  full slots: cs 1 notification `bell` (read), badge 0; cs 2 interrupt handler of line 3
  known here: x5 0, x10 3, x14 0x2000, x17 5; measure 1 + 3*x5; budget 35
@ 30 lbu x17 0(x14)
text:31: CallNotConstant: thread main, `ecall`: x17 (a7, the number of the call) is 0..255; it has to have one value: set it just before
  x17 is loaded from memory on line 30, `lbu x17 0(x14)`, so it can be 0..255
  known here: x5 0, x10 1, x14 0x2000, x17 0..255; measure 1 + 3*x5; budget 35
@ 30 addi x17 x0 10
text:31: CallRefused: thread main, `ecall`: x17 (a7) is 10: system calls have the numbers 1 to 9
  known here: x5 0, x10 1, x14 0x2000, x17 10; measure 1 + 3*x5; budget 35
@ 32 # none
text:31: BadTarget: thread main, `ecall`: a way on leads to where nothing is known
  the way on leaves the program after its last word: end it with a jump
  known here: x5 0, x10 1, x14 0x2000, x17 5; measure 1 + 3*x5; budget 35
@ 32 jalr x0 0(x14)
text:32: ComputedJump: thread main, `jalr x0 0(x14)`: a jump to an address in a register: only `jal` and branches may jump
@ 1 memory 16 4
accepted
";

#[test]
fn mistakes_in_programs_and_certificates(rt: HostRuntime) -> Result<(), Fail> {
    check(&rt, TEXT, IN_PROGRAMS)
}

/// What makes no image.
const IN_LINES: &str = "
@ 23 loop: sw x5 x14
text:23: `loop: sw x5 x14`: `x14` is no OFFSET(xS): the offset is always written, as 0(x5)
  form: `sw xT OFFSET(xS)`; xT is stored; OFFSET is -2048 to 2047, and always written
@ 18 start: li x5 10
text:18: `start: li x5 10`: there is no `li`: write `addi xD x0 NUMBER`, or for large numbers `lui xD NUMBER` and `addi xD xD NUMBER`
@ 29 again: addi a0 x0 1
text:29: `again: addi a0 x0 1`: registers are written x0 to x31: `a0` is `x10`
  form: `addi xD xS NUMBER`; NUMBER is -2048 to 2047
@ 30 adi x17 x0 5
text:30: `adi x17 x0 5`: no line begins with `adi`; did you mean `addi`?
@ 32 jal x0 agian
text:32: `jal x0 agian`: no line of the thread has the label `agian`; did you mean `again`?
@ 11 cap cs 1 bel 2 0
text:11: `cap cs 1 bel 2 0`: nothing is named `bel` before this line; did you mean `bell`?
@ 9 object page u notification
text:9: `object page u notification`: `page` is declared on line 6: choose another name
@ 18 start: addi x5 x0 4096
text:18: `start: addi x5 x0 4096`: a number is out of its range
  form: `addi xD xS NUMBER`; NUMBER is -2048 to 2047
@ 12 cap cs 1 line 0 0
text:12: `cap cs 1 line 0 0`: line 11 says this already
@ 20 # none
text:21: `range x5 1 10`: out of its place: it belongs after a line `measure`, before the instruction
";

#[test]
fn mistakes_in_lines(rt: HostRuntime) -> Result<(), Fail> {
    check(&rt, TEXT, IN_LINES)
}

/// What is refused before the program is looked at.
const IN_DECLARATIONS: &str = "
@ 13 # none
text:14: BadMapping: `map vs 0x1000 code 4`: no page table covers 0x1000: there is no `table vs 0x0 ..`
@ 12 cap cs 20 line 0 0
text:12: BadCap: `cap cs 20 line 0 0`: `cs` has the slots 0 to 15, and no 20
@ 2 untyped u 0x8000 14
text:7: NoRoom: `object main u tcb`: no room: `u` (line 2) has 0x4000 bytes, and this object of 0x200 bytes would end at 0x4200, after those before it
  make the memory larger, or put small objects after large ones
@ 2 untyped u 0x400 10
text:2: UntypedOverlap: `untyped u 0x400 10`: it begins inside the boot area, which ends at 0x500 (16 bytes for each of 2^RADIX + 64 slots)
@ 1 memory 16 3
text:1: BadObject: `memory 16 3`: the boot CNode has 8 slots, and needs 13: for untyped memories 1, objects 7, interrupt control 1, interrupts twice 1, mapped \
    frames 2
  the radix has to be 4 or more
@ 14 map vs 0x1000 code 7
text:14: WritableCode: `map vs 0x1000 code 7`: `code` is mapped to write and to execute: code has a frame of its own
@ 16 thread main cs 28 vs 100 35 0 start 0x2000
text:16: BadThread: `thread main cs 28 vs 100 35 0 start 0x2000`: thread main has 9 instructions from 0x2000 on, and the page 0x2000 is not mapped under `vs` \
    with execute (4)
";

/// What is refused of a device page.
const IN_DEVICES: &str = "
@ 6 object page u frame 1
text:15: WritableCode: `map vs 0x2000 page 4`: `page` is a device page (line 6), which the world writes: it cannot be executed
";

#[test]
fn a_device_page_is_not_executed(rt: HostRuntime) -> Result<(), Fail> {
    let executed = with_line(rt.alloc(), TEXT, 15, "map vs 0x2000 page 4")?;
    check(&rt, executed.as_str(), IN_DEVICES)
}

#[test]
fn mistakes_in_declarations(rt: HostRuntime) -> Result<(), Fail> {
    check(&rt, TEXT, IN_DECLARATIONS)
}
