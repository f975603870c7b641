//! Records that note as many slots as a record may, and more.

use crate::certification::answers::is_refused;
use crate::certification::rows::certified_with;
use std::test::Fail;
use test_sessions::with_line;

/// A thread that makes 256 endpoints on line 32. Two ways meet on line 35, and there slot 4 is another than in the image, too. Then
/// all endpoints are revoked.
const ENDPOINTS: &str = "memory 17 5
untyped u 0x10000 16
object cs u cnode 10
object code u frame
object pool u untyped 14
object vs u root
object pt u table
object data u frame
object main u tcb
object bell u notification
irq line 3 bell 1
cap cs 1 bell 2 0
cap cs 2 line 0 0
cap cs 3 cs 0 22
cap cs 4 pool 0 0
table vs 0 pt
map vs 0x1000 code 4
map vs 0x2000 data 3
thread main cs 22 vs 100 auto 0 start 0x1000
start: lui x9 2
lw x5 0(x9)
addi x17 x0 3
addi x10 x0 4
lui x11 1
addi x11 x11 6
addi x12 x0 3
addi x13 x0 0
addi x14 x0 0
addi x15 x0 0
addi x18 x0 512
addi x19 x0 256
ecall
blt x5 x0 both
addi x7 x0 1
both: addi x10 x0 3
lui x11 0xC
addi x11 x11 2
addi x12 x0 4
addi x13 x0 32
ecall
addi x10 x0 1
addi x17 x0 5
ecall
jal x0 start
end
";

#[test]
fn more_slots_than_a_record_has_are_told_by_their_line(rt: HostRuntime) -> Result<(), Fail> {
    let told =
        "35: TooManySlots: thread main, `addi x10 x0 3`: more than 256 slots would have to be noted at this point\n";
    is_refused(&rt, "slots", ENDPOINTS, told)
}

#[test]
fn as_many_slots_as_a_record_has_are_noted(rt: HostRuntime) -> Result<(), Fail> {
    let fewer = with_line(rt.alloc(), ENDPOINTS, 31, "addi x19 x0 255")?;
    certified_with(&rt, fewer.as_str(), "main budget 25\n")
}
