//! Two threads: a worker that takes a frame from its pool of memory, maps it, writes into it, informs a receiver, and gives the
//! memory back, again and again; and a client with its server.

use crate::verdicts::texts::are_said;
use std::test::Fail;

/// At `give` slot 1 holds the pool with a page used up, and slot 4 the frame at 0x18000, mapped at 0x3000 under the root table at
/// 0x11000 to read and write. 27 instructions lead from there to the wait.
const WORKER: &str = "memory 17 5
untyped u 0x10000 16
object code u frame
object vs u root
object pt u table
object code2 u frame
object vs2 u root
object pt2 u table
object worker u tcb
object receiver u tcb
object cs u cnode 4
object cs2 u cnode 4
object ep u endpoint
object pool u untyped 13
cap cs 1 pool 0 0
cap cs 2 cs 0 28
cap cs 3 vs 0 0
cap cs 5 ep 1 5
cap cs2 1 ep 2 0
table vs 0 pt
table vs2 0 pt2
map vs 0x1000 code 4
map vs2 0x1000 code2 4
thread worker cs 28 vs 100 28 0 start 0x1000
reg x17 1/reg x18 4/reg x19 1
measure 21/range x17 1 1/range x18 4 4/range x19 1 1
start: jal x0 take
measure 27/range x18 4 4/range x19 1 1/slot cs 1 0x018000D1 0x1000 boot 0/slot cs 4 0x01800636 0x6023 cs 1
give: addi x17 x0 1     # Revoke of slot 1 by the CNode in slot 2
addi x10 x0 2
lui x11 0xC
addi x11 x11 2
addi x12 x0 1
addi x13 x0 32
ecall
measure 20/range x17 1 1/range x18 4 4/range x19 1 1
take: addi x10 x0 1     # Retype of the memory in slot 1: one frame into slot 4
lui x11 1
addi x11 x11 6
addi x12 x0 6
addi x13 x0 0
addi x14 x0 0
addi x15 x0 0
ecall
addi x10 x0 4           # Map of the frame in slot 4 at 0x3000 under the root table in slot 3
lui x11 0xD
addi x11 x11 4
addi x12 x0 3
addi x13 x0 32
lui x14 3
addi x15 x0 3
ecall
sw x19 0(x14)
addi x17 x0 3           # Send to the endpoint in slot 5
addi x10 x0 5
ecall
jal x0 give
end
thread receiver cs2 28 vs2 100 3 0 again 0x1000
reg x17 5
measure 2
range x17 5 5
again: addi x10 x0 1
ecall
jal x0 again
end
";

/// What is said where lines are put another way.
const WORKER_ROWS: &str = "
    accepted | 1 memory 17 5
    # Delete of slot 1, where Revoke of it stood.
    PoolLost 0 7 | 31 lui x11 0xB
    # A page to execute.
    CallRefused 0 23 3 | 51 addi x15 x0 6

    # The frame is not noted, or is no child of the pool: then the Revoke finds no child, and the pool stays used.
    CapNotThere 0 7 | 28 measure 27/range x18 4 4/range x19 1 1/slot cs 1 0x018000D1 0x1000 boot 0
    CapNotThere 0 7 | 28 measure 27/range x18 4 4/range x19 1 1/slot cs 1 0x018000D1 0x1000 boot 0/slot cs 4 0x01800636 0x6023 boot 0
    # The frame is noted as unmapped, or the pool as unused.
    CapNotThere 0 28 | 28 measure 27/range x18 4 4/range x19 1 1/slot cs 1 0x018000D1 0x1000 boot 0/slot cs 4 0x01800036 0 cs 1
    CapNotThere 0 28 | 28 measure 27/range x18 4 4/range x19 1 1/slot cs 4 0x01800636 0x6023 cs 1
    # A slot behind the CNode's last is noted, though as empty; two slots are each other's parents; a thread is noted.
    CapNotThere 0 1 | 28 measure 27/range x18 4 4/range x19 1 1/slot cs 1 0x018000D1 0x1000 boot 0/slot cs 4 0x01800636 0x6023 cs 1/slot cs 16 0 0 boot 0
    CapNotThere 0 1 | 28 measure 27/range x18 4 4/range x19 1 1/slot cs 1 0x018000D1 0x1000 cs 4/slot cs 4 0x01800636 0x6023 cs 1
    CapNotThere 0 1 | 28 measure 27/range x18 4 4/range x19 1 1/slot cs 6 0x01600002 0 boot 0

    # The store stands behind the Revoke: x14 holds the page's address still.
    NotMapped 0 8 | 24 thread worker cs 28 vs 100 29 0 start 0x1000 ; 28 measure 28/range x14 0x3000 0x3000/range x18 4 4/range x19 1 1/slot cs 1 0x018000D1 \
        0x1000 boot 0/slot cs 4 0x01800636 0x6023 cs 1 ; 35 ecall/sw x19 0(x14)

    # The roots of both are one CNode, or the second reaches the first's by a capability.
    SharedCSpace 1 0 | 59 thread receiver cs 28 vs2 100 3 0 again 0x1000
    SharedCSpace 1 0 | 19 cap cs2 1 ep 2 0/cap cs2 2 cs 0 28
    # They have one root table, or the second holds the first's.
    SharedVSpace 1 0 | 59 thread receiver cs2 28 vs 100 3 0 again 0x1000
    SharedVSpace 1 0 | 19 cap cs2 1 ep 2 0/cap cs2 2 vs 0 0
    # They have one thread object.
    BadThread 1 0 | 59 thread worker cs2 28 vs2 100 3 0 again 0x1000
    # They have one message buffer, or two.
    BadBuffer 1 0 | 14 object pool u untyped 13/object words u frame ; 25 buffer words/reg x17 1/reg x18 4/reg x19 1 ; 60 buffer words/reg x17 5
    accepted | 14 object pool u untyped 13/object words u frame/object words2 u frame ; 25 buffer words/reg x17 1/reg x18 4/reg x19 1 ; \
        60 buffer words2/reg x17 5
";

#[test]
fn what_is_changed_in_the_worker_is_told(rt: HostRuntime) -> Result<(), Fail> {
    are_said(&rt, WORKER, WORKER_ROWS)
}

/// A client that sends a number and prints what comes back, and a server that answers with the next number.
const CLIENT_SERVER: &str = "memory 17 5
untyped u 0x10000 16
object code u frame
object vs u root
object pt u table
object code2 u frame
object vs2 u root
object pt2 u table
object client u tcb
object server u tcb
object cs u cnode 4
object cs2 u cnode 4
object ep u endpoint
cap cs 1 ep 9 7
cap cs2 1 ep 2 0
table vs 0 pt
table vs2 0 pt2
map vs 0x1000 code 4
map vs2 0x1000 code2 4
thread client cs 28 vs 100 10 0 again 0x1000
reg x5 0x40
measure 5
again: addi x10 x0 1    # Call with one word
addi x11 x0 1
addi x12 x5 0
addi x17 x0 1
ecall
addi x5 x12 0           # PutChar of the answer
addi x10 x12 0
addi x17 x0 9
ecall
jal x0 again
end
thread server cs2 28 vs2 101 6 0 start 0x1000
measure 3
start: addi x10 x0 1    # Recv
addi x17 x0 5
ecall
measure 5
answer: addi x12 x12 1  # ReplyRecv with one word
addi x10 x0 1
addi x11 x0 1
addi x17 x0 2
ecall
jal x0 answer
end
";

/// What is said where lines are put another way.
const SERVER_ROWS: &str = "
    accepted | 1 memory 17 5
    # The client goes from one call to the next in ten instructions, and the server in six.
    MeasureNotFalling 0 9 | 20 thread client cs 28 vs 100 9 0 again 0x1000
    MeasureNotFalling 1 8 | 34 thread server cs2 28 vs2 101 5 0 start 0x1000
    # What is received may be any word.
    RangeNotKept 1 2 | 39 measure 5/range x12 0 1
";

#[test]
fn a_client_and_its_server_are_accepted(rt: HostRuntime) -> Result<(), Fail> {
    are_said(&rt, CLIENT_SERVER, SERVER_ROWS)
}
