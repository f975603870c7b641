//! Untyped memory that is revoked while threads wait on an endpoint in it.
//! seL4 Reference Manual, "Reusing Memory".

use crate::kernel_calls::systems::{OBJECTS, plays};
use std::test::Fail;

// A pool of 4096 bytes in the untyped memory has an endpoint. Two threads of priority 100 receive from it, at 0x1000; of
// these the one at the higher address is the first. A thread of priority 101 waits for the line, from 0x1008 on; its
// slot 2 has its own CNode, and slot 3 the pool.
const THREADS: &str = "
    code ecall stay ecall a0=2 a1=0xC000 a1+2 a2=3 a3=4 a7=Call ecall a0=1 a7=Recv ecall
    call memory retype Untyped 12 0 0 pool 1
    call pool retype Endpoint 0 0 0 queue 1

    call cnode1 mint 1 4 queue 32 read 0
    call tcb1 configure 0 cnode1 32 root 32 28
    call tcb1 set_priority 100
    set tcb1 pc 0x1000 a0 1 a7 Recv
    call tcb1 resume

    call cnode0 mint 1 4 queue 32 read 0
    call tcb0 configure 0 cnode0 32 root 32 28
    call tcb0 set_priority 100
    set tcb0 pc 0x1000 a0 1 a7 Recv
    call tcb0 resume

    call cnode2 mint 1 4 notification 32 read 0
    call cnode2 mint 2 4 cnode2 32 0 0
    call cnode2 move 3 4 pool 32
    call tcb2 configure 0 cnode2 32 root 32 28
    call tcb2 set_priority 101
    set tcb2 pc 0x1008 a0 1 a7 Recv
    call tcb2 resume
";

// Who waited is at its call again, and the thread at the lower address runs first: it receives again, and finds no
// capability in its slot.
#[test]
fn waiters_of_a_revoked_pool_run_again(rt: HostRuntime) -> Result<(), Fail> {
    let run = "
        80013400 00001008 wait
        80013200 00001000 wait
        80013000 00001000 wait
        idle
        irq 3
        80013400 0000100c plain
        80013400 00001010 plain
        80013400 00001014 plain
        80013400 00001018 plain
        80013400 0000101c plain
        80013400 00001020 plain
        80013400 00001024 ok
        reg t2 a0 a1 a2 a3 = 0 0 3 4
        reg t0 pc = 0x1000
        reg t1 pc = 0x1000
        80013400 00001028 plain
        80013400 0000102c plain
        80013400 00001030 wait
        80013000 00001000 fault 1
        80013200 00001000 fault 1
        idle
    ";
    plays(&rt, &[OBJECTS, THREADS], &[run])
}
