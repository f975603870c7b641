//! Texts of a worker that takes a frame from its pool of memory, writes into it, informs a receiver, and gives the memory
//! back, for ever. In memory of 2^17 bytes, with 64 KiB of untyped memory at 0x10000, the worker is at 0x16000.

/// The objects of both.
pub(crate) const OBJECTS: &str = "memory 17 5
    untyped u 0x10000 16
    object code u frame
    object vs u root
    object pt u table
    object code2 u frame
    object vs2 u root
    object pt2 u table
    object worker u tcb
    object receiver u tcb
    object cs u cnode 4
    object cs2 u cnode 4
    object ep u endpoint
    object pool u untyped 13
";

/// Their capabilities and mappings.
pub(crate) const SPACES: &str = "
    cap cs 1 pool 0 0
    cap cs 2 cs 0 28
    cap cs 3 vs 0 0
    cap cs 5 ep 1 5
    cap cs2 1 ep 2 0
    table vs 0 pt
    table vs2 0 pt2
    map vs 0x1000 code 4
    map vs2 0x1000 code2 4
";

/// The worker with its certificate. It begins after its Revoke.
pub(crate) const WORKER: &str = "
    thread worker cs 28 vs 100 28 0 start 0x1000
    reg x17 1
    reg x18 4
    reg x19 1
    measure 21
    range x17 1 1
    range x18 4 4
    range x19 1 1
    start: jal x0 take
    measure 27
    range x18 4 4
    range x19 1 1
    slot cs 1 0x018000D1 0x1000 boot 0
    slot cs 4 0x01800636 0x6023 cs 1
    give: addi x17 x0 1         # Revoke of slot 1 by the CNode in slot 2
    addi x10 x0 2
    lui x11 0xC
    addi x11 x11 2
    addi x12 x0 1
    addi x13 x0 32
    ecall
    measure 20
    range x17 1 1
    range x18 4 4
    range x19 1 1
    take: addi x10 x0 1         # Retype of the memory in slot 1 into one frame, in slot 4
    lui x11 1
    addi x11 x11 6
    addi x12 x0 6
    addi x13 x0 0
    addi x14 x0 0
    addi x15 x0 0
    ecall
    addi x10 x0 4               # Map of the frame at 0x3000 under the root table in slot 3, to read and write
    lui x11 0xD
    addi x11 x11 4
    addi x12 x0 3
    addi x13 x0 32
    lui x14 3
    addi x15 x0 3
    ecall
    sw x19 0(x14)
    addi x17 x0 3               # Send to the endpoint in slot 5
    addi x10 x0 5
    ecall
    jal x0 give
    end
";

/// The worker with its store after its Revoke, which takes the page away, and without a certificate.
pub(crate) const LATE_WORKER: &str = "
    thread worker cs 28 vs 100 100 0 start 0x1000
    reg x17 1
    reg x18 4
    reg x19 1
    start: jal x0 take
    give: addi x17 x0 1
    addi x10 x0 2
    lui x11 0xC
    addi x11 x11 2
    addi x12 x0 1
    addi x13 x0 32
    ecall
    sw x19 0(x14)
    take: addi x10 x0 1
    lui x11 1
    addi x11 x11 6
    addi x12 x0 6
    addi x13 x0 0
    addi x14 x0 0
    addi x15 x0 0
    ecall
    addi x10 x0 4
    lui x11 0xD
    addi x11 x11 4
    addi x12 x0 3
    addi x13 x0 32
    lui x14 3
    addi x15 x0 3
    ecall
    addi x17 x0 3
    addi x10 x0 5
    ecall
    jal x0 give
    end
";

/// The thread that receives what the worker sends.
pub(crate) const RECEIVER: &str = "
    thread receiver cs2 28 vs2 100 3 0 again 0x1000
    reg x17 5
    measure 2
    range x17 5 5
    again: addi x10 x0 1
    ecall
    jal x0 again
    end
";

/// The objects of a driver beside them, above both: it waits for line 3 and acknowledges it, for ever.
pub(crate) const DRIVER_OBJECTS: &str = "
    object code3 u frame
    object vs3 u root
    object pt3 u table
    object driver u tcb
    object cs3 u cnode 4
    object bell u notification
    irq line 3 bell 1
";

/// Its capabilities and mappings.
pub(crate) const DRIVER_SPACES: &str = "
    cap cs3 1 bell 2 0
    cap cs3 2 line 0 0
    table vs3 0 pt3
    map vs3 0x1000 code3 4
";

/// Its program and certificate.
pub(crate) const DRIVER: &str = "
    thread driver cs3 28 vs3 101 8 0 again 0x1000
    measure 3
    again: addi x10 x0 1
    addi x17 x0 5
    ecall
    addi x10 x0 2
    lui x11 0x12
    addi x17 x0 1
    ecall
    jal x0 again
    end
";
