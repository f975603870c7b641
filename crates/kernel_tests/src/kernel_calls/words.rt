//! Words for numbers.

use std::alloc::Global;
use std::test::Fail;

/// Names of numbers, each a word with a colon. seL4 Reference Manual, "seL4 API Reference", and RISC-V Unprivileged ISA,
/// chapter 2; labels, types and numbers of system calls are this project's own.
const NAMES: &str = "
    answers         ok:0 no:1
    errors          InvalidArgument:1 InvalidCapability:2 IllegalOperation:3 RangeError:4 FailedLookup:6 DeleteFirst:8
                    RevokeFirst:9 NotEnoughMemory:10

    boot slots      memory:1 page:2 root:3 table:4 tcb0:5 tcb1:6 tcb2:7 cnode0:9 cnode1:10 cnode2:11 endpoint:13
                    notification:14 control:15 handler:16 signal:17 pool:20 queue:21 buffer0:22 buffer1:23
    the boot CNode  boot:0xFFFFFFFF
    calls           retype:1 configure:2 set_priority:3 set_register:4 resume:5 copy:7 mint:8 move:9 delete:11
                    revoke:12 map_frame:13 map_table:15 get_handler:17 set_notification:19 set_buffer:21
    rights          write:1 read:2 write_reply:9 all:11

    types           Empty:0 Untyped:1 Thread:2 Endpoint:3 Notification:4 CNode:5 Frame:6 PageTable:7 RootTable:8
    and a kind      InterruptControl:9

    threads         t0:0x13000 t1:0x13200 t2:0x13400
    registers       pc:0 a0:10 a1:11 a2:12 a3:13 a4:14 a5:15 a7:17 s2:18
    system calls    Call:1 ReplyRecv:2 Send:3 NBSend:4 Recv:5 Reply:6 Yield:7 NBRecv:8 PutChar:9 Unknown:10

    ECALL, a jump to itself, and a jump two words back
                    ecall:0x00000073 stay:0x0000006f two_back:0xff9ff06f
    ADDI from x0    a0=1:0x00100513 a0=2:0x00200513 a0=3:0x00300513 a1=1:0x00100593 a1=16:0x01000593 a2=3:0x00300613
                    a2=9:0x00900613 a2=10:0x00a00613 a3=4:0x00400693 a7=Call:0x00100893 a7=Send:0x00300893 a7=Recv:0x00500893
                    a7=Reply:0x00600893 a7=NBRecv:0x00800893
    LUI             a1=0x1000:0x000015b7 a1=0x5000:0x000055b7 a1=0x6000:0x000065b7 a1=0xC000:0x0000c5b7
                    a1=0x12000:0x000125b7 a2=0x1000:0x00001637
    ADDI            a1+1:0x00158593 a1+2:0x00258593 a2+2:0x00260613 a2+11:0x00b60613
";

/// The number that a name has, or else the word itself.
fn meant(word: &str) -> &str {
    for entry in NAMES.split_whitespace() {
        if let Some((name, number)) = entry.split_once(':') {
            if name == word {
                return number;
            }
        }
    }
    word
}

/// The number of a word, if it is one: `none` is none.
fn number(word: &str) -> Result<Option<u32>, Fail> {
    let digits = meant(word);
    match digits.strip_prefix("0x") {
        Some(digits) => Ok(Some(u32::from_str_radix(digits, 16)?)),
        None if digits == "none" => Ok(None),
        None => Ok(Some(digits.parse::<u32>()?)),
    }
}

/// The numbers of a text; `none` is no number, and `0*31` is 31 times 0.
pub(crate) fn numbers(alloc: Global, text: &str) -> Result<Vec<u32>, Fail> {
    let mut numbers = Vec::new(alloc);
    for word in text.split_whitespace() {
        let (word, count) = match word.split_once('*') {
            Some((word, count)) => (word, count.parse::<u32>()?),
            None => (word, 1),
        };
        if let Some(number) = number(word)? {
            for _ in 0..count {
                numbers.push(number)?;
            }
        }
    }
    Ok(numbers)
}
