//! Lines by themselves: which are read, and of what kind the fault of the others is.

use asm_line::parse_line;
use std::test::Fail;

/// The kind of a line's fault, or 0 where it is read, and the line after `|`.
const ROWS: &str = "
    0|
    0| \t,
    0|# a comment \u{1}
    0|memory 16 4
    0|memory,16\t 0x4 # so
    0|untyped u 0x8000 15
    0|object cs u cnode 4
    0|object a_1 u frame
    0|object b u tcb 0
    0|object b u frame 1
    0|irq line 3 bell 1
    0|cap cs 1 bell 2 0
    0|table vs 0 pt
    0|map vs 0x1000 code 4
    0|data f 1 0xfFfFffFF 003
    0|promise p 0 0xFFFFFFF
    0|promise p 1 1 0 0xFFFFFFFF 2 2 3 3 4 4 5 5 6 6 7 7 8 8
    0|promise p 0 0 1 1 2 2 3 3 4 4 5 5 6 6 7 7 8 8 9 9
    0|thread main cs 28 vs 100 24 0 start 0x1000
    0|buffer f
    0|end
    0|reg x1 1
    0|measure -3 x5 2 x6 -1
    0|range x5 0 9
    0|slot c 1 0 0 boot 0
    0|boot:
    0|addi: ecall
    1|memory 16
    1|memory 16 4 0
    1|Memory 16 4
    1|memory 0X10 4
    1|memory +16 4
    1|memory 0x 4
    1|memory -0x5 4
    1|memory - 4
    1|memory 16 4\r
    1|memory 16\u{B}4
    1|memory 16 4 # \u{E9}
    1|untyped boot 0 4
    1|untyped 1u 0 4
    1|untyped U 0 4
    1|object o u tab
    1|object o u
    1|data f
    1|promise p
    1|promise p 0
    1|promise p 0 0 1
    1|buffer
    1|buffer 1
    1|buffer f f
    1|reg x05 1
    1|reg x32 1
    1|reg y1 1
    1|measure 1 x5
    1|l:ecall
    1|l: m: ecall
    1|l: reg x1 1
    1|lw x1 4
    1|lw x1 (x2)
    1|lw x1 4(x2
    1|ecall 1
    1|addi x1 x2
    1|nop
    1|word
    1|l: l:
    1|:
    4|memory 15 4
    4|memory 25 4
    4|memory 16 12
    4|memory 24 15
    4|memory 16 0
    4|memory -16 4
    4|untyped u 0x100000000 4
    4|untyped u 0 3
    4|object o u cnode
    4|object o u frame 2
    4|irq l 64 b 1
    4|irq l 1 b 0x10000000
    4|map v 0 f 8
    4|data f 1 -1
    4|promise p 2 1
    4|promise p 0 0x10000000
    4|promise p 0 0 2 1
    4|promise p 0 0 0 0x100000000
    4|reg x0 1
    4|reg x1 0
    4|range x1 2 1
    4|range x1 0 0xffffffff
    4|measure 0 x1 0
    4|measure 0x4000000000000001
    4|slot c 0x4000 0 0 boot 0
    4|slot c 1 0 0 boot 1
    4|slot c 1 0 0 p 1
    4|slot c 1 15 0 boot 0
    4|addi x5 x0 2048
    4|addi x5 x0 0xFFF
    4|addi x5 x0 -2049
    4|slli x1 x1 32
    4|lui x1 0x100000
    4|lw x1 2048(x2)
    4|word 99999999999999999999999
    4|thread t c 0 v 256 1 0 l 0
    4|thread t c 0 v 0 0 0 l 0
";

#[test]
fn lines_are_read_or_have_their_fault(rt: HostRuntime) -> Result<(), Fail> {
    for row in ROWS.trim().split('\n') {
        let (kind, line) = row.trim_start().split_once('|').ok_or(row)?;
        let found = parse_line(line).err().unwrap_or(0);
        assert_eq!(rt; found, kind.parse::<u8>()?, "for {line}");
    }
    Ok(())
}
