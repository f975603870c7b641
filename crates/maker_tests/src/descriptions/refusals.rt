//! What is wrong with a description.

use crate::descriptions::rows::check;
use std::test::Fail;

/// What is wrong with a line by itself, or by those before it.
const LINES: &str = "
@ 1: no line of a description begins with `ring`; did you mean `rings`?
ring bell
@ 2: no line of a description begins with `cals`; did you mean `calls`?
part a 1
cals d
@ 2: no line of a description begins with `bugdet`; did you mean `budget`?
part a 1
bugdet 5
@ 2: no line of a description begins with `listens`
part a 1
listens d
@ 1: `waits` is a line of a part, and no part is open here
waits bell
@ 2: `bell` is inside of part a, which has no `end` before it
part a 1
bell b
@ 3: `part` is inside of part a, which has no `end` before it
part a 1
code
part b 1
@ 2: part a has no `end`

part a 1
code
@ 1: part a has no program: write `code` and instructions, or `program FILE.c`
part a 1
end
@ 1: a system has a part, and this has none

@ 1: the form of such a line is `part NAME PRIORITY`
part a
@ 1: `A` is no name: a lower-case letter or `_`, and then those and digits
bell A
@ 1: `x5` has a meaning of its own: choose another name
door x5
@ 1: `a_space` is the name of something that a gets: choose another name
page a_space
part a 1
code
ecall
end
@ 2: `b_line5` is the name of something that b gets: choose another name
bell b
page b_line5
part a 1
code
ecall
end
@ 1: `256` is no number from 0 to 255, decimal or after `0x`
part a 256
@ 1: `-1` is no number from 0 to 4294967295, decimal or after `0x`
page p 1 0x2 -1
@ 1: the form of such a line is `device NAME [pages N] [from FILE | WORD ..]`
device
@ 1: `0` is no number from 1 to 1024, decimal or after `0x`
page p pages 0
@ 1: the bytes of table.bin are not read
page p from table.bin
@ 1: this file is not included: 64 files are the most, and this may include itself
include other.sys
@ 1: the form of such a line is `include FILE`
include other.sys here
@ 1: the form of such a line is `let NAME NUMBER`
let n
@ 1: `five` is no number from 0 to 4294967295, decimal or after `0x`
let n five
@ 2: `n` is declared already, on line 1
let n 5
let n 6
@ 1: `line` has a meaning of its own: choose another name
let line 5
@ 3: n is a number, and a bell is wanted
let n 5
part a 1
waits n
@ 1: no door has the name `d`: none is declared before this line
promise d 0 9
@ 2: the form of such a line is `promise DOOR LOW HIGH [LOW HIGH] ..`
door d
promise d 0
@ 3: of messages at d something is promised already, on line 2
door d
promise d 0 9
promise d 0 9
@ 4: part a has a message buffer already, on line 3
page p
part a 1
buffer p
buffer p
@ 3: d is a door, and a page is wanted
door d
part a 1
buffer d
@ 5: part a has a fault handler already, on line 4
door d
door e
part a 1
faults d
faults e
@ 1: `1x` is no number from 0 to 4294967295, decimal or after `0x`
device p 1x
@ 2: `device` is inside of part a, which has no `end` before it
part a 1
device p
@ 3: `0x2004` is no address of a page: a multiple of 4096 (0x1000) below 0x80000000
page p
part a 1
sees p 0x2004
@ 2: `p` is declared already, on line 1
page p
door p
@ 3: p is a page, and a door is wanted
page p
part a 1
serves p
@ 3: p is a device, and a bell is wanted
device p
part a 1
waits p
@ 4: part a has p already, on line 3
device p
part a 1
sees p
writes p
@ 3: no page has the name `senser`: declared are sensor; did you mean `sensor`?
page sensor
part a 1
sees senser
@ 5: no page has the name `r`: declared are p, q
page p
device q
bell b
part a 1
sees r
@ 4: no bell has the name `c`: declared are b, bb
bell b
bell bb
part a 1
waits c
@ 2: no door has the name `e`: none is declared before this line
part a 1
calls e
@ 4: part a has d already, on line 3
door d
part a 1
serves d
calls d
@ 3: part a has a pool already, on line 2
part a 1
pool 12 0
pool 12 0
@ 4: line 3 has no `every`: `within` says nothing
bell b
part a 1
waits b line 2 every 5 line 3 burst 2
within 60
code
ecall
end
@ 4: part a waits for no interrupt line: `within` says nothing
bell b
part a 1
waits b
within 60
code
ecall
end
@ 3: the form of such a line is `waits BELL [line N [every P] [burst B]] ..`
bell b
part a 1
waits b every 5
";

/// What is wrong with the whole.
const WHOLES: &str = "
@ 4: interrupt line 7 is bound already, on line 4
bell b
bell c
part a 1
waits b line 7 line 7
code
ecall
end
@ 5: p and q are both at 0x3000
page q
page p
part a 1
sees q 0x3000
sees p 0x3000
code
ecall
end
@ 5: q and p are both at 0x3000
page p pages 2
page q pages 3
part a 1
sees p 0x4000
sees q 0x3000
code
ecall
end
@ 4: p and the end of all addresses are both at 0x7ffff000
page p pages 2
part a 1
# the second frame would lie at 0x80000000
sees p 0x7ffff000
code
ecall
end
@ 3: p and the program are both at 0x1000
page p
part a 1
sees p 0x1000
code
ecall
end
@ 6: part a has no slot `speeed`; it has tick; did you mean `speed`?
let speed 5
bell tick
part a 1
waits tick
code
addi x10 x0 speeed
end
@ 5: part a has no slot `tock`; it has tick, tick.line7; did you mean `tick`?
bell tick
part a 1
waits tick line 7
code
addi x10 x0 tock
end
@ 4: part a has no page `tick`; it has none
part a 1
pool 4 2
code
lui x10 tick
end
@ 5: p is a page, and only `lui` takes the number of one
page p
part a 1
sees p
code
addi x10 x0 p
end
@ 1: all objects together take 8401472 bytes, and 8388608 (2^23) are the most; the greatest is a_pool, 8388608 bytes
part a 1
pool 23 0
code
ecall
end
@ 1: part a has 16387 slots, and 16384 are the most
part a 1
pool 4 16383
code
ecall
end
";

#[test]
fn each_mistake_is_told_by_its_line(rt: HostRuntime) -> Result<(), Fail> {
    check(&rt, LINES)
}

#[test]
fn what_cannot_be_decided_is_told_by_its_line(rt: HostRuntime) -> Result<(), Fail> {
    check(&rt, WHOLES)
}
