//! Slots, the memory beside them, and what is derived from what.

use crate::store::rows::check_tables;
use std::test::Fail;

const TABLES: [&str; 10] = [
    // Memory is written beside the slots.
    "write 1001 12345678 = 1
write_byte 1003 ff = 1
size = 10000
word 1001 = 12ff5678",
    // Zeroed memory is zero.
    "write 1001 12345678 = 1
zero 1000 3 = 1
size = 10000
word 1001 = 12340000",
    // A range opens and closes.
    "open 100 10 = 1
free 100 = 1
is_open 110 = 0
close 100 10 = 1
is_open 100 = 0",
    // Full slots are listed.
    "open 100 10 = 1
free 10f = 1
put 10f = control
free 100 = 1
put 100 = handler 3
full 100 = 1
recap 100 4 = 1
held 100 = handler 4
parent 100 = none
depth 100 = 0
next ffffffff = 100
full 100 = 1
next 100 = 10f
full 10f = 1
next 10f = none",
    // A slot that is not open reads as empty.
    "count = 1000
held 100 = empty
held fffff = empty",
    // Descendants are children and theirs. In this table and the next ones 100 has the child 101, whose child is 102,
    // and 103 is beside 100.
    "open 100 200 = 1
root 100 0 = 1
root 103 0 = 1
child 101 100 0 = 1
child 102 101 0 = 1
below 100 ffffffff = 101
below 100 101 = 102
splice 101 = 1
splice 102 = 1
below 100 ffffffff = none
full 100 = 1
full 103 = 1",
    // A deleted slot leaves its children to its parent.
    "open 100 200 = 1
root 100 0 = 1
root 103 0 = 1
child 101 100 0 = 1
child 102 101 0 = 1
splice 101 = 1
is_open 102 = 1
parent 102 = 100
below 100 ffffffff = 102",
    // A moved slot takes parent and children along.
    "open 100 200 = 1
root 100 0 = 1
root 103 0 = 1
child 101 100 0 = 1
child 102 101 0 = 1
full 101 = 1
free 180 = 1
relocate 101 180 = 1
free 101 = 1
is_open 102 = 1
parent 102 = 180
is_open 180 = 1
parent 180 = 100",
    // No slot is deeper than 255 (0xff).
    "open 100 200 = 1
root 100 0 = 1
child 101 100 0 = 1
child 102 101 0 = 1
children 102 fd = 1
child 200 1ff 0 = IllegalOperation
free 200 = 1",
    // All that descends is taken out.
    "open 100 200 = 1
root 100 0 = 1
root 103 0 = 1
child 101 100 0 = 1
child 102 101 0 = 1
cut 100 = 1
below 100 ffffffff = none
full 100 = 1
free 101 = 1
free 102 = 1
full 103 = 1",
];

#[test]
fn slots_and_trees(rt: HostRuntime) -> Result<(), Fail> {
    check_tables(&rt, "", &TABLES)
}
