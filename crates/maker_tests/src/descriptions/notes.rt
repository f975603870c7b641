//! What is odd about a description.

use crate::descriptions::rows::{check, said_of};
use std::test::Fail;

const ODD: &str = "
@ 1: note: nobody serves the door d
door d
part a 1
calls d
code
ecall
end
@ 1: note: nobody waits for the bell b
bell b
part a 1
rings b
code
ecall
end
@ 1: note: nobody sees the page p
page p
part a 1
code
ecall
end
@ 1: note: nobody sees the device page p
device p
part a 1
code
ecall
end
@ 1: note: nobody writes the page p, and it has no first words: all that is seen there is 0
page p
part a 1
sees p
code
ecall
end
@ 1: note: more than one part serves the door d, and each message comes to one of them
door d
part a 1
serves d
code
ecall
end
part b 1
serves d
code
ecall
end
@ 3: note: a (110) waits for b (90), which others between can hold up
door d
part a 110
calls d
code
ecall
end
part b 90
serves d
code
ecall
end
@ 8: note: a and b have the same badge at the door d, 5
door d
part a 1
calls d as 5
code
ecall
end
part b 1
sends d as 5
code
ecall
end
part c 1
serves d
code
ecall
end
@ 3: note: the records of part a name slots by numbers, which change with the description: `certify` finds them
part a 1
code
slot a_slots 1 0 0 boot 0
ecall
end
@ 1: note: a -> b by r, and nothing comes back
bell r
part a 1
rings r
code
ecall
end
part b 1
waits r
code
ecall
end
@ 1: note: a -> b by p, and nothing comes back
page p
part a 1
writes p
code
ecall
end
part b 1
sees p
code
ecall
end
@ 2: note: a, b -> c by r, and nothing comes back
door d
bell r
part a 1
calls d
rings r
code
ecall
end
part b 1
serves d
rings r
code
ecall
end
part c 1
waits r
code
ecall
end
@ 5: note: parts b: nothing in common with a
part a 1
code
ecall
end
part b 1
code
ecall
end
";

/// A rings b, b writes a page that c sees, and c rings a.
const ROUND: &str = "bell r
bell s
page p
part a 1
waits s
rings r
code
ecall
end
part b 1
waits r
writes p
code
ecall
end
part c 1
sees p
rings s
code
ecall
end
";

/// Each of a and b takes the signals that the other waits for, and b writes a page that a sees.
const ONE_BELL: &str = "bell r
page p
part a 1
waits r line 3
sees p
code
ecall
end
part b 1
waits r line 5
writes p
code
ecall
end
";

/// Messages write what is seen of a buffer.
const BUFFER: &str = "page p
part a 1
sees p
buffer p
code
ecall
end
";

/// The world writes what a sees, and reads what a writes.
const DEVICES: &str = "device sensor
device heater
part a 1
sees sensor
writes heater
code
ecall
end
";

#[test]
fn who_waits_tells_those_who_wait_for_the_same_bell(rt: HostRuntime) -> Result<(), Fail> {
    assert_eq!(&rt;
        said_of(rt.alloc(), ONE_BELL)?.as_str(),
        "d:1: note: a <-> b by r: each takes signals from the others\n"
    );
    Ok(())
}

#[test]
fn messages_write_buffers(rt: HostRuntime) -> Result<(), Fail> {
    assert_eq!(&rt; said_of(rt.alloc(), BUFFER)?.as_str(), "");
    Ok(())
}

#[test]
fn the_world_writes_device_pages(rt: HostRuntime) -> Result<(), Fail> {
    assert_eq!(&rt; said_of(rt.alloc(), DEVICES)?.as_str(), "");
    Ok(())
}

#[test]
fn what_comes_back_by_others_is_no_arrow(rt: HostRuntime) -> Result<(), Fail> {
    assert_eq!(&rt; said_of(rt.alloc(), ROUND)?.as_str(), "");
    Ok(())
}

#[test]
fn what_is_odd_is_noted_by_its_line(rt: HostRuntime) -> Result<(), Fail> {
    check(&rt, ODD)
}
