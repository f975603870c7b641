//! What a changed line of a text changes for its threads.

use differences::{Changes, DifferencesFault, differences};
use std::alloc::Global;
use std::process::Abort;
use std::test::Fail;
use test_sessions::with_line;

/// A client and a server, whose budget is still to be found, in one address space.
const TEXT: &str = "memory 17 5
untyped u 0x10000 16
object code u frame
object vs u root
object pt u table
object both u frame
object pool u untyped 13
object client u tcb
object server u tcb
object cs u cnode 4
object cs2 u cnode 4
object requests u endpoint
object tick u notification
irq line 3 tick 5
cap cs 1 requests 1 2
cap cs 2 tick 1 4
cap cs2 1 requests 2 0
cap cs2 2 line 0 0
cap cs2 3 pool 0 0
map vs 0x1000 code 4
map vs 0x2000 both 2
thread client cs 28 vs 100 24 0 l 0x1000
# a place for a line
l: jal x0 l
end
thread server cs2 28 vs 101 auto 0 l 0x1000
l: jal x0 l
end
";

/// After `@` a line of the text by its number, and what it becomes; then what its threads may do more (`+`) and less (`-`), and what
/// else is changed (`~`).
const ROWS: &str = "
@ 15 cap cs 9 requests 1 2
@ 15 cap cs 1 requests 9 2
+ client: may call requests with badge 2 (line 15)
@ 15 cap cs 1 requests 9 5
+ client: may call requests with badge 5 (line 15)
- client: may no longer send to requests with badge 2
@ 15 cap cs 1 requests 2 0
+ client: may receive from requests (line 15)
- client: may no longer send to requests with badge 2
@ 15 cap cs 1 requests 1 0
+ client: may send to requests (line 15)
- client: may no longer send to requests with badge 2
@ 15 # nothing
- client: may no longer send to requests with badge 2
@ 16 cap cs 2 tick 3 4
+ client: may wait for tick (line 16)
@ 16 cap cs 2 line 0 0
+ client: may acknowledge interrupt 3 (line 16)
- client: may no longer signal tick with badge 4
@ 14 irq line 4 tick 5
+ server: may acknowledge interrupt 4 (line 18)
- server: may no longer acknowledge interrupt 3
@ 13 object tick u endpoint
+ client: may send to tick with badge 4 (line 16)
- client: may no longer signal tick with badge 4
@ 7 object pool u untyped 14
+ server: may make objects of pool, 16384 bytes (line 19)
- server: may no longer make objects of pool, 8192 bytes
@ 6 object both u frame 1
+ client: may read the device page both (line 21)
+ server: may read the device page both (line 21)
- client: may no longer read the page both
- server: may no longer read the page both
@ 19 cap cs2 3 both 3 0
+ server: may map to read both (line 19)
+ server: may map to write both (line 19)
- server: may no longer make objects of pool, 8192 bytes
@ 19 cap cs2 3 cs 0 28
+ server: may change the slots of cs, 16 slots (line 19)
+ server: may send to requests with badge 2 (line 15)
+ server: may signal tick with badge 4 (line 16)
- server: may no longer make objects of pool, 8192 bytes
@ 19 cap cs2 3 client 0 0
+ server: may control client (line 19)
- server: may no longer make objects of pool, 8192 bytes
@ 19 cap cs2 3 pt 0 0
+ server: may map the page table pt (line 19)
- server: may no longer make objects of pool, 8192 bytes
@ 19 cap cs2 3 vs 0 0
+ server: may map under vs (line 19)
- server: may no longer make objects of pool, 8192 bytes
@ 21 map vs 0x9000 both 2
@ 21 map vs 0x2000 both 3
+ client: may write the page both (line 21)
+ server: may write the page both (line 21)
@ 20 map vs 0x1000 code 2
+ client: may read the page code (line 20)
+ server: may read the page code (line 20)
- client: may no longer execute the page code
- server: may no longer execute the page code
@ 22 thread client cs 28 vs 110 24 0 l 0x1000
+ client: has priority 110 in place of 100 (line 22)
@ 22 thread client cs 28 vs 90 30 0 l 0x1000
+ client: has budget 30 in place of 24 (line 22)
- client: has priority 90 in place of 100
@ 22 thread client cs 28 vs 100 auto 0 l 0x1000
@ 26 thread server cs2 28 vs 101 7 0 l 0x1000
@ 22 thread client cs 28 vs 100 24 1 l 0x1000
+ client: may report its faults to requests (line 22)
@ 22 thread client cs 28 vs 100 24 0x1001 l 0x1000
+ client: may report its faults to capability 0x1001 (line 22)
@ 23 buffer both
+ client: may pass long messages in both (line 23)
@ 24 addi x10 x0 1
@ 24 l: addi x10 x0 1
~ client: has another program from line 24 on
@ 24 l: addi x10 x0 1 # loop.c:7
~ client: has another program from line 24 on, loop.c:7
@ 21 data both 7 9
- client: may no longer read the page both
- server: may no longer read the page both
~ both: begins with 0x7 in place of 0x0 in word 0 (line 21)
@ 21 data both 0 9
- client: may no longer read the page both
- server: may no longer read the page both
~ both: begins with 0x9 in place of 0x0 in word 1 (line 21)
@ 21 promise requests 2 2 0 9
- client: may no longer read the page both
- server: may no longer read the page both
~ requests: is promised badges 2 to 2, a word of 0 to 9 in place of nothing (line 21)
";

/// The lines of a row that begin with a sign.
fn lines_with(alloc: Global, row: &str, sign: &str) -> Result<String, Fail> {
    let mut lines = String::new(alloc);
    for line in row.lines() {
        if let Some(said) = line.strip_prefix(sign) {
            lines.push_str(said)?;
            lines.push_str("\n")?;
        }
    }
    Ok(lines)
}

/// The differences of a text from the one above.
fn changes_of(alloc: Global, text: &str) -> Result<Changes, Fail> {
    Ok(
        differences(alloc, TEXT, text)
            .ok()
            .ok_or("a text is at fault")?,
    )
}

/// What a row says is what is found.
fn check(rt: &(impl AllocGlobal + Abort), row: &str) -> Result<(), Fail> {
    let (change, _) = row.split_once('\n').unwrap_or((row, ""));
    let (number, line) = change.split_once(' ').ok_or(row)?;
    let changed = with_line(rt.alloc(), TEXT, number.parse::<usize>()?, line)?;
    let found = changes_of(rt.alloc(), changed.as_str())?;
    let (more, less) = (
        lines_with(rt.alloc(), row, "+ ")?,
        lines_with(rt.alloc(), row, "- ")?,
    );
    assert_eq!(rt; found.more.as_str(), more.as_str(), "{row}");
    assert_eq!(rt; found.less.as_str(), less.as_str(), "{row}");
    let other = lines_with(rt.alloc(), row, "~ ")?;
    assert_eq!(rt; found.changed.as_str(), other.as_str(), "{row}");
    Ok(())
}

#[test]
fn a_changed_line_changes_what_threads_may_do(rt: HostRuntime) -> Result<(), Fail> {
    for row in ROWS.split("\n@ ").skip(1) {
        check(&rt, row)?;
    }
    Ok(())
}

/// The server of the text above under another name.
const WORKER: &str = "memory 17 5
untyped u 0x10000 16
object vs u root
object worker u tcb
object cs2 u cnode 4
object requests u endpoint
cap cs2 1 requests 2 0
thread worker cs2 28 vs 101 6 0 l 0x1000
l: jal x0 l
end
";

const MORE: &str = "worker: is a thread, with priority 101 (line 8)
worker: may receive from requests (line 7)
";

const LESS: &str = "client: is no longer a thread
client: may no longer send to requests with badge 2
client: may no longer signal tick with badge 4
client: may no longer execute the page code
client: may no longer read the page both
server: is no longer a thread
server: may no longer receive from requests
server: may no longer acknowledge interrupt 3
server: may no longer make objects of pool, 8192 bytes
server: may no longer execute the page code
server: may no longer read the page both
";

#[test]
fn a_thread_of_one_text_is_there_with_all_that_it_may_do(rt: HostRuntime) -> Result<(), Fail> {
    let found = changes_of(rt.alloc(), WORKER)?;
    assert_eq!(&rt; found.more.as_str(), MORE);
    assert_eq!(&rt; found.less.as_str(), LESS);
    Ok(())
}

#[test]
fn faults_are_told_by_text_and_line(rt: HostRuntime) -> Result<(), Fail> {
    let wrong = with_line(rt.alloc(), TEXT, 16, "cap cs 2 tock 1 4")?;
    let first = differences(rt.alloc(), wrong.as_str(), TEXT).err();
    let second = differences(rt.alloc(), TEXT, wrong.as_str()).err();
    assert_eq!(&rt; first, Some(DifferencesFault::Before { line: 16 }));
    assert_eq!(&rt; second, Some(DifferencesFault::After { line: 16 }));
    Ok(())
}
