//! Many steps in one call, beside the same steps one by one.

use crate::kernel_calls::seen_labels::Seen;
use crate::kernel_calls::systems::{OBJECTS, starts};
use kernel::System;
use model::Event;
use std::process::Abort;
use std::test::Fail;

// One thread of priority 100, whose page of code it may write.
const THREAD: &str = "
    call tcb0 configure 0 cnode0 32 root 32 28
    call tcb0 set_priority 100
    call tcb0 resume
";

// Another one, which yields at once.
const OTHER: &str = "
    call tcb1 configure 0 cnode1 32 root 32 28
    call tcb1 set_priority 100
    set tcb1 pc 0x1000 a7 Yield
    call tcb1 resume
";

// Two threads of priority 100 store and load at 0x1100, count, and yield. One of priority 101 waits for the line again and again.
const TURNS: &str = "
    code ecall a0=1 two_back 0x10b52023 0x10052603 a1+1 ecall 0xff1ff06f
    call cnode2 mint 1 4 notification 32 read 0
    call tcb0 configure 0 cnode0 32 root 32 28
    call tcb0 set_priority 100
    set tcb0 pc 0x100c a0 0x1000 a7 Yield
    call tcb0 resume
    call tcb1 configure 0 cnode1 32 root 32 28
    call tcb1 set_priority 100
    set tcb1 pc 0x100c a0 0x1000 a7 Yield
    call tcb1 resume
    call tcb2 configure 0 cnode2 32 root 32 28
    call tcb2 set_priority 101
    set tcb2 pc 0x1000 a0 1 a7 Recv
    call tcb2 resume
";

/// Makes so many steps at once in one system, and one by one in another that is as it was.
fn run_both<R: Abort + AllocGlobal>(rt: &R, system: &mut System, single: &mut System, count: u32) {
    let mut seen = Seen::new();
    let done = system.run(count, &mut seen);
    assert_eq!(rt; done, count.min(64));
    assert_eq!(rt; seen.labels().len(), done as usize);
    for label in seen.labels() {
        assert_eq!(rt; single.step(Event::Step), *label);
    }
}

/// Asserts that two systems have the same registers and bytes.
fn are_alike(rt: &impl Abort, system: &System, single: &System) {
    for thread in 0..3 {
        for index in 0..32 {
            let offset = 0x13000 + 0x200 * thread;
            assert_eq!(rt; system.reg(offset, index), single.reg(offset, index));
        }
    }
    for offset in 0..0x20000 {
        assert_eq!(rt; system.byte(offset), single.byte(offset));
    }
}

/// A system that went on by runs of so many steps each.
fn after_runs<R: Abort + AllocGlobal>(
    rt: &R,
    before: &[&str],
    counts: &[u32],
) -> Result<System, Fail> {
    let mut single = starts(rt, before)?;
    let mut system = starts(rt, before)?;
    for count in counts {
        run_both(rt, &mut system, &mut single, *count);
    }
    are_alike(rt, &system, &single);
    Ok(system)
}

/// Goes on by what a number says: an event, or a run.
fn go_on<R: Abort + AllocGlobal>(rt: &R, system: &mut System, single: &mut System, number: u32) {
    let event = match number % 16 {
        0 | 1 => Event::Tick,
        2 => Event::Irq(3),
        3 | 4 => Event::Step,
        _ => return run_both(rt, system, single, number / 16 % 48),
    };
    assert_eq!(rt; system.step(event), single.step(event));
}

#[test]
fn events_may_be_parted_as_one_likes(rt: HostRuntime) -> Result<(), Fail> {
    let mut single = starts(&rt, &[OBJECTS, TURNS])?;
    let mut system = starts(&rt, &[OBJECTS, TURNS])?;
    let mut random = 1u32;
    for _ in 0..400 {
        random = random.wrapping_mul(1_664_525).wrapping_add(1_013_904_223);
        go_on(&rt, &mut system, &mut single, random / 0x1_0000);
    }
    are_alike(&rt, &system, &single);
    Ok(())
}

// SW a1 over the third word, ADDI a3 by 1, ADDI a2 by 2 (which becomes one by 1), and a jump to the first. The page is also
// mapped at 0x2000, and stored into there or where it is run.
#[test]
fn a_word_that_was_stored_is_run_next(rt: HostRuntime) -> Result<(), Fail> {
    let twice = "
        code 0x00b52423 0x00168693 a2+2 0xff5ff06f
        call boot mint 22 32 page 32 all 0
        call 22 map_frame root 32 0x2000 7
        set tcb0 pc 0x1000 a1 0x00160613
    ";
    for base in ["set tcb0 a0 0x1000", "set tcb0 a0 0x2000"] {
        let system = after_runs(&rt, &[OBJECTS, twice, base, THREAD], &[40])?;
        assert_eq!(rt; system.reg(0x13000, 12), Some(10));
        assert_eq!(rt; system.reg(0x13000, 13), Some(10));
    }
    Ok(())
}

// Two threads yield to each other.
#[test]
fn a_thread_that_yields_is_not_kept(rt: HostRuntime) -> Result<(), Fail> {
    let code = "
        code ecall a0=1 two_back
        set tcb0 pc 0x1000 a7 Yield
    ";
    let counts = [0, 1, 2, 3, 5, 17, 64, 100, 1];
    after_runs(&rt, &[OBJECTS, code, THREAD, OTHER], counts.as_slice())?;
    Ok(())
}

// SW a1 into the last word of the page, and a jump there.
const TO_THE_END: &str = "
    code 0xfeb52e23 0x7f90006f
    set tcb0 pc 0x1000 a0 0x2000 a1 0x00168693
";

// The last word, ADDI a3 by 1, is run, and then the next page, which is another frame: ADDI a2 by 2, and a jump to the jump.
#[test]
fn a_page_goes_on_in_the_next_one(rt: HostRuntime) -> Result<(), Fail> {
    let next = "
        call memory retype Frame 0 0 0 22 1
        call 22 map_frame root 32 0x2000 7
        fill 0x14000 0x13 0x06 0x26 0x00 0x6f 0xf0 0x0f 0x80
    ";
    let system = after_runs(&rt, &[OBJECTS, next, TO_THE_END, THREAD], &[9, 32])?;
    assert_eq!(rt; system.reg(0x13000, 12), Some(20));
    assert_eq!(rt; system.reg(0x13000, 13), Some(10));
    Ok(())
}

// The last word of the page is run, and the next page is not mapped: the thread faults, and nobody runs.
#[test]
fn a_page_ends_where_it_ends(rt: HostRuntime) -> Result<(), Fail> {
    let system = after_runs(&rt, &[OBJECTS, TO_THE_END, THREAD], &[5])?;
    assert_eq!(rt; system.reg(0x13000, 0), Some(0x2000));
    assert_eq!(rt; system.reg(0x13000, 13), Some(1));
    Ok(())
}
