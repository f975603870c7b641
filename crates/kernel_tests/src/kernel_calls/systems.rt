//! Systems of up to three threads that share a page of code at 0x1000, in memory of 2^17 bytes. A capability in a system
//! call is named by its index in the thread's CNode of 16 slots.

use crate::kernel_calls::scripts::{runs, sets_up};
use kernel::{Setup, System};
use std::process::Abort;
use std::test::Fail;

/// All objects, with their capabilities in boot slots: the page of code is at 0x10000, and the threads from 0x13000 on.
/// The root table has the page at 0x1000, with all rights. Line 3 is bound to the notification, with badge 1.
pub(crate) const OBJECTS: &str = "
    call memory retype Frame 0 0 0 page 1
    call memory retype RootTable 0 0 0 root 1
    call memory retype PageTable 0 0 0 table 1
    call memory retype Thread 0 0 0 tcb0 4
    call memory retype CNode 4 0 0 cnode0 4
    call memory retype Endpoint 0 0 0 endpoint 1
    call memory retype Notification 0 0 0 notification 1
    call table map_table root 32 0
    call page map_frame root 32 0x1000 7
    control control
    call control get_handler 3 handler 32
    call boot mint signal 32 notification 32 all 1
    call handler set_notification signal 32
";

/// Memory of 2^17 bytes with a boot CNode of 64 slots, and 64 KiB of untyped memory at 0x10000 in slot 1; then what texts
/// make of it.
fn made<R: Abort + AllocGlobal>(rt: &R, texts: &[&str]) -> Result<Setup, Fail> {
    let mut setup = Setup::new(rt.alloc(), 17, 6)?;
    sets_up(rt, &mut setup, "untyped memory 0x10000 16")?;
    for text in texts {
        sets_up(rt, &mut setup, text)?;
    }
    Ok(setup)
}

/// Makes the calls and looks of texts, with this memory.
pub(crate) fn builds<R: Abort + AllocGlobal>(rt: &R, texts: &[&str]) -> Result<(), Fail> {
    let _setup = made(rt, texts)?;
    Ok(())
}

/// The same in memory of 2^16 bytes with a boot CNode of 16 slots, where nothing else is: the boot area ends at 0x500.
pub(crate) fn builds_small<R: Abort + AllocGlobal>(rt: &R, text: &str) -> Result<(), Fail> {
    let mut setup = Setup::new(rt.alloc(), 16, 4)?;
    sets_up(rt, &mut setup, text)
}

/// A system that texts set up.
pub(crate) fn starts<R: Abort + AllocGlobal>(rt: &R, before: &[&str]) -> Result<System, Fail> {
    Ok(made(rt, before)?.start())
}

/// A system that texts set up, and what happens in it by further texts. A failure prints the last text of the former.
pub(crate) fn plays<R: Abort + AllocGlobal>(
    rt: &R,
    before: &[&str],
    behind: &[&str],
) -> Result<(), Fail> {
    let title = before.last().unwrap_or(&"");
    let mut system = starts(rt, before)?;
    for text in behind {
        runs(rt, &mut system, text, title)?;
    }
    Ok(())
}
