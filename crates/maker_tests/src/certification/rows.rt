//! What comes of a text.

use progress::Quiet;
use std::alloc::Global;
use std::process::Abort;
use std::test::Fail;
use test_sessions::put_line;
use tool::certified;

/// A thread without its program: a page of code, and one of data at 0x2000.
const FRONT: &str =
    "memory 16 4\nuntyped u 0x8000 15\nobject code u frame\nobject vs u root\nobject pt u table\n\
    object data u frame\nobject main u tcb\nobject cs u cnode 4\nobject bell u notification\n\
    irq line 3 bell 1\ncap cs 1 bell 2 0\ncap cs 2 line 0 0\ntable vs 0 pt\nmap vs 0x1000 code 4\n\
    map vs 0x2000 data 3\nthread main cs 28 vs 100 auto 0 start 0x1000\n";

/// What is after its loops: it waits for its bell for ever.
const WAIT: &str = "wait: addi x10 x0 1\naddi x17 x0 5\necall\njal x0 wait\nend\n";

/// Asserts that a text comes back with certificates, and with these budgets.
pub(crate) fn certified_with<R: AllocGlobal + Abort>(
    rt: &R,
    text: &str,
    budgets: &str,
) -> Result<(), Fail> {
    let told = match certified(rt.alloc(), text, &mut Quiet) {
        Ok(made) => made.budgets,
        Err(_) => String::new(rt.alloc()),
    };
    assert_eq!(rt; told.as_str(), budgets);
    Ok(())
}

/// The text of a thread with these loops before it waits.
pub(crate) fn text_with<R: AllocGlobal>(rt: &R, loops: &str) -> Result<String, Fail> {
    let mut text = String::new(rt.alloc());
    'parts: for part in [FRONT, loops, WAIT] {
        text.push_str(part)?;
    }
    Ok(text)
}

/// Puts the line of a thread, with a budget that is to be found.
fn put_thread(to: &mut String, line: &str) -> Result<(), Fail> {
    let mut place = 0usize;
    for word in line.split(' ') {
        if place > 0 {
            to.push(' ')?;
        }
        to.push_str(if place == 6 { "auto" } else { word })?;
        place = place.saturating_add(1);
    }
    Ok(to.push('\n')?)
}

/// A text without its certificates.
pub(crate) fn uncertified(alloc: Global, text: &str) -> Result<String, Fail> {
    let mut bare = String::new(alloc);
    for line in text.lines() {
        if line.starts_with("thread ") {
            put_thread(&mut bare, line)?;
        } else if !line.starts_with("measure ") && !line.starts_with("range ") {
            put_line(&mut bare, line)?;
        }
    }
    Ok(bare)
}

/// Asserts that a thread with these loops comes back with this budget.
pub(crate) fn loops_have<R: AllocGlobal + Abort>(
    rt: &R,
    loops: &str,
    budgets: &str,
) -> Result<(), Fail> {
    certified_with(rt, text_with(rt, loops)?.as_str(), budgets)
}
