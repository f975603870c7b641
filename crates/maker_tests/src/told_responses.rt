//! How soon systems deal with interrupts, as the program for makers says, and refuses.

use crate::commands::{SYSTEM, answer_to, answers};
use std::alloc::Global;
use std::process::Abort;
use std::test::Fail;
use test_sessions::{put_file, take_files};

/// The system of `commands`, whose line comes once in a hundred instructions.
fn system(alloc: Global) -> Result<String, Fail> {
    Ok(SYSTEM.replace(alloc, "line 3\n", "line 3 every 100\n")?)
}

/// At the start its budget is left, and one interrupt may come: twice eleven.
const SAID: &str = "priority 1 and above: at most 22 instructions on end (p)
  line 3 (b_line3): p rests again within 11 instructions
        11  p, from the bell on
status 0
";

#[test]
fn rates_are_those_of_words_or_of_the_description(rt: HostRuntime) -> Result<(), Fail> {
    put_file(&rt, "soon.sys", system(rt.alloc())?.as_bytes())?;
    answers(&rt, "response @soon.sys", SAID)?;
    let twice = answer_to(&rt, "response @soon.sys b_line3 2 1000")?;
    assert!(&rt;
        twice.contains("p rests again within 22 instructions\n"),
        "{twice}"
    );
    assert!(&rt; twice.contains("\n        11  line 3, once\n"), "{twice}");
    answer_to(&rt, "make @soon.sys @soon.img")?;
    let once = answer_to(&rt, "response @soon.img")?;
    assert!(&rt;
        once.starts_with(
            "no rates are said: one interrupt of each line\npriority 1 and above: at most 22 "
        ),
        "{once}"
    );
    let wrong = answer_to(&rt, "response @soon.sys 3 1")?;
    assert!(&rt;
        wrong.starts_with("status 2\nerror: `3 1` is no rate: "),
        "{wrong}"
    );
    take_files(&rt, "soon.sys soon.img")?;
    Ok(())
}

#[test]
fn events_that_break_a_rate_are_noted(rt: HostRuntime) -> Result<(), Fail> {
    put_file(&rt, "soon.sys", system(rt.alloc())?.as_bytes())?;
    put_file(
        &rt,
        "soon.events",
        b"step 3\nirq 3\nstep 60\nirq 3\nstep 20\n",
    )?;
    put_file(&rt, "soon.bytes", b"41\n41\n")?;
    let said = answer_to(&rt, "test @soon.sys @soon.events @soon.bytes")?;
    assert!(&rt; said.starts_with("as expected\nstatus 0\n"), "{said}");
    let noted =
        "soon.events:4: note: line 3 comes again after 60 steps, and its rate is at most 1 at once, and one more after each 100 steps\n";
    assert!(&rt; said.contains(noted), "{said}");
    // Three up to the first wait, and eleven from the interrupt that follows at once.
    let runs = "priority 1 and above: longest 14 of at most 22 instructions on end\n";
    assert!(&rt; said.ends_with(runs), "{said}");
    take_files(&rt, "soon.sys soon.events soon.bytes")?;
    Ok(())
}

#[test]
fn what_is_not_kept_is_refused(rt: HostRuntime) -> Result<(), Fail> {
    let asking = system(rt.alloc())?;
    let kept = asking.replace(rt.alloc(), "code\n", "within 11\ncode\n")?;
    put_file(&rt, "kept.sys", kept.as_bytes())?;
    let want = "p budget 11\np rests within 11 instructions of line 3, of 11\nstatus 0\n";
    answers(&rt, "make @kept.sys @kept.img", want)?;
    let broken = asking.replace(rt.alloc(), "code\n", "within 10\ncode\n")?;
    put_file(&rt, "kept.sys", broken.as_bytes())?;
    let refused =
        "kept.sys:4: p rests within 11 instructions of line 3, not within 10\n        11  p, from the bell on\n";
    let said = answer_to(&rt, "make @kept.sys @kept.img")?;
    assert!(&rt;
        said.starts_with("status 1\n") && said.ends_with(refused),
        "{said}"
    );
    answers(&rt, "expand @kept.sys @kept.txt", "status 0\n")?;
    let said = answer_to(&rt, "certify @kept.txt @kept.out")?;
    assert!(&rt;
        said.starts_with("status 1\n") && said.ends_with(refused),
        "{said}"
    );
    let said = answer_to(&rt, "response @kept.txt")?;
    assert_eq!(&rt; said.as_str(), SAID);
    take_files(&rt, "kept.sys kept.img kept.txt")?;
    Ok(())
}
