//! Runs of images, verified and not: what is promised of accepted ones, seen.

use crate::images::{solo, with_word};
use crate::running::sessions::answer_to;
use crate::running::workers::{
    DRIVER, DRIVER_OBJECTS, DRIVER_SPACES, OBJECTS, RECEIVER, SPACES, WORKER,
};
use loader::boot;
use model::Event;
use std::process::Abort;
use std::rt::{Env, Files};
use std::test::Fail;
use test_sessions::{put_file, take_files};
use verify::verify;

/// Makes NAME.img by the program, of pieces of its text.
pub(crate) fn put_image<R: Files + Env + Input + AllocGlobal + Abort>(
    rt: &R,
    name: &str,
    pieces: &[&str],
) -> Result<(), Fail> {
    let mut text = String::new(rt.alloc());
    for piece in pieces {
        text.push_str(piece)?;
    }
    let source = format!(in rt.alloc(); "{name}.txt")?;
    put_file(rt, source.as_str(), text.as_bytes())?;
    let words = format!(in rt.alloc(); "build @{name}.txt @{name}.img")?;
    assert_eq!(rt; answer_to(rt, words.as_str())?.as_str(), "status 0\n");
    take_files(rt, source.as_str())?;
    Ok(())
}

/// Asserts that a run prints so many lines, of which none says `error` or `fault`.
fn goes_on<R: Files + Env + Input + AllocGlobal + Abort>(
    rt: &R,
    words: &str,
    lines: usize,
) -> Result<(), Fail> {
    let answer = answer_to(rt, words)?;
    assert!(rt; answer.ends_with("status 0\n"));
    assert!(rt; !answer.contains("error"));
    assert!(rt; !answer.contains("fault"));
    assert_eq!(rt; answer.lines().count(), lines.saturating_add(1));
    Ok(())
}

/// Writes a list of these events, so many times.
fn put_events<R: Files + Env + Input + AllocGlobal>(
    rt: &R,
    name: &str,
    events: &str,
    count: usize,
) -> Result<(), Fail> {
    let mut list = String::new(rt.alloc());
    for _ in 0..count {
        list.push_str(events)?;
    }
    put_file(rt, name, list.as_bytes())
}

/// Asserts that an image runs as solo, verified or not.
fn counts_and_waits<R: Files + Env + Input + AllocGlobal + Abort>(
    rt: &R,
    image: &[u8],
) -> Result<(), Fail> {
    put_file(rt, "solo.img", image)?;
    put_file(rt, "solo.events", b"step 25\nirq 3\nstep\n")?;
    let mut want = String::new(rt.alloc());
    want.push_str("8000c000 00001000 plain\n")?;
    for _ in 0..10 {
        want.push_str("8000c000 00001004 plain\n8000c000 00001008 plain\n")?;
    }
    want.push_str(
        "8000c000 0000100c plain\n8000c000 00001010 plain\n8000c000 00001014 wait\nidle\nirq 3\n\
        8000c000 00001018 plain\nstatus 0\n",
    )?;
    assert_eq!(rt; answer_to(rt, "run @solo.img @solo.events")?, want);
    assert_eq!(rt;
        answer_to(rt, "run --unverified @solo.img @solo.events")?,
        want
    );
    take_files(rt, "solo.img solo.events")?;
    Ok(())
}

#[test]
fn solo_counts_and_waits(rt: HostRuntime) -> Result<(), Fail> {
    counts_and_waits(&rt, solo(rt.alloc())?.as_slice())
}

/// Version 2 has one word more: how many promises there are, before how many threads.
#[test]
fn solo_is_the_same_as_version_2(rt: HostRuntime) -> Result<(), Fail> {
    let solo = solo(rt.alloc())?;
    let mut image = Vec::new(rt.alloc());
    image.extend_from_slice(solo.as_slice().get(..44).ok_or("the header")?)?;
    image.extend_from_slice(&0u32.to_le_bytes())?;
    image.extend_from_slice(solo.as_slice().get(44..).ok_or("the rest")?)?;
    let image = with_word(image, 4, 2)?;
    assert_eq!(rt; image.len(), 432);
    // The budget is one word later.
    assert_eq!(rt; image.get(260).copied(), Some(24));
    counts_and_waits(&rt, image.as_slice())
}

/// Version 3 has a word more than version 2: the thread's message buffer, or 0xFFFFFFFF for none, after its fault address.
#[test]
fn solo_is_the_same_as_version_3(rt: HostRuntime) -> Result<(), Fail> {
    let solo = solo(rt.alloc())?;
    let mut image = Vec::new(rt.alloc());
    image.extend_from_slice(solo.as_slice().get(..44).ok_or("the header")?)?;
    image.extend_from_slice(&0u32.to_le_bytes())?;
    image.extend_from_slice(
        solo.as_slice()
            .get(44..268)
            .ok_or("up to the fault address")?,
    )?;
    image.extend_from_slice(&0xFFFF_FFFFu32.to_le_bytes())?;
    image.extend_from_slice(solo.as_slice().get(268..).ok_or("the rest")?)?;
    let image = with_word(image, 4, 3)?;
    assert_eq!(rt; image.len(), 436);
    for at in 272..276 {
        assert_eq!(rt; image.get(at).copied(), Some(0xFF));
    }
    counts_and_waits(&rt, image.as_slice())
}

/// Where the thread's control block is in the memory of solo.
const SOLO_TCB: u32 = 0xC000;

#[test]
fn solo_ends_with_its_registers(rt: HostRuntime) -> Result<(), Fail> {
    let image = solo(rt.alloc())?;
    let accepted = verify(rt.alloc(), image.as_slice()).ok().ok_or("refused")?;
    let mut system = boot(rt.alloc(), &accepted)?;
    for _ in 0..25 {
        let _line = system.step(Event::Step);
    }
    let _line = system.step(Event::Irq(3));
    let _line = system.step(Event::Step);
    let machine = system.machine();
    let results = (machine.reg(SOLO_TCB, 10), machine.reg(SOLO_TCB, 11));
    assert_eq!(rt; results, (Some(1), Some(0)));
    Ok(())
}

#[test]
fn a_worker_goes_on_for_ever(rt: HostRuntime) -> Result<(), Fail> {
    put_image(&rt, "works", &[OBJECTS, SPACES, WORKER, RECEIVER])?;
    put_events(&rt, "works.events", "step\ntick\n", 5000)?;
    goes_on(&rt, "run @works.img @works.events", 10_000)?;
    goes_on(&rt, "run --unverified @works.img @works.events", 10_000)?;
    take_files(&rt, "works.img works.events")?;
    Ok(())
}

#[test]
fn a_driver_goes_on_beside_a_worker(rt: HostRuntime) -> Result<(), Fail> {
    let pieces = [
        OBJECTS,
        DRIVER_OBJECTS,
        SPACES,
        DRIVER_SPACES,
        WORKER,
        RECEIVER,
        DRIVER,
    ];
    put_image(&rt, "drives", &pieces)?;
    put_events(&rt, "drives.events", "step\ntick\nirq 3\n", 3333)?;
    goes_on(&rt, "run @drives.img @drives.events", 9999)?;
    take_files(&rt, "drives.img drives.events")?;
    Ok(())
}
