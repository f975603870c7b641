//! Events that are outside the device pages of an image.

use crate::images::{solo, with_word};
use crate::running::sessions::{answer_to, plays};
use std::alloc::Global;
use std::test::Fail;
use test_sessions::{put_file, take_files};

/// The low word of solo's budget, which needs 24, in version 4.
const BUDGET: usize = 260;

/// Solo as version 4, which has two words more than version 1: how many promises there are, before how many threads, and the thread's
/// message buffer, or 0xFFFFFFFF for none, after its fault address. Its object 3, the frame at 0x8000B000, has the size 1: it is a
/// device page.
pub(crate) fn solo_with_device(alloc: Global) -> Result<Vec<u8>, Fail> {
    let solo = solo(alloc)?;
    let mut image = Vec::new(alloc);
    let solo = solo.as_slice();
    image.extend_from_slice(solo.get(..44).ok_or("the header")?)?;
    image.extend_from_slice(&0u32.to_le_bytes())?;
    image.extend_from_slice(solo.get(44..268).ok_or("up to the fault address")?)?;
    image.extend_from_slice(&0xFFFF_FFFFu32.to_le_bytes())?;
    image.extend_from_slice(solo.get(268..).ok_or("the rest")?)?;
    let image = with_word(image, 4, 4)?;
    with_word(image, 104, 1)
}

#[test]
fn what_is_in_a_device_page_is_done(rt: HostRuntime) -> Result<(), Fail> {
    let image = solo_with_device(rt.alloc())?;
    put_file(&rt, "device.img", image.as_slice())?;
    put_file(
        &rt,
        "device.events",
        b"read 0x8000b000\nwrite 0x8000b000 7\nstep 2\nread 0x8000b000\nwrite 0x8000bffc 0x12345678\nread 0x8000bffc\n",
    )?;
    let lines =
        "read 8000b000 00000000\nwrite 8000b000 00000007\n8000c000 00001000 plain\n8000c000 00001004 plain\n\
        read 8000b000 00000007\nwrite 8000bffc 12345678\nread 8000bffc 12345678\nstatus 0\n";
    for words in [
        "run @device.img @device.events",
        "run --unverified @device.img @device.events",
    ] {
        assert_eq!(rt; answer_to(&rt, words)?.as_str(), lines);
    }
    take_files(&rt, "device.img device.events")?;
    Ok(())
}

/// Places beside the device page, at other objects, below memory, and beyond it.
const OUTSIDE: &str =
    "0x8000affc 0x8000c000 0x80000000 0x80008000 0x7ffffffc 0x0000b000 0 0x80010000 0xfffffffc";

#[test]
fn what_is_beside_a_device_page_is_named(rt: HostRuntime) -> Result<(), Fail> {
    let image = solo_with_device(rt.alloc())?;
    put_file(&rt, "beside.img", image.as_slice())?;
    for place in OUTSIDE.split(' ') {
        for event in [
            format!(in rt.alloc(); "write {place} 1")?,
            format!(in rt.alloc(); "read {place}")?,
        ] {
            let list = format!(in rt.alloc();
                "step 3\nirq 3\ntick\nwrite 0x8000b004 1\n{event}\nread 0\n"
            )?;
            put_file(&rt, "beside.events", list.as_bytes())?;
            for words in [
                "run @beside.img @beside.events",
                "run --unverified @beside.img @beside.events",
            ] {
                let found = answer_to(&rt, words)?;
                assert_eq!(rt; found.as_str(), "events outside 7\nstatus 1\n", "{event}");
            }
        }
    }
    take_files(&rt, "beside.img beside.events")?;
    Ok(())
}

#[test]
fn images_without_device_pages_have_no_such_events(rt: HostRuntime) -> Result<(), Fail> {
    put_file(&rt, "none.img", solo(rt.alloc())?.as_slice())?;
    put_file(&rt, "write.events", b"write 0x8000b000 1\n")?;
    put_file(&rt, "read.events", b"step\nread 0x8000b000\n")?;
    plays(
        &rt,
        "
        $ microsys run @none.img @write.events
        events outside 1
        status 1
        $ microsys run --unverified @none.img @write.events
        events outside 1
        status 1
        $ microsys run @none.img @read.events
        events outside 2
        status 1
        ",
    )?;
    take_files(&rt, "none.img write.events read.events")?;
    Ok(())
}

/// Solo's budget is too small for what it runs between two waits; nothing can be read of an image of another format.
#[test]
fn a_refused_image_is_refused_first(rt: HostRuntime) -> Result<(), Fail> {
    let small = with_word(solo_with_device(rt.alloc())?, BUDGET, 23)?;
    put_file(&rt, "small.img", small.as_slice())?;
    let other = with_word(solo_with_device(rt.alloc())?, 0, 0)?;
    put_file(&rt, "format.img", other.as_slice())?;
    put_file(&rt, "far.events", b"write 0x8000c000 1\n")?;
    plays(
        &rt,
        "
        $ microsys run @small.img @far.events
        refused 21 OverBudget 0 0
        status 1
        $ microsys run --unverified @small.img @far.events
        events outside 1
        status 1
        $ microsys run --unverified @format.img @far.events
        refused 1 Magic 0 0
        status 1
        ",
    )?;
    take_files(&rt, "small.img format.img far.events")?;
    Ok(())
}

/// The untyped memory lies at 0x8010, so the device page from 0x8000B010 up to 0x8000C010: such an image does not boot, but which events
/// are outside is looked for before.
#[test]
fn a_page_that_is_not_aligned_has_its_own_words(rt: HostRuntime) -> Result<(), Fail> {
    let image = with_word(solo_with_device(rt.alloc())?, 52, 0x8010)?;
    put_file(&rt, "odd_page.img", image.as_slice())?;
    for (place, line) in [
        ("0x8000b00c", "events outside 1"),
        ("0x8000b010", "boot outside 0"),
        ("0x8000c00c", "boot outside 0"),
        ("0x8000c010", "events outside 1"),
    ] {
        let list = format!(in rt.alloc(); "read {place}\n")?;
        put_file(&rt, "odd_page.events", list.as_bytes())?;
        let found = answer_to(&rt, "run --unverified @odd_page.img @odd_page.events")?;
        assert_eq!(rt; found.lines().next(), Some(line), "{place}");
    }
    take_files(&rt, "odd_page.img odd_page.events")?;
    Ok(())
}
