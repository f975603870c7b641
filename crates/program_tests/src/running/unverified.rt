//! Runs of images that are not verified.

use crate::images::{solo, with_word};
use crate::running::sessions::{answer_to, plays};
use crate::running::verified::put_image;
use crate::running::workers::{LATE_WORKER, OBJECTS, RECEIVER, SPACES};
use std::test::Fail;
use test_sessions::{put_file, take_files};

#[test]
fn what_does_not_boot_or_cannot_be_read_is_told(rt: HostRuntime) -> Result<(), Fail> {
    put_file(&rt, "fails.events", b"step\n")?;
    // The second frame may be written and not read.
    put_file(
        &rt,
        "unread.img",
        with_word(solo(rt.alloc())?, 232, 1)?.as_slice(),
    )?;
    // The untyped memory lies inside the boot area.
    put_file(
        &rt,
        "inside.img",
        with_word(solo(rt.alloc())?, 48, 0)?.as_slice(),
    )?;
    put_file(
        &rt,
        "other.img",
        with_word(solo(rt.alloc())?, 0, 0)?.as_slice(),
    )?;
    plays(
        &rt,
        "
        $ microsys run --unverified @unread.img @fails.events
        boot error 14 1
        status 1
        $ microsys run --unverified @inside.img @fails.events
        boot outside 0
        status 1
        $ microsys run --unverified @other.img @fails.events
        refused 1 Magic 0 0
        status 1
        ",
    )?;
    take_files(&rt, "fails.events unread.img inside.img other.img")?;
    Ok(())
}

#[test]
fn a_jump_to_an_odd_word_faults(rt: HostRuntime) -> Result<(), Fail> {
    // addi x1, x0, -1; srai x1, x1, 4; jalr x0, 0(x1)
    let image = with_word(solo(rt.alloc())?, 288, 0xFFF0_0093)?;
    let image = with_word(image, 292, 0x4040_D093)?;
    let image = with_word(image, 296, 0x0000_8067)?;
    put_file(&rt, "odd.img", image.as_slice())?;
    put_file(&rt, "odd.events", b"step 4\n")?;
    plays(
        &rt,
        "
        $ microsys run --unverified @odd.img @odd.events
        8000c000 00001000 plain
        8000c000 00001004 plain
        8000c000 00001008 fault 3
        idle
        status 0
        ",
    )?;
    take_files(&rt, "odd.img odd.events")?;
    Ok(())
}

#[test]
fn a_store_behind_the_revoke_faults(rt: HostRuntime) -> Result<(), Fail> {
    put_image(&rt, "late", &[OBJECTS, SPACES, LATE_WORKER, RECEIVER])?;
    put_file(&rt, "late.events", b"step 35\n")?;
    let answer = answer_to(&rt, "run --unverified @late.img @late.events")?;
    let end = "\n80016000 0000101c ok\n80016000 00001020 fault 4\nidle\nstatus 0\n";
    assert!(rt; answer.ends_with(end));
    take_files(&rt, "late.img late.events")?;
    Ok(())
}
