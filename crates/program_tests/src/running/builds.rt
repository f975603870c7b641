//! Images built from their text.

use crate::images::solo;
use crate::running::sessions::plays;
use std::test::Fail;
use test_sessions::{SOLO, put_file, take_files};

/// What is in the file of an image before it is built.
const BEFORE: &[u8] = b"an older image";

#[test]
fn a_text_becomes_an_image(rt: HostRuntime) -> Result<(), Fail> {
    put_file(&rt, "text.txt", SOLO.as_bytes())?;
    put_file(&rt, "text.img", BEFORE)?;
    plays(&rt, "$ microsys build @text.txt @text.img\nstatus 0")?;
    let solo = solo(rt.alloc())?;
    assert_eq!(rt; solo.len(), 428);
    assert_eq!(rt; take_files(&rt, "text.txt text.img")?, solo);
    Ok(())
}

#[test]
fn the_first_line_at_fault_is_told(rt: HostRuntime) -> Result<(), Fail> {
    put_file(&rt, "short.txt", b"memory 16")?;
    let zero = SOLO.replace(rt.alloc(), "measure 24", "reg x1 0")?;
    put_file(&rt, "zero.txt", zero.as_bytes())?;
    put_file(&rt, "kept.img", BEFORE)?;
    plays(
        &rt,
        "
        $ microsys build @short.txt @kept.img
        source 1 1
        status 1
        $ microsys build @zero.txt @kept.img
        source 17 4
        status 1
        ",
    )?;
    assert_eq!(rt;
        take_files(&rt, "short.txt zero.txt kept.img")?.as_slice(),
        BEFORE
    );
    Ok(())
}

#[test]
fn files_that_fail_are_named(rt: HostRuntime) -> Result<(), Fail> {
    put_file(&rt, "latin.txt", b"memory 16 4 # \xE9\n")?;
    put_file(&rt, "whole.txt", SOLO.as_bytes())?;
    plays(
        &rt,
        "
        $ microsys build @missing.txt @nowhere.img
        status 3
        file @missing.txt
        $ microsys build @latin.txt @nowhere.img
        status 3
        file @latin.txt
        $ microsys build @whole.txt @whole.txt/nowhere.img
        status 3
        file @whole.txt/nowhere.img
        ",
    )?;
    take_files(&rt, "latin.txt whole.txt")?;
    Ok(())
}
