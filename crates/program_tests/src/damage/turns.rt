//! Samples with one byte changed. The counts are those of `tools/damage/reckon.py`.

use crate::damage::outcomes::{Outcomes, Row};
use crate::images::{bell, solo, worker};
use std::alloc::{AllocError, Global};
use std::ops::Range;
use std::process::Abort;
use std::test::Fail;

/// The low bit, the high bit, or all bits of a byte.
const FEW: [u8; 3] = [0x01, 0x80, 0xFF];

/// Turns the bits of a mask in one byte.
fn turn(bytes: &mut Vec<u8>, at: usize, mask: u8) {
    if let Some(byte) = bytes.get_mut(at) {
        *byte ^= mask;
    }
}

/// Asserts what becomes of an image with one of its bytes at these places turned by one of the masks, one by one.
fn come_to(
    rt: &(impl Abort + AllocGlobal),
    mut image: Vec<u8>,
    places: Range<usize>,
    masks: &[u8],
    accepted: u32,
    rows: &[Row],
) -> Result<(), Fail> {
    let mut found = Outcomes::of(0, &[]);
    for at in places {
        for mask in masks {
            turn(&mut image, at, *mask);
            found.note(rt.alloc(), image.as_slice())?;
            turn(&mut image, at, *mask);
        }
    }
    assert_eq!(rt; found, Outcomes::of(accepted, rows));
    Ok(())
}

/// The 255 other values of a byte, as masks.
fn all_masks(alloc: Global) -> Result<Vec<u8>, AllocError> {
    let mut masks = Vec::new(alloc);
    for mask in 1..=255u8 {
        masks.push(mask)?;
    }
    Ok(masks)
}

/// Asserts what becomes of solo with one of its bytes at these places given each other value.
fn solo_comes_to(
    rt: &(impl Abort + AllocGlobal),
    places: Range<usize>,
    accepted: u32,
    rows: &[Row],
) -> Result<(), Fail> {
    let masks = all_masks(rt.alloc())?;
    let image = solo(rt.alloc())?;
    come_to(rt, image, places, masks.as_slice(), accepted, rows)
}

/// The header, untyped memory, objects, capabilities.
#[test]
#[rattlefmt::skip]
fn solo_with_other_objects(rt: HostRuntime) -> Result<(), Fail> {
    let rows = [
        (1, 1020), (2, 1017), (3, 63), (5, 37579), (6, 1030), (7, 17), (8, 3), (9, 4318), (12, 20), (13, 2), (14, 9),
        (23, 8),
    ];
    solo_comes_to(&rt, 0..180, 814, &rows)
}

/// The interrupt, table and frames, and the thread's header before its budget.
#[test]
#[rattlefmt::skip]
fn solo_with_another_address_space(rt: HostRuntime) -> Result<(), Fail> {
    let rows = [(5, 14885), (9, 6), (12, 2266), (13, 4), (14, 445), (23, 596)];
    solo_comes_to(&rt, 180..256, 1178, &rows)
}

/// The budget: all below the entry's measure are refused.
#[test]
fn solo_with_another_budget(rt: HostRuntime) -> Result<(), Fail> {
    solo_comes_to(&rt, 256..264, 1824, &[(5, 193), (21, 23)])
}

/// The rest of the thread: header, program, certificate.
#[test]
#[rattlefmt::skip]
fn solo_with_another_program(rt: HostRuntime) -> Result<(), Fail> {
    let rows = [
        (3, 746), (4, 4), (5, 20914), (14, 2034), (15, 2564), (16, 10), (17, 1154), (18, 3853), (19, 24), (20, 6064),
        (21, 1824), (22, 957), (23, 283), (24, 275),
    ];
    solo_comes_to(&rt, 264..428, 1114, &rows)
}

#[test]
#[rattlefmt::skip]
fn bell_with_other_bytes(rt: HostRuntime) -> Result<(), Fail> {
    let rows = [
        (1, 12), (2, 12), (3, 12), (4, 1), (5, 669), (6, 12), (7, 1), (9, 50), (12, 35), (14, 34), (15, 18), (17, 7),
        (18, 3), (20, 2), (21, 21), (22, 12), (23, 11), (24, 4),
    ];
    come_to(&rt, bell(rt.alloc())?, 0..328, &FEW, 68, &rows)
}

#[test]
#[rattlefmt::skip]
fn the_worker_with_other_bytes(rt: HostRuntime) -> Result<(), Fail> {
    let rows = [
        (1, 12), (2, 12), (3, 16), (4, 2), (5, 1519), (6, 14), (9, 118), (10, 3), (12, 58), (13, 1), (14, 69),
        (15, 115), (17, 21), (18, 118), (19, 5), (20, 51), (21, 42), (22, 136), (23, 92), (24, 88), (25, 1),
    ];
    come_to(&rt, worker(rt.alloc())?, 0..872, &FEW, 123, &rows)
}
