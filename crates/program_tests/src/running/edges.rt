//! Refusals at the edges of the file, and of its fields.

use crate::images::{bell, with_word};
use crate::running::sessions::answer_to;
use model::Refusal;
use std::test::Fail;
use test_sessions::{number, put_file, take_files};
use verify::verify;

#[test]
fn each_prefix_is_cut_inside_a_field(rt: HostRuntime) -> Result<(), Fail> {
    let image = bell(rt.alloc())?;
    assert_eq!(rt; image.len(), 328);
    for len in 0..image.len() {
        let prefix = image.as_slice().get(..len).ok_or("a prefix")?;
        let found = verify(rt.alloc(), prefix).err();
        assert_eq!(rt; found, Some(refusal_of_prefix(len as u64)), "at {len}");
    }
    Ok(())
}

/// A field that does not fit is cut at its first byte. The budget and the constant have eight bytes, the others four.
fn refusal_of_prefix(len: u64) -> Refusal {
    let offset = match len {
        256..=263 => 256,
        320..=327 => 320,
        _ => len - len % 4,
    };
    Refusal::Truncated { offset }
}

#[test]
fn one_byte_more_is_trailing(rt: HostRuntime) -> Result<(), Fail> {
    let mut image = bell(rt.alloc())?;
    image.push(0)?;
    let found = verify(rt.alloc(), image.as_slice()).err();
    assert_eq!(rt; found, Some(Refusal::Trailing { offset: 328 }));
    Ok(())
}

#[test]
fn a_record_may_note_an_empty_slot(rt: HostRuntime) -> Result<(), Fail> {
    let mut image = with_word(bell(rt.alloc())?, 312, 1)?;
    // An empty slot of the CNode, with no parent.
    for word in [5u32, 3, 0, 0, 0xFFFF_FFFF, 0xFFFF_FFFF] {
        image.extend_from_slice(&word.to_le_bytes())?;
    }
    let found = verify(rt.alloc(), image.as_slice()).err();
    assert_eq!(rt; found, None);
    Ok(())
}

/// What `verify` prints of bell with one word changed: the place, the word, and the line.
const ROWS: &str = "
    # The header: 16 to 24 memory bits, a boot radix of at most 11 of 16, and its counts. Memory may be more.
    0 0x5359534E | refused 1 Magic 0 0
    # As version 2, 3 or 4 its one thread is read as one promise, and the first word of its untyped memory as how many threads there are.
    4 2 | refused 5 Limit 48 0
    4 3 | refused 5 Limit 48 0
    4 4 | refused 5 Limit 48 0
    4 5 | refused 2 Version 0 0
    8 15 | refused 5 Limit 8 0
    8 17 | accepted
    12 12 | refused 5 Limit 12 0
    16 0 | refused 5 Limit 16 0
    20 4097 | refused 5 Limit 20 0
    44 0 | refused 5 Limit 44 0
    # The bits of an untyped memory, of which half holds the four pages and nothing more; an object's untyped memory,
    # type and size.
    52 3 | refused 5 Limit 52 0
    52 14 | refused 7 NoRoom 4 0
    56 1 | refused 5 Limit 56 0
    60 9 | refused 5 Limit 60 0
    64 1 | refused 5 Limit 64 0
    # A capability's source, and the index of the one behind it.
    148 8 | refused 5 Limit 148 0
    164 1 | refused 5 Limit 164 0
    # The interrupt's line and badge, which may be another.
    180 64 | refused 5 Limit 180 0
    188 0x10000000 | refused 5 Limit 188 0
    188 2 | accepted
    # A table's root; the address and the rights of the second frame, which is mapping 2, behind the table. A page may
    # not be to write alone.
    192 7 | refused 5 Limit 192 0
    224 0x1000 | refused 5 Limit 224 0
    232 8 | refused 5 Limit 232 0
    232 1 | refused 12 BadMapping 2 0
    # The thread's TCB, CNode and root table: there is no object 7, and a frame is none of them.
    236 7 | refused 5 Limit 236 0
    236 3 | refused 14 BadThread 0 0
    240 7 | refused 5 Limit 240 0
    240 0 | refused 14 BadThread 0 0
    248 7 | refused 5 Limit 248 0
    248 0 | refused 14 BadThread 0 0
    # Without a guard the address 1 names slot 0, with bits left.
    244 0 | refused 23 CapNotThere 0 2
    # The priority; the upper word of the budget, which is told at its first byte; and a fault address, which nothing asks
    # for, since no accepted thread faults.
    252 256 | refused 5 Limit 252 0
    260 0x40000001 | refused 5 Limit 256 0
    264 1 | accepted
    # The entry is no point, and the program stands at a page of data.
    268 4 | refused 14 BadThread 0 0
    272 0x2000 | refused 14 BadThread 0 0
    # How many words and records there are.
    280 65537 | refused 5 Limit 280 0
    280 0 | refused 5 Limit 280 0
    284 5 | refused 5 Limit 284 0
    # The handler is no notification: a0 is 2. Then EBREAK, and Yield, which is no wait: a7 is 7.
    288 0x00200513 | refused 23 CapNotThere 0 2
    292 0x00100073 | refused 15 IllegalInstruction 0 1
    292 0x00700893 | refused 20 MeasureNotFalling 0 3
    # The last point falls out of the program, or jumps out of it.
    300 0x00100513 | refused 17 BadTarget 0 3
    300 0xFEDFF06F | refused 17 BadTarget 0 3
    # The record's point, without which the entry has no state; how many ranges, slots (256 would stand behind it) and terms
    # it has; the constant.
    304 4 | refused 5 Limit 304 0
    304 1 | refused 18 RangeNotKept 0 0
    308 32 | refused 5 Limit 308 0
    312 257 | refused 5 Limit 312 0
    312 256 | refused 3 Truncated 328 0
    316 5 | refused 5 Limit 316 0
    320 0 | refused 20 MeasureNotFalling 0 0
";

#[test]
fn fields_have_their_ranges_and_rules(rt: HostRuntime) -> Result<(), Fail> {
    for row in ROWS.trim().lines() {
        if row.trim().starts_with('#') {
            continue;
        }
        let (change, want) = row.split_once(" | ").ok_or(row)?;
        let (at, word) = change.trim().split_once(' ').ok_or(row)?;
        let image = with_word(bell(rt.alloc())?, number(at)? as usize, number(word)?)?;
        put_file(&rt, "edges.img", image.as_slice())?;
        let found = answer_to(&rt, "verify @edges.img")?;
        assert_eq!(rt; found.lines().next(), Some(want), "{row}");
    }
    take_files(&rt, "edges.img")?;
    Ok(())
}
