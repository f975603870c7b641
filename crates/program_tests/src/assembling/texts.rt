//! Whole texts: which image they give, and the first line at fault.

use crate::assembling::images::{bytes_of, fault_of};
use std::process::Abort;
use std::test::Fail;
use test_sessions::{SOLO, lines_before, with_line};

#[test]
fn an_image_has_its_length(rt: HostRuntime) -> Result<(), Fail> {
    assert_eq!(rt; bytes_of(rt.alloc(), SOLO)?.len(), 428);
    Ok(())
}

/// Version 3 has two words more than version 1: how many promises there are, and the frame of the thread's buffer.
#[test]
fn a_buffer_is_of_version_3(rt: HostRuntime) -> Result<(), Fail> {
    let text = with_line(rt.alloc(), SOLO, 17, "buffer data\nmeasure 24")?;
    let bytes = bytes_of(rt.alloc(), text.as_str())?;
    assert_eq!(rt; bytes.len(), 436);
    assert_eq!(rt; bytes.get(4).copied(), Some(3));
    Ok(())
}

/// The version is the second word of the file.
#[test]
fn a_device_page_is_of_version_4(rt: HostRuntime) -> Result<(), Fail> {
    let text = with_line(rt.alloc(), SOLO, 6, "object data u frame 1")?;
    let bytes = bytes_of(rt.alloc(), text.as_str())?;
    assert_eq!(rt; bytes.get(4).copied(), Some(4));
    let without = bytes_of(rt.alloc(), SOLO)?;
    assert_eq!(rt; without.get(4).copied(), Some(1));
    Ok(())
}

#[test]
fn lines_end_in_two_ways(rt: HostRuntime) -> Result<(), Fail> {
    let bytes = bytes_of(rt.alloc(), SOLO)?;
    let other = SOLO.replace(rt.alloc(), '\n', "\r\n")?;
    assert_eq!(rt; bytes_of(rt.alloc(), other.as_str())?, bytes);
    let front = SOLO.strip_suffix("\n").ok_or("no last line feed")?;
    assert_eq!(rt; bytes_of(rt.alloc(), front)?, bytes);
    Ok(())
}

/// A line's number, and two forms of it that give the same image. `/` is the end of a line.
const FORMS: &str = "
    1 | memory 16 4 | # made by hand\u{1}// memory,16\t 0x04 # so
    3 | object code u frame | object code u frame 0
    18 | start: addi x5 x0 10 | start:/word 0x00A00293
    29 | end | end/# the last line
    12 | cap cs 2 line 0 0/cap cs 3 bell 1 0 | cap cs 3 bell 1 0/cap cs 2 line 0 0
    15 | map vs 0x2000 data 3/map vs 0x3000 data 1 | map vs 0x3000 data 1/map vs 0x2000 data 3
    15 | map vs 0x2000 data 3/data code 1 2/data data 3 | data data 3/map vs 0x2000 data 3/data code 1 2
    15 | object e u endpoint/object g u endpoint/promise e 0 0/promise g 1 1 2 3 | object e u endpoint/object g u endpoint/promise g 1 1 2 3/promise e 0 0
    17 | reg x1 7/reg x2 8 | reg x2 8/reg x1 7
    17 | buffer data/reg x1 7 | reg x1 7/buffer data
    17 | measure 24 x1 1 x2 -1 | measure 24 x2 -1 x1 1
    17 | measure 24/range x1 0 9/range x2 0 8 | measure 24/range x2 0 8/range x1 0 9
    17 | measure 24/slot cs 3 0 0 boot 0/slot cs 4 0 0 boot 0 | measure 24/slot cs 4 0 0 boot 0/slot cs 3 0 0 boot 0
    17 | measure 24/range x1 0 9/slot cs 3 0 0 boot 0 | measure 24/slot cs 3 0 0 boot 0/range x1 0 9
";

#[test]
fn sections_are_sorted(rt: HostRuntime) -> Result<(), Fail> {
    let rows = FORMS.replace(rt.alloc(), '/', "\n")?;
    for row in rows.trim().split("\n    ") {
        let (number, forms) = row.split_once(" | ").ok_or(row)?;
        let (one, other) = forms.split_once(" | ").ok_or(row)?;
        let number = number.parse::<usize>()?;
        let one = with_line(rt.alloc(), SOLO, number, one)?;
        let other = with_line(rt.alloc(), SOLO, number, other)?;
        let bytes = bytes_of(rt.alloc(), one.as_str())?;
        assert_eq!(rt; bytes_of(rt.alloc(), other.as_str())?, bytes, "for {row}");
    }
    Ok(())
}

/// The line and the kind of a text's fault, and the text.
const WITHOUT_IMAGE: &str = "
    1 1 |
    1 1 | # nothing
    2 1 |//
    1 4 | memory 16 4
    3 4 | memory 16 4/untyped u 0 4//
    1 1 | untyped u 0 4
    1 1 | memory 16
    1 1 | promise none 0 0 1 1 2 2 3 3 4 4 5 5 6 6 7 7 8 8 9 9
    5 4 | memory 16 4/untyped u 0 15/object e u endpoint/promise e 0 0/promise e 1 1
";

#[test]
fn texts_without_an_image(rt: HostRuntime) -> Result<(), Fail> {
    for row in WITHOUT_IMAGE.trim().lines() {
        let (want, text) = row.trim_start().split_once(" |").ok_or(row)?;
        let text = text.replace(rt.alloc(), '/', "\n")?;
        let fault = fault_of(rt.alloc(), text.as_str())?;
        assert_eq!(rt; fault.as_str(), want, "for {row}");
    }
    Ok(())
}

/// A line's number, the kind of the fault there, and what is in its place.
const AT_FAULT: &str = "
    1 1 | memory 16
    1 1 | memory 16 4 4
    1 4 | memory 15 4
    1 4 | memory 16 12
    1 4 | memory 0x100000010 4
    1 4 | memory -16 4
    2 1 | untyped u 0x8000
    2 1 | untyped u 0x8000 15 1
    2 4 | untyped u 0x100000000 15
    2 4 | untyped u 0x8000 3
    2 1 | memory 16 4
    3 3 | untyped u 0 4
    3 1 | object code u
    3 1 | object code u frame 0 0
    3 4 | object code u frame 2
    4 4 | object vs u root 1
    3 2 | object code v frame
    3 1 | object boot u frame
    4 3 | object code u root
    4 2 | object vs code root
    8 4 | object cs u cnode
    8 4 | object cs u cnode 15
    10 1 | irq line 3 bell
    10 1 | irq line 3 bell 1 1
    10 4 | irq line 64 bell 1
    10 4 | irq line 3 bell 0x10000000
    10 2 | irq line 3 u 1
    10 2 | irq line 3 none 1
    10 3 | irq bell 3 bell 1
    11 1 | cap cs 1 bell 2
    11 1 | cap cs 1 bell 2 0 0
    11 4 | cap cs 0x100000000 bell 2 0
    11 2 | cap none 1 bell 2 0
    11 2 | cap line 1 bell 2 0
    11 2 | cap cs 1 u 2 0
    12 4 | cap cs 1 line 0 0
    13 1 | table vs 0
    13 1 | table vs 0 pt pt
    13 2 | table line 0 pt
    13 2 | table vs 0 none
    13 4 | table vs 0x100000000 pt
    14 1 | map vs 0x1000 code
    14 1 | map vs 0x1000 code 4 4
    14 4 | map vs 0x1000 code 8
    14 2 | map vs 0x1000 u 4
    15 4 | map vs 0x1000 data 3
    15 1 | data code
    15 2 | data none 1
    15 4 | data code 0x100000000
    15 1 | promise bell 0
    15 1 | promise bell 0 0 1
    15 2 | promise none 0 0
    15 2 | promise u 0 0
    15 4 | promise bell 0 0x10000000
    15 4 | promise bell 0 0 2 1
    15 4 | promise bell 0 0 1 1 2 2 3 3 4 4 5 5 6 6 7 7 8 8 9 9
    15 2 | promise none 0 0 1 1 2 2 3 3 4 4 5 5 6 6 7 7 8 8 9 9
    16 1 | thread main cs 28 vs 100 24 0 start
    16 1 | thread main cs 28 vs 100 24 0 start 0x1000 0
    16 4 | thread main cs 28 vs 256 24 0 start 0x1000
    16 4 | thread main cs 28 vs 100 0 0 start 0x1000
    16 2 | thread main cs 28 vs 100 24 0 nowhere 0x1000
    16 2 | thread u cs 28 vs 100 24 0 start 0x1000
    15 1 | buffer data
    17 1 | buffer
    17 1 | buffer data data
    17 2 | buffer none
    17 2 | buffer u
    17 4 | reg x1 0
    17 1 | reg x1
    17 1 | reg x1 1 1
    17 4 | reg x0 1
    17 4 | reg x1 0x100000000
    19 1 | object late u frame
    29 1 | ecall
    29 1 | end end
    17 1 | measure
    17 1 | measure 24 x5
    19 4 | measure 3 x0 2
    19 4 | measure 3 x5 0
    19 4 | measure 3 x5 2 x5 1
    20 4 | measure 3
    20 1 | range x5 1
    20 1 | range x5 1 10 1
    20 4 | range x0 1 10
    20 4 | range x5 10 1
    20 4 | range x5 1 0x100000000
    24 4 | range x5 1 8
    26 1 | range x5 1 10
    20 1 | slot cs 1 0 0 boot
    20 4 | slot cs 1 0 0 boot 1
    20 2 | slot none 1 0 0 boot 0
    20 4 | slot cs 1 0 0 cs 2
    26 1 | slot cs 1 0 0 boot 0
    21 3 | start: addi x5 x5 -1
    24 2 | bne x5 x0 nowhere
    24 2 | bne x5 x0 bell
    28 2 | jal x0 nowhere
    26 1 | word
    26 1 | word 1 2
    26 4 | word 0x100000000
    26 4 | word -1
    26 4 | addi x5 x0 2048
    26 4 | addi x5 x0 0xFFF
    26 1 | addi x5 x0
    26 1 | addi x5 x0 1 1
    26 4 | lw x1 2048(x2)
    26 4 | lui x1 0x100000
    26 4 | slli x1 x1 32
    26 1 | ADDI x5 x0 1
    26 1 | addi x5 x0 +5
    26 1 | addi x5 x0 -0x5
";

/// Lines at fault that begin with a label, which is declared nonetheless. It needs a blank after it: without one there is
/// no label, and the thread's line names none.
const LABELLED: &str = "
    18 4 | start: addi x5 x0 4096
    18 1 | start: addi a0 x0 1
    18 1 | start: nop # caf\u{e9}
    21 1 | loop: nop
    25 1 | again: range x5 0 9
";

/// Asserts that each row has its fault, at its line.
fn are_at_fault(rt: &(impl Abort + AllocGlobal), rows: &str) -> Result<(), Fail> {
    for row in rows.trim().lines() {
        let (want, line) = row.trim_start().split_once(" | ").ok_or(row)?;
        let (number, _) = want.split_once(' ').ok_or(row)?;
        let text = with_line(rt.alloc(), SOLO, number.parse::<usize>()?, line)?;
        let fault = fault_of(rt.alloc(), text.as_str())?;
        assert_eq!(rt; fault.as_str(), want, "for {row}");
    }
    Ok(())
}

#[test]
fn the_first_line_at_fault_is_told(rt: HostRuntime) -> Result<(), Fail> {
    are_at_fault(&rt, AT_FAULT)
}

#[test]
fn a_label_on_a_faulty_line_counts(rt: HostRuntime) -> Result<(), Fail> {
    are_at_fault(&rt, LABELLED)?;
    let text = with_line(rt.alloc(), SOLO, 18, "start:nop")?;
    assert_eq!(rt;
        fault_of(rt.alloc(), text.as_str())?.as_str(),
        "16 2",
        "no blank"
    );
    Ok(())
}

/// The line and the kind of the fault of a text that ends inside a thread: fifteen lines, and these.
const CUT: &str = "
    16 1 | thread main cs 28 vs 100 24 0 start 0x1000
    16 1 | thread main cs 28 vs 100 24 0 nowhere 0x1000/
    16 1 | thread none cs 28 vs 100 24 0 nowhere 0x1000
    16 4 | thread main cs 28 vs 256 24 0 start 0x1000
    16 2 | thread main cs 28 vs 100 24 0 nowhere 0x1000//
    17 1 | thread main cs 28 vs 100 24 0 start 0x1000/start: ecall
    17 1 | thread main cs 28 vs 100 24 0 start 0x1000/start: beq x0 x0 nowhere
    18 1 | thread main cs 28 vs 100 24 0 start 0x1000/start: ecall/start: ecall
    18 4 | thread main cs 28 vs 100 24 0 start 0x1000/buffer data/buffer data/start: ecall
    18 2 | thread main cs 28 vs 100 24 0 start 0x1000/buffer data/buffer none/start: ecall
    18 1 | thread main cs 28 vs 100 24 0 start 0x1000/start: ecall/buffer none
    19 1 | thread main cs 28 vs 100 24 0 start 0x1000/start: ecall/buffer data/buffer data
    19 1 | thread main cs 28 vs 100 24 0 start 0x1000/start: ecall/reg x1 1/reg x1 1
";

#[test]
fn texts_that_end_inside_a_thread(rt: HostRuntime) -> Result<(), Fail> {
    for row in CUT.trim().lines() {
        let (want, last) = row.trim_start().split_once(" | ").ok_or(row)?;
        let mut text = lines_before(rt.alloc(), SOLO, 16)?;
        text.push_str(last.replace(rt.alloc(), '/', "\n")?.as_str())?;
        let fault = fault_of(rt.alloc(), text.as_str())?;
        assert_eq!(rt; fault.as_str(), want, "for {row}");
    }
    Ok(())
}
