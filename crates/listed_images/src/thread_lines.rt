//! The lines of a thread.

use crate::instructions::put_instruction;
use crate::values::put_value;
use image_reading::{RecordRef, ThreadRef};
use model::{RangeEntry, RegisterEntry, SlotEntry, TermEntry, ThreadHeader};
use rv32_isa::decode;
use std::alloc::AllocError;

/// The number for no object: no buffer, or a parent in the boot CNode.
const NO_OBJECT: u32 = u32::MAX;

/// `thread`
fn put_thread_line(text: &mut String, header: &ThreadHeader) -> Result<(), AllocError> {
    let (tcb, cnode, guard) = (header.tcb, header.cnode, header.guard);
    write!(text, "thread o{tcb} o{cnode} {guard}")?;
    let (root, priority, budget) = (header.root, header.priority, header.budget);
    write!(text, " o{root} {priority} {budget}")?;
    let (fault, base) = (header.fault, header.base);
    write!(text, " {fault} l {base:#x}\n")
}

/// `buffer`, if the thread has one
fn put_buffer(text: &mut String, buffer: u32) -> Result<(), AllocError> {
    if buffer == NO_OBJECT {
        Ok(())
    } else {
        write!(text, "buffer o{buffer}\n")
    }
}

/// `reg`
fn put_register(text: &mut String, entry: &RegisterEntry) -> Result<(), AllocError> {
    let register = entry.register;
    write!(text, "reg x{register}")?;
    put_value(text, entry.value)?;
    text.push_str("\n")
}

/// A term of a measure.
fn put_term(text: &mut String, term: &TermEntry) -> Result<(), AllocError> {
    let (register, coefficient) = (term.register, term.coefficient);
    write!(text, " x{register} {coefficient}")
}

/// `measure`
fn put_measure(text: &mut String, record: &RecordRef<'_>) -> Result<(), AllocError> {
    let constant = record.header().constant;
    write!(text, "measure {constant}")?;
    for term in record.terms() {
        put_term(text, &term)?;
    }
    text.push_str("\n")
}

/// `range`
fn put_range(text: &mut String, entry: &RangeEntry) -> Result<(), AllocError> {
    let register = entry.register;
    write!(text, "range x{register}")?;
    put_value(text, entry.low)?;
    put_value(text, entry.high)?;
    text.push_str("\n")
}

/// `slot`
fn put_slot(text: &mut String, entry: &SlotEntry) -> Result<(), AllocError> {
    let (cnode, index) = (entry.cnode, entry.index);
    let (word0, word1) = (entry.word0, entry.word1);
    write!(text, "slot o{cnode} {index} {word0:#010x} {word1:#x}")?;
    let (parent, parent_index) = (entry.parent_cnode, entry.parent_index);
    if parent == NO_OBJECT {
        text.push_str(" boot 0\n")
    } else {
        write!(text, " o{parent} {parent_index}\n")
    }
}

/// The lines of a record.
fn put_record(text: &mut String, record: &RecordRef<'_>) -> Result<(), AllocError> {
    put_measure(text, record)?;
    for entry in record.ranges() {
        put_range(text, &entry)?;
    }
    for entry in record.slots() {
        put_slot(text, &entry)?;
    }
    Ok(())
}

/// The label of the point where the thread begins, if this is that point.
fn put_label(text: &mut String, header: &ThreadHeader, point: u32) -> Result<(), AllocError> {
    if header.entry == point {
        text.push_str("l:\n")
    } else {
        Ok(())
    }
}

/// `word`, with its address and what it spells
fn put_word(
    text: &mut String,
    header: &ThreadHeader,
    point: u32,
    word: u32,
) -> Result<(), AllocError> {
    let address = header.base.wrapping_add(point.wrapping_mul(4));
    write!(text, "word {word:#010x} # {address:#x}")?;
    if let Some(instr) = decode(word) {
        text.push_str(": ")?;
        put_instruction(text, address, instr)?;
    }
    text.push_str("\n")
}

/// The points from one up to another, none of which has a record.
fn put_plain_points(
    text: &mut String,
    thread: &ThreadRef<'_>,
    from: u32,
    to: u32,
) -> Result<(), AllocError> {
    let header = thread.header();
    for point in from..to.min(thread.word_count()) {
        put_label(text, &header, point)?;
        put_word(text, &header, point, thread.word(point))?;
    }
    Ok(())
}

/// A point with its record.
fn put_noted_point(
    text: &mut String,
    thread: &ThreadRef<'_>,
    record: &RecordRef<'_>,
) -> Result<(), AllocError> {
    let header = thread.header();
    let point = record.header().point;
    put_label(text, &header, point)?;
    put_record(text, record)?;
    if point < thread.word_count() {
        put_word(text, &header, point, thread.word(point))?;
    }
    Ok(())
}

/// All points of a thread.
fn put_points(text: &mut String, thread: &ThreadRef<'_>) -> Result<(), AllocError> {
    let mut next = 0u32;
    for record in thread.records() {
        let point = record.header().point;
        put_plain_points(text, thread, next, point)?;
        put_noted_point(text, thread, &record)?;
        next = point.saturating_add(1);
    }
    put_plain_points(text, thread, next, thread.word_count())
}

/// A thread, from its line `thread` to its line `end`.
pub(crate) fn put_thread(text: &mut String, thread: &ThreadRef<'_>) -> Result<(), AllocError> {
    let header = thread.header();
    put_thread_line(text, &header)?;
    put_buffer(text, header.buffer)?;
    for entry in thread.registers() {
        put_register(text, &entry)?;
    }
    put_points(text, thread)?;
    text.push_str("end\n")
}
