//! The lines of a record.

use crate::layouts::Layout;
use capwords::pack;
use certifying::Record;
use model::{Range, Register, TermEntry};
use std::alloc::{AllocError, Global};
use typestate::{NotedSlot, SlotKey};

/// The least number that is written in hexadecimal.
const HEXADECIMAL_FROM: u32 = 4096;

/// Adds a number: a small one in decimal.
fn add_number(alloc: Global, text: &mut Vec<u8>, number: u32) -> Result<(), AllocError> {
    let digits = if number < HEXADECIMAL_FROM {
        format!(in alloc; "{number}")?
    } else {
        format!(in alloc; "0x{number:X}")?
    };
    text.extend_from_slice(digits.as_bytes())?;
    Ok(())
}

/// Adds a term of a measure.
fn add_term(alloc: Global, text: &mut Vec<u8>, term: &TermEntry) -> Result<(), AllocError> {
    let register = term.register;
    let coefficient = term.coefficient;
    let said = format!(in alloc; " x{register} {coefficient}")?;
    text.extend_from_slice(said.as_bytes())?;
    Ok(())
}

/// Adds the line of a measure.
fn add_measure(alloc: Global, text: &mut Vec<u8>, record: &Record) -> Result<(), AllocError> {
    let constant = record.constant;
    let said = format!(in alloc; "measure {constant}")?;
    text.extend_from_slice(said.as_bytes())?;
    'terms: for term in &record.terms {
        add_term(alloc, text, term)?;
    }
    text.push(b'\n')?;
    Ok(())
}

/// Adds the line of a range.
fn add_range(
    alloc: Global,
    text: &mut Vec<u8>,
    register: u8,
    range: Range,
) -> Result<(), AllocError> {
    let said = format!(in alloc; "range x{register} ")?;
    text.extend_from_slice(said.as_bytes())?;
    add_number(alloc, text, range.low)?;
    text.push(b' ')?;
    add_number(alloc, text, range.high)?;
    text.push(b'\n')?;
    Ok(())
}

/// Adds the lines of all ranges that say something.
fn add_ranges(alloc: Global, text: &mut Vec<u8>, record: &Record) -> Result<(), AllocError> {
    'registers: for register in 1..32u8 {
        let range = record.bounds.get(Register(register));
        if range != Range::FULL {
            add_range(alloc, text, register, range)?;
        }
    }
    Ok(())
}

/// Adds the slot that another was derived from.
fn add_parent(
    alloc: Global,
    text: &mut Vec<u8>,
    layout: &Layout<'_>,
    parent: Option<SlotKey>,
) -> Result<(), AllocError> {
    let said = match parent {
        Some(key) => {
            let cnode = layout.object(key.cnode);
            let index = key.index;
            format!(in alloc; " {cnode} {index}\n")?
        }
        None => format!(in alloc; " boot 0\n")?,
    };
    text.extend_from_slice(said.as_bytes())?;
    Ok(())
}

/// Adds the line of a slot.
fn add_slot(
    alloc: Global,
    text: &mut Vec<u8>,
    layout: &Layout<'_>,
    slot: NotedSlot,
) -> Result<(), AllocError> {
    let cnode = layout.object(slot.key.cnode);
    let index = slot.key.index;
    let [word0, word1] = pack(slot.capability);
    let said = format!(in alloc; "slot {cnode} {index} 0x{word0:08X} 0x{word1:X}")?;
    text.extend_from_slice(said.as_bytes())?;
    add_parent(alloc, text, layout, slot.parent)
}

/// Adds the lines of a record.
pub(crate) fn add_record(
    alloc: Global,
    text: &mut Vec<u8>,
    layout: &Layout<'_>,
    record: &Record,
) -> Result<(), AllocError> {
    add_measure(alloc, text, record)?;
    add_ranges(alloc, text, record)?;
    'slots: for slot in &record.changes {
        add_slot(alloc, text, layout, *slot)?;
    }
    Ok(())
}
