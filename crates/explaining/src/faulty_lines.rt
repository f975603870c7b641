//! Lines of a text that make no image of it.

use crate::texts::Block;
use asm::SourceFault;
use asm_line::parse_line;
use std::alloc::{AllocError, Global};

/// How many lines at most are reported that are not of the text form.
const MOST_LINES: usize = 20;

/// What is wrong with a line by itself, if it is not of the text form.
fn fault_on(line: &str, number: u64) -> Option<SourceFault> {
    match parse_line(line) {
        Ok(_) => None,
        Err(kind) => Some(SourceFault { line: number, kind }),
    }
}

/// Adds a line that is at fault by itself, unless it is the first one at fault, which is there already.
fn add_fault(
    faults: &mut Vec<SourceFault>,
    fault: Option<SourceFault>,
    first: SourceFault,
) -> Result<(), AllocError> {
    match fault {
        Some(fault) if fault.line != first.line && faults.len() < MOST_LINES => {
            faults.push(fault)?;
            Ok(())
        }
        _ => Ok(()),
    }
}

/// Adds the lines of a text that are at fault by themselves.
fn add_faults(
    faults: &mut Vec<SourceFault>,
    text: &str,
    first: SourceFault,
) -> Result<(), AllocError> {
    let mut number = 0u64;
    for line in text.lines() {
        number = number.saturating_add(1);
        add_fault(faults, fault_on(line, number), first)?;
    }
    Ok(())
}

/// The lines of a text at fault: the first one, and those that are at fault by themselves.
pub(crate) fn faults_of(
    alloc: Global,
    text: &str,
    first: SourceFault,
) -> Result<Vec<SourceFault>, AllocError> {
    let mut faults = Vec::new(alloc);
    faults.push(first)?;
    add_faults(&mut faults, text, first)?;
    Ok(faults)
}

/// Whether one of the lines at fault is in a thread.
pub(crate) fn has_fault(block: &Block, faults: &[SourceFault]) -> bool {
    for fault in faults {
        if block.has(fault.line) {
            return true;
        }
    }
    false
}

/// Whether a line is in one of the threads.
fn is_in_thread(blocks: &[Block], line: u64) -> bool {
    for block in blocks {
        if block.has(line) {
            return true;
        }
    }
    false
}

/// Whether the lines at fault are all in threads.
pub(crate) fn are_in_threads(blocks: &[Block], faults: &[SourceFault]) -> bool {
    for fault in faults {
        if !is_in_thread(blocks, fault.line) {
            return false;
        }
    }
    true
}
