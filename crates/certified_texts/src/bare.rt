//! A text without certificates.

use crate::pieces::{around_auto, is_certificate, is_thread};
use std::alloc::{AllocError, Global};

/// The greatest budget, which is written where one is to be found.
const GREATEST_BUDGET: &[u8] = b"0x4000000000000000";

/// Adds a line, which is empty if it is one of a certificate.
fn add_bare(bare: &mut Vec<u8>, line: &[u8]) -> Result<(), AllocError> {
    if is_certificate(line) {
        bare.push(b'\n')?;
        return Ok(());
    }
    match around_auto(line) {
        Some(around) => {
            bare.extend_from_slice(around.before)?;
            bare.extend_from_slice(GREATEST_BUDGET)?;
            bare.extend_from_slice(around.behind)?;
        }
        None => bare.extend_from_slice(line)?,
    }
    Ok(())
}

/// The text without its certificates, and with the greatest budget where one is to be found. Each line is where it was.
///
/// # Errors
///
/// Memory may be refused.
pub fn bare_text(alloc: Global, text: &str) -> Result<Vec<u8>, AllocError> {
    let mut bare = Vec::new(alloc);
    'lines: for line in text.as_bytes().split_inclusive(|byte| *byte == b'\n') {
        add_bare(&mut bare, line)?;
    }
    Ok(bare)
}

/// Adds a line with a budget where one is to be found.
fn add_budgeted(to: &mut Vec<u8>, line: &[u8], budget: &str) -> Result<(), AllocError> {
    match around_auto(line) {
        Some(around) => {
            to.extend_from_slice(around.before)?;
            to.extend_from_slice(budget.as_bytes())?;
            to.extend_from_slice(around.behind)?;
        }
        None => to.extend_from_slice(line)?,
    }
    Ok(())
}

/// The text with the budgets of its threads, in their order, where one is to be found. Each line is where it was.
///
/// # Errors
///
/// Memory may be refused.
pub fn budgeted_text(alloc: Global, text: &str, budgets: &[&str]) -> Result<Vec<u8>, AllocError> {
    let mut filled = Vec::new(alloc);
    let mut left = budgets.iter();
    'lines: for line in text.as_bytes().split_inclusive(|byte| *byte == b'\n') {
        let budget = if is_thread(line) { left.next() } else { None };
        match budget {
            Some(budget) => add_budgeted(&mut filled, line, *budget)?,
            None => filled.extend_from_slice(line)?,
        }
    }
    Ok(filled)
}
