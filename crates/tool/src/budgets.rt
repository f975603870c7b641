//! Texts with the budgets that are found for them.

use crate::certification::{NotCertified, budgets_found};
use crate::reports::ToolFault;
use certified_texts::budgeted_text;
use console::text_of;
use progress::Told;
use sinks::Sink;
use source_texts::{has_automatic_budget, word_at};
use std::alloc::{AllocError, Global};
use std::time::Clock;

/// The budgets of the lines `THREAD budget N`, in their order.
fn budgets_in<'b>(alloc: Global, lines: &'b str) -> Result<Vec<&'b str>, AllocError> {
    let mut budgets = Vec::new(alloc);
    for line in lines.lines() {
        budgets.push(word_at(line, 2).unwrap_or("auto"))?;
    }
    Ok(budgets)
}

/// The text with the budgets that are found where it leaves them open, or as it is where none are found.
///
/// # Errors
///
/// Memory may be refused.
pub(crate) fn with_found_budgets<'a, R: Clock + AllocGlobal, E: Sink>(
    rt: &R,
    text: String,
    errors: &mut E,
) -> Result<String, ToolFault<'a>> {
    if !text.lines().any(has_automatic_budget) {
        return Ok(text);
    }
    let mut progress = Told::new(rt.alloc(), rt, errors);
    match budgets_found(rt.alloc(), text.as_str(), &mut progress) {
        Ok(lines) => {
            let budgets = budgets_in(rt.alloc(), lines.as_str())?;
            let filled = budgeted_text(rt.alloc(), text.as_str(), budgets.as_slice())?;
            Ok(text_of(rt.alloc(), filled, "")?)
        }
        Err(NotCertified::OutOfMemory) => Err(ToolFault::Memory),
        Err(_) => Ok(text),
    }
}
