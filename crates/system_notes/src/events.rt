//! Events that reach nothing of a system.

use crate::faults::NotesFault;
use source_texts::{SourceText, read, with_budgets};
use std::alloc::{AllocError, Global};

/// The interrupt of a line of events.
fn interrupt_on(line: &[u8]) -> Option<u32> {
    let line = match line {
        [line @ .., b'\r'] => line,
        line => line,
    };
    let text = std::str::from_utf8(line).ok()?;
    text.strip_prefix("irq ")?.parse::<u32>().ok()
}

/// Whether an interrupt rings something.
fn is_bound(text: &SourceText<'_>, number: u32) -> bool {
    text.interrupts
        .iter()
        .any(|interrupt| interrupt.number == number)
}

/// The interrupts that ring something.
fn push_bound(to: &mut String, text: &SourceText<'_>) -> Result<(), AllocError> {
    let mut before = "bound are ";
    for interrupt in &text.interrupts {
        let number = interrupt.number;
        write!(to, "{before}{number}")?;
        before = ", ";
    }
    to.push_str(if text.interrupts.is_empty() {
        "none is bound\n"
    } else {
        "\n"
    })
}

/// What is odd about a list of events for a system, by its text: an interrupt that rings nothing, each once.
///
/// # Errors
///
/// The text is none, or memory is refused.
pub fn notes_on_events(
    alloc: Global,
    text: &str,
    file: &str,
    list: &[u8],
) -> Result<String, NotesFault> {
    let budgets = with_budgets(alloc, text)?;
    let source = read(alloc, budgets.text.as_str())?;
    let mut notes = String::new(alloc);
    let mut noted = 0u64;
    let mut number = 0u64;
    for line in list.split(|byte| *byte == b'\n') {
        number = number.saturating_add(1);
        if let Some(interrupt) = interrupt_on(line) {
            let bit = 1u64.checked_shl(interrupt).unwrap_or(0);
            if noted & bit == 0 && !is_bound(&source, interrupt) {
                noted |= bit;
                write!(
                    &mut notes,
                    "{file}:{number}: note: `irq {interrupt}` rings nothing: "
                )?;
                push_bound(&mut notes, &source)?;
            }
        }
    }
    Ok(notes)
}
