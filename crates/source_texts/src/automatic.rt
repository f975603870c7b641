//! Texts that are not whole so far: budgets that are to be found by a program, the word `auto` in place of a number, and programs that
//! are to be made of other files.

use crate::names::word_at;
use std::alloc::{AllocError, Global};

/// A text with numbers for all budgets.
#[derive(Drop)]
pub struct Budgets {
    pub text: String,
    /// The lines of the threads whose budgets were `auto`.
    pub lines: Vec<u64>,
}

/// Whether a line begins a thread whose budget is to be found: the word `auto` is in place of the number.
pub fn has_automatic_budget(line: &str) -> bool {
    word_at(line, 0) == Some("thread") && word_at(line, 6) == Some("auto")
}

/// Whether a line is in the place of instructions that are to be made of other files: `program FILE ..`.
fn names_program(line: &str) -> bool {
    word_at(line, 0) == Some("program") && word_at(line, 1).is_some()
}

/// Puts the line of such a thread after a text, with the budget 1.
fn put_thread(text: &mut String, line: &str) -> Result<(), AllocError> {
    for place in 0..10 {
        let word = word_at(line, place).unwrap_or("");
        text.push_str(if place == 6 { "1" } else { word })?;
        text.push_str(" ")?;
    }
    Ok(())
}

impl Budgets {
    /// Adds a line, whose number this is.
    fn add(&mut self, number: u64, line: &str) -> Result<(), AllocError> {
        if has_automatic_budget(line) {
            self.lines.push(number)?;
            put_thread(&mut self.text, line)?;
        } else {
            self.text.push_str(line)?;
        }
        self.text.push_str("\n")
    }
}

/// The text with the budget 1 for each one that is to be found. Where it may have programs of other files, these lines are empty.
fn drafted(alloc: Global, text: &str, has_programs: bool) -> Result<Budgets, AllocError> {
    let mut budgets = Budgets {
        text: String::new(alloc),
        lines: Vec::new(alloc),
    };
    let mut number = 0u64;
    for line in text.lines() {
        number = number.saturating_add(1);
        let is_left_out = has_programs && names_program(line);
        budgets.add(number, if is_left_out { "" } else { line })?;
    }
    Ok(budgets)
}

/// The text with the budget 1 for each one that is to be found. Its lines are where they were.
///
/// # Errors
///
/// Memory may be refused.
pub fn with_budgets(alloc: Global, text: &str) -> Result<Budgets, AllocError> {
    drafted(alloc, text, false)
}

/// The text as [`with_budgets`] has it, with an empty line for each one `program FILE ..`.
///
/// # Errors
///
/// Memory may be refused.
pub fn without_programs(alloc: Global, text: &str) -> Result<Budgets, AllocError> {
    drafted(alloc, text, true)
}
