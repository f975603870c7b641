//! Lines of a text, and where they are.

use source_texts::source_place;
use std::alloc::AllocError;

/// A text, and the name of the file that it is from.
#[derive(Clone, Copy, Drop)]
pub struct Text<'f, 't> {
    pub file: &'f str,
    pub content: &'t str,
}

impl<'t> Text<'_, 't> {
    /// A line by its number, from 1; an empty one if there is none.
    pub fn line(&self, number: u64) -> &'t str {
        let mut at = 0u64;
        for line in self.content.lines() {
            at = at.saturating_add(1);
            if at == number {
                return line;
            }
        }
        ""
    }
}

/// What a line says, without its comment and the blanks around.
fn said_on(line: &str) -> &str {
    match line.split_once('#') {
        Some((said, _)) => said.trim(),
        None => line.trim(),
    }
}

/// The instruction on a line by its number, from 1, without the label before it and the comment after it.
pub fn code_on<'t>(text: &Text<'_, 't>, number: u64) -> &'t str {
    let said = said_on(text.line(number));
    match said.split_once(':') {
        Some((_, code)) => code.trim(),
        None => said,
    }
}

/// Puts where a line is, by its number, from 1: the line of C or of a description that it comes from, if its comment says so, and then the line
/// itself.
///
/// # Errors
///
/// Memory is refused.
pub fn push_place(to: &mut String, text: &Text<'_, '_>, number: u64) -> Result<(), AllocError> {
    if let Some(place) = source_place(text.line(number)) {
        write!(to, "{place}: ")?;
    }
    let file = text.file;
    write!(to, "{file}:{number}: ")
}

/// Puts the head of what is reported of a line: where it is, the rule that is broken, if it has a name, and what the line says.
pub(crate) fn push_line(
    to: &mut String,
    text: &Text<'_, '_>,
    number: u64,
    rule: &str,
) -> Result<(), AllocError> {
    push_place(to, text, number)?;
    if !rule.is_empty() {
        write!(to, "{rule}: ")?;
    }
    let said = said_on(text.line(number));
    write!(to, "`{said}`: ")
}
