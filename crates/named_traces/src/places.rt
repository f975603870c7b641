//! Places in a text.

use std::alloc::AllocError;

/// Where an instruction is in a text.
#[derive(Clone, Copy, Debug, PartialEq, Eq)]
pub struct SourcePlace<'t> {
    /// The last label before it in its thread, if that is not of a text from C.
    pub label: Option<&'t str>,
    /// Its line, from 1.
    pub line: u64,
    /// The place in a file of C or in a description that it comes from, as `FILE:LINE`, if the comment on its line says so.
    pub origin: Option<&'t str>,
}

impl SourcePlace<'_> {
    /// Puts the line: that of the file that the instruction comes from, or else that of the text.
    ///
    /// # Errors
    ///
    /// Memory is refused.
    pub fn push_line(&self, to: &mut String) -> Result<(), AllocError> {
        match self.origin {
            Some(origin) => to.push_str(origin),
            None => {
                let line = self.line;
                write!(to, "line {line}")
            }
        }
    }

    /// Puts the label and the line, as `LABEL, line 12` or `LABEL, FILE:12`.
    ///
    /// # Errors
    ///
    /// Memory is refused.
    pub fn push(&self, to: &mut String) -> Result<(), AllocError> {
        if let Some(label) = self.label {
            write!(to, "{label}, ")?;
        }
        self.push_line(to)
    }
}
