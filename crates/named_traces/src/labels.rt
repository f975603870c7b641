//! The labels of a text, by their lines.

use asm_line::declared_label;
use std::alloc::{AllocError, Global};

/// The lines of a text, and the labels on them.
#[derive(Drop)]
pub(crate) struct LabelledLines<'t> {
    lines: Vec<&'t str>,
    /// The lines with labels, from 1, and beside them the labels.
    labelled: Vec<u64>,
    labels: Vec<&'t str>,
}

impl<'t> LabelledLines<'t> {
    /// The lines of a text.
    pub(crate) fn of(alloc: Global, text: &'t str) -> Result<Self, AllocError> {
        let mut found = LabelledLines {
            lines: Vec::new(alloc),
            labelled: Vec::new(alloc),
            labels: Vec::new(alloc),
        };
        for line in text.lines() {
            found.add(line)?;
        }
        Ok(found)
    }

    /// One line more.
    fn add(&mut self, line: &'t str) -> Result<(), AllocError> {
        self.lines.push(line)?;
        if let Some(label) = declared_label(line) {
            self.labelled.push(self.lines.len() as u64)?;
            self.labels.push(label.text())?;
        }
        Ok(())
    }

    /// A line by its number, from 1; an empty one if there is none.
    pub(crate) fn line(&self, number: u64) -> &'t str {
        match self.lines.get(number.saturating_sub(1) as usize) {
            Some(line) => line,
            None => "",
        }
    }

    /// The last label on a line or before it, but after another line. It is found by halves.
    pub(crate) fn label(&self, line: u64, after: u64) -> Option<&'t str> {
        let behind = match self.labelled.binary_search(&line) {
            Ok(place) => place.saturating_add(1),
            Err(place) => place,
        };
        let place = behind.checked_sub(1)?;
        if *self.labelled.get(place)? <= after {
            return None;
        }
        self.labels.get(place).copied()
    }
}
