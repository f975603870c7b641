//! On which lines of a text its threads and their instructions are, and the names of its objects.

use asm_line::{Line, parse_line};
use std::alloc::{AllocError, Global};

/// A thread of a text.
#[derive(Drop)]
pub struct ThreadText<'a> {
    pub name: &'a str,
    /// The line with which it begins, from 1.
    pub line: u64,
    /// The budget that is given.
    pub budget: u64,
    /// The lines of its instructions, from 1.
    pub points: Vec<u64>,
}

impl ThreadText<'_> {
    /// The line of an instruction, or that of the thread if there is none.
    pub fn line_of(&self, point: u32) -> u64 {
        match self.points.get(point as usize) {
            Some(line) => *line,
            None => self.line,
        }
    }
}

/// What is where in a text.
#[derive(Drop)]
pub struct Layout<'a> {
    /// The names of the objects, by their numbers.
    pub objects: Vec<&'a str>,
    pub threads: Vec<ThreadText<'a>>,
}

impl<'a> Layout<'a> {
    /// The name of an object.
    pub fn object(&self, number: u32) -> &'a str {
        match self.objects.get(number as usize) {
            Some(name) => *name,
            None => "_",
        }
    }

    /// The line of an instruction of a thread, both by their numbers.
    pub fn line_of(&self, thread: u32, point: u32) -> u64 {
        match self.threads.get(thread as usize) {
            Some(text) => text.line_of(point),
            None => 0,
        }
    }

    /// Notes what a line says.
    fn add(&mut self, alloc: Global, line: Line<'a>, number: u64) -> Result<(), AllocError> {
        match line {
            Line::Object { name, .. } => self.objects.push(name.text())?,
            Line::Thread(thread) => self.threads.push(ThreadText {
                name: thread.tcb.text(),
                line: number,
                budget: thread.budget,
                points: Vec::new(alloc),
            })?,
            Line::Code { .. } => {
                if let Some(thread) = self.threads.last_mut() {
                    thread.points.push(number)?;
                }
            }
            _ => {}
        }
        Ok(())
    }
}

/// What is where in a text that describes an image.
///
/// # Errors
///
/// Memory may be refused.
pub fn layout_of<'a>(alloc: Global, text: &'a str) -> Result<Layout<'a>, AllocError> {
    let mut layout = Layout {
        objects: Vec::new(alloc),
        threads: Vec::new(alloc),
    };
    let mut number = 0u64;
    'lines: for text in text.lines() {
        number = number.saturating_add(1);
        if let Ok(line) = parse_line(text) {
            layout.add(alloc, line, number)?;
        }
    }
    Ok(layout)
}
