//! The text form: lines, instructions, and whole texts.

pub(crate) mod images;
mod instruction_table;
mod instructions;
mod lines;
mod texts;
