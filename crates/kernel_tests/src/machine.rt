//! The machine's layers: memory, words of instructions and capabilities, walks, placing, and the lines of labels.

mod capability_words;
mod flat;
mod instructions;
mod lines;
mod measure_rows;
mod memory;
mod placing;
mod range_rows;
mod rows;
mod small_program;
mod table;
mod walks;
