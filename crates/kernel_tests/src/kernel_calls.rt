//! The public calls of the kernel.

mod buffers;
mod endpoint_calls;
mod handlers;
mod interrupt_lines;
mod looks;
mod many_steps;
mod messages;
mod pools;
mod rows;
mod scripts;
mod seen_labels;
mod setups;
mod signals;
mod systems;
mod turns;
mod words;
