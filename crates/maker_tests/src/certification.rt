//! The program for makers: texts without certificates come back accepted, and what has none is reported by its line.

mod answers;
mod delays;
mod loops;
mod noted_slots;
mod rows;
mod samples;
