//! What test crates share: files in the system's folder for temporary files, what a program prints for words, a text of an
//! image, with its lines, and texts of systems whose responses are known.
#![tactic(auto)]

mod files;
mod levels;
mod printed;
mod texts;

pub use files::{name_of, put_file, take_files};
pub use levels::{CHAIN, CONTROLLER, EQUAL, SERVER};
pub use printed::{Printed, words_of};
pub use texts::{SOLO, lines_before, number, put_line, with_line};
