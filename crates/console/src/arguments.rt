//! The words of the process's command line.

use command_line::WordsFault;
use std::alloc::Global;
use std::rt::Env;
use std::{env, io};

/// The words after the program's name.
///
/// # Errors
///
/// A word is no text, or memory is refused.
pub fn words<R: Env + AllocGlobal>(rt: &R) -> Result<Vec<String>, WordsFault> {
    let all = match env::args(rt) {
        Ok(all) => all,
        Err(error) if error.kind() == io::ErrorKind::OutOfMemory => {
            return Err(WordsFault::OutOfMemory);
        }
        Err(_) => return Err(WordsFault::Usage),
    };
    match all.skip(1).collect(rt.alloc()) {
        Ok(words) => Ok(words),
        Err(_) => Err(WordsFault::OutOfMemory),
    }
}
