//! What a program prints.

use crate::files::name_of;
use sinks::MemorySink;
use std::alloc::Global;
use std::rt::Env;
use std::str;
use std::test::Fail;

/// How a line begins on how far a program is.
const PROGRESS: &str = ".. ";

/// The words of a command, in which `@` begins the name of a file.
pub fn words_of<R: Env + AllocGlobal>(rt: &R, line: &str) -> Result<Vec<String>, Fail> {
    let folder = name_of(rt, "")?;
    let mut words = Vec::new(rt.alloc());
    for word in line.split_whitespace() {
        words.push(word.replace(rt.alloc(), '@', folder.as_str())?)?;
    }
    Ok(words)
}

/// What a program has put into its output and into its errors.
#[derive(Drop)]
pub struct Printed {
    pub output: MemorySink,
    pub errors: MemorySink,
}

impl Printed {
    /// Nothing yet, with room for so many bytes of each.
    pub fn new(alloc: Global, room: usize) -> Printed {
        Printed {
            output: MemorySink::new(alloc, room),
            errors: MemorySink::new(alloc, room),
        }
    }

    /// The output, `status` with the status, and the errors, but for lines on how far a program is that takes more than a second: how fast the
    /// machine is decides whether there are some.
    pub fn with_status(&self, alloc: Global, status: u8) -> Result<String, Fail> {
        let output = str::from_utf8(self.output.bytes())?;
        let errors = str::from_utf8(self.errors.bytes())?;
        let mut said = format!(in alloc; "{output}status {status}\n")?;
        for line in errors.split_inclusive('\n') {
            if !line.starts_with(PROGRESS) {
                said.push_str(line)?;
            }
        }
        Ok(said)
    }
}
