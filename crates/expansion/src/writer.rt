//! Lines of a text, each with the line of the description that it comes from.

use described_systems::{Joined, Place};
use std::alloc::{AllocError, Global};

/// A text that is being written.
#[derive(Drop)]
pub(crate) struct Writer<'j> {
    pub(crate) alloc: Global,
    pub(crate) text: String,
    /// Where the lines of the description come from.
    joined: &'j Joined,
}

/// Whether a byte may be in the name of a file in a comment.
fn is_plain(byte: u8) -> bool {
    byte.is_ascii_graphic() && byte != b'#'
}

/// The name of a file as it is in comments.
fn plain_name(file: &str) -> &str {
    if file.as_bytes().iter().all(|byte| is_plain(*byte)) {
        file
    } else {
        "description.sys"
    }
}

impl<'j> Writer<'j> {
    /// No lines.
    pub(crate) fn new(alloc: Global, joined: &'j Joined) -> Self {
        Writer {
            alloc,
            text: String::new(alloc),
            joined,
        }
    }

    /// The end of a line that comes from this line of the description.
    pub(crate) fn end(&mut self, line: u64) -> Result<(), AllocError> {
        let Place { file, line } = self.joined.place(line);
        let file = plain_name(file);
        write!(&mut self.text, " # {file}:{line}\n")
    }
}
