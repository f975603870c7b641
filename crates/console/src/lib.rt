//! What the programs share at the console: the words that they are started with, their exit statuses, and the line of why a request
//! was not carried out.
#![tactic(auto)]

mod arguments;
mod files;
mod reports;

pub use arguments::words;
pub use command_line::WordsFault;
pub use files::{
    FileCause, FileFault, STANDARD, StreamFault, is_same_file, read_all, read_bytes, read_file,
    read_stream, read_text, text_of, write_bytes, write_file,
};
pub use reports::{DONE, REFUSED, USAGE, failed, refused, wrong_words};
