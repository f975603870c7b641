//! Files by their names, read and written whole.

mod sameness;
mod streams;
mod whole;

pub use sameness::is_same_file;
pub use streams::{
    FileCause, STANDARD, StreamFault, read_all, read_file, read_stream, text_of, write_file,
};
pub use whole::{FileFault, read_bytes, read_text, write_bytes};
