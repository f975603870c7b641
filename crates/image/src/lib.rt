//! Images: making them of parts and writing them. Their bytes are read by `image_reading`, whose calls are here too.
#![tactic(auto)]

mod checking;
mod fitting;
mod parts;
mod writing;

pub use checking::Image;
pub use image_reading::{
    ContentRef, Contents, ImageRef, PromiseRef, Promises, RecordRef, Records, Refusal, Section,
    Slots, ThreadRef, Threads, read,
};
pub use parts::{Content, Parts, Promise, RecordParts, ThreadParts};
pub use writing::write;
