//! Reading the bytes of an image: the first refusal of the byte grammar, or the sections, lent.
#![tactic(auto)]

mod contents;
mod entries;
mod fields;
mod headers;
mod image_entries;
mod promises;
mod reading;
mod records;
mod registers;
mod sections;
mod slot_words;
mod spelled;
mod threads;
mod versions;
mod word_lists;

pub use contents::{ContentRef, Contents};
pub use entries::{Counts, Entry, Keyed, Listed, Section};
pub use fields::pair_key;
pub use headers::radix_limit;
pub use image_entries::{
    CapabilityRange, capability_of, frame_at, header_of, listed_in, lists_page, lists_region,
    object_of, untyped_of,
};
pub use model::Refusal;
pub use promises::{PromiseRef, Promises};
pub use reading::{ImageRef, read};
pub use records::{RecordRef, Records, Slots};
pub use slot_words::{names_parent, unpacks};
pub use spelled::{Spelled, append_all};
pub use threads::{ThreadRef, Threads};
pub use versions::{has_buffers, has_promises, is_known_version};
