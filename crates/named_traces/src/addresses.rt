//! Where the objects of a text lie in memory.

use source_texts::{ObjectLine, SourceText};
use std::alloc::{AllocError, Global};
use untyped::next_place;

/// Where physical memory begins.
const MEMORY: u64 = 0x8000_0000;

/// The greatest number of bytes that is counted of an untyped memory.
const MOST_USED: u64 = 1 << 50;

/// How many bytes of each untyped memory are used by the objects that have their places.
#[derive(Drop)]
struct Used {
    bytes: Vec<u64>,
}

impl Used {
    /// Gives an object its place, after those before it in its untyped memory: where it begins in that.
    fn place(&mut self, object: &ObjectLine<'_>) -> u64 {
        let Some(used) = self.bytes.get_mut(object.untyped) else {
            return 0;
        };
        let (first, end) = next_place((*used).min(MOST_USED), object.kind.bits().min(31));
        *used = end;
        first
    }
}

/// The physical address of each object, by its number.
pub(crate) fn addresses_of(alloc: Global, text: &SourceText<'_>) -> Result<Vec<u32>, AllocError> {
    let mut used = Used {
        bytes: Vec::new(alloc),
    };
    used.bytes.resize(text.untypeds.len(), 0)?;
    let mut addresses = Vec::new(alloc);
    for object in &text.objects {
        let start = match text.untypeds.get(object.untyped) {
            Some(untyped) => u64::from(untyped.offset),
            None => 0,
        };
        let place = used.place(object);
        let address = MEMORY.saturating_add(start).saturating_add(place);
        addresses.push(address.min(u64::from(u32::MAX)) as u32)?;
    }
    Ok(addresses)
}
