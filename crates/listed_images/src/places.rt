//! Where the objects of an image lie in memory, and where those of each untyped end.

use image_reading::ImageRef;
use model::{ObjectEntry, ObjectType, UntypedEntry};
use std::alloc::{AllocError, Global};
use wellformed::{Place, UsedMemory};

/// How many bytes something of so many bits has.
pub(crate) fn bytes_of(bits: u32) -> u64 {
    if bits < 64 { 1 << bits } else { u64::MAX }
}

/// How many bytes an object has.
pub(crate) fn size_of(object: &ObjectEntry) -> u64 {
    match ObjectType::of(object.kind, object.size) {
        Some(kind) => bytes_of(kind.bits()),
        None => 0,
    }
}

/// The places of all objects.
pub(crate) fn places_of(alloc: Global, image: &ImageRef<'_>) -> Result<Vec<Place>, AllocError> {
    let mut places = Vec::new(alloc);
    let mut used = UsedMemory::none();
    for number in 0..image.header().objects {
        places.push(used.place(image, number))?;
    }
    Ok(places)
}

/// Where the last object of each untyped ends, or the untyped begins where it has none.
pub(crate) fn ends_of(
    alloc: Global,
    untypeds: &[UntypedEntry],
    objects: &[ObjectEntry],
    places: &[Place],
) -> Result<Vec<u64>, AllocError> {
    let mut ends = Vec::new(alloc);
    for untyped in untypeds {
        ends.push(u64::from(untyped.offset))?;
    }
    for (object, place) in objects.iter().zip(places) {
        if let Some(end) = ends.get_mut(object.untyped as usize) {
            *end = place.offset.saturating_add(size_of(object));
        }
    }
    Ok(ends)
}
