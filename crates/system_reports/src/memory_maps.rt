//! Where the objects of an image lie, and what of its memory is free.

use crate::findings::{Placed, Sizes, Untyped};
use image_reading::ImageRef;
use model::{ObjectEntry, ObjectType};
use source_texts::SourceText;
use std::alloc::{AllocError, Global};
use system_pictures::push_kind;
use wellformed::{Place, UsedMemory};

/// The physical address at which memory begins.
pub(crate) const MEMORY: u64 = 0x8000_0000;

/// How many bytes something of so many bits has.
fn bytes_of(bits: u32) -> u64 {
    if bits < 64 { 1 << bits } else { u64::MAX }
}

/// How many bytes an object has.
fn size_of(object: &ObjectEntry) -> u64 {
    match ObjectType::of(object.kind, object.size) {
        Some(kind) => bytes_of(kind.bits()),
        None => 0,
    }
}

/// The places of all objects.
fn places_of(alloc: Global, image: &ImageRef<'_>) -> Result<Vec<Place>, AllocError> {
    let mut places = Vec::new(alloc);
    let mut used = UsedMemory::none();
    for number in 0..image.header().objects {
        places.push(used.place(image, number))?;
    }
    Ok(places)
}

/// The physical addresses of all objects.
pub(crate) fn addresses_of(alloc: Global, image: &ImageRef<'_>) -> Result<Vec<u64>, AllocError> {
    let mut addresses = Vec::new(alloc);
    for place in places_of(alloc, image)?.iter() {
        addresses.push(MEMORY.saturating_add(place.offset))?;
    }
    Ok(addresses)
}

/// An address by the number of its object.
fn address_at(addresses: &[u64], number: usize) -> u64 {
    match addresses.get(number) {
        Some(address) => *address,
        None => 0,
    }
}

/// Where the objects of an image lie, by the names of its text.
pub(crate) fn objects_in<'a>(
    alloc: Global,
    text: &SourceText<'a>,
    image: &ImageRef<'_>,
    addresses: &[u64],
) -> Result<Vec<Placed<'a>>, AllocError> {
    let mut objects = Vec::new(alloc);
    for object in image.objects() {
        let number = objects.len();
        let mut kind = String::new(alloc);
        push_kind(&mut kind, text, number)?;
        objects.push(Placed {
            name: text.object_name(number),
            kind,
            address: address_at(addresses, number),
            bytes: size_of(&object),
        })?;
    }
    Ok(objects)
}

/// Where the last object of each untyped ends: at its beginning where it has none.
fn ends_of(alloc: Global, image: &ImageRef<'_>, addresses: &[u64]) -> Result<Vec<u64>, AllocError> {
    let mut ends = Vec::new(alloc);
    for untyped in image.untypeds() {
        ends.push(MEMORY.saturating_add(u64::from(untyped.offset)))?;
    }
    let mut number = 0usize;
    for object in image.objects() {
        if let Some(end) = ends.get_mut(object.untyped as usize) {
            *end = address_at(addresses, number).saturating_add(size_of(&object));
        }
        number = number.saturating_add(1);
    }
    Ok(ends)
}

/// What of the memory of an image is used and what is free, by the names of its text.
pub(crate) fn memory_in<'a>(
    alloc: Global,
    text: &SourceText<'a>,
    image: &ImageRef<'_>,
    addresses: &[u64],
) -> Result<Vec<Untyped<'a>>, AllocError> {
    let ends = ends_of(alloc, image, addresses)?;
    let mut memory = Vec::new(alloc);
    for (line, end) in text.untypeds.iter().zip(&ends) {
        let address = MEMORY.saturating_add(u64::from(line.offset));
        let bytes = bytes_of(line.bits);
        let used = end.saturating_sub(address);
        memory.push(Untyped {
            name: line.name,
            address,
            bytes,
            used,
            free: bytes.saturating_sub(used),
        })?;
    }
    Ok(memory)
}

/// What is counted of an image whose file has so many bytes.
pub(crate) fn sizes_of(image: &ImageRef<'_>, length: usize) -> Sizes {
    let header = image.header();
    let mut instructions = 0u64;
    for thread in image.threads() {
        instructions = instructions.saturating_add(u64::from(thread.header().words));
    }
    Sizes {
        bytes: length as u64,
        version: header.version,
        memory: bytes_of(header.memory_bits),
        boot_slots: bytes_of(header.boot_radix),
        objects: header.objects,
        capabilities: header.capabilities,
        mappings: header.frames,
        lines: header.interrupts,
        promises: header.promises,
        parts: header.threads,
        instructions,
    }
}
