//! How large the machine's memory is, and its boot CNode.

use crate::faults::{Fault, refused};
use crate::objects::Objects;
use crate::sizes::{SLOT_BYTES, bits_for, count_of, power_of_two};
use std::alloc::Global;

/// The least and the greatest memory, in bits.
const LEAST_BITS: u32 = 16;

const MOST_BITS: u32 = 24;

/// The greatest radix of the boot CNode.
const MOST_RADIX: u32 = 14;

/// How many slots the boot area has besides those of the boot CNode.
const MORE_SLOTS: u64 = 64;

/// The memory and the boot CNode, by their bits.
#[derive(Clone, Copy)]
pub(crate) struct Memory {
    /// The untyped memory of all objects is the upper half.
    pub(crate) bits: u32,
    pub(crate) radix: u32,
}

/// What the boot CNode has to hold, besides objects.
#[derive(Clone, Copy)]
pub(crate) struct Bindings {
    pub(crate) interrupts: u64,
    pub(crate) frames: u64,
}

/// How many slots the boot CNode needs.
fn boot_slots(objects: &Objects, bindings: Bindings) -> u64 {
    count_of(objects.list.len())
        .saturating_add(bindings.interrupts.saturating_mul(2))
        .saturating_add(bindings.frames)
        .saturating_add(2)
}

/// How many bytes the boot area takes.
fn boot_bytes(radix: u32) -> u64 {
    power_of_two(radix)
        .saturating_add(MORE_SLOTS)
        .saturating_mul(SLOT_BYTES)
}

/// The fault of objects for which there is no memory, on the line of the greatest.
fn too_large(alloc: Global, objects: &Objects, bytes: u64) -> Fault {
    match objects.list.first() {
        Some(greatest) => {
            let name = greatest.name.as_str();
            let size = greatest.sort.bytes();
            let said = format!(in alloc;
                "all objects together take {bytes} bytes, and 8388608 (2^23) are the most; the greatest is {name}, {size} bytes"
            );
            refused(greatest.line, said)
        }
        None => Fault::OutOfMemory,
    }
}

/// The memory with whose upper half all objects have room, and with whose lower half the boot area.
pub(crate) fn memory_of(
    alloc: Global,
    objects: &Objects,
    bindings: Bindings,
) -> Result<Memory, Fault> {
    let slots = boot_slots(objects, bindings);
    let Some(radix) = bits_for(slots, 1, MOST_RADIX) else {
        return Err(refused(
            1,
            format!(in alloc; "the boot CNode needs {slots} slots, and 16384 are the most"),
        ));
    };
    let bytes = objects.bytes();
    let half = bytes.max(boot_bytes(radix));
    match bits_for(half, LEAST_BITS - 1, MOST_BITS - 1) {
        Some(bits) => Ok(Memory {
            bits: bits.saturating_add(1),
            radix,
        }),
        None => Err(too_large(alloc, objects, bytes)),
    }
}
