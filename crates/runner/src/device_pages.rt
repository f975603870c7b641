//! The device pages of an image, and which events keep to them.

ghost use Rattle.std.specs.Prelude.{ℕ, ◌≡◌, ◌&&◌, ◌||◌, Bool, IfOk};
ghost use Rattle.std.specs.List.{list_any};
ghost use Rattle.model.specs.Images.Image.{Image, is_device_size};
ghost use Rattle.model.specs.Kernel.Steps.{place_of};
ghost use Rattle.runner.specs.Devices.{AreDevicePages, first_outside, first_outside_of, is_kept, is_kept_by, is_of_world, is_word_in};

use image_reading::{ImageRef, header_of, object_of};
use model::{Event, ObjectEntry};
use std::alloc::{AllocError, Global};
use std::collections::btree_set::BTreeSet;
use std::marker::Model;
use wellformed::UsedMemory;

/// Where physical memory begins.
const MEMORY_BASE: u32 = 0x8000_0000;

/// How many bytes after the start of a page its last word begins.
const LAST_WORD: u64 = 4092;

/// The device pages of an image: where they begin, in bytes from the start of physical memory.
#[derive(Drop)]
pub struct DevicePages {
    starts: BTreeSet<u64>,
}

impl Model for DevicePages {
    ghost use Rattle.std.specs.Prelude.{ℕ, List};

    ghost Value = { List ℕ };

    ghost view = { λ pages. pages.starts.keys };
}

impl DevicePages {
    /// The device pages of an image, accepted or not.
    ///
    /// # Errors
    ///
    /// Memory may be refused.
    pub fn of(alloc: Global, image: &ImageRef<'_>) -> Result<DevicePages, AllocError>
        ensures { IfOk result (AreDevicePages image.now image.now.header.objects) }
    {
        let mut starts = BTreeSet::new(alloc);
        let mut used = UsedMemory::none();
        for number in 0..header_of(image).objects {
            let start = used.place(image, number).offset;
            note(&mut starts, is_device(object_of(image, number)), start)?;
        }
        Ok(DevicePages { starts })
    }

    /// Whether an event keeps to the device pages: what the world stores or looks at lies in one of them. Other events do.
    pub fn keep(&self, event: Event) -> bool
        ensures pages { result ≡ is_kept_by self.now event }
        ensures image { (image : Image) → AreDevicePages image image.header.objects self.now → result ≡ is_kept image event }
    {
        match event {
            Event::Step | Event::Tick | Event::Irq(_) => true,
            Event::Write { address, .. } => self.hold_word(place_of(address)),
            Event::Read { address } => self.hold_word(place_of(address)),
        }
    }

    /// Whether one of the pages has the word that begins at a place. All are of one size, so such a page begins at most so far before.
    fn hold_word(&self, place: u32) -> bool
        ensures { result ≡ is_word_in self.now place }
    {
        let place = u64::from(place);
        let first = place.saturating_sub(LAST_WORD);
        match self.starts.range(first..place + 1).next() {
            Some(_) => true,
            None => false,
        }
    }

    /// The index of the first event that does not keep to the pages.
    fn first_outside(&self, events: &[Event]) -> Option<usize>
        ensures { result ≡ first_outside_of self.now events.now }
    {
        events.iter().position(|event| !self.keep(*event))
    }
}

/// Whether an object is a device page.
fn is_device(object: ObjectEntry) -> bool
    ensures { result ≡ is_device_size object.kind object.size }
{
    object.kind == 6 && object.size == 1
}

/// Notes where a page begins, if it is a device page. Memory may be refused.
fn note(starts: &mut BTreeSet<u64>, device: bool, start: u64) -> Result<(), AllocError>
    ensures { IfOk result (λ _. (test : ℕ → Bool) → list_any test starts.new.keys ≡ (list_any test starts.old.keys || (device && test start))) }
{
    if !device {
        return Ok(());
    }
    starts.insert(start)?;
    Ok(())
}

/// Where a physical address is in memory; those below it are at 0.
fn place_of(address: u32) -> u32
    ensures { result ≡ place_of address }
{
    address.saturating_sub(MEMORY_BASE)
}

/// Whether the world stores or looks at a word.
fn is_of_world(event: Event) -> bool
    ensures { result ≡ is_of_world event }
{
    matches!(event, Event::Write { .. } | Event::Read { .. })
}

/// Whether the world stores or looks at a word in some event. All events are gone through, which takes less for each than to end
/// with the first.
fn any_of_world(events: &[Event]) -> bool
    ensures { result ≡ list_any is_of_world events.now }
{
    let mut found = false;
    for event in events {
        found |= is_of_world(*event);
    }
    found
}

/// The index of the first event that does not keep to the device pages of an image. Where the world stores and looks at nothing, the
/// pages are not looked for.
///
/// # Errors
///
/// Memory may be refused.
pub fn first_outside(
    alloc: Global,
    image: &ImageRef<'_>,
    events: &[Event],
) -> Result<Option<usize>, AllocError>
    ensures { IfOk result (λ found. found ≡ first_outside image.now events.now) }
{
    if !any_of_world(events) {
        return Ok(None);
    }
    let pages = DevicePages::of(alloc, image)?;
    Ok(pages.first_outside(events))
}
