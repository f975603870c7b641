//! Where untyped memory may lie, and whether boot slots suffice: what is looked at before the first call.

ghost use Rattle.std.specs.Prelude.{◌≡◌, ◌+◌, ◌^◌, ◌<◌, ◌≤◌, Some, None, if◌then◌else◌};
ghost use Rattle.model.specs.Acceptance.WellFormed.{end_before, overlaps, too_few_boot_slots, untyped_end};
ghost use Rattle.model.specs.Images.Boot.{misplaced};
ghost use Rattle.model.specs.Kernel.State.{boot_area_end};
ghost use Rattle.format_laws.specs.Fitting.{HeaderFits};

use crate::boot_images::BootImage;
use crate::boot_slots::boot_slots;
use model::{ImageHeader, UntypedEntry};
use untyped::power;

/// The first untyped that is not where untyped memory may lie, or the number of untypeds where boot slots are too few.
pub(crate) fn misplaced(image: &BootImage<'_, '_>) -> Option<u32>
    ensures { result ≡ misplaced image.now.read.now }
{
    for number in 0..image.read.header().untypeds {
        let entry = image.read.untyped(number);
        if overlaps(image, number, entry) {
            return Some(number);
        }
    }
    shortage(image)
}

/// The number of untypeds, where boot slots do not suffice.
fn shortage(image: &BootImage<'_, '_>) -> Option<u32>
    ensures { result ≡ (if too_few_boot_slots image.now.read.now then Some image.now.read.now.header.untypeds else None) }
{
    if has_few_boot_slots(image) {
        Some(image.read.header().untypeds)
    } else {
        None
    }
}

/// Whether boot slots do not suffice.
fn has_few_boot_slots(image: &BootImage<'_, '_>) -> bool
    ensures { result ≡ too_few_boot_slots image.now.read.now }
{
    power(image.read.header().boot_radix) < u64::from(boot_slots(image))
}

/// Whether an untyped is misaligned, passes the end of memory, or overlaps what lies before it.
#[tactic(auto, unfolding(model::specs::Acceptance::WellFormed::overlaps))]
fn overlaps(image: &BootImage<'_, '_>, number: u32, entry: UntypedEntry) -> bool
    requires number { number < image.now.read.now.header.untypeds }
    requires bits { entry.bits ≤ 24 }
    ensures { result ≡ overlaps image.now.read.now (number, entry) }
{
    let header = image.read.header();
    let offset = u64::from(entry.offset);
    offset % power(entry.bits) != 0
        || power(header.memory_bits) < untyped_end(entry)
        || offset < boot_area_end(&header)
        || offset < end_before(image, number)
}

/// Where an untyped ends.
fn untyped_end(entry: UntypedEntry) -> u64
    requires { entry.bits ≤ 24 }
    ensures { result ≡ untyped_end entry }
{
    u64::from(entry.offset) + power(entry.bits)
}

/// Where the boot area ends.
fn boot_area_end(header: &ImageHeader) -> u64
    requires { HeaderFits header.now }
    ensures { result ≡ boot_area_end header.now.boot_radix }
{
    16 * (power(header.boot_radix) + 64)
}

/// Where the untyped before this one ends, or the boot area.
fn end_before(image: &BootImage<'_, '_>, number: u32) -> u64
    requires number { number < image.now.read.now.header.untypeds }
    ensures { result ≡ end_before image.now.read.now number }
{
    if number == 0 {
        boot_area_end(&image.read.header())
    } else {
        untyped_end(image.read.untyped(number - 1))
    }
}
