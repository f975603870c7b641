//! Untypeds and objects: where they lie in memory.

ghost use Rattle.std.specs.Prelude.{◌≡◌, ◌==◌, ◌%◌, ◌<◌, ◌≤◌, ◌^◌, ◌||◌, [], ◌∷◌, map, nat_lt, not};
ghost use Rattle.std.specs.List.{range_with_len};
ghost use Rattle.model.specs.declared.refusals.Refusal.TheVariants.{BadObject, NoRoom, UntypedOverlap};
ghost use Rattle.model.specs.Acceptance.Rules.{first_broken, refuse_if};
ghost use Rattle.model.specs.Acceptance.WellFormed.{end_before, has_no_room, object_rules, overlaps, too_few_boot_slots, untyped_end};
ghost use Rattle.model.specs.Images.Described.{numbered};
ghost use Rattle.model.specs.Kernel.State.{boot_area_end};
ghost use Rattle.format_laws.specs.Fitting.{HeaderFits, UntypedFits};
ghost use Rattle.wellformed.specs.Answering.{Answers};

use crate::object_places::UsedMemory;
use image_reading::{ImageRef, header_of, untyped_of};
use model::{ImageHeader, Refusal, UntypedEntry};
use untyped::power;

/// Where the boot area ends.
fn boot_area_end(header: &ImageHeader) -> u64
    requires { header.now.boot_radix ≤ 14 }
    ensures { result ≡ boot_area_end header.now.boot_radix }
{
    16 * (power(header.boot_radix) + 64)
}

/// Where an untyped ends.
fn untyped_end(entry: UntypedEntry) -> u64
    requires { entry.bits ≤ 24 }
    ensures { result ≡ untyped_end entry }
{
    u64::from(entry.offset) + power(entry.bits)
}

/// Whether an untyped is misaligned, passes the end of memory, or starts before the end of the boot area or of the untyped
/// before it.
fn stands_badly(header: &ImageHeader, entry: UntypedEntry, before: u64) -> bool
    requires header { HeaderFits header.now }
    requires entry { UntypedFits entry }
    ensures { result ≡ (not (entry.offset % 2 ^ entry.bits == 0) || nat_lt (2 ^ header.now.memory_bits) (untyped_end entry)
        || nat_lt entry.offset (boot_area_end header.now.boot_radix) || nat_lt entry.offset before) }
{
    let offset = u64::from(entry.offset);
    offset % power(entry.bits) != 0
        || power(header.memory_bits) < untyped_end(entry)
        || offset < boot_area_end(header)
        || offset < before
}

/// The untypeds, in their order.
pub(crate) fn check_untypeds(image: &ImageRef<'_>) -> Result<(), Refusal>
    ensures { Answers (first_broken (map (λ u. refuse_if (overlaps image.now u) (UntypedOverlap u.0)) (numbered image.now.untypeds))) result }
{
    let header = header_of(image);
    let mut before = boot_area_end(&header);
    for number in 0..header.untypeds {
        let entry = untyped_of(image, number);
        if stands_badly(&header, entry, before) {
            return Err(Refusal::UntypedOverlap { untyped: number });
        }
        before = untyped_end(entry);
    }
    Ok(())
}

/// The objects, each after the ones before it in its untyped.
pub(crate) fn check_room(image: &ImageRef<'_>) -> Result<(), Refusal>
    ensures { Answers (first_broken (map (λ number. refuse_if (has_no_room image.now number) (NoRoom number)) (range_with_len 0 image.now.header.objects)))
        result }
{
    let mut used = UsedMemory::none();
    for number in 0..header_of(image).objects {
        if !used.place(image, number).fits {
            return Err(Refusal::NoRoom { object: number });
        }
    }
    Ok(())
}

/// Whether the boot CNode has too few slots.
fn has_few_boot_slots(image: &ImageRef<'_>) -> bool
    ensures { result ≡ too_few_boot_slots image.now }
{
    let header = header_of(image);
    let needed = header.untypeds + header.objects + 1 + 2 * header.interrupts + header.frames;
    power(header.boot_radix) < u64::from(needed)
}

/// The slots of the boot CNode.
fn check_boot_slots(image: &ImageRef<'_>) -> Result<(), Refusal>
    ensures { Answers (first_broken (refuse_if (too_few_boot_slots image.now) (BadObject image.now.header.objects) ∷ [])) result }
{
    if has_few_boot_slots(image) {
        return Err(Refusal::BadObject {
            object: image.header().objects,
        });
    }
    Ok(())
}

/// The rules on untypeds and objects.
#[tactic(auto, unfolding(model::specs::Acceptance::WellFormed::object_rules))]
pub(crate) fn check_objects(image: &ImageRef<'_>) -> Result<(), Refusal>
    ensures { Answers (first_broken (object_rules image.now)) result }
{
    check_untypeds(image)?;
    check_room(image)?;
    check_boot_slots(image)
}
