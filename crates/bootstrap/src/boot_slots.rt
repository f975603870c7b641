//! Which boot slot holds what: untypeds first, then the objects' originals, interrupt control, handlers and copies.

ghost use Rattle.std.specs.Prelude.{◌≡◌, ◌≤◌, ◌<◌, ◌+◌};
ghost use Rattle.model.specs.Images.Places.{boot_slots, control_slot, frame_copy_slot, handler_slot, notification_copy_slot, original_slot, source_boot_slot};

use crate::boot_images::BootImage;

/// The slot of interrupt control.
pub(crate) fn control_slot(image: &BootImage<'_, '_>) -> u32
    ensures { result ≡ control_slot image.now.read.now }
{
    let header = image.read.header();
    header.untypeds + header.objects
}

/// The slot of an interrupt's handler.
pub(crate) fn handler_slot(image: &BootImage<'_, '_>, interrupt: u32) -> u32
    requires number { interrupt < image.now.read.now.header.interrupts }
    ensures { result ≡ handler_slot image.now.read.now interrupt }
{
    control_slot(image) + 1 + interrupt
}

/// The slot of the copy by which a frame is mapped.
pub(crate) fn frame_copy_slot(image: &BootImage<'_, '_>, frame: u32) -> u32
    requires number { frame < image.now.read.now.header.frames }
    ensures { result ≡ frame_copy_slot image.now.read.now frame }
{
    let header = image.read.header();
    control_slot(image) + 1 + header.interrupts + frame
}

/// The slot of the copy by which an interrupt signals its notification.
pub(crate) fn notification_copy_slot(image: &BootImage<'_, '_>, interrupt: u32) -> u32
    requires number { interrupt < image.now.read.now.header.interrupts }
    ensures { result ≡ notification_copy_slot image.now.read.now interrupt }
{
    let header = image.read.header();
    control_slot(image) + 1 + header.interrupts + header.frames + interrupt
}

/// The slot of the first capability to an object.
pub(crate) fn original_slot(image: &BootImage<'_, '_>, object: u32) -> u32
    requires number { object < image.now.read.now.header.objects }
    ensures { result ≡ original_slot image.now.read.now object }
{
    image.read.header().untypeds + object
}

/// The slot of a capability's source, an object or a handler.
pub(crate) fn source_boot_slot(image: &BootImage<'_, '_>, source: u32) -> u32
    requires number { source < image.now.read.now.header.objects + image.now.read.now.header.interrupts }
    ensures { result ≡ source_boot_slot image.now.read.now source }
{
    let header = image.read.header();
    if header.objects <= source {
        handler_slot(image, source - header.objects)
    } else {
        original_slot(image, source)
    }
}

/// How many boot slots an image needs.
pub(crate) fn boot_slots(image: &BootImage<'_, '_>) -> u32
    ensures { result ≡ boot_slots image.now.read.now }
{
    let header = image.read.header();
    control_slot(image) + 1 + 2 * header.interrupts + header.frames
}
