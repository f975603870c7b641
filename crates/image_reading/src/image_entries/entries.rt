//! Entries of an image, with what is known of them since the image fits its format.

ghost use Rattle.std.specs.Prelude.{◌≡◌, ◌<◌, Some, length, slice_get};
ghost use Rattle.format_laws.specs.Fitting.{HeaderFits, IsFitting, ObjectFits, UntypedFits};
ghost use Rattle.image_reading.specs.Sections.{HasCounts};

use crate::ImageRef;
use model::{CapabilityEntry, ImageHeader, ObjectEntry, UntypedEntry};

/// The image's fixed part.
pub fn header_of(image: &ImageRef<'_>) -> ImageHeader
    ensures value { result ≡ image.now.header }
    ensures small { HeaderFits result }
    ensures fitting { IsFitting image.now }
    ensures counts { HasCounts image.now }
{
    image.header()
}

/// An untyped, by its number.
pub fn untyped_of(image: &ImageRef<'_>, number: u32) -> UntypedEntry
    requires { number < image.now.header.untypeds }
    ensures there { slice_get image.now.untypeds number ≡ Some result }
    ensures fits { UntypedFits result }
{
    let _ = header_of(image);
    image.untyped(number)
}

/// An object, by its number.
pub fn object_of(image: &ImageRef<'_>, number: u32) -> ObjectEntry
    requires { number < image.now.header.objects }
    ensures there { slice_get image.now.objects number ≡ Some result }
    ensures fits { ObjectFits image.now result }
{
    let _ = header_of(image);
    image.object(number)
}

/// A capability, by its number.
pub fn capability_of(image: &ImageRef<'_>, number: u32) -> CapabilityEntry
    requires { number < length image.now.capabilities }
    ensures { slice_get image.now.capabilities number ≡ Some result }
{
    let _ = header_of(image);
    image.capability(number)
}
