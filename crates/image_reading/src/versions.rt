//! What each version of image files has.

ghost use Rattle.std.specs.Prelude.{◌≡◌};
ghost use Rattle.model.specs.Images.Image.{between, has_buffers, has_devices, has_promises, latest_version, size_fits_in};

use model::ObjectType;

/// The latest version that is read.
const LATEST: u32 = 4;

/// Whether image files of this version are read.
pub fn is_known_version(version: u32) -> bool
    ensures { result ≡ between 1 latest_version version }
{
    1 <= version && version <= LATEST
}

/// Whether images of this version have promises.
pub fn has_promises(version: u32) -> bool
    ensures { result ≡ has_promises version }
{
    2 <= version
}

/// Whether threads of this version have buffers.
pub fn has_buffers(version: u32) -> bool
    ensures { result ≡ has_buffers version }
{
    3 <= version
}

/// Whether frames of images of this version may be device pages.
fn has_devices(version: u32) -> bool
    ensures { result ≡ has_devices version }
{
    4 <= version
}

/// Whether an object of an image of this version may have this size.
pub(crate) fn size_fits(version: u32, kind: u32, size: u32) -> bool
    ensures { result ≡ size_fits_in version kind size }
{
    ObjectType::size_fits(kind, size) && (has_devices(version) || !(kind == 6 && size == 1))
}
