//! The frames that an image maps. Keys rise, so each is found by halving.

ghost use Rattle.std.specs.Prelude.{◌≡◌, ◌==◌, ◌&&◌, Bool, IfSome, false};
ghost use Rattle.std.specs.List.{list_any};
ghost use Rattle.std.specs.Option.{option_map_or};
ghost use Rattle.format_laws.specs.Fitting.{FrameFits};
ghost use Rattle.model.specs.Images.Fills.{frame_at};
ghost use Rattle.model.specs.declared.entries.FrameEntry.{FrameEntry};

use crate::ImageRef;
use crate::image_entries::entries::header_of;
use crate::image_entries::keys::frame_place;
use model::FrameEntry;

/// Whether an entry maps a frame at an address under a root table.
fn is_at(entry: FrameEntry, root: u32, address: u32) -> bool
    ensures { result ≡ (entry.root == root && entry.address == address) }
{
    entry.root == root && entry.address == address
}

/// The frame that the image maps at an address under a root table.
pub fn frame_at(image: &ImageRef<'_>, root: u32, address: u32) -> Option<FrameEntry>
    ensures value { result ≡ frame_at image.now root address }
    ensures fits { IfSome result (FrameFits image.now) }
    // No other frame is mapped there.
    ensures only { (holds : FrameEntry → Bool)
        → list_any (λ f. f.root == root && (f.address == address) && holds f) image.now.frames ≡ option_map_or holds result false }
{
    let place = frame_place(image, root, address);
    if header_of(image).frames <= place {
        return None;
    }
    let entry = image.frame(place);
    if is_at(entry, root, address) {
        return Some(entry);
    }
    None
}
