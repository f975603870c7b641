//! What an image maps in a region or at a page under a root table. Keys rise, so each is found by halving.

ghost use Rattle.std.specs.Prelude.{◌≡◌, ◌==◌, ◌/◌, ◌<◌, ◌^◌, ◌&&◌};
ghost use Rattle.std.specs.List.{list_any};
ghost use Rattle.model.specs.Kernel.AddressSpaces.{page_size, region_pages};

use crate::ImageRef;
use crate::image_entries::entries::header_of;
use crate::image_entries::keys::{frame_place, table_place};
use model::{FrameEntry, TableEntry};

/// The bytes of a page.
const PAGE: u32 = 0x1000;

/// The bytes that a page table maps.
const REGION: u32 = 0x40_0000;

/// Whether an entry maps a page table for a region under a root table.
fn is_for(entry: TableEntry, root: u32, region: u32) -> bool
    ensures { result ≡ (entry.root == root && (entry.address / page_size / region_pages == region)) }
{
    entry.root == root && entry.address / REGION == region
}

/// Whether an entry maps a frame at a page under a root table.
fn is_on(entry: FrameEntry, root: u32, page: u32) -> bool
    ensures { result ≡ (entry.root == root && (entry.address / page_size == page)) }
{
    entry.root == root && entry.address / PAGE == page
}

/// Whether the image maps a page table for a region of 4 MiB under a root table.
pub fn lists_region(image: &ImageRef<'_>, root: u32, region: u32) -> bool
    requires { region < 2 ^ 10 }
    ensures { result ≡ list_any (λ t. t.root == root && (t.address / page_size / region_pages == region)) image.now.tables }
{
    let place = table_place(image, root, region * REGION);
    place < header_of(image).tables && is_for(image.table(place), root, region)
}

/// Whether the image maps a frame at a page of 4 KiB under a root table.
pub fn lists_page(image: &ImageRef<'_>, root: u32, page: u32) -> bool
    requires { page < 2 ^ 20 }
    ensures { result ≡ list_any (λ f. f.root == root && (f.address / page_size == page)) image.now.frames }
{
    let place = frame_place(image, root, page * PAGE);
    place < header_of(image).frames && is_on(image.frame(place), root, page)
}
