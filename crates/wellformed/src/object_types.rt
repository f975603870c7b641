//! What the objects of an image are.

ghost use Rattle.std.specs.Prelude.{◌≡◌, ◌^◌, ◌≤◌, nat_lt, option_map, true};
ghost use Rattle.model.specs.Acceptance.WellFormed.{has_slot, is_endpoint_type, is_frame_type, is_notification_type, is_root_type};
ghost use Rattle.model.specs.Acceptance.WellFormed.{is_table_type, is_thread_type, is_untyped_type, may_have, radix_of, source_type};
ghost use Rattle.model.specs.Acceptance.ThreadRules.{is_cnode_source};
ghost use Rattle.model.specs.Capabilities.CapabilityKinds.{is_guard_word};
ghost use Rattle.model.specs.Images.Image.{size_fits};
ghost use Rattle.model.specs.Images.Places.{bits_of, type_at};
ghost use Rattle.model.specs.Kernel.ObjectTypes.{new_type};

use capwords::is_guard_word;
use image_reading::{ImageRef, object_of};
use model::{ObjectEntry, ObjectKind, ObjectType};
use untyped::power;

/// What an object is, by its number, if the image has one of this number.
pub fn type_at(image: &ImageRef<'_>, number: u32) -> Option<ObjectType>
    ensures { option_map new_type result ≡ type_at image.now number }
{
    if number < image.header().objects {
        let object = object_of(image, number);
        ObjectType::of(object.kind, object.size)
    } else {
        None
    }
}

/// What the source of a capability is; a handler has no type.
pub fn source_type(image: &ImageRef<'_>, source: u32) -> Option<ObjectType>
    ensures { option_map new_type result ≡ source_type image.now source }
{
    if source < image.header().objects {
        type_at(image, source)
    } else {
        None
    }
}

/// Whether this is untyped memory.
pub fn is_untyped(object: Option<ObjectType>) -> bool
    ensures { result ≡ is_untyped_type (option_map new_type object) }
{
    matches!(&object, Some(ObjectType::Untyped { .. }))
}

/// Whether this is a thread.
pub fn is_thread(object: Option<ObjectType>) -> bool
    ensures { result ≡ is_thread_type (option_map new_type object) }
{
    matches!(&object, Some(ObjectType::Object(ObjectKind::Thread)))
}

/// Whether this is an endpoint.
pub fn is_endpoint(object: Option<ObjectType>) -> bool
    ensures { result ≡ is_endpoint_type (option_map new_type object) }
{
    matches!(&object, Some(ObjectType::Object(ObjectKind::Endpoint)))
}

/// Whether this is a notification.
pub(crate) fn is_notification(object: Option<ObjectType>) -> bool
    ensures { result ≡ is_notification_type (option_map new_type object) }
{
    matches!(&object, Some(ObjectType::Object(ObjectKind::Notification)))
}

/// Whether this is a frame.
pub fn is_frame(object: Option<ObjectType>) -> bool
    ensures { result ≡ is_frame_type (option_map new_type object) }
{
    matches!(&object, Some(ObjectType::Object(ObjectKind::Frame)))
}

/// Whether this is a page table.
pub fn is_page_table(object: Option<ObjectType>) -> bool
    ensures { result ≡ is_table_type (option_map new_type object) }
{
    matches!(&object, Some(ObjectType::Object(ObjectKind::PageTable)))
}

/// Whether this is a root table.
pub fn is_root_table(object: Option<ObjectType>) -> bool
    ensures { result ≡ is_root_type (option_map new_type object) }
{
    matches!(&object, Some(ObjectType::Object(ObjectKind::RootTable)))
}

/// The radix of a CNode.
pub fn radix_of(object: Option<ObjectType>) -> Option<u8>
    ensures { result ≡ radix_of (option_map new_type object) }
{
    match object {
        Some(ObjectType::Object(ObjectKind::CNode { radix })) => Some(radix),
        _ => None,
    }
}

/// Whether the source of a capability is a CNode.
pub fn is_cnode_source(image: &ImageRef<'_>, source: u32) -> bool
    ensures { result ≡ is_cnode_source image.now source }
{
    radix_of(source_type(image, source)).is_some()
}

/// An object has 2 to the power of so many bytes.
pub(crate) fn bits_of(object: ObjectEntry) -> u32
    requires { size_fits object.kind object.size ≡ true }
    ensures value { result ≡ bits_of object }
    ensures most { result ≤ 24 }
{
    match ObjectType::of(object.kind, object.size) {
        Some(kind) => kind.bits(),
        None => 0,
    }
}

/// Whether a number is below 2 to the power of `bits`.
fn is_below_power(number: u32, bits: u32) -> bool
    ensures { result ≡ nat_lt number (2 ^ bits) }
{
    bits >= 32 || u64::from(number) < power(bits)
}

/// Whether the object is a CNode that has a slot of this index.
pub(crate) fn has_slot(image: &ImageRef<'_>, cnode: u32, index: u32) -> bool
    ensures { result ≡ has_slot image.now cnode index }
{
    match radix_of(type_at(image, cnode)) {
        Some(radix) => is_below_power(index, u32::from(radix)),
        None => false,
    }
}

/// Whether a CNode of this radix may have this guard word.
pub(crate) fn is_guard(radix: u8, word: u32) -> bool
    ensures { result ≡ is_guard_word radix word }
{
    is_guard_word(radix, word)
}

/// Whether a capability to such an object may have these rights, and this badge or guard word.
pub(crate) fn may_have(object: Option<ObjectType>, rights: u32, payload: u32) -> bool
    ensures { result ≡ may_have (option_map new_type object) rights payload }
{
    match object {
        Some(ObjectType::Object(ObjectKind::Endpoint | ObjectKind::Notification)) => {
            rights & 11 == rights && payload < 0x1000_0000
        }
        Some(ObjectType::Object(ObjectKind::Frame)) => rights & 3 == rights && payload == 0,
        Some(ObjectType::Object(ObjectKind::CNode { radix })) => {
            rights == 0 && is_guard(radix, payload)
        }
        _ => rights == 0 && payload == 0,
    }
}
