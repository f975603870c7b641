//! The types of objects, and the numbers and sizes by which an image and Retype name them.
//! seL4 Reference Manual, "Kernel Services and Objects"; the numbers and sizes are this project's own.

ghost use Rattle.std.specs.Prelude.{◌≡◌, ◌≤◌, option_map, IfSome, true};
ghost use Rattle.model.specs.Images.Image.{size_fits};
ghost use Rattle.model.specs.Kernel.ObjectTypes.{fitting_type, new_kind, new_type, size_word};
ghost use Rattle.model.specs.Kernel.Retype.{first_capability, is_large_enough, is_small_enough, object_bits, type_of};

use crate::{Cap, Rights};

/// What an object is of.
#[derive(Clone, Copy)]
pub enum ObjectKind {
    Thread,
    Endpoint,
    Notification,
    /// A CNode of 2^`radix` slots.
    CNode { radix: u8 },
    Frame,
    PageTable,
    RootTable,
}

/// What Retype makes, and an image lists: untyped memory of 2^`bits` bytes, or an object.
#[derive(Clone, Copy)]
pub enum ObjectType {
    Untyped { bits: u8 },
    Object(ObjectKind),
}

impl ObjectKind {
    /// Its number in an image and in Retype, 2 to 8.
    pub fn number(self) -> u32
        ensures { type_of result (size_word (ObjectType.Object self)) ≡ Some (new_kind self) }
    {
        match self {
            ObjectKind::Thread => 2,
            ObjectKind::Endpoint => 3,
            ObjectKind::Notification => 4,
            ObjectKind::CNode { .. } => 5,
            ObjectKind::Frame => 6,
            ObjectKind::PageTable => 7,
            ObjectKind::RootTable => 8,
        }
    }

    /// An object of this kind has 2 to the power of so many bytes.
    pub fn bits(self) -> u32
        ensures { result ≡ object_bits (new_kind self) }
    {
        match self {
            ObjectKind::Thread => 9,
            ObjectKind::Endpoint | ObjectKind::Notification => 4,
            ObjectKind::CNode { radix } => u32::from(radix) + 4,
            ObjectKind::Frame | ObjectKind::PageTable | ObjectKind::RootTable => 12,
        }
    }
}

impl ObjectType {
    /// Whether an image's object of this number may have this size: untyped memory 4 to 24, a CNode 1 to 14, a frame 0 or, as a device
    /// page, 1, another 0.
    pub fn size_fits(number: u32, size: u32) -> bool
        ensures { result ≡ size_fits number size }
    {
        match number {
            0 => false,
            1 => 4 <= size && size <= 24,
            5 => 1 <= size && size <= 14,
            6 => size == 0 || size == 1,
            _ => size == 0,
        }
    }

    /// The type of a number, 1 to 8. The size counts for untyped memory and for CNodes.
    pub fn of_number(number: u32, size: u8) -> Option<Self>
        ensures { option_map new_type result ≡ type_of number size }
    {
        match number {
            1 => Some(ObjectType::Untyped { bits: size }),
            2 => Some(ObjectType::Object(ObjectKind::Thread)),
            3 => Some(ObjectType::Object(ObjectKind::Endpoint)),
            4 => Some(ObjectType::Object(ObjectKind::Notification)),
            5 => Some(ObjectType::Object(ObjectKind::CNode { radix: size })),
            6 => Some(ObjectType::Object(ObjectKind::Frame)),
            7 => Some(ObjectType::Object(ObjectKind::PageTable)),
            8 => Some(ObjectType::Object(ObjectKind::RootTable)),
            _ => None,
        }
    }

    /// The type of an image's object, if its size fits.
    pub fn of(number: u32, size: u32) -> Option<Self>
        ensures { option_map new_type result ≡ fitting_type number size }
    {
        if ObjectType::size_fits(number, size) {
            ObjectType::of_number(number, size as u8)
        } else {
            None
        }
    }

    /// Its number in an image and in Retype, 1 to 8.
    pub fn number(self) -> u32
        ensures { type_of result (size_word self) ≡ Some (new_type self) }
    {
        match self {
            ObjectType::Untyped { .. } => 1,
            ObjectType::Object(kind) => kind.number(),
        }
    }

    /// The size that goes with the number: the bits of untyped memory, the radix of a CNode, or 0.
    pub fn size(self) -> u32
        ensures { result ≡ size_word self }
    {
        match self {
            ObjectType::Untyped { bits } => u32::from(bits),
            ObjectType::Object(ObjectKind::CNode { radix }) => u32::from(radix),
            ObjectType::Object(_) => 0,
        }
    }

    /// It has 2 to the power of so many bytes.
    pub fn bits(self) -> u32
        ensures { result ≡ object_bits (new_type self) }
    {
        match self {
            ObjectType::Untyped { bits } => u32::from(bits),
            ObjectType::Object(kind) => kind.bits(),
        }
    }

    /// Whether it is as large as Retype asks for: untyped memory of 2^4 bytes, a CNode of 2 slots.
    pub fn is_large_enough(self) -> bool
        ensures { result ≡ is_large_enough (new_type self) }
    {
        match self {
            ObjectType::Untyped { bits } => 4 <= bits,
            ObjectType::Object(ObjectKind::CNode { radix }) => 1 <= radix,
            ObjectType::Object(_) => true,
        }
    }

    /// Whether it is as small as Retype asks for: untyped memory of 2^24 bytes, a CNode of 2^14 slots.
    pub fn is_small_enough(self) -> bool
        ensures { result ≡ is_small_enough (new_type self) }
    {
        match self {
            ObjectType::Untyped { bits } => bits <= 24,
            ObjectType::Object(ObjectKind::CNode { radix }) => radix <= 14,
            ObjectType::Object(_) => true,
        }
    }

    /// The first capability to a new one at an offset: all rights, no badge, guard or mapping.
    pub fn first_capability(self, offset: u32) -> Cap
        ensures { result ≡ first_capability (new_type self) offset }
    {
        match self {
            ObjectType::Untyped { bits } => Cap::Untyped {
                offset,
                bits,
                watermark: 0,
            },
            ObjectType::Object(ObjectKind::Thread) => Cap::Tcb { offset },
            ObjectType::Object(ObjectKind::Endpoint) => Cap::Endpoint {
                offset,
                rights: Rights::OF_ENDPOINT,
                badge: 0,
            },
            ObjectType::Object(ObjectKind::Notification) => Cap::Notification {
                offset,
                rights: Rights::OF_ENDPOINT,
                badge: 0,
            },
            ObjectType::Object(ObjectKind::CNode { radix }) => Cap::CNode {
                offset,
                radix,
                guard: 0,
            },
            ObjectType::Object(ObjectKind::Frame) => Cap::Frame {
                offset,
                rights: Rights::OF_FRAME,
                mapping: None,
            },
            ObjectType::Object(ObjectKind::PageTable) => Cap::PageTable {
                offset,
                mapping: None,
            },
            ObjectType::Object(ObjectKind::RootTable) => Cap::RootTable { offset },
        }
    }
}
