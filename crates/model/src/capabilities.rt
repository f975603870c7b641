//! Capabilities: what a slot holds. seL4 Reference Manual, "Kernel Objects" and "Capability
//! Spaces".

use crate::Rights;

/// Where a frame is mapped.
#[derive(Clone, Copy, Debug, PartialEq, Eq)]
pub struct FrameMapping {
    /// The offset of the root table.
    pub root: u32,
    /// The number of the virtual page, below 2^19.
    pub page: u32,
    /// What the mapping allows: read or execute, and write only with read.
    pub rights: Rights,
}

/// Where a page table is mapped.
#[derive(Clone, Copy, Debug, PartialEq, Eq)]
pub struct TableMapping {
    /// The offset of the root table.
    pub root: u32,
    /// The number of the virtual region of 4 MiB, below 2^9.
    pub region: u32,
}

/// A capability, or an empty slot. Offsets are in bytes from the start of physical memory.
#[derive(Clone, Copy, Debug, PartialEq, Eq)]
pub enum Cap {
    /// Nothing: the slot is empty.
    Empty,
    /// Memory of 2^`bits` bytes for new objects, of which the first `watermark` bytes are used.
    Untyped {
        offset: u32,
        bits: u8,
        watermark: u32,
    },
    /// An endpoint, by a badge below 2^28.
    Endpoint {
        offset: u32,
        rights: Rights,
        badge: u32,
    },
    /// A notification, by a badge below 2^28.
    Notification {
        offset: u32,
        rights: Rights,
        badge: u32,
    },
    /// A CNode of 2^`radix` slots. The guard word has the guard's size in its low 5 bits and the
    /// guard above them.
    CNode {
        offset: u32,
        radix: u8,
        guard: u32,
    },
    /// A frame of 4096 bytes, and where it is mapped by this capability.
    Frame {
        offset: u32,
        rights: Rights,
        mapping: Option<FrameMapping>,
    },
    /// A page table of the last level, and where it is mapped by this capability.
    PageTable {
        offset: u32,
        mapping: Option<TableMapping>,
    },
    /// A thread control block.
    Tcb {
        offset: u32,
    },
    /// The root table of an address space.
    RootTable {
        offset: u32,
    },
    /// The right to make handlers of interrupt lines.
    InterruptControl,
    /// The handler of one line, 0 to 63.
    InterruptHandler {
        line: u8,
    },
}
