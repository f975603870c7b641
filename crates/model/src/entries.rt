//! The entries of an image's sections, as the file lists them. Object numbers count the image's
//! objects from 0.

/// Memory for objects: `2^bits` bytes at `offset` from the start of physical memory.
#[derive(Clone, Copy)]
pub struct UntypedEntry {
    pub offset: u32,
    pub bits: u32,
}

/// An object and the untyped memory that it is made in. `kind` is the object type's number, 1 to 8;
/// `size` is the size in bits of an untyped, the radix of a CNode, and 0 for the others.
#[derive(Clone, Copy)]
pub struct ObjectEntry {
    pub untyped: u32,
    pub kind: u32,
    pub size: u32,
}

/// A capability in a slot of a CNode. `source` is an object, or the number of objects plus the number
/// of an interrupt for that interrupt's handler. `payload` is the badge or the guard word.
#[derive(Clone, Copy)]
pub struct CapabilityEntry {
    pub cnode: u32,
    pub index: u32,
    pub source: u32,
    pub rights: u32,
    pub payload: u32,
}

/// An interrupt line, the notification that it signals, and the badge that it signals with.
#[derive(Clone, Copy)]
pub struct InterruptEntry {
    pub line: u32,
    pub notification: u32,
    pub badge: u32,
}

/// A page table that covers the 4 MiB from a virtual address under a root table.
#[derive(Clone, Copy)]
pub struct TableEntry {
    pub root: u32,
    pub address: u32,
    pub table: u32,
}

/// A frame that is mapped at a virtual address under a root table. `rights`: 1 write, 2 read,
/// 4 execute.
#[derive(Clone, Copy)]
pub struct FrameEntry {
    pub root: u32,
    pub address: u32,
    pub frame: u32,
    pub rights: u32,
}

/// A register that a thread starts with, 1 to 31, and its value, which is not 0.
#[derive(Clone, Copy)]
pub struct RegisterEntry {
    pub register: u32,
    pub value: u32,
}

/// The range of unsigned values of a register, 1 to 31, both ends included.
#[derive(Clone, Copy)]
pub struct RangeEntry {
    pub register: u32,
    pub low: u32,
    pub high: u32,
}

/// What a slot of a CNode holds: the two words of a capability, and the parent slot's CNode and
/// index, both 2^32 - 1 where the parent is in the boot CNode.
#[derive(Clone, Copy)]
pub struct SlotEntry {
    pub cnode: u32,
    pub index: u32,
    pub word0: u32,
    pub word1: u32,
    pub parent_cnode: u32,
    pub parent_index: u32,
}

/// A term of a measure: a register, 1 to 31, times a coefficient, which is not 0.
#[derive(Clone, Copy)]
pub struct TermEntry {
    pub register: u32,
    pub coefficient: i32,
}

/// The fixed part of an image: its sizes and how many entries each section has.
#[derive(Clone, Copy)]
pub struct ImageHeader {
    pub version: u32,
    /// Physical memory has `2^memory_bits` bytes.
    pub memory_bits: u32,
    /// The boot CNode has `2^boot_radix` slots.
    pub boot_radix: u32,
    pub untypeds: u32,
    pub objects: u32,
    pub capabilities: u32,
    pub interrupts: u32,
    pub tables: u32,
    pub frames: u32,
    pub contents: u32,
    /// 0 in version 1, which has no such field.
    pub promises: u32,
    pub threads: u32,
}

/// The fixed part of a content: a frame object and how many words it begins with.
#[derive(Clone, Copy)]
pub struct ContentHeader {
    pub frame: u32,
    pub words: u32,
}

/// The fixed part of a promise: an endpoint object, the lowest and the highest badge of messages to it, and how many of
/// their words are promised.
#[derive(Clone, Copy)]
pub struct PromiseHeader {
    pub endpoint: u32,
    pub badge_low: u32,
    pub badge_high: u32,
    pub words: u32,
}

/// The lowest and the highest value of a promised word.
#[derive(Clone, Copy)]
pub struct PromisedWord {
    pub low: u32,
    pub high: u32,
}

/// The fixed part of a thread: its objects, how it starts, and how many registers, words of program
/// and records of its certificate follow.
#[derive(Clone, Copy)]
pub struct ThreadHeader {
    pub tcb: u32,
    /// The CNode object at the root of its capability space, and that capability's guard word.
    pub cnode: u32,
    pub guard: u32,
    /// The root table object of its address space.
    pub root: u32,
    /// 0 to 255; the greatest runs first.
    pub priority: u32,
    /// How many instructions it runs at most from one wait to the next.
    pub budget: u64,
    /// The capability address of its fault handler, or 0 for none.
    pub fault: u32,
    /// The frame object of its message buffer, or 2^32 - 1 for none, as in versions 1 and 2.
    pub buffer: u32,
    /// The point that it starts at.
    pub entry: u32,
    /// The virtual address of the first word of its program.
    pub base: u32,
    pub registers: u32,
    pub words: u32,
    pub records: u32,
}

/// The fixed part of a record of a certificate: the point that it speaks of, how many ranges, slots
/// and terms follow, and the constant of the measure.
#[derive(Clone, Copy)]
pub struct RecordHeader {
    pub point: u32,
    pub ranges: u32,
    pub slots: u32,
    pub terms: u32,
    pub constant: i64,
}
