//! What a capability can be called to do, with the words of the call in their places.
//! seL4 Reference Manual, "seL4 API Reference"; the calls and their words are this project's own.

use crate::Rights;

/// A slot as two words of a call name it: an address, and how many of its low bits count, 1 to 32.
#[derive(Clone, Copy)]
pub struct SlotName {
    pub address: u32,
    pub depth: u32,
}

/// Untyped memory as its capability has it: 2^`bits` bytes, of which the first `watermark` are used.
#[derive(Clone, Copy)]
pub struct UntypedMemory {
    pub offset: u32,
    pub bits: u8,
    pub watermark: u32,
}

/// New objects in untyped memory.
#[derive(Clone, Copy)]
pub struct RetypeCall {
    /// The number of the objects' type, 1 to 8.
    pub kind: u32,
    /// The bits of untyped memory, or the radix of a CNode; other types ignore it.
    pub size: u32,
    /// The CNode that gets the capabilities; depth 0 names the root of the caller's capability space.
    pub node: SlotName,
    /// The index of the first capability.
    pub index: u32,
    /// How many objects, 1 to 256.
    pub count: u32,
}

/// A call on a thread.
#[derive(Clone, Copy)]
pub enum ThreadCall {
    /// Copies of a CNode's and a root table's capability go into the thread's own slots.
    Configure {
        fault_address: u32,
        cspace: SlotName,
        vspace: SlotName,
    },
    SetPriority {
        priority: u32,
    },
    /// Index 0 is the program counter.
    SetRegister {
        index: u32,
        value: u32,
    },
    Resume,
    Suspend,
    /// An unmapped copy of a frame's capability goes into the thread's own slot for its message buffer.
    SetBuffer {
        frame: SlotName,
    },
}

/// A call on a CNode. The first slot is named under that CNode, a source in the caller's capability
/// space.
#[derive(Clone, Copy)]
pub enum CNodeCall {
    Copy {
        destination: SlotName,
        source: SlotName,
        rights: u32,
    },
    Mint {
        destination: SlotName,
        source: SlotName,
        rights: u32,
        /// The badge, or the guard word.
        payload: u32,
    },
    Move {
        destination: SlotName,
        source: SlotName,
    },
    Mutate {
        destination: SlotName,
        source: SlotName,
        /// The guard word.
        payload: u32,
    },
    Delete {
        slot: SlotName,
    },
    Revoke {
        slot: SlotName,
    },
}

/// A call on a frame.
#[derive(Clone, Copy)]
pub enum FrameCall {
    MapFrame {
        root: SlotName,
        address: u32,
        rights: u32,
    },
    UnmapFrame,
}

/// A call on a page table.
#[derive(Clone, Copy)]
pub enum TableCall {
    MapTable { root: SlotName, address: u32 },
    UnmapTable,
}

/// A call on the handler of an interrupt line.
#[derive(Clone, Copy)]
pub enum HandlerCall {
    Acknowledge,
    /// The line signals a notification from now on.
    SetNotification { notification: SlotName },
    /// The line signals nothing any more.
    Clear,
}

/// A call on a capability, by the capability's kind.
#[derive(Clone, Copy)]
pub enum Invocation {
    OnUntyped {
        memory: UntypedMemory,
        call: RetypeCall,
    },
    OnThread {
        thread: u32,
        call: ThreadCall,
    },
    OnCNode {
        call: CNodeCall,
    },
    OnFrame {
        /// What the frame's capability allows.
        held: Rights,
        call: FrameCall,
    },
    OnTable {
        call: TableCall,
    },
    /// Interrupt control makes the handler of a line.
    OnControl {
        line: u32,
        destination: SlotName,
    },
    OnHandler {
        line: u8,
        call: HandlerCall,
    },
}
