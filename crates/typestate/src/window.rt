//! A thread's CNode, and where it is.

ghost use Rattle.std.specs.Prelude.{◌≤◌};

/// A CNode of 2^`radix` slots: its object, and its offset from the start of physical memory.
#[derive(Clone, Copy)]
pub struct Window {
    pub cnode: u32,
    pub offset: u32,
    pub radix: u8,
    ghost small: { radix ≤ 14 },
}
