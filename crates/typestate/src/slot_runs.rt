//! Slots of a CNode, one after another.

ghost use Rattle.std.specs.Prelude.{◌≡◌, ◌+◌, ◌<◌, ◌^◌};
ghost use Rattle.model.specs.Acceptance.NotedStates.{number_of};

use crate::SlotKey;

/// So many slots of a CNode from one on.
#[derive(Clone, Copy)]
pub(crate) struct SlotRun {
    pub(crate) first: SlotKey,
    pub(crate) count: u32,
    ghost near: { first.index + count < 2 ^ 32 },
}

impl SlotRun {
    /// The number after that of the last slot.
    pub(crate) fn end(&self) -> u64
        ensures { result ≡ number_of self.now.first + self.now.count }
    {
        self.first.number() + u64::from(self.count)
    }

    /// The slot so far after the first.
    pub(crate) fn key(&self, i: u32) -> SlotKey
        requires { i < self.now.count }
        ensures { result ≡ record { cnode = self.now.first.cnode; index = self.now.first.index + i } }
    {
        SlotKey {
            cnode: self.first.cnode,
            index: self.first.index + i,
        }
    }
}
