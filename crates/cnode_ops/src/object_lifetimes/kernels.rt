//! All that a kernel keeps.

ghost use Rattle.std.specs.Prelude.{◌≡◌};
ghost use Rattle.model.specs.Kernel.State.{thread_at};
ghost use Rattle.objects.specs.Lives.{state_in};

use objects::Live;
use rv32_exec::Regs;
use slots::SlotStore;
use std::marker::Model;

/// All that a kernel keeps: objects with their store of slots and memory. The state that it represents is always sound,
/// and slots, page tables, objects and bytes agree.
#[derive(Drop)]
pub struct Kernel<S: SlotStore> {
    pub live: Live<S>,
}

impl<S: SlotStore> Model for Kernel<S> {
    ghost use Rattle.cnode_ops.specs.object_lifetimes.Kernels.{IsConsistent};
    ghost use Rattle.objects.specs.Lives.{Parts, state_in};

    ghost Value = { Parts S };

    ghost view = { λ kernel. kernel.live };

    ghost invariant = { λ kernel. IsConsistent (state_in S.slots S.memory kernel.live) (S.memory kernel.live.store) };
}

impl<S: SlotStore> Kernel<S> {
    /// The registers of a thread, or those of a new one, where no thread is.
    pub fn registers(&self, thread: u32) -> Regs
        ensures { result ≡ (thread_at (state_in S.slots S.memory self.now) thread).registers }
    {
        self.live.registers(thread)
    }

    /// The program counter of a thread.
    pub fn pc(&self, thread: u32) -> u32
        ensures { result ≡ (thread_at (state_in S.slots S.memory self.now) thread).registers.pc }
    {
        self.live.pc(thread)
    }
}
