//! Replies, and threads that give way.

ghost use Rattle.std.specs.Prelude.{ℕ, ◌≡◌};
ghost use Rattle.model.specs.Kernel.Messages.{passes, reply};
ghost use Rattle.model.specs.Kernel.Scheduling.{yielded};
ghost use Rattle.objects.specs.Lives.{state_in};
ghost use Rattle.soundness.specs.Running.{IsRunning};

use cnode_ops::Kernel;
use sched::yield_now;
use slots::SlotStore;

/// A thread answers its caller, if it has one, and runs on.
pub(crate) fn reply<S: SlotStore>(kernel: &mut Kernel<S>, thread: u32)
    requires runs { IsRunning (state_in S.slots S.memory kernel.old) thread }
    ensures state { state_in S.slots S.memory kernel.new
        ≡ reply (state_in S.slots S.memory kernel.old) thread }
    ensures runs { IsRunning (state_in S.slots S.memory kernel.new) thread }
{
    ipc::reply(&mut kernel.live, thread);
}

/// A thread goes on after its call, at the tail of its priority.
pub(crate) fn give_way<S: SlotStore>(kernel: &mut Kernel<S>, thread: u32)
    requires runs { IsRunning (state_in S.slots S.memory kernel.old) thread }
    ensures state { state_in S.slots S.memory kernel.new
        ≡ yielded (passes (state_in S.slots S.memory kernel.old) thread) thread }
{
    ipc::pass(&mut kernel.live, thread);
    yield_now(&mut kernel.live, thread);
}
