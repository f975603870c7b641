//! The capability that a call names.

ghost use Rattle.std.specs.Prelude.{◌≡◌, ◌≤◌, IfErr, IfOk, Some};
ghost use Rattle.std.specs.Result.{result_map_both};
ghost use Rattle.kernel.specs.Named.{IsHeld};
ghost use Rattle.model.specs.Capabilities.CapabilityWords.{IsCapability};
ghost use Rattle.model.specs.Capabilities.LookupNumbers.{bits_left_of};
ghost use Rattle.model.specs.Kernel.Kinds.{kind_at};
ghost use Rattle.model.specs.Kernel.Messages.{a0};
ghost use Rattle.model.specs.Kernel.Retype.{NewThread};
ghost use Rattle.model.specs.Kernel.State.{cspace_slot, thread_at};
ghost use Rattle.model.specs.Kernel.Steps.{cspace_of, named_slot};
ghost use Rattle.model.specs.Machine.ProgramMemory.{read};
ghost use Rattle.objects.specs.Lives.{state_in};

use cnode_ops::Kernel;
use cspace::called_capability;
use model::{Cap, LookupFailure, Register, Slot};
use slots::SlotStore;

/// The root of a thread's capability space, which is in its slot 0.
#[inline(always)]
#[tactic(auto, unfolding(objects::specs::Tables::state_of))]
pub(crate) fn cspace_of<S: SlotStore>(kernel: &Kernel<S>, thread: u32) -> Cap
    requires { kind_at (state_in S.slots S.memory kernel.now) thread ≡ Some NewThread }
    ensures value { result ≡ cspace_of (state_in S.slots S.memory kernel.now) thread }
    ensures valid { IsCapability result }
{
    let live = &kernel.live;
    live.store.capability(Slot::new(thread / 16))
}

/// What a thread has in a0: the name of the capability that it calls, or a character.
pub(crate) fn argument<S: SlotStore>(kernel: &Kernel<S>, thread: u32) -> u32
    ensures { result ≡ read (thread_at (state_in S.slots S.memory kernel.now) thread).registers a0 }
{
    kernel.live.register(thread, Register::A0)
}

/// The slot that a thread's a0 names, with the capability in it.
#[inline(always)]
#[tactic(auto, unfolding(objects::specs::Tables::state_of))]
pub(crate) fn named_capability<S: SlotStore>(
    kernel: &Kernel<S>,
    thread: u32,
) -> Result<(Slot, Cap), LookupFailure>
    requires { kind_at (state_in S.slots S.memory kernel.now) thread ≡ Some NewThread }
    ensures slot { result_map_both (λ named. named.0) (λ failure. failure) result ≡ named_slot (state_in S.slots S.memory kernel.now) thread }
    ensures held { IfOk result (λ named. IsHeld (state_in S.slots S.memory kernel.now) named.0 named.1) }
    ensures few { IfErr result (λ failure. bits_left_of failure ≤ 32) }
{
    let root = cspace_of(kernel, thread);
    let name = argument(kernel, thread);
    let live = &kernel.live;
    called_capability(&live.store, root, name)
}
