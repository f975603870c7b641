//! Calls on untyped memory.

ghost use Rattle.std.specs.Prelude.{◌≡◌, OnErr};
ghost use Rattle.model.specs.Kernel.Outcomes.{GivesState};
ghost use Rattle.kernel_machine.specs.perform_calls.Calls.{AppliesTo, call_of};
ghost use Rattle.model.specs.Kernel.Invocations.{perform};
ghost use Rattle.model.specs.declared.invocations.Invocation.TheVariants.{OnUntyped};
ghost use Rattle.objects.specs.Lives.{state_in};
ghost use Rattle.soundness.specs.Calls.{IsCall};

use crate::perform_calls::KernelCall;
use cnode_ops::{Kernel, retype};
use model::{KError, RetypeCall, UntypedMemory};
use slots::SlotStore;

/// Makes objects in untyped memory, as [`retype`] does.
///
/// seL4 Reference Manual, seL4_Untyped_Retype.
pub(crate) fn on_untyped<S: SlotStore>(
    kernel: &mut Kernel<S>,
    call: KernelCall,
    memory: UntypedMemory,
    asked: RetypeCall,
) -> Result<(), KError>
    requires call { IsCall (state_in S.slots S.memory kernel.old) (call_of call) }
    requires applies { AppliesTo call.capability (OnUntyped memory asked) }
    ensures outcome { GivesState (perform (state_in S.slots S.memory kernel.old) (call_of call) (OnUntyped memory asked)) result
        (state_in S.slots S.memory kernel.new) }
    ensures unchanged { OnErr result (kernel.new ≡ kernel.old) }
{
    retype(kernel, call.root, call.slot, memory, asked)
}
