//! Calls on threads.

ghost use Rattle.std.specs.Prelude.{◌≡◌, OnErr};
ghost use Rattle.model.specs.Kernel.Outcomes.{GivesState};
ghost use Rattle.kernel_machine.specs.perform_calls.Calls.{AppliesTo, call_of};
ghost use Rattle.model.specs.Kernel.Invocations.{perform};
ghost use Rattle.model.specs.declared.invocations.Invocation.TheVariants.{OnThread};
ghost use Rattle.objects.specs.Lives.{state_in};
ghost use Rattle.soundness.specs.Calls.{IsCall};

use crate::perform_calls::KernelCall;
use cnode_ops::Kernel;
use model::{KError, ThreadCall};
use slots::SlotStore;
use tcb_ops::{Spaces, configure, resume, set_buffer, set_priority, set_register, suspend};

/// Gives a thread its spaces, its message buffer, its priority or a register, lets it run, or stops it.
///
/// seL4 Reference Manual, seL4_TCB.
pub(crate) fn on_thread<S: SlotStore>(
    kernel: &mut Kernel<S>,
    call: KernelCall,
    thread: u32,
    asked: ThreadCall,
) -> Result<(), KError>
    requires call { IsCall (state_in S.slots S.memory kernel.old) (call_of call) }
    requires applies { AppliesTo call.capability (OnThread thread asked) }
    ensures outcome { GivesState (perform (state_in S.slots S.memory kernel.old) (call_of call) (OnThread thread asked)) result
        (state_in S.slots S.memory kernel.new) }
    ensures unchanged { OnErr result (kernel.new ≡ kernel.old) }
{
    match asked {
        ThreadCall::Configure {
            fault_address,
            cspace,
            vspace,
        } => {
            let spaces = Spaces {
                cspace,
                guard: None,
                vspace,
                fault_address,
            };
            configure(kernel, call.root, thread, spaces)
        }
        ThreadCall::SetPriority { priority } => set_priority(kernel, thread, priority),
        ThreadCall::SetRegister { index, value } => {
            set_register(kernel, call.caller, thread, index, value)
        }
        ThreadCall::Resume => {
            resume(kernel, thread);
            Ok(())
        }
        ThreadCall::Suspend => {
            suspend(kernel, thread);
            Ok(())
        }
        ThreadCall::SetBuffer { frame } => set_buffer(kernel, call.root, thread, frame),
    }
}
