//! Calls on interrupt control and on the handlers of interrupt lines.

ghost use Rattle.std.specs.Prelude.{◌≡◌, OnErr};
ghost use Rattle.model.specs.Kernel.Outcomes.{GivesState};
ghost use Rattle.kernel_machine.specs.perform_calls.Calls.{AppliesTo, call_of};
ghost use Rattle.model.specs.Kernel.Invocations.{perform};
ghost use Rattle.model.specs.declared.invocations.Invocation.TheVariants.{OnControl, OnHandler};
ghost use Rattle.objects.specs.Lives.{state_in};
ghost use Rattle.soundness.specs.Calls.{IsCall};

use crate::perform_calls::KernelCall;
use cnode_ops::Kernel;
use irq::{ack, bind, clear, get_handler};
use model::{HandlerCall, KError, SlotName};
use slots::SlotStore;

/// Makes the handler of an interrupt line.
///
/// seL4 Reference Manual, seL4_IRQControl_Get.
pub(crate) fn on_control<S: SlotStore>(
    kernel: &mut Kernel<S>,
    call: KernelCall,
    line: u32,
    destination: SlotName,
) -> Result<(), KError>
    requires call { IsCall (state_in S.slots S.memory kernel.old) (call_of call) }
    requires applies { AppliesTo call.capability (OnControl line destination) }
    ensures outcome { GivesState (perform (state_in S.slots S.memory kernel.old) (call_of call) (OnControl line destination)) result
        (state_in S.slots S.memory kernel.new) }
    ensures unchanged { OnErr result (kernel.new ≡ kernel.old) }
{
    get_handler(kernel, call.root, call.slot, line, destination)
}

/// Acknowledges an interrupt, or changes what a line signals.
///
/// seL4 Reference Manual, seL4_IRQHandler.
pub(crate) fn on_handler<S: SlotStore>(
    kernel: &mut Kernel<S>,
    call: KernelCall,
    line: u8,
    asked: HandlerCall,
) -> Result<(), KError>
    requires call { IsCall (state_in S.slots S.memory kernel.old) (call_of call) }
    requires applies { AppliesTo call.capability (OnHandler line asked) }
    ensures outcome { GivesState (perform (state_in S.slots S.memory kernel.old) (call_of call) (OnHandler line asked)) result
        (state_in S.slots S.memory kernel.new) }
    ensures unchanged { OnErr result (kernel.new ≡ kernel.old) }
{
    match asked {
        HandlerCall::Acknowledge => {
            ack(kernel, line);
            Ok(())
        }
        HandlerCall::SetNotification { notification } => {
            bind(kernel, call.root, line, notification)
        }
        HandlerCall::Clear => clear(kernel, line),
    }
}
