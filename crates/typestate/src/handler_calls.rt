//! Calls on handlers of interrupt lines at a point: a program may acknowledge interrupts, and nothing else.
//! seL4 Reference Manual, "Hardware I/O", seL4_IRQHandler.

ghost use Rattle.std.specs.Prelude.{◌≡◌, ◌<◌, Err, Some};
ghost use Rattle.model.specs.Kernel.InterruptCalls.{may_be_bound};
ghost use Rattle.model.specs.Acceptance.NotedStates.{NotedSlot};
ghost use Rattle.model.specs.declared.invocations.HandlerCall.TheVariants.{SetNotification};
ghost use Rattle.model.specs.declared.invocations.Invocation.TheVariants.{OnHandler};
ghost use Rattle.typestate.specs.Differences.{slots_of};
ghost use Rattle.typestate.specs.Invocations.{held_after};
ghost use Rattle.typestate.specs.SlotChanges.{left_or_refused};

use crate::cnode_calls::is_vacant;
use crate::{SlotChange, ThreadSlots};
use model::{Cap, HandlerCall, KError, Point, Refusal, SlotName};

/// Whether a line may signal by a capability.
fn may_be_bound(capability: Cap) -> bool
    ensures { result ≡ may_be_bound capability }
{
    match capability {
        Cap::Notification { rights, .. } => rights.may_write(),
        _ => false,
    }
}

impl ThreadSlots<'_, '_, '_> {
    /// Why a line gets no notification of this name: the kernel's error comes first. A depth of 255 has the same error.
    fn binds(&self, at: Point, line: u8, name: SlotName) -> Refusal
        requires line { line < 64 }
        ensures { (held : NotedSlot) → held_after self.now.space.image.now self.now.space.thread.now at (slots_of self.now.slots) held
            (OnHandler line (SetNotification name)) ≡ Err result }
    {
        let (_, source) = match self.named(name) {
            Ok(found) => found,
            Err(error) => return Refusal::CallRefused(at, error),
        };
        if is_vacant(source) {
            return Refusal::CallRefused(at, KError::FailedLookup);
        }
        if !may_be_bound(source) {
            return Refusal::CallRefused(at, KError::InvalidCapability);
        }
        Refusal::CallRefused(at, KError::IllegalOperation)
    }

    /// What a call on a line's handler leaves of the slots: an acknowledgement changes none.
    pub(crate) fn handler_call(
        &self,
        at: Point,
        line: u8,
        call: HandlerCall,
    ) -> Result<SlotChange, Refusal>
        requires line { line < 64 }
        ensures { (held : NotedSlot) → held_after self.now.space.image.now self.now.space.thread.now at (slots_of self.now.slots) held (OnHandler line call)
            ≡ left_or_refused (slots_of self.now.slots) result }
    {
        match call {
            HandlerCall::Acknowledge => Ok(SlotChange::Nothing),
            HandlerCall::Clear => Err(Refusal::CallRefused(at, KError::IllegalOperation)),
            HandlerCall::SetNotification { notification } => {
                Err(self.binds(at, line, notification))
            }
        }
    }
}
