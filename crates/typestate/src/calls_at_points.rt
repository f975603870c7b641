//! What is known after the system call at a point.
//! seL4 Reference Manual, "System Calls"; which of them are accepted is this project's own.

ghost use Rattle.std.specs.Prelude.{◌≡◌, [], IfOk};
ghost use Rattle.model.specs.Acceptance.CallRules.{after_call, invocation};
ghost use Rattle.model.specs.Acceptance.Measures.{Measure};
ghost use Rattle.typestate.specs.Calls.{call_on, known_with, left_with};
ghost use Rattle.typestate.specs.Differences.{slots_of};
ghost use Rattle.typestate.specs.Invocations.{HoldsFull, IsCallOn, held_after};
ghost use Rattle.typestate.specs.SlotChanges.{leaves};
ghost use Rattle.typestate.specs.Strays.{IsTidyBehind};
ghost use Rattle.typestate.specs.Spaces.{own_slots};

use crate::held_slots::HeldSlot;
use crate::{Behind, LogEntry, SystemCall, ThreadSlots, message_call};
use model::{Cap, Invocation, Point, Refusal};
use ranges::Bounds;
use std::alloc::AllocError;

impl HeldSlot<'_, '_, '_, '_> {
    /// What is known after a call on what the slot holds, or why it is refused. The slots that it changes are put into the list,
    /// which is empty. Memory may be refused.
    fn behind(
        &self,
        at: Point,
        bounds: &Bounds,
        call: Invocation,
        answers: bool,
        made: &mut Vec<LogEntry>,
    ) -> Result<Result<Behind, Refusal>, AllocError>
        requires fits { IsCallOn self.now.held.now.capability call }
        requires none { made.old.items ≡ [] }
        ensures tidy { IfOk result (IsTidyBehind self.now.own.space.image.now self.now.own.space.thread.now (slots_of self.now.own.slots) made.new.items) }
        ensures left { IfOk result (λ called. (measure : Measure)
            → leaves (known_with bounds.now (slots_of self.now.own.slots) measure) answers
            (held_after self.now.own.space.image.now self.now.own.space.thread.now at (slots_of self.now.own.slots) self.now.held.now call)
            ≡ left_with (slots_of self.now.own.slots) made.new.items called) }
    {
        match self.invoked(at, call, made)? {
            Ok(is_tidy) => Ok(Ok(Behind::called(bounds, answers, is_tidy))),
            Err(refusal) => Ok(Err(refusal)),
        }
    }
}

/// A capability that a system call is made on, in which slot it is, and whether the call has an answer.
#[derive(Clone, Copy)]
struct CalledCap {
    slot: u32,
    capability: Cap,
    answers: bool,
}

impl ThreadSlots<'_, '_, '_> {
    /// A call on the capability in a slot of the thread's, with the message in the registers. The slots that it changes are put
    /// into the list, which is empty. Memory may be refused.
    fn called_on(
        &self,
        at: Point,
        bounds: &Bounds,
        called: CalledCap,
        made: &mut Vec<LogEntry>,
    ) -> Result<Result<Behind, Refusal>, AllocError>
        requires held { HoldsFull (own_slots self.now.space.windows.now (slots_of self.now.slots)) called.slot called.capability }
        requires none { made.old.items ≡ [] }
        ensures tidy { IfOk result (IsTidyBehind self.now.space.image.now self.now.space.thread.now (slots_of self.now.slots) made.new.items) }
        ensures left { IfOk result (λ behind. (measure : Measure)
            → invocation self.now.space.image.now self.now.space.thread.now at (known_with bounds.now (slots_of self.now.slots) measure)
            (call_on self.now.space.image.now self.now.space.thread.now called.slot called.capability) called.answers
            ≡ left_with (slots_of self.now.slots) made.new.items behind) }
    {
        let call = match message_call(at, bounds, called.capability) {
            Ok(call) => call,
            Err(refusal) => return Ok(Err(refusal)),
        };
        let found = self.held(called.slot);
        let held = HeldSlot {
            own: *self,
            held: &found,
        };
        held.behind(at, bounds, call, called.answers, made)
    }

    /// What the system call at a point leaves, or why it is refused. The slots that it changes are put into the list, which
    /// is empty.
    ///
    /// # Errors
    ///
    /// Memory may be refused.
    pub fn after_call(
        &self,
        at: Point,
        bounds: &Bounds,
        made: &mut Vec<LogEntry>,
    ) -> Result<Result<Behind, Refusal>, AllocError>
        requires none { made.old.items ≡ [] }
        ensures tidy { IfOk result (IsTidyBehind self.now.space.image.now self.now.space.thread.now (slots_of self.now.slots) made.new.items) }
        ensures left { IfOk result (λ called. (measure : Measure)
            → after_call self.now.space.image.now self.now.space.thread.now at (known_with bounds.now (slots_of self.now.slots) measure)
            ≡ left_with (slots_of self.now.slots) made.new.items called) }
    {
        match self.system_call(at, bounds) {
            Err(refusal) => Ok(Err(refusal)),
            Ok(SystemCall::Plain(behind)) => Ok(Ok(behind)),
            Ok(
                SystemCall::Invokes {
                    slot,
                    capability,
                    answers,
                },
            ) => {
                let called = CalledCap {
                    slot,
                    capability,
                    answers,
                };
                self.called_on(at, bounds, called, made)
            }
        }
    }
}
