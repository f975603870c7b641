//! Calls on what a slot of the thread's holds.

ghost use Rattle.std.specs.Prelude.{◌≡◌, [], IfOk, Some};
ghost use Rattle.model.specs.Acceptance.NotedKernel.{slot_of_key};
ghost use Rattle.model.specs.Acceptance.NotedStates.{slot_at};
ghost use Rattle.model.specs.Capabilities.Slots.{IsFull, capability_at};
ghost use Rattle.typestate.specs.Differences.{slots_of};
ghost use Rattle.typestate.specs.Invocations.{IsCallOn, held_after, made_or_refused};
ghost use Rattle.typestate.specs.SlotChanges.{left_or_refused};
ghost use Rattle.typestate.specs.Strays.{IsTidyCall};
ghost use Rattle.typestate.specs.Spaces.{own_slots};

use crate::held_slots::HeldSlot;
use crate::pools::Pool;
use crate::roots::OwnRoot;
use crate::{LogEntry, NotedSlot, SlotChange, ThreadSlots, tidy_changes_leave_no_stray_slot};
use model::{Invocation, Point, Refusal};
use std::alloc::AllocError;

impl ThreadSlots<'_, '_, '_> {
    /// Puts what a call makes of the slots into a list, which is empty, and answers whether it is known to leave no stray slot
    /// where there was none.
    fn note_left(
        &self,
        left: Result<SlotChange, Refusal>,
        made: &mut Vec<LogEntry>,
    ) -> Result<Result<bool, Refusal>, AllocError>
        requires none { made.old.items ≡ [] }
        ensures made { IfOk result (λ done. left_or_refused (slots_of self.now.slots) left ≡ made_or_refused (slots_of self.now.slots) made.new.items done) }
        ensures tidy { IfOk result (IsTidyCall self.now.space.image.now self.now.space.thread.now (slots_of self.now.slots) made.new.items) }
    {
        tidy_changes_leave_no_stray_slot();
        match left {
            Ok(change) => {
                self.slots.note_change(&change, made)?;
                Ok(Ok(self.space.is_tidy(&self.slots, &change)))
            }
            Err(refusal) => Ok(Err(refusal)),
        }
    }

    /// The full slot of the thread's that has a number.
    pub(crate) fn held(&self, slot: u32) -> NotedSlot
        requires full { IsFull (own_slots self.now.space.windows.now (slots_of self.now.slots)) slot }
        ensures place { slot_of_key self.now.space.image.now result.key ≡ slot }
        ensures held { slot_at (slots_of self.now.slots) result.key ≡ Some result }
        ensures capability { result.capability ≡ capability_at (own_slots self.now.space.windows.now (slots_of self.now.slots)) slot }
    {
        let Some(key) = self.space.windows.key(slot) else {
            unreachable!()
        };
        let Some(held) = self.slots.at(key) else {
            unreachable!()
        };
        held
    }
}

impl HeldSlot<'_, '_, '_, '_> {
    /// What a call on what the slot holds leaves of the slots: those that it changes are put into the list, which is empty, and
    /// the answer is whether they are known to leave no stray slot where there was none. The kernel's error comes first, then
    /// that a pool is lost, and then that a program may make no such call. Memory may be refused.
    pub(crate) fn invoked(
        &self,
        at: Point,
        call: Invocation,
        made: &mut Vec<LogEntry>,
    ) -> Result<Result<bool, Refusal>, AllocError>
        requires fits { IsCallOn self.now.held.now.capability call }
        requires none { made.old.items ≡ [] }
        ensures tidy { IfOk result (IsTidyCall self.now.own.space.image.now self.now.own.space.thread.now (slots_of self.now.own.slots) made.new.items) }
        ensures made { IfOk result (λ done. held_after self.now.own.space.image.now self.now.own.space.thread.now at
            (slots_of self.now.own.slots) self.now.held.now call ≡ made_or_refused (slots_of self.now.own.slots) made.new.items done) }
    {
        let held = *self.held;
        match call {
            Invocation::OnUntyped { memory, call } => {
                let pool = Pool {
                    own: self.own,
                    held: self.held,
                    memory,
                };
                pool.retype(at, call, made)
            }
            Invocation::OnCNode { call } => {
                let root = OwnRoot {
                    own: self.own,
                    root: held.capability,
                };
                let left = root.cnode_call(at, call);
                self.own.note_left(left, made)
            }
            Invocation::OnFrame {
                held: allowed,
                call,
            } => {
                let left = self.frame_call(at, allowed, call);
                self.own.note_left(left, made)
            }
            Invocation::OnHandler { line, call } => {
                let left = self.own.handler_call(at, line, call);
                self.own.note_left(left, made)
            }
            // No thread has such a capability: it is a stray one.
            Invocation::OnThread { .. }
            | Invocation::OnTable { .. }
            | Invocation::OnControl { .. } => unreachable!(),
        }
    }
}
