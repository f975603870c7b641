//! System calls: what has to be known of each, and what is known after those that are no calls on capabilities.
//! seL4 Reference Manual, "System Calls"; which of them are accepted is this project's own.

ghost use Rattle.std.specs.Prelude.{◌≡◌, IfOk, List, Some};
ghost use Rattle.model.specs.Acceptance.CallRules.{after_call, by_number, known, send_rule};
ghost use Rattle.model.specs.Acceptance.Measures.{Measure};
ghost use Rattle.model.specs.Acceptance.NotedStates.{NotedSlot, PointState};
ghost use Rattle.model.specs.Images.Image.{Image, Thread};
ghost use Rattle.model.specs.Kernel.Steps.{call_of};
ghost use Rattle.model.specs.Machine.Instructions.{IsRegister};
ghost use Rattle.typestate.specs.declared.system_calls.Kind.TheVariants.{Receives, Sends};
ghost use Rattle.model.specs.declared.refusals.Point.{Point};
ghost use Rattle.typestate.specs.Calls.{by_kind, found_call, goes_on, known_with};
ghost use Rattle.typestate.specs.Differences.{slots_of};
ghost use Rattle.typestate.specs.Invocations.{CalledOf, HoldsFull};
ghost use Rattle.typestate.specs.Spaces.{own_slots};

use crate::behind::Behind;
use crate::plain_calls::{EndpointCap, receive_rule, sends_message, sends_signal};
use crate::{OwnSlots, Space, ThreadSlots};
use cspace::called_slot;
use model::{
    Cap, KError, Point, ReceiveCall, Refusal, Register, SendCall, Slot, SystemCall as NumberedCall,
};
use ranges::Bounds;
use slots::SlotMap;

/// What a system call asks for.
#[derive(Clone, Copy)]
pub(crate) enum Kind {
    /// Call, Send and NBSend.
    Sends(SendCall),
    /// Recv and ReplyRecv, which wait, and NBRecv, which does not.
    Receives { is_wait: bool },
    /// Reply, Yield and PutChar, which need nothing and change neither registers nor slots.
    Passes,
}

/// A system call that is not refused so far.
#[derive(Clone, Copy)]
pub enum SystemCall {
    /// It leaves the slots as they are, and this of the registers.
    Plain(Behind),
    /// A call on the capability in the slot of this number, and whether it has an answer.
    Invokes {
        slot: u32,
        capability: Cap,
        answers: bool,
    },
}

/// What a system call asks for.
fn kind_of(call: NumberedCall) -> Kind
    ensures { (image : Image) (t : Thread) (at : Point) (state : PointState) → by_number image t at state (Some call) ≡ by_kind image t at state (Some result) }
{
    match call {
        NumberedCall::Sends(kind) => Kind::Sends(kind),
        NumberedCall::Receives(ReceiveCall::Receiving) => Kind::Receives { is_wait: true },
        NumberedCall::Receives(ReceiveCall::Polling) => Kind::Receives { is_wait: false },
        NumberedCall::RepliesAndReceives => Kind::Receives { is_wait: true },
        NumberedCall::Replies => Kind::Passes,
        NumberedCall::Yields => Kind::Passes,
        NumberedCall::PutsCharacter => Kind::Passes,
    }
}

/// What the system call of a number asks for.
fn kind_of_number(number: u32) -> Option<Kind>
    ensures { (image : Image) (t : Thread) (at : Point) (state : PointState) → by_number image t at state (call_of number) ≡ by_kind image t at state result }
{
    match NumberedCall::of_number(number) {
        Some(call) => Some(kind_of(call)),
        None => None,
    }
}

/// The value of a register that has to have one.
pub(crate) fn known(at: Point, bounds: &Bounds, register: Register) -> Result<u32, Refusal>
    requires { IsRegister register }
    ensures { (slots : List NotedSlot) (measure : Measure) → result ≡ known at (known_with bounds.now slots measure) register }
{
    match bounds.get(register).value() {
        Some(value) => Ok(value),
        None => Err(Refusal::CallNotConstant(at)),
    }
}

/// What a send by this capability is, which is in this slot.
fn sends(
    space: &Space<'_, '_>,
    at: Point,
    bounds: &Bounds,
    kind: SendCall,
    slot: Slot,
    capability: Cap,
) -> Result<SystemCall, Refusal>
    ensures value { (t : Thread) (slots : List NotedSlot) (measure : Measure)
        → send_rule space.now.image.now t at (known_with bounds.now slots measure) kind slot capability
        ≡ goes_on space.now.image.now t at (known_with bounds.now slots measure) result }
    ensures named { CalledOf (λ called held. (called ≡ slot) × (held ≡ capability)) result }
{
    let left = match capability {
        Cap::Endpoint {
            offset,
            rights,
            badge,
        } => {
            let endpoint = EndpointCap {
                offset,
                rights,
                badge,
            };
            sends_message(space, at, bounds, kind, endpoint)
        }
        Cap::Notification { rights, .. } => sends_signal(at, bounds, kind, rights),
        _ => {
            return Ok(SystemCall::Invokes {
                slot: slot.number(),
                capability,
                answers: matches!(kind, SendCall::Calling),
            });
        }
    };
    match left {
        Ok(behind) => Ok(SystemCall::Plain(behind)),
        Err(refusal) => Err(refusal),
    }
}

impl ThreadSlots<'_, '_, '_> {
    /// The slot that a system call names, and the capability in it.
    fn called(&self, at: Point, bounds: &Bounds) -> Result<(Slot, Cap), Refusal>
        ensures value { (measure : Measure) → result
            ≡ found_call at (known_with bounds.now (slots_of self.now.slots) measure)
            (own_slots self.now.space.windows.now (slots_of self.now.slots)) self.now.space.root }
        ensures held { IfOk result (λ found. HoldsFull (own_slots self.now.space.windows.now (slots_of self.now.slots)) found.0 found.1) }
    {
        let address = match known(at, bounds, Register::A0) {
            Ok(address) => address,
            Err(refusal) => return Err(refusal),
        };
        let own = OwnSlots {
            windows: self.space.windows,
            slots: self.slots,
        };
        match called_slot(&own, self.space.root, address) {
            Ok(slot) => Ok((slot, own.capability(slot))),
            Err(_) => Err(Refusal::CapNotThere(at)),
        }
    }

    /// The system call at a point, up to where a call on a capability begins. No slot may hold what leads outside of the
    /// thread's CNodes: such slots are refused before.
    ///
    /// # Errors
    ///
    /// What is not known of the call, or is not allowed, as a refusal of the image at this point.
    pub fn system_call(&self, at: Point, bounds: &Bounds) -> Result<SystemCall, Refusal>
        ensures value { (measure : Measure) → after_call self.now.space.image.now self.now.space.thread.now at
            (known_with bounds.now (slots_of self.now.slots) measure)
            ≡ goes_on self.now.space.image.now self.now.space.thread.now at (known_with bounds.now (slots_of self.now.slots) measure) result }
        ensures held { CalledOf (HoldsFull (own_slots self.now.space.windows.now (slots_of self.now.slots))) result }
    {
        let number = match known(at, bounds, Register::A7) {
            Ok(number) => number,
            Err(refusal) => return Err(refusal),
        };
        match kind_of_number(number) {
            None => Err(Refusal::CallRefused(at, KError::IllegalOperation)),
            Some(Kind::Passes) => Ok(SystemCall::Plain(Behind::unchanged(bounds, false))),
            Some(Kind::Receives { is_wait }) => self.receives(at, bounds, is_wait),
            Some(Kind::Sends(kind)) => self.sends(at, bounds, kind),
        }
    }

    /// A receive.
    fn receives(&self, at: Point, bounds: &Bounds, is_wait: bool) -> Result<SystemCall, Refusal>
        ensures value { (measure : Measure) → by_kind self.now.space.image.now self.now.space.thread.now at
            (known_with bounds.now (slots_of self.now.slots) measure) (Some (Receives is_wait))
            ≡ goes_on self.now.space.image.now self.now.space.thread.now at (known_with bounds.now (slots_of self.now.slots) measure) result }
        ensures held { CalledOf (HoldsFull (own_slots self.now.space.windows.now (slots_of self.now.slots))) result }
    {
        match self.called(at, bounds) {
            Err(refusal) => Err(refusal),
            Ok((_, capability)) => match receive_rule(
                &self.space,
                at,
                bounds,
                is_wait,
                capability,
            ) {
                Ok(behind) => Ok(SystemCall::Plain(behind)),
                Err(refusal) => Err(refusal),
            },
        }
    }

    /// A send.
    fn sends(&self, at: Point, bounds: &Bounds, kind: SendCall) -> Result<SystemCall, Refusal>
        ensures value { (measure : Measure) → by_kind self.now.space.image.now self.now.space.thread.now at
            (known_with bounds.now (slots_of self.now.slots) measure) (Some (Sends kind))
            ≡ goes_on self.now.space.image.now self.now.space.thread.now at (known_with bounds.now (slots_of self.now.slots) measure) result }
        ensures held { CalledOf (HoldsFull (own_slots self.now.space.windows.now (slots_of self.now.slots))) result }
    {
        match self.called(at, bounds) {
            Err(refusal) => Err(refusal),
            Ok((slot, capability)) => sends(&self.space, at, bounds, kind, slot, capability),
        }
    }
}
