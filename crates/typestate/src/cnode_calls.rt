//! Calls on CNodes at a point: the slots that they name, the kernel's checks, and what they leave of the slots.
//! seL4 Reference Manual, "Capability-based Access Control", seL4_CNode.

ghost use Rattle.std.specs.Prelude.{ℕ, ◌≡◌, false, Err, IfOk};
ghost use Rattle.model.specs.Acceptance.CallRules.{may_travel};
ghost use Rattle.model.specs.Acceptance.NotedKernel.{noted_slots};
ghost use Rattle.model.specs.Capabilities.CapabilityKinds.{is_untyped};
ghost use Rattle.model.specs.Capabilities.CapabilityWords.{IsCapability};
ghost use Rattle.model.specs.Capabilities.Slots.{is_empty};
ghost use Rattle.model.specs.Kernel.Arguments.{argument_slot};
ghost use Rattle.model.specs.Images.Image.{Image, Thread};
ghost use Rattle.model.specs.declared.capabilities.Cap.{Cap};
ghost use Rattle.model.specs.declared.invocations.CNodeCall.TheVariants as calls;
ghost use Rattle.model.specs.declared.invocations.SlotName.{SlotName};
ghost use Rattle.typestate.specs.CNodeCalls.{AreEnds, NamesEnds, NamesSlot, allowed_slots, cnode_after, ends_of, with_child};
ghost use Rattle.typestate.specs.Differences.{slots_of};
ghost use Rattle.typestate.specs.SlotChanges.{left_or_refused};
ghost use Rattle.typestate.specs.Spaces.{AreOwn, StandsApart};

use crate::roots::OwnRoot;
use crate::{NotedSlot, NotedSlots, OwnSlots, Removed, SlotChange, SlotKey, ThreadSlots};
use cspace::argument_slot;
use derivation::{copy_of, minted_copy_of};
use model::{CNodeCall, Cap, KError, Point, Refusal, SlotName};

/// An empty slot, and a full one with what it holds.
#[derive(Clone, Copy)]
struct Ends {
    to: SlotKey,
    from: SlotKey,
    held: Cap,
}

/// Whether a slot with this capability is empty.
pub(crate) fn is_vacant(capability: Cap) -> bool
    ensures { result ≡ is_empty capability }
{
    matches!(capability, Cap::Empty)
}

/// Endpoints, notifications and frames are what a program may copy and move.
fn may_travel(capability: Cap) -> bool
    ensures { result ≡ may_travel capability }
{
    matches!(
        capability,
        Cap::Endpoint { .. } | Cap::Notification { .. } | Cap::Frame { .. }
    )
}

/// Whether a capability is to untyped memory.
fn is_pool(capability: Cap) -> bool
    ensures { result ≡ is_untyped capability }
{
    matches!(capability, Cap::Untyped { .. })
}

/// A call that puts a copy beside its source: the kernel's checks of the copy and of the source's depth, and then whether
/// the source may travel.
fn put_copy(
    slots: &NotedSlots<'_>,
    at: Point,
    ends: Ends,
    made: Result<Cap, KError>,
) -> Result<SlotChange, Refusal>
    requires valid { IfOk made IsCapability }
    requires made { IfOk made (λ capability. is_empty capability ≡ false) }
    ensures { (image : Image) (t : Thread) (root : Cap) (name : SlotName) (destination source : ℕ) → StandsApart image t → AreOwn image t (slots_of slots.now)
        → AreEnds image t (noted_slots image t (slots_of slots.now)) root name destination source ends
        → allowed_slots image t at (may_travel ends.held) (with_child (noted_slots image t (slots_of slots.now)) destination source made)
        ≡ left_or_refused (slots_of slots.now) result }
{
    let capability = match made {
        Ok(capability) => capability,
        Err(error) => return Err(Refusal::CallRefused(at, error)),
    };
    if !slots.may_have_child(ends.from) {
        return Err(Refusal::CallRefused(at, KError::IllegalOperation));
    }
    if !may_travel(ends.held) {
        return Err(Refusal::CallRefused(at, KError::IllegalOperation));
    }
    Ok(SlotChange::Puts(NotedSlot {
        key: ends.to,
        capability,
        parent: Some(ends.from),
    }))
}

impl OwnRoot<'_, '_, '_> {
    /// The slot of this name under the root, with the capability in it, or the kernel's error.
    fn named(&self, name: SlotName) -> Result<(SlotKey, Cap), KError>
        ensures value { let all = noted_slots self.now.own.space.image.now self.now.own.space.thread.now (slots_of self.now.own.slots) in
            NamesSlot self.now.own.space.image.now self.now.own.space.thread.now all (argument_slot all self.now.root name) result }
        ensures valid { IfOk result (λ found. IsCapability found.1) }
    {
        let own = OwnSlots {
            windows: self.own.space.windows,
            slots: self.own.slots,
        };
        let slot = match argument_slot(&own, self.root, name) {
            Ok(slot) => slot,
            Err(error) => return Err(error),
        };
        match self.own.space.windows.key(slot.number()) {
            Some(key) => Ok((key, self.own.slots.capability(key))),
            None => unreachable!(),
        }
    }

    /// The empty slot and the full one that a call names, or the kernel's error.
    fn ends(&self, destination: SlotName, source: SlotName) -> Result<Ends, KError>
        ensures value { let all = noted_slots self.now.own.space.image.now self.now.own.space.thread.now (slots_of self.now.own.slots) in
            NamesEnds self.now.own.space.image.now self.now.own.space.thread.now all self.now.own.space.root source
            (ends_of all self.now.root self.now.own.space.root destination source) result }
        ensures valid { IfOk result (λ ends. IsCapability ends.held) }
    {
        let (to, there) = match self.named(destination) {
            Ok(found) => found,
            Err(error) => return Err(error),
        };
        if !is_vacant(there) {
            return Err(KError::DeleteFirst);
        }
        let (from, held) = match self.own.named(source) {
            Ok(found) => found,
            Err(error) => return Err(error),
        };
        if is_vacant(held) {
            return Err(KError::FailedLookup);
        }
        Ok(Ends { to, from, held })
    }

    /// Copy.
    fn copy(
        &self,
        at: Point,
        destination: SlotName,
        source: SlotName,
        rights_word: u32,
    ) -> Result<SlotChange, Refusal>
        ensures { cnode_after self.now.own.space.image.now self.now.own.space.thread.now at (slots_of self.now.own.slots) self.now.root
            (calls.Copy destination source rights_word) ≡ left_or_refused (slots_of self.now.own.slots) result }
    {
        let ends = match self.ends(destination, source) {
            Ok(ends) => ends,
            Err(error) => return Err(Refusal::CallRefused(at, error)),
        };
        put_copy(&self.own.slots, at, ends, copy_of(ends.held, rights_word))
    }

    /// Mint: a copy with a badge or a guard word.
    fn mint(
        &self,
        at: Point,
        destination: SlotName,
        source: SlotName,
        rights_word: u32,
        payload: u32,
    ) -> Result<SlotChange, Refusal>
        ensures { cnode_after self.now.own.space.image.now self.now.own.space.thread.now at (slots_of self.now.own.slots) self.now.root
            (calls.Mint destination source rights_word payload) ≡ left_or_refused (slots_of self.now.own.slots) result }
    {
        let ends = match self.ends(destination, source) {
            Ok(ends) => ends,
            Err(error) => return Err(Refusal::CallRefused(at, error)),
        };
        put_copy(
            &self.own.slots,
            at,
            ends,
            minted_copy_of(ends.held, rights_word, payload),
        )
    }

    /// Move: a program may not lose sight of its pools.
    fn moves(
        &self,
        at: Point,
        destination: SlotName,
        source: SlotName,
    ) -> Result<SlotChange, Refusal>
        ensures { cnode_after self.now.own.space.image.now self.now.own.space.thread.now at (slots_of self.now.own.slots) self.now.root
            (calls.Move destination source) ≡ left_or_refused (slots_of self.now.own.slots) result }
    {
        let ends = match self.ends(destination, source) {
            Ok(ends) => ends,
            Err(error) => return Err(Refusal::CallRefused(at, error)),
        };
        if is_pool(ends.held) {
            return Err(Refusal::PoolLost(at));
        }
        if !may_travel(ends.held) {
            return Err(Refusal::CallRefused(at, KError::IllegalOperation));
        }
        Ok(SlotChange::Moves {
            from: ends.from,
            to: NotedSlot {
                key: ends.to,
                capability: ends.held,
                parent: self.own.slots.parent(ends.from),
            },
        })
    }

    /// Mutate, which is none of a program's calls: the kernel's errors come first.
    fn mutate(&self, at: Point, destination: SlotName, source: SlotName) -> Refusal
        ensures { (payload : ℕ) → cnode_after self.now.own.space.image.now self.now.own.space.thread.now at (slots_of self.now.own.slots) self.now.root
            (calls.Mutate destination source payload) ≡ Err result }
    {
        match self.ends(destination, source) {
            Ok(_) => Refusal::CallRefused(at, KError::IllegalOperation),
            Err(error) => Refusal::CallRefused(at, error),
        }
    }

    /// Delete: a program may not lose its pools. Nothing happens to an empty slot.
    fn delete(&self, at: Point, name: SlotName) -> Result<SlotChange, Refusal>
        ensures { cnode_after self.now.own.space.image.now self.now.own.space.thread.now at (slots_of self.now.own.slots) self.now.root (calls.Delete name)
            ≡ left_or_refused (slots_of self.now.own.slots) result }
    {
        let (key, held) = match self.named(name) {
            Ok(found) => found,
            Err(error) => return Err(Refusal::CallRefused(at, error)),
        };
        if is_pool(held) {
            return Err(Refusal::PoolLost(at));
        }
        if is_vacant(held) {
            return Ok(SlotChange::Nothing);
        }
        Ok(SlotChange::Removes(Removed::One(key)))
    }

    /// Revoke: what descends from a slot goes.
    fn revoke(&self, at: Point, name: SlotName) -> Result<SlotChange, Refusal>
        ensures { cnode_after self.now.own.space.image.now self.now.own.space.thread.now at (slots_of self.now.own.slots) self.now.root (calls.Revoke name)
            ≡ left_or_refused (slots_of self.now.own.slots) result }
    {
        let (key, _) = match self.named(name) {
            Ok(found) => found,
            Err(error) => return Err(Refusal::CallRefused(at, error)),
        };
        Ok(SlotChange::Removes(Removed::Below(key)))
    }

    /// What a call on the CNode of the root leaves of the slots, or why it is refused: the kernel's error comes first, then
    /// that a pool is lost, and then that a program may not move or copy what its source holds.
    pub(crate) fn cnode_call(&self, at: Point, call: CNodeCall) -> Result<SlotChange, Refusal>
        ensures { cnode_after self.now.own.space.image.now self.now.own.space.thread.now at (slots_of self.now.own.slots) self.now.root call
            ≡ left_or_refused (slots_of self.now.own.slots) result }
    {
        match call {
            CNodeCall::Copy {
                destination,
                source,
                rights,
            } => self.copy(at, destination, source, rights),
            CNodeCall::Mint {
                destination,
                source,
                rights,
                payload,
            } => self.mint(at, destination, source, rights, payload),
            CNodeCall::Move {
                destination,
                source,
            } => self.moves(at, destination, source),
            CNodeCall::Mutate {
                destination,
                source,
                ..
            } => Err(self.mutate(at, destination, source)),
            CNodeCall::Delete { slot } => self.delete(at, slot),
            CNodeCall::Revoke { slot } => self.revoke(at, slot),
        }
    }
}

impl ThreadSlots<'_, '_, '_> {
    /// The slot of this name under the root of the thread's capability space, with the capability in it, or the kernel's error.
    pub(crate) fn named(&self, name: SlotName) -> Result<(SlotKey, Cap), KError>
        ensures value { let all = noted_slots self.now.space.image.now self.now.space.thread.now (slots_of self.now.slots) in
            NamesSlot self.now.space.image.now self.now.space.thread.now all (argument_slot all self.now.space.root name) result }
        ensures valid { IfOk result (λ found. IsCapability found.1) }
    {
        let root = OwnRoot {
            own: *self,
            root: self.space.root,
        };
        root.named(name)
    }
}
