//! What the capability space and the address space of a thread are copied from.

ghost use Rattle.std.specs.Prelude.{◌≡◌, ◌+◌, ◌/◌, ◌^◌, ◌<◌, ◌&&◌, IfOk, IsSome, nat_lt, not};
ghost use Rattle.model.specs.Capabilities.CapabilityKinds.{cnode_of};
ghost use Rattle.model.specs.Capabilities.CapabilityWords.{IsCapability};
ghost use Rattle.model.specs.Capabilities.Slots.{IsFull, depth_of, is_full};
ghost use Rattle.model.specs.Kernel.State.{cspace_slot, vspace_slot};
ghost use Rattle.model.specs.Kernel.ThreadCalls.{given_guard_fits, with_guard};
ghost use Rattle.tcb_ops.specs.Configuring.{cnode_source, root_source, room_for_spaces, sources};

use capwords::is_guard_word;
use cspace::source_slot;
use model::{Cap, KError, Slot, SlotName};
use slots::{SlotMap, SlotStore, is_taken};

/// How many slots lead up from the deepest slot.
const DEEPEST: u32 = 255;

/// What a thread is configured with: its spaces, by the names of the slots that they are copied from.
#[derive(Clone, Copy)]
pub struct Spaces {
    /// The CNode of its capability space.
    pub cspace: SlotName,
    /// The guard word that the copy of the CNode's capability gets, or none.
    pub guard: Option<u32>,
    /// The root table of its address space.
    pub vspace: SlotName,
    /// The capability address of the endpoint that takes its faults, or 0.
    pub fault_address: u32,
}

/// The slots that a thread's spaces are copied from.
#[derive(Clone, Copy)]
pub(crate) struct Sources {
    pub(crate) cspace: Slot,
    pub(crate) vspace: Slot,
}

/// The slot of this name, which has to hold the capability of a CNode: errors as [`source_slot`] has
/// them, and then another capability is an `InvalidCapability`.
fn cnode_source<S: SlotMap>(slots: &S, root: Cap, name: SlotName) -> Result<Slot, KError>
    requires { IsCapability root }
    ensures value { result ≡ cnode_source (S.slots slots.now) root name }
    ensures full { IfOk result (IsFull (S.slots slots.now)) }
{
    let slot = source_slot(slots, root, name)?;
    match slots.capability(slot) {
        Cap::CNode { .. } => Ok(slot),
        _ => Err(KError::InvalidCapability),
    }
}

/// The slot of this name, which has to hold the capability of a root table: errors as [`source_slot`]
/// has them, and then another capability is an `InvalidCapability`.
fn root_source<S: SlotMap>(slots: &S, root: Cap, name: SlotName) -> Result<Slot, KError>
    requires { IsCapability root }
    ensures value { result ≡ root_source (S.slots slots.now) root name }
    ensures full { IfOk result (IsFull (S.slots slots.now)) }
{
    let slot = source_slot(slots, root, name)?;
    match slots.capability(slot) {
        Cap::RootTable { .. } => Ok(slot),
        _ => Err(KError::InvalidCapability),
    }
}

/// Whether a word may be the guard word of a CNode's capability, if one is given.
fn given_guard_fits(capability: Cap, guard: Option<u32>) -> bool
    ensures { result ≡ given_guard_fits capability guard }
{
    match (capability, guard) {
        (Cap::CNode { radix, .. }, Some(word)) => is_guard_word(radix, word),
        _ => true,
    }
}

/// A CNode's capability with a guard word, if one is given.
pub(crate) fn with_guard(capability: Cap, guard: Option<u32>) -> Cap
    requires { IsSome (cnode_of capability) }
    ensures { result ≡ with_guard capability guard }
{
    match (capability, guard) {
        (Cap::CNode { offset, radix, .. }, Some(guard)) => Cap::CNode {
            offset,
            radix,
            guard,
        },
        (unchanged, _) => unchanged,
    }
}

/// Whether a capability may be derived from the one in a full slot: no slot is deeper than 255.
pub(crate) fn may_have_child<S: SlotStore>(store: &S, slot: Slot) -> bool
    requires { IsFull (S.slots store.now) slot }
    ensures { result ≡ nat_lt (depth_of (S.slots store.now) slot) 255 }
{
    store.depth(slot) < DEEPEST
}

/// Whether both slots of a thread are empty.
fn has_empty_slots<S: SlotMap>(slots: &S, thread: u32) -> bool
    requires { thread / 16 + 1 < 2 ^ 20 }
    ensures { result ≡ (not (is_full (S.slots slots.now) (cspace_slot thread)) && not (is_full (S.slots slots.now) (vspace_slot thread))) }
{
    let own = thread / 16;
    !is_taken(slots, Slot::new(own)) && !is_taken(slots, Slot::new(own + 1))
}

/// Whether the copies may come. The first check that fails gives the error: a slot of the thread is full
/// (`DeleteFirst`), the guard word is none of the CNode (`IllegalOperation`), a source is of depth 255
/// (`IllegalOperation`).
fn room_for_spaces<S: SlotStore>(
    store: &S,
    thread: u32,
    guard: Option<u32>,
    from: &Sources,
) -> Result<(), KError>
    requires near { thread / 16 + 1 < 2 ^ 20 }
    requires cspace { IsFull (S.slots store.now) from.now.cspace }
    requires vspace { IsFull (S.slots store.now) from.now.vspace }
    ensures { result ≡ room_for_spaces (S.slots store.now) thread guard from.now.cspace from.now.vspace }
{
    if !has_empty_slots(store, thread) {
        return Err(KError::DeleteFirst);
    }
    if !given_guard_fits(store.capability(from.cspace), guard) {
        return Err(KError::IllegalOperation);
    }
    if !may_have_child(store, from.cspace) {
        return Err(KError::IllegalOperation);
    }
    if !may_have_child(store, from.vspace) {
        return Err(KError::IllegalOperation);
    }
    Ok(())
}

/// The slots that a thread's spaces are copied from, once all checks have passed.
pub(crate) fn named_sources<S: SlotStore>(
    store: &S,
    root: Cap,
    thread: u32,
    spaces: Spaces,
) -> Result<Sources, KError>
    requires valid { IsCapability root }
    requires near { thread / 16 + 1 < 2 ^ 20 }
    ensures { result ≡ sources (S.slots store.now) root thread spaces.guard spaces.cspace spaces.vspace }
{
    let cspace = cnode_source(store, root, spaces.cspace)?;
    let vspace = root_source(store, root, spaces.vspace)?;
    let from = Sources { cspace, vspace };
    room_for_spaces(store, thread, spaces.guard, &from)?;
    Ok(from)
}
