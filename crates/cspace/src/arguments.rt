//! The slots that a call names.
//! seL4 Reference Manual, "Capability Space Addressing".

ghost use Rattle.std.specs.Prelude.{◌≡◌, not, IfOk};
ghost use Rattle.std.specs.Result.{result_map_both};
ghost use Rattle.model.specs.Kernel.Arguments.{argument_slot, destination_slot, source_slot};
ghost use Rattle.model.specs.Capabilities.CapabilityWords.{IsCapability};
ghost use Rattle.model.specs.Capabilities.Lookup.{called_slot};
ghost use Rattle.model.specs.Capabilities.Slots.{IsFull, capability_at, is_empty};

use crate::lookups::{Found, Start, find};
use model::{Cap, KError, LookupFailure, Slot, SlotName};
use slots::SlotMap;

/// Whether a slot that holds this is full.
fn is_some(capability: Cap) -> bool
    ensures { result ≡ not (is_empty capability) }
{
    !matches!(capability, Cap::Empty)
}

/// The slot of this name in the capability space of a root, with the capability in it.
fn find_argument<S: SlotMap>(slots: &S, root: Cap, name: SlotName) -> Result<Found, KError>
    requires { IsCapability root }
    ensures slot { result_map_both (λ found. found.slot) (λ error. error) result ≡ argument_slot (S.slots slots.now) root name }
    ensures held { IfOk result (λ found. capability_at (S.slots slots.now) found.slot ≡ found.capability) }
{
    if name.depth == 0 || name.depth > 32 {
        return Err(KError::RangeError);
    }
    match find(slots, &Start { root, name }) {
        Ok(found) if found.rest == 0 => Ok(found),
        _ => Err(KError::FailedLookup),
    }
}

/// The slot of this name in the capability space of a root.
///
/// # Errors
///
/// The depth is out of its range (`RangeError`), or the lookup fails or leaves bits of the name over (`FailedLookup`).
pub fn argument_slot<S: SlotMap>(slots: &S, root: Cap, name: SlotName) -> Result<Slot, KError>
    requires { IsCapability root }
    ensures { result ≡ argument_slot (S.slots slots.now) root name }
{
    match find_argument(slots, root, name) {
        Ok(found) => Ok(found.slot),
        Err(error) => Err(error),
    }
}

/// The slot of this name, which has to hold a capability.
///
/// # Errors
///
/// Those of [`argument_slot`]; then, the slot is empty (`FailedLookup`).
pub fn source_slot<S: SlotMap>(slots: &S, root: Cap, name: SlotName) -> Result<Slot, KError>
    requires { IsCapability root }
    ensures value { result ≡ source_slot (S.slots slots.now) root name }
    ensures full { IfOk result (IsFull (S.slots slots.now)) }
{
    match find_argument(slots, root, name) {
        Err(error) => Err(error),
        Ok(found) if is_some(found.capability) => Ok(found.slot),
        Ok(_) => Err(KError::FailedLookup),
    }
}

/// The slot of this name, which has to be empty.
///
/// # Errors
///
/// Those of [`argument_slot`]; then, the slot holds a capability (`DeleteFirst`).
pub fn destination_slot<S: SlotMap>(slots: &S, root: Cap, name: SlotName) -> Result<Slot, KError>
    requires { IsCapability root }
    ensures { result ≡ destination_slot (S.slots slots.now) root name }
{
    match find_argument(slots, root, name) {
        Err(error) => Err(error),
        Ok(found) if is_some(found.capability) => Err(KError::DeleteFirst),
        Ok(found) => Ok(found.slot),
    }
}

/// The slot that a system call names, with all 32 bits of the address to be used, and the capability in it; bits that
/// are left over are ignored.
///
/// # Errors
///
/// That of the lookup; then, the slot is empty (a missing capability).
#[inline(always)]
pub fn called_capability<S: SlotMap>(
    slots: &S,
    root: Cap,
    address: u32,
) -> Result<(Slot, Cap), LookupFailure>
    requires { IsCapability root }
    ensures slot { result_map_both (λ called. called.0) (λ failure. failure) result ≡ called_slot (S.slots slots.now) root address }
    ensures held { IfOk result (λ called. capability_at (S.slots slots.now) called.0 ≡ called.1) }
    ensures full { IfOk result (λ called. IsFull (S.slots slots.now) called.0) }
{
    let name = SlotName { address, depth: 32 };
    match find(slots, &Start { root, name }) {
        Err(failure) => Err(failure),
        Ok(found) if is_some(found.capability) => Ok((found.slot, found.capability)),
        Ok(_) => Err(LookupFailure::MissingCapability),
    }
}

/// The same slot alone.
///
/// # Errors
///
/// Those of [`called_capability`].
pub fn called_slot<S: SlotMap>(slots: &S, root: Cap, address: u32) -> Result<Slot, LookupFailure>
    requires { IsCapability root }
    ensures value { result ≡ called_slot (S.slots slots.now) root address }
    ensures full { IfOk result (IsFull (S.slots slots.now)) }
{
    match called_capability(slots, root, address) {
        Ok((slot, _)) => Ok(slot),
        Err(failure) => Err(failure),
    }
}
