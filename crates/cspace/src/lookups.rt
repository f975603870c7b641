//! From a capability address to a slot.

ghost use Rattle.std.specs.Prelude.{ℕ, ◌≡◌, ◌+◌, ◌/◌, ◌^◌, ◌%◌, ◌<◌, ◌≤◌, ◌==◌, ◌||◌, not, IfOk};
ghost use Rattle.std.specs.Result.{result_map_both};
ghost use Rattle.model.specs.Capabilities.CapabilityWords.{IsCapability, IsGuardWord, IsPlace};
ghost use Rattle.model.specs.Capabilities.Lookup.{is_cnode, lookup, resolve};
ghost use Rattle.model.specs.Capabilities.Slots.{capability_at};

use model::{Cap, LookupFailure, Slot, SlotName};
use slots::SlotMap;
use std::marker::Model;

/// A CNode as a capability names it.
#[derive(Clone, Copy)]
struct Node {
    radix: u8,
    guard: u32,
}

/// Where a lookup begins: the root of a capability space, and a name of at most 32 bits.
#[derive(Drop)]
pub(crate) struct Start {
    pub(crate) root: Cap,
    pub(crate) name: SlotName,
}

impl Model for Start {
    ghost use Rattle.std.specs.Prelude.{ℕ, ◌≤◌};
    ghost use Rattle.model.specs.Capabilities.CapabilityWords.{IsCapability};
    ghost use Rattle.model.specs.declared.capabilities.Cap.{Cap};
    ghost use Rattle.model.specs.declared.invocations.SlotName.{SlotName};

    ghost Value = { Cap × SlotName };

    ghost view = { λ start. (start.root, start.name) };

    ghost invariant = { λ start. IsCapability start.root × (start.name.depth ≤ 32) };
}

/// The slot that a lookup ends at, how many bits are left after it, and the capability in it.
#[derive(Clone, Copy)]
pub(crate) struct Found {
    pub(crate) slot: Slot,
    pub(crate) rest: u32,
    pub(crate) capability: Cap,
}

/// Whether a lookup ends at a slot: no bits are left, or the slot holds no CNode.
fn ends_at(rest: u32, held: Cap) -> bool
    ensures { result ≡ (rest == 0 || not (is_cnode held)) }
{
    rest == 0 || !matches!(held, Cap::CNode { .. })
}

/// The `count` bits of an address above the lowest `rest` ones.
fn bits_of(address: u32, rest: u32, count: u32) -> u32
    requires few { rest + count ≤ 32 }
    ensures { result ≡ address / 2 ^ rest % 2 ^ count }
{
    ((u64::from(address) >> rest) % (1u64 << count)) as u32
}

/// The index of the slot that a CNode resolves, with the bits that are left after it.
fn resolve(node: Node, address: u32, left: u32) -> Result<(u32, u32), LookupFailure>
    requires { left ≤ 32 }
    ensures value { result ≡ resolve node.radix node.guard address left }
    ensures index { IfOk result (λ place. place.0 < 2 ^ node.radix) }
    ensures fewer { IfOk result (λ place. place.1 + node.radix ≤ left) }
{
    let size = node.guard % 0x20;
    let taken = size + u32::from(node.radix);
    if left < size || bits_of(address, left - size, size) != node.guard / 0x20 {
        return Err(LookupFailure::GuardMismatch(left));
    }
    if left < taken {
        return Err(LookupFailure::DepthMismatch(left));
    }
    let rest = left - taken;
    Ok((bits_of(address, rest, u32::from(node.radix)), rest))
}

/// The slot that [`lookup`] finds, with what it holds: it is read to see whether the lookup ends there.
///
/// # Errors
///
/// Those of [`lookup`].
// (a capability has seven words: to hand one on in memory costs as much as to read it)
#[inline(always)]
pub(crate) fn find<S: SlotMap>(slots: &S, start: &Start) -> Result<Found, LookupFailure>
    ensures value { result_map_both (λ found. (found.slot, found.rest)) (λ failure. failure) result
        ≡ lookup (S.slots slots.now) start.now.0 start.now.1.address start.now.1.depth }
    ensures held { IfOk result (λ found. capability_at (S.slots slots.now) found.slot ≡ found.capability) }
{
    let name = start.name;
    let mut held = start.root;
    let mut left = name.depth;
    'nodes: loop {
        let Cap::CNode {
            offset,
            radix,
            guard,
        } = held
        else {
            return Err(LookupFailure::InvalidRoot);
        };
        let node = Node { radix, guard };
        let (index, rest) = match resolve(node, name.address, left) {
            Ok(place) => place,
            Err(failure) => return Err(failure),
        };
        let slot = Slot::new(offset / 16 + index);
        let next = slots.capability(slot);
        if ends_at(rest, next) {
            return Ok(Found {
                slot,
                rest,
                capability: next,
            });
        }
        held = next;
        left = rest;
    }
}

/// The slot that the low `depth` bits of an address name in the capability space of a root, and how many bits are left after
/// it. The address is read from its high end; the lookup ends where no bits are left, or in front of a slot that holds no
/// CNode.
///
/// # Errors
///
/// Where the lookup fails and why, with how many bits were left there ([`LookupFailure`]).
pub fn lookup<S: SlotMap>(
    slots: &S,
    root: Cap,
    address: u32,
    depth: u32,
) -> Result<(Slot, u32), LookupFailure>
    requires valid { IsCapability root }
    requires bits { depth ≤ 32 }
    ensures value { result ≡ lookup (S.slots slots.now) root address depth }
{
    let start = Start {
        root,
        name: SlotName { address, depth },
    };
    match find(slots, &start) {
        Ok(found) => Ok((found.slot, found.rest)),
        Err(failure) => Err(failure),
    }
}
