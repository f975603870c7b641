//! What copies and moves ask of a capability, and what they make of it.
//! seL4 Reference Manual, "Capability-based Access Control", seL4_CNode.

ghost use Rattle.std.specs.Prelude.{◌≡◌, ◌≢◌, IfOk};
ghost use Rattle.derivation.specs.cap_copies.Copies.{copy_of, minted_copy_of, mutation_of};
ghost use Rattle.model.specs.Capabilities.CapabilityKinds.{badge_fits, carries_messages, copied, guard_fits, is_badged, may_be_copied, object_of, with_payload};
ghost use Rattle.model.specs.Capabilities.CapabilityWords.{IsCapability};

use capwords::is_guard_word;
use model::{Cap, KError};

/// The least number that is no badge.
const BADGE_LIMIT: u32 = 0x1000_0000;

/// Whether a capability may have a second one to the same object: untyped memory, page tables and
/// interrupt control have one each.
fn may_be_copied(capability: Cap) -> bool
    ensures { result ≡ may_be_copied capability }
{
    !matches!(
        capability,
        Cap::Untyped { .. } | Cap::PageTable { .. } | Cap::InterruptControl
    )
}

/// Whether a capability names an endpoint or a notification.
fn carries_messages(capability: Cap) -> bool
    ensures { result ≡ carries_messages capability }
{
    matches!(capability, Cap::Endpoint { .. } | Cap::Notification { .. })
}

/// Whether a capability has a badge other than 0.
fn is_badged(capability: Cap) -> bool
    ensures { result ≡ is_badged capability }
{
    match capability {
        Cap::Endpoint { badge, .. } | Cap::Notification { badge, .. } => badge != 0,
        _ => false,
    }
}

/// Whether a word may be the badge of a copy, if a copy has a badge.
fn badge_fits(capability: Cap, payload: u32) -> bool
    ensures { result ≡ badge_fits capability payload }
{
    !carries_messages(capability) || payload < BADGE_LIMIT
}

/// Whether a word may be the guard word of a copy, if a copy has a guard.
fn guard_fits(capability: Cap, payload: u32) -> bool
    ensures { result ≡ guard_fits capability payload }
{
    match capability {
        Cap::CNode { radix, .. } => is_guard_word(radix, payload),
        _ => true,
    }
}

/// The capability with those of its rights that a rights word has too, and without a mapping.
fn copied(capability: Cap, rights_word: u32) -> Cap
    ensures { result ≡ copied capability rights_word }
{
    match capability {
        Cap::Endpoint {
            offset,
            rights,
            badge,
        } => Cap::Endpoint {
            offset,
            rights: rights.of_word(rights_word),
            badge,
        },
        Cap::Notification {
            offset,
            rights,
            badge,
        } => Cap::Notification {
            offset,
            rights: rights.of_word(rights_word),
            badge,
        },
        Cap::Frame { offset, rights, .. } => Cap::Frame {
            offset,
            rights: rights.of_word(rights_word),
            mapping: None,
        },
        other => other,
    }
}

/// The capability with another badge or guard word. Other kinds have no use for the word.
fn with_payload(capability: Cap, payload: u32) -> Cap
    ensures { result ≡ with_payload capability payload }
{
    match capability {
        Cap::Endpoint { offset, rights, .. } => Cap::Endpoint {
            offset,
            rights,
            badge: payload,
        },
        Cap::Notification { offset, rights, .. } => Cap::Notification {
            offset,
            rights,
            badge: payload,
        },
        Cap::CNode { offset, radix, .. } => Cap::CNode {
            offset,
            radix,
            guard: payload,
        },
        other => other,
    }
}

/// A copy of a capability.
///
/// # Errors
///
/// The capability may not be copied (`IllegalOperation`).
pub fn copy_of(held: Cap, rights_word: u32) -> Result<Cap, KError>
    ensures value { result ≡ copy_of held rights_word }
    ensures kin { IfOk result (λ copy. object_of copy ≡ object_of held) }
    ensures valid { IsCapability held → IfOk result IsCapability }
{
    if !may_be_copied(held) {
        return Err(KError::IllegalOperation);
    }
    Ok(copied(held, rights_word))
}

/// A copy with a badge or a guard word.
///
/// # Errors
///
/// The first check that fails gives the error: the capability may not be copied or has a badge already (`IllegalOperation`),
/// the badge is too great (`RangeError`), the guard word is none of the CNode (`IllegalOperation`).
pub fn minted_copy_of(held: Cap, rights_word: u32, payload: u32) -> Result<Cap, KError>
    ensures value { result ≡ minted_copy_of held rights_word payload }
    ensures kin { IfOk result (λ copy. object_of copy ≡ object_of held) }
    ensures valid { IsCapability held → IfOk result IsCapability }
{
    if !may_be_copied(held) || is_badged(held) {
        return Err(KError::IllegalOperation);
    }
    if !badge_fits(held, payload) {
        return Err(KError::RangeError);
    }
    if !guard_fits(held, payload) {
        return Err(KError::IllegalOperation);
    }
    Ok(with_payload(copied(held, rights_word), payload))
}

/// The capability with another guard word, if it names a CNode.
///
/// # Errors
///
/// It is an endpoint's or a notification's, or the guard word is none of the CNode (`IllegalOperation`).
pub fn mutation_of(held: Cap, payload: u32) -> Result<Cap, KError>
    ensures value { result ≡ mutation_of held payload }
    ensures kin { IfOk result (λ left. object_of left ≡ object_of held) }
{
    if carries_messages(held) || !guard_fits(held, payload) {
        return Err(KError::IllegalOperation);
    }
    Ok(with_payload(held, payload))
}
