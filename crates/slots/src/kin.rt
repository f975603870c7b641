//! The object that a capability names, and the line that it is a handler of.

ghost use Rattle.std.specs.Prelude.{ℕ, ◌≡◌, ◌==◌, ◌&&◌, not, false};
ghost use Rattle.std.specs.Option.{option_map_or};
ghost use Rattle.model.specs.Capabilities.CapabilityKinds.{frame_of, is_handler_of, names_object, object_of};

use model::{Cap, Slot};

/// The object that a capability names, by its offset: untyped memory is no object, and a line is none.
pub fn object_of(capability: Cap) -> Option<u32>
    ensures { result ≡ object_of capability }
{
    match capability {
        Cap::Endpoint { offset, .. }
        | Cap::Notification { offset, .. }
        | Cap::CNode { offset, .. }
        | Cap::Frame { offset, .. }
        | Cap::PageTable { offset, .. }
        | Cap::Tcb { offset }
        | Cap::RootTable { offset } => Some(offset),
        Cap::Empty | Cap::Untyped { .. } | Cap::InterruptControl | Cap::InterruptHandler { .. } =>
            None,
    }
}

/// The frame that a capability names, by its offset, if it names one.
pub(crate) fn frame_of(capability: Cap) -> Option<u32>
    ensures { result ≡ frame_of capability }
{
    match capability {
        Cap::Frame { offset, .. } => Some(offset),
        _ => None,
    }
}

/// Whether a capability names the object at an offset.
pub(crate) fn names(capability: Cap, offset: u32) -> bool
    ensures { result ≡ names_object offset capability }
{
    object_of(capability) == Some(offset)
}

/// Whether a capability is a handler of a line.
pub fn is_handler_of(capability: Cap, line: u8) -> bool
    ensures { result ≡ is_handler_of line capability }
{
    match capability {
        Cap::InterruptHandler { line: handled } => handled == line,
        _ => false,
    }
}

/// Whether a slot is another than one, and what it names is the object at an offset.
pub(crate) fn names_too(named: Option<u32>, offset: u32, other: Slot, slot: Slot) -> bool
    ensures { result ≡ (not (other == slot) && option_map_or (λ named. named == offset) named false) }
{
    other.number() != slot.number() && named == Some(offset)
}

/// Whether a slot is not below a root, and what it names is the object at an offset.
pub(crate) fn names_beside(named: Option<u32>, offset: u32, is_below: bool) -> bool
    ensures { result ≡ (not is_below && option_map_or (λ named. named == offset) named false) }
{
    !is_below && named == Some(offset)
}
