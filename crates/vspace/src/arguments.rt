//! The root tables that the words of a call name.

ghost use Rattle.std.specs.Prelude.{◌≡◌, [], ◌∷◌, IfOk};
ghost use Rattle.model.specs.Capabilities.CapabilityWords.{IsCapability};
ghost use Rattle.model.specs.Kernel.MappingCalls.{root_named};
ghost use Rattle.vspace.specs.Tables.{Holds};

use cspace::source_slot;
use model::{Cap, KError, SlotName};
use slots::SlotMap;

/// The root table whose capability is in the slot of this name.
pub(crate) fn root_named<S: SlotMap>(slots: &S, cspace: Cap, name: SlotName) -> Result<u32, KError>
    requires valid { IsCapability cspace }
    ensures value { result
        ≡ root_named (S.slots slots.now) cspace name }
    ensures held { IfOk result (λ root. Holds (S.slots slots.now) (Cap.RootTable root)) }
{
    let slot = source_slot(slots, cspace, name)?;
    match slots.capability(slot) {
        Cap::RootTable { offset } => Ok(offset),
        _ => Err(KError::InvalidCapability),
    }
}
