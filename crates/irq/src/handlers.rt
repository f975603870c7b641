//! The calls on interrupt control, and on handlers of interrupt lines.

ghost use Rattle.std.specs.Prelude.{ℕ, ◌≡◌, ◌/◌, ◌<◌, ◌≤◌, IfOk, OnErr, length};
ghost use Rattle.model.specs.Kernel.Outcomes.{GivesState};
ghost use Rattle.irq.specs.Handlers.{bound_source, handler_place};
ghost use Rattle.model.specs.Capabilities.CapabilityWords.{IsCapability};
ghost use Rattle.model.specs.Capabilities.Slots.{IsOpen, capability_at};
ghost use Rattle.model.specs.Kernel.Arguments.{Call};
ghost use Rattle.model.specs.Kernel.InterruptCalls.{bind, get_handler, may_be_bound};
ghost use Rattle.model.specs.Kernel.Removal.{delete};
ghost use Rattle.model.specs.Kernel.Soundness.{IsSound};
ghost use Rattle.model.specs.Kernel.State.{binding_slot};
ghost use Rattle.model.specs.declared.capabilities.Cap.TheVariants.{InterruptControl};
ghost use Rattle.objects.specs.Lives.{state_in};
ghost use Rattle.soundness.specs.Calls.{IsRoot};

use cnode_ops::{Kernel, may_have_child, remove_slot};
use cspace::{destination_slot, source_slot};
use model::{Cap, KError, Slot, SlotName};
use objects::Line;
use slots::SlotStore;

/// The empty slot of this name, for a handler of a line below the slot of interrupt control. Errors are
/// those of [`get_handler`].
fn handler_place<S: SlotStore>(
    store: &S,
    root: Cap,
    slot: Slot,
    line: u32,
    name: SlotName,
) -> Result<Slot, KError>
    requires valid { IsCapability root }
    requires there { IsOpen (S.slots store.now) slot }
    ensures value { result ≡ handler_place (S.slots store.now) (length (S.memory store.now) / 16) root slot line name }
    ensures few { IfOk result (λ _. line ≤ 63) }
{
    if line > 63 {
        return Err(KError::RangeError);
    }
    if store.is_handled(line as u8) {
        return Err(KError::RevokeFirst);
    }
    let place = destination_slot(store, root, name)?;
    may_have_child(store, slot)?;
    Ok(place)
}

/// Makes the one handler of a line: a child of interrupt control, which is in `slot`.
///
/// seL4 Reference Manual, seL4_IRQControl_Get.
///
/// # Errors
///
/// The first check that fails gives the error: the line is above 63 (`RangeError`); it has a handler (`RevokeFirst`); the
/// destination's name is wrong (`RangeError`, `FailedLookup`), or it is full (`DeleteFirst`); interrupt control is of depth
/// 255 (`IllegalOperation`). Nothing changes then.
pub fn get_handler<S: SlotStore>(
    kernel: &mut Kernel<S>,
    root: Cap,
    slot: Slot,
    line: u32,
    destination: SlotName,
) -> Result<(), KError>
    requires root { IsRoot (state_in S.slots S.memory kernel.old) root }
    requires held { capability_at (S.slots kernel.old.store) slot ≡ InterruptControl }
    ensures outcome { (call : Call) → call.root ≡ root → call.slot ≡ slot
        → GivesState (get_handler (state_in S.slots S.memory kernel.old) call line destination) result
        (state_in S.slots S.memory kernel.new) }
    ensures unchanged { OnErr result (kernel.new ≡ kernel.old) }
{
    let live = &mut kernel.live;
    let place = handler_place(&live.store, root, slot, line, destination)?;
    let handler = Cap::InterruptHandler { line: line as u8 };
    live.store.insert(place, handler, Some(slot));
    Ok(())
}

/// Whether a line may be bound to what a capability names: to a notification that it lets be signalled.
fn may_be_bound(capability: Cap) -> bool
    ensures { result ≡ may_be_bound capability }
{
    match capability {
        Cap::Notification { rights, .. } => rights.may_write(),
        _ => false,
    }
}

/// The slot of this name, which holds what a line may be bound to. Errors are the first ones of [`bind`].
fn bound_source<S: SlotStore>(store: &S, root: Cap, name: SlotName) -> Result<Slot, KError>
    requires { IsCapability root }
    ensures { result ≡ bound_source (S.slots store.now) root name }
{
    let source = source_slot(store, root, name)?;
    if !may_be_bound(store.capability(source)) {
        return Err(KError::InvalidCapability);
    }
    may_have_child(store, source)?;
    Ok(source)
}

/// Binds a line, 0 to 63, to a notification: its slot gets a copy of the notification's capability, in place of what it
/// holds.
///
/// seL4 Reference Manual, seL4_IRQHandler_SetNotification.
///
/// # Errors
///
/// The first check that fails gives the error: the name is wrong (`RangeError`, `FailedLookup`) or its slot empty
/// (`FailedLookup`); the capability is no notification's, or may not be signalled (`InvalidCapability`); it is of depth 255
/// (`IllegalOperation`). Nothing changes then.
pub fn bind<S: SlotStore>(
    kernel: &mut Kernel<S>,
    root: Cap,
    line: u8,
    notification: SlotName,
) -> Result<(), KError>
    requires line { IsSound (state_in S.slots S.memory kernel.old) → line < 64 }
    requires root { IsRoot (state_in S.slots S.memory kernel.old) root }
    ensures outcome { (call : Call) → call.root ≡ root
        → GivesState (bind (state_in S.slots S.memory kernel.old) call line notification) result
        (state_in S.slots S.memory kernel.new) }
    ensures unchanged { OnErr result (kernel.new ≡ kernel.old) }
{
    let live = &kernel.live;
    let source = bound_source(&live.store, root, notification)?;
    let capability = live.store.capability(source);
    let binding = live.objects.binding(Line::new(line));
    remove_slot(kernel, binding)?;
    let bare = &mut kernel.live;
    bare.store.insert(binding, capability, Some(source));
    Ok(())
}

/// Takes away what a line, 0 to 63, is bound to, if it is bound.
///
/// seL4 Reference Manual, seL4_IRQHandler_Clear.
///
/// # Errors
///
/// That of [`remove_slot`]. Nothing changes then.
pub fn clear<S: SlotStore>(kernel: &mut Kernel<S>, line: u8) -> Result<(), KError>
    requires line { IsSound (state_in S.slots S.memory kernel.old) → line < 64 }
    ensures outcome { GivesState (delete (state_in S.slots S.memory kernel.old) (binding_slot (state_in S.slots S.memory kernel.old) line)) result
        (state_in S.slots S.memory kernel.new) }
    ensures unchanged { OnErr result (kernel.new ≡ kernel.old) }
{
    let live = &kernel.live;
    let binding = live.objects.binding(Line::new(line));
    remove_slot(kernel, binding)
}
