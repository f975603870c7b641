//! Giving a thread a message buffer.

ghost use Rattle.std.specs.Prelude.{◌≡◌, OnErr};
ghost use Rattle.model.specs.Kernel.Outcomes.{GivesState};
ghost use Rattle.model.specs.Capabilities.CapabilityWords.{IsCapability};
ghost use Rattle.model.specs.Kernel.Soundness.{IsSound};
ghost use Rattle.model.specs.Kernel.ThreadCalls.{buffer_frame, set_buffer};
ghost use Rattle.objects.specs.Lives.{state_in};
ghost use Rattle.tcb_ops.specs.Buffers.{buffer_source};
ghost use Rattle.vspace.specs.Tables.{Holds};

use crate::spaces::may_have_child;
use cnode_ops::Kernel;
use cspace::source_slot;
use model::{Cap, KError, Rights, Slot, SlotName};
use slots::{SlotStore, is_taken};

/// Of a thread's own slots the one with the frame of its message buffer.
const BUFFER_SLOT: u32 = 2;

/// The slot that a thread's buffer is copied from, and the frame.
#[derive(Clone, Copy)]
struct BufferSource {
    slot: Slot,
    frame: u32,
}

/// The frame of a capability to read and write one.
fn buffer_frame(capability: Cap) -> Option<u32>
    ensures { result ≡ buffer_frame capability }
{
    match capability {
        Cap::Frame { offset, rights, .. } if rights.0 == Rights::OF_FRAME.0 => Some(offset),
        _ => None,
    }
}

/// What comes into a thread's own slot for its buffer, once all checks have passed. Errors are those of [`set_buffer`].
fn buffer_source<S: SlotStore>(
    store: &S,
    root: Cap,
    own: Slot,
    name: SlotName,
) -> Result<BufferSource, KError>
    requires { IsCapability root }
    ensures { result ≡ buffer_source (S.slots store.now) root own name }
{
    let slot = source_slot(store, root, name)?;
    let Some(frame) = buffer_frame(store.capability(slot)) else {
        return Err(KError::InvalidCapability);
    };
    if is_taken(store, own) {
        return Err(KError::DeleteFirst);
    }
    if !may_have_child(store, slot) {
        return Err(KError::IllegalOperation);
    }
    Ok(BufferSource { slot, frame })
}

/// An unmapped copy of a frame's capability comes into a thread's slot for its message buffer.
///
/// # Errors
///
/// The first check that fails gives the error: the name is wrong (`RangeError`, `FailedLookup`), the slot is empty
/// (`FailedLookup`), it holds another capability than one to read and write a frame (`InvalidCapability`), the thread has a
/// buffer (`DeleteFirst`), the slot is of depth 255 (`IllegalOperation`). Nothing changes then.
pub fn set_buffer<S: SlotStore>(
    kernel: &mut Kernel<S>,
    root: Cap,
    thread: u32,
    frame: SlotName,
) -> Result<(), KError>
    requires valid { IsSound (state_in S.slots S.memory kernel.old) → IsCapability root }
    requires held { Holds (S.slots kernel.old.store) (Cap.Tcb thread) }
    ensures outcome { GivesState (set_buffer (state_in S.slots S.memory kernel.old) root thread frame) result (state_in S.slots S.memory kernel.new) }
    ensures unchanged { OnErr result (kernel.new ≡ kernel.old) }
{
    let live = &mut kernel.live;
    let own = Slot::new(thread / 16 + BUFFER_SLOT);
    let from = buffer_source(&live.store, root, own, frame)?;
    let copy = Cap::Frame {
        offset: from.frame,
        rights: Rights::OF_FRAME,
        mapping: None,
    };
    live.store.insert(own, copy, Some(from.slot));
    Ok(())
}
