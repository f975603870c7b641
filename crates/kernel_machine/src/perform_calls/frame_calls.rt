//! Calls on frames.

ghost use Rattle.std.specs.Prelude.{ℕ, ◌≡◌, OnErr, Option};
ghost use Rattle.model.specs.Kernel.Outcomes.{GivesState};
ghost use Rattle.kernel_machine.specs.perform_calls.Calls.{AppliesTo, call_of};
ghost use Rattle.model.specs.Kernel.Invocations.{perform};
ghost use Rattle.model.specs.declared.capabilities.FrameMapping.{FrameMapping};
ghost use Rattle.model.specs.declared.invocations.Invocation.TheVariants.{OnFrame};
ghost use Rattle.objects.specs.Lives.{state_in};
ghost use Rattle.soundness.specs.Calls.{IsCall};

use crate::perform_calls::KernelCall;
use cnode_ops::Kernel;
use model::{Cap, FrameCall, KError, Rights};
use slots::SlotStore;
use vspace::{FrameCap, map_frame, unmap_cap};

/// The capability of the frame that a call is made on.
fn frame_of(call: KernelCall, held: Rights) -> FrameCap
    requires { (offset : ℕ) × (mapping : Option FrameMapping) × (call.capability ≡ Cap.Frame offset held mapping) }
    ensures slot { result.slot ≡ call.slot }
    ensures rights { result.rights ≡ held }
    ensures capability { call.capability ≡ Cap.Frame result.offset result.rights result.mapping }
{
    let Cap::Frame {
        offset,
        rights,
        mapping,
    } = call.capability
    else {
        unreachable!()
    };
    FrameCap {
        slot: call.slot,
        offset,
        rights,
        mapping,
    }
}

/// Maps a frame in an address space, or takes it out again.
///
/// seL4 Reference Manual, seL4_RISCV_Page.
pub(crate) fn on_frame<S: SlotStore>(
    kernel: &mut Kernel<S>,
    call: KernelCall,
    held: Rights,
    asked: FrameCall,
) -> Result<(), KError>
    requires call { IsCall (state_in S.slots S.memory kernel.old) (call_of call) }
    requires applies { AppliesTo call.capability (OnFrame held asked) }
    ensures outcome { GivesState (perform (state_in S.slots S.memory kernel.old) (call_of call) (OnFrame held asked)) result
        (state_in S.slots S.memory kernel.new) }
    ensures unchanged { OnErr result (kernel.new ≡ kernel.old) }
{
    match asked {
        FrameCall::MapFrame {
            root,
            address,
            rights,
        } => {
            let cspace = call.root;
            let frame = frame_of(call, held);
            let live = &mut kernel.live;
            map_frame(&mut live.store, cspace, frame, root, address, rights)
        }
        FrameCall::UnmapFrame => {
            let live = &mut kernel.live;
            unmap_cap(&mut live.store, call.slot);
            Ok(())
        }
    }
}
