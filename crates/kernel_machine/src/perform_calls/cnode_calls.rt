//! Calls on CNodes.

ghost use Rattle.std.specs.Prelude.{◌≡◌, OnErr};
ghost use Rattle.model.specs.Kernel.Outcomes.{GivesState};
ghost use Rattle.kernel_machine.specs.perform_calls.Calls.{call_of};
ghost use Rattle.model.specs.Kernel.Invocations.{perform};
ghost use Rattle.model.specs.declared.invocations.Invocation.TheVariants.{OnCNode};
ghost use Rattle.objects.specs.Lives.{state_in};
ghost use Rattle.soundness.specs.Calls.{IsCall};

use crate::perform_calls::KernelCall;
use cnode_ops::{Kernel, NodeCall, copy, delete, mint, move_cap, mutate, revoke};
use model::{CNodeCall, KError};
use slots::SlotStore;

/// Copies, moves and removes capabilities in the slots of a CNode.
///
/// seL4 Reference Manual, seL4_CNode.
pub(crate) fn on_cnode<S: SlotStore>(
    kernel: &mut Kernel<S>,
    call: KernelCall,
    asked: CNodeCall,
) -> Result<(), KError>
    requires call { IsCall (state_in S.slots S.memory kernel.old) (call_of call) }
    ensures outcome { GivesState (perform (state_in S.slots S.memory kernel.old) (call_of call) (OnCNode asked)) result
        (state_in S.slots S.memory kernel.new) }
    ensures unchanged { OnErr result (kernel.new ≡ kernel.old) }
{
    // Both are capabilities, since a kernel's state is sound.
    let _live = &kernel.live;
    let on = NodeCall {
        root: call.root,
        node: call.capability,
    };
    match asked {
        CNodeCall::Copy {
            destination,
            source,
            rights,
        } => {
            let live = &mut kernel.live;
            copy(&mut live.store, on, destination, source, rights)
        }
        CNodeCall::Mint {
            destination,
            source,
            rights,
            payload,
        } => {
            let live = &mut kernel.live;
            mint(&mut live.store, on, destination, source, rights, payload)
        }
        CNodeCall::Move {
            destination,
            source,
        } => {
            let live = &mut kernel.live;
            move_cap(&mut live.store, on, destination, source)
        }
        CNodeCall::Mutate {
            destination,
            source,
            payload,
        } => {
            let live = &mut kernel.live;
            mutate(&mut live.store, on, destination, source, payload)
        }
        CNodeCall::Delete { slot } => delete(kernel, on, slot),
        CNodeCall::Revoke { slot } => revoke(kernel, on, slot),
    }
}
