//! Calls from the boot CNode, before threads run.

ghost use Rattle.std.specs.Prelude.{ℕ, ◌≡◌, List, Err, IfErr, IfOk, Ok, OnErr};
ghost use Rattle.model.specs.Kernel.Outcomes.{GivesState};
ghost use Rattle.kernel_machine.specs.perform_calls.Calls.{call_of};
ghost use Rattle.model.specs.Capabilities.CapabilityWords.{IsCapability};
ghost use Rattle.model.specs.Capabilities.Slots.{Slots};
ghost use Rattle.model.specs.Images.Boot.{boot_call, boot_root, made, performed};
ghost use Rattle.model.specs.Images.BootCalls.{loader_call};
ghost use Rattle.objects.specs.Lives.{state_in};
ghost use Rattle.soundness.specs.Calls.{IsCall};

use crate::perform_calls::{KernelCall, configure_with_guard, invoke};
use cnode_ops::Kernel;
use cspace::called_capability;
use invoke::Method;
use model::{Cap, KError, Slot};
use slots::SlotStore;

/// What names the boot CNode itself, and not one of its slots.
const BOOT_CNODE: u32 = 0xFFFF_FFFF;

/// The root of the capability space in which the system is set up: the boot CNode, whose slots are named by their
/// numbers at 32 bits.
fn boot_root<S: SlotStore>(kernel: &Kernel<S>) -> Cap
    ensures value { result ≡ boot_root (state_in S.slots S.memory kernel.now).boot_radix }
    ensures valid { IsCapability result }
{
    let radix = kernel.live.boot_radix();
    Cap::CNode {
        offset: 0,
        radix: radix as u8,
        guard: 32 - radix,
    }
}

/// What a call is made on: the boot CNode itself, or what a boot slot holds. Where there is nothing the lookup
/// failed (`FailedLookup`).
#[tactic(auto, unfolding(objects::specs::Tables::state_of))]
fn called<S: SlotStore>(kernel: &Kernel<S>, address: u32) -> Result<KernelCall, KError>
    ensures call { IfOk result (λ call. boot_call (state_in S.slots S.memory kernel.now) address ≡ Ok (call_of call)) }
    ensures sound { IfOk result (λ call. IsCall (state_in S.slots S.memory kernel.now) (call_of call)) }
    ensures refused { IfErr result (λ error. boot_call (state_in S.slots S.memory kernel.now) address ≡ Err error) }
{
    let root = boot_root(kernel);
    if address == BOOT_CNODE {
        return Ok(KernelCall {
            root,
            caller: None,
            slot: Slot::new(0),
            capability: root,
        });
    }
    let live = &kernel.live;
    match called_capability(&live.store, root, address) {
        Ok(called) => Ok(KernelCall {
            root,
            caller: None,
            slot: called.0,
            capability: called.1,
        }),
        Err(_) => Err(KError::FailedLookup),
    }
}

/// Performs a call: Configure has a sixth word here, the guard word of the thread's CNode.
fn perform<S: SlotStore>(
    kernel: &mut Kernel<S>,
    call: KernelCall,
    label: u32,
    words: &[u32],
) -> Result<(), KError>
    requires call { IsCall (state_in S.slots S.memory kernel.old) (call_of call) }
    ensures outcome { GivesState (performed (state_in S.slots S.memory kernel.old) label words.now (call_of call)) result
        (state_in S.slots S.memory kernel.new) }
    ensures unchanged { OnErr result (kernel.new ≡ kernel.old) }
{
    if label == Method::Configure.label() {
        configure_with_guard(kernel, call, words)
    } else {
        invoke(kernel, call, label, 0, words)
    }
}

/// Makes a call on what an address names, as a thread would whose capability space is the boot CNode.
#[tactic(auto, unfolding(model::specs::Images::Boot::made))]
pub(crate) fn make_call<S: SlotStore>(
    kernel: &mut Kernel<S>,
    address: u32,
    label: u32,
    words: &[u32],
) -> Result<(), KError>
    ensures outcome { GivesState (made (state_in S.slots S.memory kernel.old) (loader_call address label words.now)) result
        (state_in S.slots S.memory kernel.new) }
    ensures unchanged { OnErr result (kernel.new ≡ kernel.old) }
{
    let call = match called(kernel, address) {
        Ok(call) => call,
        Err(error) => return Err(error),
    };
    perform(kernel, call, label, words)
}
