//! The call that only the loader has.

ghost use Rattle.std.specs.Prelude.{◌≡◌, ◌+◌, ◌<◌, ◌≤◌, OnErr, Some, length};
ghost use Rattle.model.specs.Kernel.Outcomes.{GivesState};
ghost use Rattle.kernel_machine.specs.perform_calls.Calls.{call_of};
ghost use Rattle.model.specs.Capabilities.CapabilityKinds.{thread_of};
ghost use Rattle.model.specs.Kernel.CallForms.{slot_name, word};
ghost use Rattle.model.specs.Kernel.Invocations.{configure_with_guard};
ghost use Rattle.objects.specs.Lives.{state_in};
ghost use Rattle.soundness.specs.Calls.{IsCall};

use crate::perform_calls::KernelCall;
use cnode_ops::Kernel;
use model::{Cap, KError, SlotName};
use slots::SlotStore;
use tcb_ops::{Spaces, configure};

/// The thread that a capability names.
fn thread_of(capability: Cap) -> Option<u32>
    ensures { result ≡ thread_of capability }
{
    match capability {
        Cap::Tcb { offset } => Some(offset),
        _ => None,
    }
}

/// The slot that the word at an index and the next one name.
fn slot_name(words: &[u32], first: usize) -> SlotName
    requires { first + 1 < length words.now }
    ensures { result ≡ slot_name words.now first }
{
    SlotName {
        address: words[first],
        depth: words[first + 1],
    }
}

/// What a thread is configured with by the words of a call; the sixth is the guard word of its CNode.
fn spaces_of(words: &[u32]) -> Spaces
    requires { 6 ≤ length words.now }
    ensures cspace { result.cspace ≡ slot_name words.now 1 }
    ensures guard { result.guard ≡ Some (word words.now 5) }
    ensures vspace { result.vspace ≡ slot_name words.now 3 }
    ensures fault_address { result.fault_address ≡ word words.now 0 }
{
    Spaces {
        cspace: slot_name(words, 1),
        guard: Some(words[5]),
        vspace: slot_name(words, 3),
        fault_address: words[0],
    }
}

/// Configures a thread as the loader does, with a guard word for the copy of its CNode's capability as the sixth word.
///
/// seL4 Reference Manual, "System Bootstrapping".
///
/// # Errors
///
/// First the capability has to be a thread's (`IllegalOperation`), and no word may be missing (`TruncatedMessage`); then the
/// errors are those of Configure. Nothing changes then.
pub fn configure_with_guard<S: SlotStore>(
    kernel: &mut Kernel<S>,
    call: KernelCall,
    words: &[u32],
) -> Result<(), KError>
    requires call { IsCall (state_in S.slots S.memory kernel.old) (call_of call) }
    ensures outcome { GivesState (configure_with_guard (state_in S.slots S.memory kernel.old) (call_of call) words.now) result
        (state_in S.slots S.memory kernel.new) }
    ensures unchanged { OnErr result (kernel.new ≡ kernel.old) }
{
    let Some(thread) = thread_of(call.capability) else {
        return Err(KError::IllegalOperation);
    };
    if words.len() < 6 {
        return Err(KError::TruncatedMessage);
    }
    let spaces = spaces_of(words);
    configure(kernel, call.root, thread, spaces)
}
