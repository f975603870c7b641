//! Performing a call on whatever capability it is made on.

ghost use Rattle.std.specs.Prelude.{◌≡◌, OnErr};
ghost use Rattle.model.specs.Kernel.Outcomes.{GivesState};
ghost use Rattle.kernel_machine.specs.perform_calls.Calls.{AppliesTo, call_of};
ghost use Rattle.model.specs.Kernel.Invocations.{invoke, perform};
ghost use Rattle.objects.specs.Lives.{state_in};
ghost use Rattle.soundness.specs.Calls.{IsCall};

use crate::perform_calls::KernelCall;
use crate::perform_calls::cnode_calls::on_cnode;
use crate::perform_calls::frame_calls::on_frame;
use crate::perform_calls::interrupt_calls::{on_control, on_handler};
use crate::perform_calls::table_calls::on_table;
use crate::perform_calls::thread_calls::on_thread;
use crate::perform_calls::untyped_calls::on_untyped;
use cnode_ops::Kernel;
use invoke::decode_call;
use model::{Invocation, KError};
use slots::SlotStore;

/// Performs a call on a capability that has it.
///
/// # Errors
///
/// That of the first check of the call that fails. Nothing changes then.
pub fn perform<S: SlotStore>(
    kernel: &mut Kernel<S>,
    call: KernelCall,
    invocation: Invocation,
) -> Result<(), KError>
    requires call { IsCall (state_in S.slots S.memory kernel.old) (call_of call) }
    requires applies { AppliesTo call.capability invocation }
    ensures outcome { GivesState (perform (state_in S.slots S.memory kernel.old) (call_of call) invocation) result
        (state_in S.slots S.memory kernel.new) }
    ensures unchanged { OnErr result (kernel.new ≡ kernel.old) }
{
    match invocation {
        Invocation::OnUntyped {
            memory,
            call: asked,
        } => on_untyped(kernel, call, memory, asked),
        Invocation::OnThread {
            thread,
            call: asked,
        } => on_thread(kernel, call, thread, asked),
        Invocation::OnCNode { call: asked } => on_cnode(kernel, call, asked),
        Invocation::OnFrame { held, call: asked } => on_frame(kernel, call, held, asked),
        Invocation::OnTable { call: asked } => on_table(kernel, call, asked),
        Invocation::OnControl { line, destination } => {
            on_control(kernel, call, line, destination)
        }
        Invocation::OnHandler { line, call: asked } => on_handler(kernel, call, line, asked),
    }
}

/// Decodes a message on a capability, and performs the call that it makes: `label` names the call, `extra` capabilities come
/// along, and `words` are those within the message's length.
///
/// seL4 Reference Manual, "System Calls".
///
/// # Errors
///
/// Those of decoding, and then those of the call. Nothing changes then.
pub fn invoke<S: SlotStore>(
    kernel: &mut Kernel<S>,
    call: KernelCall,
    label: u32,
    extra: u32,
    words: &[u32],
) -> Result<(), KError>
    requires call { IsCall (state_in S.slots S.memory kernel.old) (call_of call) }
    ensures outcome { GivesState (invoke (state_in S.slots S.memory kernel.old) (call_of call) label extra words.now) result
        (state_in S.slots S.memory kernel.new) }
    ensures unchanged { OnErr result (kernel.new ≡ kernel.old) }
{
    match decode_call(call.capability, label, extra, words) {
        Ok(invocation) => perform(kernel, call, invocation),
        Err(error) => Err(error),
    }
}
