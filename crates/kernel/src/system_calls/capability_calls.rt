//! Calls of threads on capabilities.

ghost use Rattle.std.specs.Prelude.{ℕ, ◌≡◌};
ghost use Rattle.kernel.specs.Named.{IsHeld};
ghost use Rattle.model.specs.Kernel.Messages.{a1, extra_capabilities_of, message_of};
ghost use Rattle.model.specs.Kernel.State.{thread_at};
ghost use Rattle.model.specs.Kernel.Steps.{invokes};
ghost use Rattle.model.specs.Machine.ProgramMemory.{read};
ghost use Rattle.objects.specs.Lives.{state_in};
ghost use Rattle.soundness.specs.Running.{IsRunning};

use crate::system_calls::answers::{complete, refuse};
use crate::system_calls::names::cspace_of;
use cnode_ops::Kernel;
use ipc::Message;
use kernel_machine::{KernelCall, invoke};
use model::{Cap, Outcome, Register, SendCall, Slot};
use slots::SlotStore;

/// The message in a thread's registers.
fn message_of<S: SlotStore>(kernel: &Kernel<S>, thread: u32) -> Message
    ensures { result ≡ message_of (thread_at (state_in S.slots S.memory kernel.now) thread) }
{
    Message::of(&kernel.live, thread)
}

/// How many capabilities a thread says that its message has.
fn extra_capabilities<S: SlotStore>(kernel: &Kernel<S>, thread: u32) -> u32
    ensures { result ≡ extra_capabilities_of (read (thread_at (state_in S.slots S.memory kernel.now) thread).registers a1) }
{
    kernel.live.register(thread, Register::A1) / 0x80 % 4
}

/// A thread calls what its capability does, by the message in its registers.
pub(crate) fn invoke_on<S: SlotStore>(
    kernel: &mut Kernel<S>,
    thread: u32,
    kind: SendCall,
    slot: Slot,
    capability: Cap,
) -> Outcome
    requires runs { IsRunning (state_in S.slots S.memory kernel.old) thread }
    requires held { IsHeld (state_in S.slots S.memory kernel.old) slot capability }
    ensures state { state_in S.slots S.memory kernel.new
        ≡ (invokes (state_in S.slots S.memory kernel.old) thread kind slot capability).0 }
    ensures outcome { result ≡ (invokes (state_in S.slots S.memory kernel.old) thread kind slot capability).1 }
{
    let message = message_of(kernel, thread);
    let extra_capabilities = extra_capabilities(kernel, thread);
    let call = KernelCall {
        root: cspace_of(kernel, thread),
        caller: Some(thread),
        slot,
        capability,
    };
    let answer = invoke(
        kernel,
        call,
        message.label(),
        extra_capabilities,
        message.words(),
    );
    match answer {
        Ok(()) => {
            complete(kernel, thread, kind);
            Outcome::Completed
        }
        Err(error) => refuse(kernel, thread, kind, error),
    }
}
