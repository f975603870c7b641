//! All system calls.

ghost use Rattle.std.specs.Prelude.{ℕ, ◌≡◌};
ghost use Rattle.model.specs.Kernel.Messages.{a7};
ghost use Rattle.model.specs.Kernel.State.{thread_at};
ghost use Rattle.model.specs.Kernel.Steps.{calls, system_call};
ghost use Rattle.model.specs.Machine.ProgramMemory.{read};
ghost use Rattle.objects.specs.Lives.{state_in};
ghost use Rattle.soundness.specs.Running.{IsRunning};

use crate::system_calls::answers::{pass, unknown_call};
use crate::system_calls::names::argument;
use crate::system_calls::receives::receive_call;
use crate::system_calls::replies::{give_way, reply};
use crate::system_calls::send_calls::send_call;
use cnode_ops::Kernel;
use model::{Outcome, ReceiveCall, Register, SystemCall};
use slots::SlotStore;

/// A thread makes a system call.
fn call<S: SlotStore>(kernel: &mut Kernel<S>, thread: u32, call: SystemCall) -> Outcome
    requires runs { IsRunning (state_in S.slots S.memory kernel.old) thread }
    ensures state { state_in S.slots S.memory kernel.new
        ≡ (calls (state_in S.slots S.memory kernel.old) thread call).0 }
    ensures outcome { result ≡ (calls (state_in S.slots S.memory kernel.old) thread call).1 }
{
    match call {
        SystemCall::Sends(kind) => send_call(kernel, thread, kind),
        SystemCall::Receives(kind) => receive_call(kernel, thread, kind),
        SystemCall::RepliesAndReceives => {
            reply(kernel, thread);
            receive_call(kernel, thread, ReceiveCall::Receiving)
        }
        SystemCall::Replies => {
            reply(kernel, thread);
            pass(kernel, thread);
            Outcome::Plain
        }
        SystemCall::Yields => {
            give_way(kernel, thread);
            Outcome::Plain
        }
        SystemCall::PutsCharacter => {
            let byte = (argument(kernel, thread) % 0x100) as u8;
            pass(kernel, thread);
            Outcome::Put(byte)
        }
    }
}

/// What a thread has in a7: the number of the call that it makes.
fn call_number<S: SlotStore>(kernel: &Kernel<S>, thread: u32) -> u32
    ensures { result ≡ read (thread_at (state_in S.slots S.memory kernel.now) thread).registers a7 }
{
    kernel.live.register(thread, Register::A7)
}

/// The thread that runs makes the system call whose number is in a7, with the capability (or the byte) in a0, the
/// info word in a1, and the words in a2 to a5 and s2 to s5. Another number is a fault.
///
/// seL4 Reference Manual, "System Calls".
#[tactic(auto, unfolding(model::specs::Kernel::Steps::system_call))]
pub fn system_call<S: SlotStore>(kernel: &mut Kernel<S>, thread: u32) -> Outcome
    requires runs { IsRunning (state_in S.slots S.memory kernel.old) thread }
    ensures state { state_in S.slots S.memory kernel.new
        ≡ (system_call (state_in S.slots S.memory kernel.old) thread).0 }
    ensures outcome { result ≡ (system_call (state_in S.slots S.memory kernel.old) thread).1 }
{
    let number = call_number(kernel, thread);
    match SystemCall::of_number(number) {
        Some(known) => call(kernel, thread, known),
        None => unknown_call(kernel, thread, number),
    }
}
