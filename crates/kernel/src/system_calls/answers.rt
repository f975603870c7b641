//! How the thread that made a call goes on.

ghost use Rattle.std.specs.Prelude.{ℕ, ◌≡◌, ◌<◌, ◌≤◌, ◌^◌, None, Some, if◌then◌else◌};
ghost use Rattle.model.specs.Capabilities.LookupNumbers.{bits_left_of};
ghost use Rattle.model.specs.Kernel.Kinds.{kind_at};
ghost use Rattle.model.specs.Kernel.Messages.{passes};
ghost use Rattle.model.specs.Kernel.Retype.{NewThread};
ghost use Rattle.model.specs.Kernel.Steps.{answered, calls_known, completed, lacks_capability, refused};
ghost use Rattle.objects.specs.Lives.{state_in};
ghost use Rattle.soundness.specs.Running.{IsRunning};

use crate::system_calls::names::argument;
use cnode_ops::Kernel;
use faults::raise_fault;
use ipc::deliver_info;
use model::{FaultKind, KError, LookupFailure, Outcome, SendCall};
use objects::{Fault, Status};
use slots::SlotStore;

/// A thread goes on after its call.
pub(crate) fn pass<S: SlotStore>(kernel: &mut Kernel<S>, thread: u32)
    requires there { kind_at (state_in S.slots S.memory kernel.old) thread ≡ Some NewThread }
    ensures state { state_in S.slots S.memory kernel.new
        ≡ passes (state_in S.slots S.memory kernel.old) thread }
{
    ipc::pass(&mut kernel.live, thread);
}

/// The call of a thread names no capability, or one that is not fit for it; whether it was a receive.
pub(crate) fn lacks_capability<S: SlotStore>(
    kernel: &mut Kernel<S>,
    thread: u32,
    in_receive: bool,
    failure: LookupFailure,
) -> Outcome
    requires runs { IsRunning (state_in S.slots S.memory kernel.old) thread }
    requires few { bits_left_of failure ≤ 32 }
    ensures state { state_in S.slots S.memory kernel.new
        ≡ (lacks_capability (state_in S.slots S.memory kernel.old) thread (if in_receive then 1 else 0) failure).0 }
    ensures outcome { result ≡ (lacks_capability (state_in S.slots S.memory kernel.old) thread (if in_receive then 1 else 0) failure).1 }
{
    let fault = Fault::Capability {
        pc: kernel.pc(thread),
        address: argument(kernel, thread),
        in_receive,
        failure,
    };
    raise_fault(&mut kernel.live, thread, fault);
    Outcome::Faulted(FaultKind::Capability)
}

/// The call of a thread has a number that no call has.
pub(crate) fn unknown_call<S: SlotStore>(
    kernel: &mut Kernel<S>,
    thread: u32,
    number: u32,
) -> Outcome
    requires runs { IsRunning (state_in S.slots S.memory kernel.old) thread }
    ensures state { state_in S.slots S.memory kernel.new
        ≡ (calls_known (state_in S.slots S.memory kernel.old) thread number None).0 }
    ensures outcome { result ≡ (calls_known (state_in S.slots S.memory kernel.old) thread number None).1 }
{
    let pc = kernel.pc(thread);
    raise_fault(&mut kernel.live, thread, Fault::UnknownCall { pc, number });
    Outcome::Faulted(FaultKind::UnknownCall)
}

/// A thread goes on: one that calls has the number of an error, or 0, as the label of an answer.
pub(crate) fn answer<S: SlotStore>(kernel: &mut Kernel<S>, thread: u32, kind: SendCall, number: u32)
    requires there { kind_at (state_in S.slots S.memory kernel.old) thread ≡ Some NewThread }
    requires small { number < 2 ^ 16 }
    ensures state { state_in S.slots S.memory kernel.new
        ≡ answered (state_in S.slots S.memory kernel.old) thread kind number }
{
    match kind {
        SendCall::Calling => deliver_info(&mut kernel.live, thread, 0x1000 * number),
        SendCall::Sending | SendCall::Trying => pass(kernel, thread),
    }
}

/// A call is refused, and its thread goes on.
pub(crate) fn refuse<S: SlotStore>(
    kernel: &mut Kernel<S>,
    thread: u32,
    kind: SendCall,
    error: KError,
) -> Outcome
    requires runs { IsRunning (state_in S.slots S.memory kernel.old) thread }
    ensures state { state_in S.slots S.memory kernel.new
        ≡ (refused (state_in S.slots S.memory kernel.old) thread kind error).0 }
    ensures outcome { result ≡ (refused (state_in S.slots S.memory kernel.old) thread kind error).1 }
{
    answer(kernel, thread, kind, u32::from(error.number()));
    Outcome::Refused(error)
}

/// A call was carried out. It may have ended its caller, which then gets no answer, or suspended it, which then goes
/// on without one once it is resumed.
pub(crate) fn complete<S: SlotStore>(kernel: &mut Kernel<S>, thread: u32, kind: SendCall)
    ensures state { state_in S.slots S.memory kernel.new
        ≡ completed (state_in S.slots S.memory kernel.old) thread kind }
{
    if !kernel.live.is_thread(thread) {
        return;
    }
    match kernel.live.status(thread) {
        Status::Runnable => answer(kernel, thread, kind, 0),
        Status::Inactive | Status::Blocked { .. } | Status::AwaitsReply | Status::AwaitsHandler =>
            pass(kernel, thread),
    }
}
