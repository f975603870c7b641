//! Instructions that a thread cannot run.
//! seL4 Reference Manual, "Faults".

ghost use Rattle.std.specs.Prelude.{ℕ, ◌≡◌};
ghost use Rattle.model.specs.Kernel.Faults.{instruction_fault, memory_fault};
ghost use Rattle.model.specs.Kernel.Soundness.{SentIsSound};
ghost use Rattle.model.specs.Kernel.State.{ByFault};
ghost use Rattle.model.specs.Kernel.Steps.{faults, registers_of};
ghost use Rattle.objects.specs.Lives.{state_in};
ghost use Rattle.objects.specs.thread_records.Threads.{message_of};
ghost use Rattle.soundness.specs.Running.{IsRunning};

use cnode_ops::Kernel;
use faults::raise_fault;
use model::{Cause, FaultKind, MemoryFault, Outcome};
use objects::Fault;
use slots::SlotStore;

/// Which fault it is.
fn kind_of(fault: Fault) -> FaultKind
    ensures { result ≡ (message_of fault).kind }
{
    match fault {
        Fault::Capability { .. } => FaultKind::Capability,
        Fault::UnknownCall { .. } => FaultKind::UnknownCall,
        Fault::Instruction { .. } => FaultKind::Instruction,
        Fault::Memory { .. } => FaultKind::Memory,
    }
}

/// The thread that runs faults.
fn fail<S: SlotStore>(kernel: &mut Kernel<S>, thread: u32, fault: Fault) -> Outcome
    requires runs { IsRunning (state_in S.slots S.memory kernel.old) thread }
    requires told { SentIsSound (ByFault (message_of fault)) }
    ensures state { state_in S.slots S.memory kernel.new
        ≡ (faults (state_in S.slots S.memory kernel.old) thread (message_of fault)).0 }
    ensures outcome { result ≡ (faults (state_in S.slots S.memory kernel.old) thread (message_of fault)).1 }
{
    raise_fault(&mut kernel.live, thread, fault);
    Outcome::Faulted(kind_of(fault))
}

/// The thread that runs meets an instruction that cannot run.
pub(crate) fn trap<S: SlotStore>(kernel: &mut Kernel<S>, thread: u32, cause: Cause) -> Outcome
    requires runs { IsRunning (state_in S.slots S.memory kernel.old) thread }
    ensures state { state_in S.slots S.memory kernel.new
        ≡ (faults (state_in S.slots S.memory kernel.old) thread (instruction_fault (registers_of (state_in S.slots S.memory kernel.old) thread).pc cause)).0 }
    ensures outcome { result ≡ (faults (state_in S.slots S.memory kernel.old) thread
        (instruction_fault (registers_of (state_in S.slots S.memory kernel.old) thread).pc cause)).1 }
{
    let pc = kernel.pc(thread);
    fail(kernel, thread, Fault::Instruction { pc, cause })
}

/// The thread that runs reads, writes or runs memory without the right to.
pub(crate) fn miss<S: SlotStore>(kernel: &mut Kernel<S>, thread: u32, fault: MemoryFault) -> Outcome
    requires runs { IsRunning (state_in S.slots S.memory kernel.old) thread }
    ensures state { state_in S.slots S.memory kernel.new
        ≡ (faults (state_in S.slots S.memory kernel.old) thread (memory_fault (registers_of (state_in S.slots S.memory kernel.old) thread).pc fault)).0 }
    ensures outcome { result ≡ (faults (state_in S.slots S.memory kernel.old) thread
        (memory_fault (registers_of (state_in S.slots S.memory kernel.old) thread).pc fault)).1 }
{
    let pc = kernel.pc(thread);
    fail(kernel, thread, Fault::Memory { pc, fault })
}
