//! One instruction of the thread that runs.

ghost use Rattle.std.specs.Prelude.{ℕ, ◌≡◌};
ghost use Rattle.model.specs.Kernel.AddressSpaces.{vspace_of};
ghost use Rattle.model.specs.Kernel.Steps.{runs, runs_instruction};
ghost use Rattle.model.specs.Machine.Instructions.{IsInstr};
ghost use Rattle.objects.specs.Lives.{state_in};
ghost use Rattle.soundness.specs.Running.{IsRunning};
ghost use Rattle.user_memory.specs.Runs.{comes_of};

use crate::failures::{miss, trap};
use crate::system_calls::system_call;
use cnode_ops::Kernel;
use model::{Cause, Exec, Instr, MemoryFault, Outcome};
use packed_slots::WalkStore;
use rv32_isa::decode;
use user_memory::{fetch, root_of};

/// The thread that runs executes an instruction, over the memory under its root table.
fn execute<S: WalkStore>(
    kernel: &mut Kernel<S>,
    thread: u32,
    root: Option<u32>,
    instruction: Instr,
) -> Outcome
    requires root { root ≡ vspace_of (state_in S.slots S.memory kernel.old) thread }
    requires runs { IsRunning (state_in S.slots S.memory kernel.old) thread }
    requires instruction { IsInstr instruction }
    ensures state { state_in S.slots S.memory kernel.new
        ≡ (runs_instruction (state_in S.slots S.memory kernel.old) thread instruction).0 }
    ensures outcome { result ≡ (runs_instruction (state_in S.slots S.memory kernel.old) thread instruction).1 }
{
    match user_memory::execute(kernel, thread, root, instruction) {
        Exec::Next => Outcome::Plain,
        Exec::Ecall => system_call(kernel, thread),
        Exec::Trap(cause) => trap(kernel, thread, cause),
        Exec::Memory(address, access) => {
            let fault = MemoryFault { address, access };
            miss(kernel, thread, fault)
        }
    }
}

/// The thread that runs executes the instruction at its pc.
#[tactic(auto, unfolding(model::specs::Kernel::Steps::runs))]
pub(crate) fn run<S: WalkStore>(kernel: &mut Kernel<S>, thread: u32) -> Outcome
    requires runs { IsRunning (state_in S.slots S.memory kernel.old) thread }
    ensures state { state_in S.slots S.memory kernel.new
        ≡ (runs (state_in S.slots S.memory kernel.old) thread).0 }
    ensures outcome { result ≡ (runs (state_in S.slots S.memory kernel.old) thread).1 }
{
    let root = root_of(kernel, thread);
    match fetch(kernel, thread, root) {
        Ok(word) => match decode(word) {
            Some(instruction) => execute(kernel, thread, root, instruction),
            None => trap(kernel, thread, Cause::Illegal),
        },
        Err(fault) => miss(kernel, thread, fault),
    }
}

/// The thread that runs meets an instruction that is no plain one, of which it is known what comes.
pub(crate) fn go_on<S: WalkStore>(kernel: &mut Kernel<S>, thread: u32, effect: Exec) -> Outcome
    requires { IsRunning (state_in S.slots S.memory kernel.old) thread }
    ensures state { state_in S.slots S.memory kernel.new
        ≡ (comes_of (state_in S.slots S.memory kernel.old) thread effect).0 }
    ensures outcome { result ≡ (comes_of (state_in S.slots S.memory kernel.old) thread effect).1 }
{
    match effect {
        Exec::Next => Outcome::Plain,
        Exec::Ecall => system_call(kernel, thread),
        Exec::Trap(cause) => trap(kernel, thread, cause),
        Exec::Memory(address, access) => {
            let fault = MemoryFault { address, access };
            miss(kernel, thread, fault)
        }
    }
}
