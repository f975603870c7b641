//! Plain instructions of the current thread, many in one call. Its registers, its root table and its page of code are
//! looked for once. What the kernel keeps of the registers is old meanwhile; they are written back when the call returns.
//! What comes of the instruction that ends the run is found on the way, so that it need not be looked at once more.

ghost use Rattle.std.specs.Prelude.{◌≡◌, ◌≢◌, ◌≤◌, ◌++◌, IfSome, Some, flat_map};
ghost use Rattle.model.specs.Kernel.Messages.{with_registers};
ghost use Rattle.model.specs.Kernel.Scheduling.{current};
ghost use Rattle.model.specs.Kernel.Steps.{runs, state_after, step, trace};
ghost use Rattle.objects.specs.Lives.{state_in};
ghost use Rattle.user_memory.specs.KeptPages.{IsUnderWay};
ghost use Rattle.user_memory.specs.Runs.{IsNext, comes_of, plain_label, steps};

use crate::code_pages::{Code, code_of, fetch_paged};
use crate::execution::run;
use crate::known_words::KnownWords;
use crate::labels::Labels;
use cnode_ops::Kernel;
use model::{Cause, Event, Exec};
use packed_slots::WalkStore;
use rv32_exec::Regs;
use soundness::events_keep_soundness;

/// Where physical memory begins.
pub(crate) const MEMORY_BASE: u32 = 0x8000_0000;

/// Plain instructions that a thread ran, and what it runs next.
#[derive(Clone, Copy)]
pub struct PlainRun {
    /// The thread.
    pub thread: u32,
    /// How many instructions there were.
    pub done: u32,
    /// The program counter of the thread afterwards.
    pub pc: u32,
    /// What comes of the next instruction, where that was met and is no plain one.
    pub effect: Option<Exec>,
}

/// The current thread, with these registers, goes on by its next instruction, if that is a plain one: no system call, and no
/// fault. Else nothing has changed, and the answer says which of these it is.
#[inline]
fn step_plain<S: WalkStore>(
    kernel: &mut Kernel<S>,
    thread: u32,
    code: &mut Code<'_>,
    registers: &mut Regs,
) -> Exec
    requires { IsUnderWay (state_in S.slots S.memory kernel.old) thread code.old.pages }
    ensures ready { IsUnderWay (state_in S.slots S.memory kernel.new) thread code.new.pages }
    ensures state { result ≡ Exec.Next → with_registers (state_in S.slots S.memory kernel.new) thread registers.new
        ≡ (step (with_registers (state_in S.slots S.memory kernel.old) thread registers.old) Event.Step).0 }
    ensures label { result ≡ Exec.Next → (step (with_registers (state_in S.slots S.memory kernel.old) thread registers.old) Event.Step).1
        ≡ plain_label thread registers.old.pc }
    ensures unchanged { result ≢ Exec.Next → with_registers (state_in S.slots S.memory kernel.new) thread registers.new
        ≡ with_registers (state_in S.slots S.memory kernel.old) thread registers.old }
    ensures effect { result ≢ Exec.Next → runs (with_registers (state_in S.slots S.memory kernel.old) thread registers.old) thread
        ≡ comes_of (with_registers (state_in S.slots S.memory kernel.old) thread registers.old) thread result }
{
    let pc = registers.pc();
    match fetch_paged(kernel, thread, &mut code.pages, pc) {
        Ok(word) => match code.known.decode(pc, word) {
            Some(known) => run(kernel, thread, &mut code.pages, registers, known),
            None => Exec::Trap(Cause::Illegal),
        },
        Err(fault) => Exec::Memory(fault.address, fault.access),
    }
}

/// Runs plain instructions of the current thread, which has these registers, up to one that is none, to `most` of them, or as
/// long as `labels` wants more. The answer is how many there were, and what comes of the one that is none.
fn run_on<S: WalkStore, L: Labels>(
    kernel: &mut Kernel<S>,
    thread: u32,
    code: &mut Code<'_>,
    registers: &mut Regs,
    most: u32,
    labels: &mut L,
) -> (u32, Option<Exec>)
    requires { IsUnderWay (state_in S.slots S.memory kernel.old) thread code.old.pages }
    ensures few { result.0 ≤ most }
    ensures ready { IsUnderWay (state_in S.slots S.memory kernel.new) thread code.new.pages }
    ensures state { with_registers (state_in S.slots S.memory kernel.new) thread registers.new
        ≡ state_after (with_registers (state_in S.slots S.memory kernel.old) thread registers.old) (steps result.0) }
    ensures labels { L.seen labels.new
        ≡ L.seen labels.old
        ++ flat_map L.kept (trace (with_registers (state_in S.slots S.memory kernel.old) thread registers.old) (steps result.0)) }
    ensures effect { IfSome result.1 (λ effect. let s = with_registers (state_in S.slots S.memory kernel.new) thread registers.new in
        runs s thread ≡ comes_of s thread effect) }
{
    'steps: for done in 0..most {
        if !labels.wants_more() {
            return (done, None);
        }
        let pc = registers.pc();
        let effect = step_plain(kernel, thread, code, registers);
        let Exec::Next = effect else {
            return (done, Some(effect));
        };
        labels.plain(MEMORY_BASE + thread, pc);
    }
    (most, None)
}

/// Runs plain instructions of the current thread, up to one that is none (a system call or a fault), to `most` of them, or as
/// long as `labels` wants more. Words that are known already are not decoded again.
pub fn run_plain<S: WalkStore, L: Labels>(
    kernel: &mut Kernel<S>,
    thread: u32,
    most: u32,
    labels: &mut L,
    known: &mut KnownWords,
) -> PlainRun
    requires { current (state_in S.slots S.memory kernel.old) ≡ Some thread }
    ensures few { result.done ≤ most }
    ensures state { state_in S.slots S.memory kernel.new ≡ state_after (state_in S.slots S.memory kernel.old) (steps result.done) }
    ensures labels { L.seen labels.new
        ≡ L.seen labels.old ++ flat_map L.kept (trace (state_in S.slots S.memory kernel.old) (steps result.done)) }
    ensures next { IfSome result.effect (IsNext (state_in S.slots S.memory kernel.new) result.thread result.pc) }
{
    events_keep_soundness();
    let mut code = code_of(kernel, thread, known);
    let mut registers = kernel.live.registers(thread);
    let (done, effect) = run_on(kernel, thread, &mut code, &mut registers, most, labels);
    let pc = registers.pc();
    kernel.live.set_registers(thread, registers);
    PlainRun {
        thread,
        done,
        pc,
        effect,
    }
}
