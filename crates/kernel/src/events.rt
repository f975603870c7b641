//! What each event does.

ghost use Rattle.std.specs.Prelude.{◌≡◌};
ghost use Rattle.model.specs.Kernel.Scheduling.{tick};
ghost use Rattle.model.specs.Kernel.Steps.{ran, step};
ghost use Rattle.objects.specs.Lives.{state_in};
ghost use Rattle.soundness.specs.Running.{IsRunning};

use crate::instructions::run;
use cnode_ops::Kernel;
use irq::raise;
use model::{Event, Label};
use packed_slots::WalkStore;
use sched::{choose, tick};
use slots::SlotStore;
use user_memory::{read_word, write_word};

/// Where physical memory begins.
pub(crate) const MEMORY_BASE: u32 = 0x8000_0000;

/// The thread that runs goes on by an instruction.
fn run_thread<S: WalkStore>(kernel: &mut Kernel<S>, thread: u32) -> Label
    requires runs { IsRunning (state_in S.slots S.memory kernel.old) thread }
    ensures state { state_in S.slots S.memory kernel.new
        ≡ (ran (state_in S.slots S.memory kernel.old) thread).0 }
    ensures label { result ≡ (ran (state_in S.slots S.memory kernel.old) thread).1 }
{
    let pc = kernel.live.pc(thread);
    let outcome = run(kernel, thread);
    Label::Ran {
        thread: MEMORY_BASE + thread,
        pc,
        outcome,
    }
}

/// The current thread goes on by an instruction, if there is one.
#[tactic(auto, unfolding(model::specs::Kernel::Steps::step))]
fn run_current<S: WalkStore>(kernel: &mut Kernel<S>) -> Label
    ensures state { state_in S.slots S.memory kernel.new
        ≡ (step (state_in S.slots S.memory kernel.old) Event.Step).0 }
    ensures label { result ≡ (step (state_in S.slots S.memory kernel.old) Event.Step).1 }
{
    match choose(&kernel.live) {
        Some(thread) => run_thread(kernel, thread),
        None => Label::Idle,
    }
}

/// A tick passes.
fn pass_tick<S: SlotStore>(kernel: &mut Kernel<S>)
    ensures state { state_in S.slots S.memory kernel.new
        ≡ tick (state_in S.slots S.memory kernel.old) }
{
    tick(&mut kernel.live);
}

/// What an event does: the current thread goes on by an instruction, a tick passes, an interrupt is raised, or the world outside
/// stores a word or looks at one.
#[tactic(auto, unfolding(model::specs::Kernel::Steps::step))]
pub(crate) fn step<S: WalkStore>(kernel: &mut Kernel<S>, event: Event) -> Label
    ensures state { state_in S.slots S.memory kernel.new
        ≡ (step (state_in S.slots S.memory kernel.old) event).0 }
    ensures label { result ≡ (step (state_in S.slots S.memory kernel.old) event).1 }
{
    match event {
        Event::Step => run_current(kernel),
        Event::Tick => {
            pass_tick(kernel);
            Label::Ticked
        }
        Event::Irq(line) => {
            raise(kernel, line);
            Label::Raised(line)
        }
        Event::Write { address, word } => {
            write_word(kernel, address, word);
            Label::Wrote { address, word }
        }
        Event::Read { address } => Label::Showed {
            address,
            word: read_word(kernel, address),
        },
    }
}
