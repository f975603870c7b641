//! Many steps in one call.

ghost use Rattle.std.specs.Prelude.{◌≡◌, ◌≤◌, ◌++◌, IfSome, flat_map, replicate, true};
ghost use Rattle.model.specs.Kernel.Steps.{state_after, step, trace};
ghost use Rattle.objects.specs.Lives.{state_in};
ghost use Rattle.user_memory.specs.Runs.{IsNext};

use crate::events::{MEMORY_BASE, step};
use crate::instructions::go_on;
use cnode_ops::Kernel;
use model::{Event, Label};
use packed_slots::WalkStore;
use sched::choose;
use user_memory::{KnownWords, Labels, PlainRun, run_plain};

/// Puts the labels of steps in which no thread runs, `most` of them, or as long as `labels` wants more. The answer is how many
/// there were.
fn put_idle<L: Labels>(most: u32, labels: &mut L) -> u32
    ensures few { result ≤ most }
    ensures labels { L.seen labels.new ≡ L.seen labels.old ++ flat_map L.kept (replicate result Label.Idle) }
{
    'steps: for done in 0..most {
        if !labels.wants_more() {
            return done;
        }
        labels.put(Label::Idle);
    }
    most
}

/// Plain instructions of the current thread. If there is none, these are steps in which no thread runs.
fn run_current<S: WalkStore, L: Labels>(
    kernel: &mut Kernel<S>,
    most: u32,
    labels: &mut L,
    known: &mut KnownWords,
) -> PlainRun
    ensures few { result.done ≤ most }
    ensures state { state_in S.slots S.memory kernel.new
        ≡ state_after (state_in S.slots S.memory kernel.old) (replicate result.done Event.Step) }
    ensures labels { L.seen labels.new
        ≡ L.seen labels.old ++ flat_map L.kept (trace (state_in S.slots S.memory kernel.old) (replicate result.done Event.Step)) }
    ensures next { IfSome result.effect (IsNext (state_in S.slots S.memory kernel.new) result.thread result.pc) }
{
    match choose(&kernel.live) {
        Some(thread) => run_plain(kernel, thread, most, labels, known),
        None => PlainRun {
            thread: 0,
            done: put_idle(most, labels),
            pc: 0,
            effect: None,
        },
    }
}

/// One step after plain instructions, of which it may be known already what comes.
fn step_after<S: WalkStore>(kernel: &mut Kernel<S>, run: PlainRun) -> Label
    requires { IfSome run.effect (IsNext (state_in S.slots S.memory kernel.old) run.thread run.pc) }
    ensures state { state_in S.slots S.memory kernel.new
        ≡ (step (state_in S.slots S.memory kernel.old) Event.Step).0 }
    ensures label { result ≡ (step (state_in S.slots S.memory kernel.old) Event.Step).1 }
{
    match run.effect {
        Some(effect) => {
            let outcome = go_on(kernel, run.thread, effect);
            Label::Ran {
                thread: MEMORY_BASE + run.thread,
                pc: run.pc,
                outcome,
            }
        }
        None => step(kernel, Event::Step),
    }
}

/// Makes steps, until there were `most` or `labels` wants no more: as many plain instructions as there are at once, and one
/// step of another kind after them. The answer is how many there were.
pub(crate) fn run<S: WalkStore, L: Labels>(
    kernel: &mut Kernel<S>,
    most: u32,
    labels: &mut L,
    known: &mut KnownWords,
) -> u32
    ensures few { result ≤ most }
    ensures state { state_in S.slots S.memory kernel.new
        ≡ state_after (state_in S.slots S.memory kernel.old) (replicate result Event.Step) }
    ensures labels { L.seen labels.new
        ≡ L.seen labels.old ++ flat_map L.kept (trace (state_in S.slots S.memory kernel.old) (replicate result Event.Step)) }
    ensures all { L.wants labels.new ≡ true → result ≡ most }
{
    let mut done = 0;
    'runs: while done < most {
        let run = run_current(kernel, most - done, labels, known);
        done += run.done;
        if done == most {
            return done;
        }
        if !labels.wants_more() {
            return done;
        }
        labels.put(step_after(kernel, run));
        done += 1;
    }
    done
}
