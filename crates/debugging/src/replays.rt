//! Events of a run, done again.

ghost use Rattle.std.specs.Prelude.{◌≡◌, replicate};
ghost use Rattle.debugging.specs.Runs.{next_of, timeline};
ghost use Rattle.kernel_machine.specs.Setups.{state_in};
ghost use Rattle.model.specs.Kernel.Steps.{state_after};

use kernel::System;
use model::{Event, Label};
use user_memory::Labels;

/// Wants all labels, and keeps none.
#[derive(Clone, Copy)]
struct Unseen;

impl Labels for Unseen {
    ghost use Rattle.std.specs.Prelude.{ℕ, true, []};

    ghost Item = { ℕ };

    ghost kept = { λ label. [] };

    ghost seen = { λ unseen. [] };

    ghost wants = { λ unseen. true };

    fn wants_more(&self) -> bool {
        true
    }

    fn put(&mut self, _label: Label) {}

    fn plain(&mut self, _thread: u32, _pc: u32) {}
}

/// The event of a run that comes after so many.
pub(crate) fn event_at(events: &[Event], place: usize) -> Event
    ensures { result ≡ next_of events.now place }
{
    match events.get(place) {
        Some(event) => *event,
        None => Event::Step,
    }
}

/// Makes so many steps.
fn make_steps(system: &mut System, count: usize)
    ensures { state_in system.new ≡ state_after (state_in system.old) (replicate count Event.Step) }
{
    let mut left = count;
    while left > 0 {
        let most = left.min(u32::MAX as usize) as u32;
        let made = system.run(most, &mut Unseen);
        left = left.saturating_sub(made as usize);
    }
}

/// Does so many of the events of a run.
pub(crate) fn replay(system: &mut System, events: &[Event], count: usize)
    ensures { state_in system.new ≡ state_after (state_in system.old) (timeline events.now count) }
{
    let given = count.min(events.len());
    'events: for done in 0..given {
        system.step(event_at(events, done));
    }
    make_steps(system, count - given);
}
