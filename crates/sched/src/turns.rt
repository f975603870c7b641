//! Whose turn it is, and how long.

ghost use Rattle.std.specs.Prelude.{ℕ, ◌≡◌, Some};
ghost use Rattle.model.specs.Kernel.Kinds.{kind_at};
ghost use Rattle.model.specs.Kernel.Retype.{NewThread};
ghost use Rattle.model.specs.Kernel.Scheduling.{current, tick, ticked, yielded};
ghost use Rattle.model.specs.Kernel.Soundness.{IsSound};
ghost use Rattle.objects.specs.Lives.{Beside, state};

use objects::{FULL_SLICE, Live};
use slots::SlotStore;

/// The thread that runs: the first of the greatest priority, if any is ready.
pub fn choose<S: SlotStore>(live: &Live<S>) -> Option<u32>
    ensures { result ≡ current (state S.SlotStore live.now) }
{
    live.current()
}

/// A thread that runs goes to the tail of its priority, with a full slice.
///
/// seL4 Reference Manual, seL4_Yield.
pub fn yield_now<S: SlotStore>(live: &mut Live<S>, thread: u32)
    requires there { kind_at (state S.SlotStore live.old) thread ≡ Some NewThread }
    ensures state { state S.SlotStore live.new
        ≡ yielded (state S.SlotStore live.old) thread }
    ensures beside { Beside S.SlotStore live.old live.new }
{
    live.set_slice(thread, FULL_SLICE);
    live.to_tail(thread);
}

/// A tick takes 1 from the slice of the thread that runs. Where none is left, the thread goes to the tail.
fn ticked<S: SlotStore>(live: &mut Live<S>, thread: u32)
    requires there { kind_at (state S.SlotStore live.old) thread ≡ Some NewThread }
    ensures state { state S.SlotStore live.new
        ≡ ticked (state S.SlotStore live.old) thread }
    ensures beside { Beside S.SlotStore live.old live.new }
{
    let slice = live.slice(thread);
    if slice <= 1 {
        yield_now(live, thread);
    } else {
        live.set_slice(thread, slice - 1);
    }
}

/// A tick of the timer: where no thread runs, nothing changes.
pub fn tick<S: SlotStore>(live: &mut Live<S>)
    requires sound { IsSound (state S.SlotStore live.old) }
    ensures state { state S.SlotStore live.new
        ≡ tick (state S.SlotStore live.old) }
    ensures beside { Beside S.SlotStore live.old live.new }
{
    if let Some(thread) = live.current() {
        ticked(live, thread);
    }
}
