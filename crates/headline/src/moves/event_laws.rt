//! All threads, over ticks, interrupts, and what the world outside does.

ghost use Rattle.headline.specs.moves.Laws.{InterruptsGoWell, ReadsGoWell, TicksGoWell, WritesGoWell};

use crate::moves::below::laws_below;

/// The threads' invariant holds after a tick.
pub fn ticks_keep_all_standing()
    ensures { TicksGoWell }
{
    laws_below();
}

/// The threads' invariant holds after an interrupt.
pub fn interrupts_keep_all_standing()
    ensures { InterruptsGoWell }
{
    laws_below();
}

/// The threads' invariant holds after the world outside wrote into a frame that nobody executes.
pub fn writes_keep_all_standing()
    ensures { WritesGoWell }
{
    laws_below();
}

/// The threads' invariant holds after the world outside looked at memory.
pub fn reads_keep_all_standing()
    ensures { ReadsGoWell }
{
    laws_below();
}
