//! The lines of a trace, put in pieces larger than a line.

ghost use Rattle.std.specs.Prelude.{ℕ, ◌≡◌, ◌+◌, ◌<◌, ◌≤◌, ◌++◌, OnErr, OnOk, if◌then◌else◌, drop, is_ok, length, replicate};
ghost use Rattle.kernel_machine.specs.Setups.{state_in};
ghost use Rattle.model.specs.Kernel.Steps.{state_after, trace};
ghost use Rattle.kernel_trace.specs.Lines.{Failed, PutsFront, lines_of};
ghost use Rattle.sinks.specs.Sinks.{Grows, GrowsByBeginning, one_more};

use crate::held_lines::HeldLines;
use kernel::{Labels, System};
use model::Event;
use sinks::{Sink, SinkFault, put_all};

/// How many steps are made at once at most: half of the plain lines that a piece holds. So a piece is full after a whole number of
/// such calls, and few steps are counted twice.
const MOST_STEPS: u32 = 170;

/// Puts the line of each event that the kernel goes on by, as many at once as a piece holds.
///
/// # Errors
///
/// A piece of which the sink took nothing; what it took before is a beginning of the lines.
pub fn put_trace<S: Sink>(
    system: &mut System,
    events: &[Event],
    sink: &mut S,
) -> Result<(), SinkFault>
    ensures state { OnOk result (state_in system.new ≡ state_after (state_in system.old) events.now) }
    ensures kept { OnOk result (S.failures sink.new ≡ S.failures sink.old) }
    ensures ok { OnOk result (Grows (S.contents sink.old) (S.contents sink.new) (lines_of (trace (state_in system.old) events.now))) }
    ensures err { OnErr result (GrowsByBeginning (S.contents sink.old) (S.contents sink.new) (lines_of (trace (state_in system.old) events.now))) }
    ensures failed { OnErr result (Failed (S.failures sink.old) (S.failures sink.new)) }
{
    let mut lines = HeldLines::new();
    let mut done = 0;
    'events: while done < events.len() {
        make_room(sink, &mut lines)?;
        done += go_on(system, &events[done..], &mut lines);
    }
    put_all(sink, lines.bytes.as_slice())?;
    Ok(())
}

/// Puts the lines that are held, if there is no room for another one.
pub(crate) fn make_room<S: Sink>(sink: &mut S, lines: &mut HeldLines) -> Result<(), SinkFault>
    ensures ok { OnOk result (PutsFront (S.contents sink.old) (S.contents sink.new) lines.old.bytes lines.new.bytes) }
    ensures room { OnOk result (length lines.new.bytes + 33 ≤ 8192) }
    ensures err { OnErr result (GrowsByBeginning (S.contents sink.old) (S.contents sink.new) lines.old.bytes) }
    ensures counted { S.failures sink.new ≡ (if is_ok result then S.failures sink.old else one_more (S.failures sink.old)) }
{
    if !lines.wants_more() {
        put_all(sink, lines.bytes.as_slice())?;
        lines.bytes.clear();
    }
    Ok(())
}

/// Goes on by the event that is next, or by some of the steps that are, and holds their lines. The answer is how many of the
/// events that are left these were.
fn go_on(system: &mut System, left: &[Event], lines: &mut HeldLines) -> usize
    requires { length lines.old.bytes + 33 ≤ 8192 }
    ensures some { 0 < length left.now → 0 < result }
    ensures within { result ≤ length left.now }
    ensures state { state_after (state_in system.old) left.now ≡ state_after (state_in system.new) (drop result left.now) }
    ensures lines { lines.old.bytes ++ lines_of (trace (state_in system.old) left.now)
        ≡ lines.new.bytes ++ lines_of (trace (state_in system.new) (drop result left.now)) }
{
    let steps = steps_next(left);
    if steps > 0 {
        return system.run(steps, lines) as usize;
    }
    let Some(event) = left.first() else {
        return 0;
    };
    lines.put(system.step(*event));
    1
}

/// How many of the events that are left are steps, before any other and up to [`MOST_STEPS`].
fn steps_next(left: &[Event]) -> u32
    ensures within { result ≤ length left.now }
    ensures steps { (count : ℕ) → count ≤ result → left.now ≡ replicate count Event.Step ++ drop count left.now }
{
    let mut count = 0;
    'steps: while count < MOST_STEPS && (count as usize) < left.len() {
        let Event::Step = left[count as usize] else {
            return count;
        };
        count += 1;
    }
    count
}
