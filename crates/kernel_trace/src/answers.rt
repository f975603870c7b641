//! The lines of the events that a line asks for, all of them out when the call returns.

ghost use Rattle.std.specs.Prelude.{◌≡◌, ◌≢◌, ◌+◌, ◌<◌, OnErr, OnOk, replicate};
ghost use Rattle.kernel_machine.specs.Setups.{state_in};
ghost use Rattle.model.specs.Kernel.Steps.{state_after, trace};
ghost use Rattle.kernel_trace.specs.Asked.{asked_events, settling};
ghost use Rattle.kernel_trace.specs.Lines.{Failed, lines_of};
ghost use Rattle.sinks.specs.Sinks.{Grows, GrowsByBeginning};

use crate::held_lines::HeldLines;
use crate::traces::{make_room, put_trace};
use kernel::{Labels, System};
use model::{Event, Label};
use sinks::{EventLine, Sink, SinkFault, put_all};

/// How many events are put at once at most.
const MOST_AT_ONCE: u32 = 0x100;

/// Puts the lines of the events that a line asks for.
///
/// # Errors
///
/// A piece of which the sink took nothing; what it took before is a beginning of the lines.
pub fn put_answer<S: Sink>(
    system: &mut System,
    line: EventLine,
    sink: &mut S,
) -> Result<(), SinkFault>
    ensures state { OnOk result (state_in system.new ≡ state_after (state_in system.old) (asked_events (state_in system.old) line)) }
    ensures ok { OnOk result (Grows (S.contents sink.old) (S.contents sink.new)
        (lines_of (trace (state_in system.old) (asked_events (state_in system.old) line)))) }
    ensures err { OnErr result (GrowsByBeginning (S.contents sink.old) (S.contents sink.new)
        (lines_of (trace (state_in system.old) (asked_events (state_in system.old) line)))) }
    ensures kept { OnOk result (S.failures sink.new ≡ S.failures sink.old) }
    ensures failed { OnErr result (Failed (S.failures sink.old) (S.failures sink.new)) }
{
    match line {
        EventLine::Blank => put_trace(system, &[], sink),
        EventLine::Events(event, count) => put_times(system, event, count, sink),
        EventLine::Settle(most) => put_settled(system, most, sink),
    }
}

/// Puts the lines of an event so many times.
fn put_times<S: Sink>(
    system: &mut System,
    event: Event,
    count: u32,
    sink: &mut S,
) -> Result<(), SinkFault>
    ensures state { OnOk result (state_in system.new ≡ state_after (state_in system.old) (replicate count event)) }
    ensures ok { OnOk result (Grows (S.contents sink.old) (S.contents sink.new) (lines_of (trace (state_in system.old) (replicate count event)))) }
    ensures err { OnErr result (GrowsByBeginning (S.contents sink.old) (S.contents sink.new) (lines_of (trace (state_in system.old) (replicate count event)))) }
    ensures kept { OnOk result (S.failures sink.new ≡ S.failures sink.old) }
    ensures failed { OnErr result (Failed (S.failures sink.old) (S.failures sink.new)) }
{
    if count == 1 {
        return put_trace(system, &[event], sink);
    }
    let events = [event; MOST_AT_ONCE as usize];
    let mut left = count;
    'pieces: while left > 0 {
        let now = left.min(MOST_AT_ONCE);
        put_trace(system, &events[..now as usize], sink)?;
        left -= now;
    }
    Ok(())
}

/// Puts the lines of steps up to the first in which no thread runs, at most so many.
fn put_settled<S: Sink>(system: &mut System, most: u32, sink: &mut S) -> Result<(), SinkFault>
    ensures state { OnOk result (state_in system.new ≡ state_after (state_in system.old) (settling most (state_in system.old))) }
    ensures ok { OnOk result (Grows (S.contents sink.old) (S.contents sink.new)
        (lines_of (trace (state_in system.old) (settling most (state_in system.old))))) }
    ensures err { OnErr result (GrowsByBeginning (S.contents sink.old) (S.contents sink.new)
        (lines_of (trace (state_in system.old) (settling most (state_in system.old))))) }
    ensures kept { OnOk result (S.failures sink.new ≡ S.failures sink.old) }
    ensures failed { OnErr result (Failed (S.failures sink.old) (S.failures sink.new)) }
{
    let mut lines = HeldLines::new();
    let mut left = most;
    'steps: while left > 0 {
        make_room(sink, &mut lines)?;
        let label = system.step(Event::Step);
        lines.put(label);
        left = left_after(label, left);
    }
    put_all(sink, lines.bytes.as_slice())
}

/// How many steps are left after one with this label: none, if no thread ran.
fn left_after(label: Label, left: u32) -> u32
    ensures idle { label ≡ Label.Idle → result ≡ 0 }
    ensures more { label ≢ Label.Idle → 0 < left → result + 1 ≡ left }
{
    match label {
        Label::Idle => 0,
        _ => left.saturating_sub(1),
    }
}
