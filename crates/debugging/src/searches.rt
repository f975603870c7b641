//! To the next stop of a run, and back to the last one.

ghost use Rattle.std.specs.Prelude.{ℕ, ◌≡◌, ◌≢◌, ◌+◌, ◌^◌, ◌<◌, ◌≤◌, ◌||◌, if◌then◌else◌, true, false, Some, None, Ok, IfOk, OnOk, OnErr};
ghost use Rattle.debugging.specs.Stops.{AreOneRun, GoesOn, HasTurned, IsHalt, IsLast, IsOther, Passes, PassesTurn, StopsHere, is_stop, is_turn};
ghost use Rattle.debugging.specs.declared.searches.Halt.{Halt};
ghost use Rattle.kernel_machine.specs.Setups.{state_in};

use crate::replays::{event_at, replay};
use crate::runs::Run;
use crate::stops::{Stops, is_stop, is_turn};
use kernel::System;
use model::{Event, Label};
use std::alloc::AllocError;

/// How many events are looked at first, on the way back.
const FEW: usize = 4096;

/// Why a run does not go on.
#[derive(Clone, Copy, Debug, PartialEq, Eq)]
pub enum Halt {
    /// It is at a stop.
    Stopped,
    /// The part that was to run has run an instruction, which was the last event.
    Turned,
    /// No part runs.
    Idle,
    /// As many events were done as were asked for; or going back, none is left.
    Ended,
}

/// Why a run does not go on after an event, if it is at a stop, had its turn, or is idle.
fn judged(stopped: bool, turned: bool, idle: bool) -> Option<Halt>
    ensures none { result ≡ None → (stopped ≡ false) × (turned ≡ false) }
    ensures stopped { result ≡ Some Halt.Stopped → stopped ≡ true }
    ensures turned { result ≡ Some Halt.Turned → turned ≡ true }
    ensures ended { result ≢ Some Halt.Ended }
{
    match (stopped, turned, idle) {
        (_, true, _) => Some(Halt::Turned),
        (true, _, _) => Some(Halt::Stopped),
        (_, _, true) => Some(Halt::Idle),
        (false, false, false) => None,
    }
}

/// Goes on by an event. The result is why the run does not go on after it.
fn advance(run: &mut Run<'_, '_>, stops: &Stops, turn: Option<u32>, settles: bool) -> Option<Halt>
    ensures same { AreOneRun run.old run.new }
    ensures near { run.new.done ≤ run.old.done + 1 }
    ensures next { result ≡ None → GoesOn stops.now turn run.old run.new }
    ensures stopped { result ≡ Some Halt.Stopped → StopsHere stops.now run.new }
    ensures turned { result ≡ Some Halt.Turned → HasTurned turn run.new }
    ensures ended { result ≡ Some Halt.Ended → 2 ^ 64 ≤ run.old.done + 1 }
{
    let turned = is_turn(run.system(), run.next_event(), turn);
    let Some(label) = run.go_on() else {
        return Some(Halt::Ended);
    };
    let stopped = is_stop(run.system(), stops);
    judged(stopped, turned, settles && label == Label::Idle)
}

/// Goes on to the first stop after where a run is, or after the first instruction of the part whose turn is waited for, by at most so
/// many events. Where it is to settle, it ends where no part runs.
pub fn run_to_stop(
    run: &mut Run<'_, '_>,
    stops: &Stops,
    turn: Option<u32>,
    most: usize,
    settles: bool,
) -> Halt
    ensures same { AreOneRun run.old run.new }
    ensures stopped { result ≡ Halt.Stopped → StopsHere stops.now run.new }
    ensures turned { result ≡ Halt.Turned → HasTurned turn run.new }
    // So many events are done where nothing ends it before.
    ensures ended { result ≡ Halt.Ended → run.old.done + most < 2 ^ 64 → run.new.done ≡ run.old.done + most }
    // No stop is passed, and no instruction of the part whose turn is waited for.
    ensures first { (count : ℕ) → run.old.done < count → count < run.new.done → Passes stops.now run.old count }
    ensures turn { (count : ℕ) → run.old.done ≤ count → count + 1 < run.new.done → IsOther turn run.old count }
{
    'events: for _ in 0..most {
        if let Some(halt) = advance(run, stops, turn, settles) {
            return halt;
        }
    }
    Halt::Ended
}

/// Whether a run stops where a system is, or the next event is an instruction of the part whose turn is looked for.
fn is_halt(system: &System, event: Event, stops: &Stops, turn: Option<u32>) -> bool
    ensures { result ≡ (is_stop stops.now (state_in system.now) || is_turn turn (state_in system.now) event) }
{
    is_stop(system, stops) || is_turn(system, event, turn)
}

/// The last place that was found, after one more that is one or not.
fn found_with(found: Option<usize>, place: usize, halts: bool) -> Option<usize>
    ensures { result ≡ (if halts then Some place else found) }
{
    if halts { Some(place) } else { found }
}

/// How many events are done at the last stop of a run after so many events and before so many, or before the last instruction of the part
/// whose turn is looked for.
///
/// # Errors
///
/// Memory is refused.
fn last_halt_between(
    run: &Run<'_, '_>,
    stops: &Stops,
    turn: Option<u32>,
    first: usize,
    limit: usize,
) -> Result<Option<usize>, AllocError>
    ensures { IfOk result (λ found. first ≤ limit → IsLast stops.now turn run.now first found limit) }
{
    let mut system = run.at_start()?;
    replay(&mut system, run.events(), first);
    let mut found = None;
    'events: for place in first..limit {
        let event = event_at(run.events(), place);
        found = found_with(found, place, is_halt(&system, event, stops, turn));
        system.step(event);
    }
    Ok(found)
}

/// How many events are done at the last stop before where a run is, or before the last instruction of the part whose turn is looked for.
/// The last events are looked at first, since what was run most often ends a few of them before.
///
/// # Errors
///
/// Memory is refused.
fn last_halt(
    run: &Run<'_, '_>,
    stops: &Stops,
    turn: Option<u32>,
) -> Result<Option<usize>, AllocError>
    ensures { IfOk result (λ found. IsLast stops.now turn run.now 0 found run.now.done) }
{
    let mut limit = run.done();
    let mut size = FEW;
    while limit > 0 {
        let first = limit.saturating_sub(size);
        if let Some(place) = last_halt_between(run, stops, turn, first, limit)? {
            return Ok(Some(place));
        }
        limit = first;
        size = size.saturating_mul(8);
    }
    Ok(None)
}

/// Goes back to the last stop before where a run is, or to before the last instruction of the part whose turn is looked for; to its
/// beginning where there is none.
///
/// # Errors
///
/// Memory is refused; the run stays as it is.
pub fn back_to_stop(
    run: &mut Run<'_, '_>,
    stops: &Stops,
    turn: Option<u32>,
) -> Result<Halt, AllocError>
    ensures same { AreOneRun run.old run.new }
    // It lands before the run's moment, on a stop,
    ensures stopped { result ≡ Ok Halt.Stopped → (run.new.done < run.old.done) × IsHalt stops.now turn run.new }
    // and passes none: it is the last one.
    ensures last { OnOk result ((count : ℕ) → run.new.done < count → count < run.old.done → PassesTurn stops.now turn run.old count) }
    // Where there is none, it comes to the beginning.
    ensures begun { result ≡ Ok Halt.Ended → run.new.done ≡ 0 }
    ensures unchanged { OnErr result (run.new ≡ run.old) }
{
    match last_halt(run, stops, turn)? {
        Some(place) => {
            run.wind_to(place)?;
            Ok(Halt::Stopped)
        }
        None => {
            run.wind_to(0)?;
            Ok(Halt::Ended)
        }
    }
}
