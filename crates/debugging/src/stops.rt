//! Before which events a run stops.

ghost use Rattle.std.specs.Prelude.{◌≡◌, ◌==◌, false, not};
ghost use Rattle.std.specs.List.{list_any};
ghost use Rattle.std.specs.Option.{option_map_or};
ghost use Rattle.debugging.specs.Stops.{has_bytes, has_changed, is_met, is_met_by, is_stop, is_turn};
ghost use Rattle.kernel_machine.specs.Setups.{state_in};

use crate::looks::{current, pc_of};
use kernel::System;
use model::Event;
use std::alloc::Global;

/// Where a run stops before an instruction.
#[derive(Clone, Copy, Debug, PartialEq, Eq)]
pub struct Breakpoint {
    /// The part that it is for, by the offset of its TCB; without one it is for all.
    pub part: Option<u32>,
    /// The address of the instruction, in the part's own address space.
    pub address: u32,
}

/// Bytes of memory that are watched: a run stops where they are others.
#[derive(Debug, Drop)]
pub struct Watch {
    /// The offset of the first one in memory.
    pub place: u32,
    /// What they are.
    pub bytes: Vec<u8>,
}

/// Where a run stops.
#[derive(Drop)]
pub struct Stops {
    pub breakpoints: Vec<Breakpoint>,
    pub watches: Vec<Watch>,
}

impl Stops {
    /// Nowhere.
    pub fn new(alloc: Global) -> Self {
        Stops {
            breakpoints: Vec::new(alloc),
            watches: Vec::new(alloc),
        }
    }
}

impl Breakpoint {
    /// Whether a thread with this program counter is at it. One of a part is not met by another part at the same address.
    pub fn is_met_by(&self, thread: u32, pc: u32) -> bool
        ensures { result ≡ is_met_by thread pc self.now }
    {
        if self.address != pc {
            return false;
        }
        match self.part {
            Some(part) => part == thread,
            None => true,
        }
    }
}

/// Whether one of these is met by a thread with this program counter.
fn any_met_by(breakpoints: &[Breakpoint], thread: u32, pc: u32) -> bool
    ensures { result ≡ list_any (is_met_by thread pc) breakpoints.now }
{
    breakpoints
        .iter()
        .any(|breakpoint| breakpoint.is_met_by(thread, pc))
}

/// Whether the thread that runs next is at one of these.
fn is_met(system: &System, breakpoints: &[Breakpoint]) -> bool
    ensures { result ≡ is_met breakpoints.now (state_in system.now) }
{
    match current(system) {
        Some(thread) => any_met_by(breakpoints, thread, pc_of(system, thread)),
        None => false,
    }
}

/// Whether memory has this byte at a place.
fn has_byte(system: &System, place: u32, byte: u8) -> bool
    ensures { result ≡ option_map_or (λ b. b == byte) ((state_in system.now).bytes place) false }
{
    match system.byte(place) {
        Some(found) => found == byte,
        None => false,
    }
}

/// Whether memory has these bytes from a place on.
fn has_bytes(system: &System, place: u32, bytes: &[u8]) -> bool
    ensures { result ≡ has_bytes (state_in system.now) place bytes.now }
{
    let mut at = place;
    'bytes: for byte in bytes {
        if !has_byte(system, at, *byte) {
            return false;
        }
        at = at.wrapping_add(1);
    }
    true
}

impl Watch {
    /// Whether the bytes are others than those that are kept.
    pub fn has_changed(&self, system: &System) -> bool
        ensures { result ≡ has_changed (state_in system.now) self.now }
    {
        !has_bytes(system, self.place, self.bytes.as_slice())
    }
}

/// Whether what one of these watches has changed.
fn any_changed(system: &System, watches: &[Watch]) -> bool
    ensures { result ≡ list_any (has_changed (state_in system.now)) watches.now }
{
    watches.iter().any(|watch| watch.has_changed(system))
}

/// Whether a run stops where a system is.
pub(crate) fn is_stop(system: &System, stops: &Stops) -> bool
    ensures { result ≡ is_stop stops.now (state_in system.now) }
{
    is_met(system, stops.breakpoints.as_slice()) || any_changed(system, stops.watches.as_slice())
}

/// Whether the next event is an instruction of this thread.
pub(crate) fn is_turn(system: &System, event: Event, turn: Option<u32>) -> bool
    ensures { result ≡ is_turn turn (state_in system.now) event }
{
    match (turn, event) {
        (Some(thread), Event::Step) => current(system) == Some(thread),
        _ => false,
    }
}
