//! Finds the settled threads of a level: one after another those whose messages are taken by who was found before. What is found is tested apart, so
//! nothing is promised of it here.

use crate::doors::Door;
use crate::outlines::Outline;
use crate::settled::Settled;
use crate::sums::is_high;
use crate::threads::{Manner, Threads};
use std::alloc::{AllocError, Global};

/// Of a thread that is not found to be settled.
const UNRANKED: u32 = u32::MAX;

/// No image has as many threads.
const LIMIT: u32 = 1 << 16;

/// What is known of an endpoint.
#[derive(Clone, Copy)]
struct Gate {
    endpoint: u32,
    is_polled: bool,
    /// How many threads receive there that are not found.
    others: usize,
    /// The least and the greatest rank of those that were found.
    first: u32,
    last: u32,
}

/// What is known so far.
#[derive(Drop)]
struct Search<'t> {
    threads: &'t Threads,
    inputs: Vec<Option<u32>>,
    ranks: Vec<u32>,
    /// By their endpoints.
    gates: Vec<Gate>,
    /// Of each thread: how many of its sends and calls are of gates that are not open to them.
    held: Vec<usize>,
    /// Threads that are held by none, and are not found yet.
    ready: Vec<usize>,
}

/// The rank at a place.
fn rank_at(ranks: &[u32], place: usize) -> u32 {
    match ranks.get(place) {
        Some(rank) => *rank,
        None => UNRANKED,
    }
}

impl Gate {
    /// One of which nothing is known.
    fn new(endpoint: u32) -> Self {
        Gate {
            endpoint,
            is_polled: false,
            others: 0,
            first: UNRANKED,
            last: 0,
        }
    }

    /// The gate as a door for those that come after this rank.
    fn door(&self, rank: u32, answers: Option<u32>) -> Door {
        Door {
            endpoint: self.endpoint,
            rank: rank.saturating_add(1),
            answers,
        }
    }
}

impl<'t> Search<'t> {
    /// What is known of the threads of a level by themselves.
    fn new(
        alloc: Global,
        threads: &'t Threads,
        programs: &[Outline],
        priority: u32,
    ) -> Result<Self, AllocError> {
        let mut search = Search {
            threads,
            inputs: Vec::new(alloc),
            ranks: Vec::new(alloc),
            gates: Vec::new(alloc),
            held: Vec::new(alloc),
            ready: Vec::new(alloc),
        };
        for (thread, program) in programs.iter().enumerate() {
            let input = match threads.inputs.get(thread) {
                Some(input) if is_high(priority, program) => *input,
                _ => None,
            };
            search.inputs.push(input)?;
            search.ranks.push(UNRANKED)?;
            search.held.push(0)?;
        }
        search.note_uses()?;
        search.begin()?;
        Ok(search)
    }

    /// Notes what is asked of endpoints.
    fn note_uses(&mut self) -> Result<(), AllocError> {
        for used in &self.threads.uses {
            let is_new = match self.gates.last() {
                Some(gate) => gate.endpoint != used.endpoint,
                None => true,
            };
            if is_new {
                self.gates.push(Gate::new(used.endpoint))?;
            }
            match used.manner {
                Manner::Receives => self.note_gate(false, 1),
                Manner::Polls => self.note_gate(true, 0),
                Manner::Sends | Manner::Calls => self.hold(used.thread),
            }
        }
        Ok(())
    }

    /// Notes that somebody polls at the last gate, or that so many more receive there.
    fn note_gate(&mut self, polls: bool, more: usize) {
        if let Some(gate) = self.gates.last_mut() {
            gate.is_polled = gate.is_polled || polls;
            gate.others = gate.others.saturating_add(more);
        }
    }

    /// Notes that a thread is held by one gate more.
    fn hold(&mut self, thread: usize) {
        if thread < self.held.len() {
            self.held[thread] = self.held[thread].saturating_add(1);
        }
    }

    /// Begins with the threads that neither send nor call.
    fn begin(&mut self) -> Result<(), AllocError> {
        for thread in 0..self.held.len() {
            if self.held.get(thread) == Some(&0) {
                self.make_ready(thread)?;
            }
        }
        Ok(())
    }

    /// A thread is held by no gate: it is to be found if it has an input.
    fn make_ready(&mut self, thread: usize) -> Result<(), AllocError> {
        if thread < self.inputs.len() && self.inputs[thread].is_some() {
            self.ready.push(thread)?;
        }
        Ok(())
    }

    /// Gives a thread its rank, and opens the gates that this opens.
    fn find(&mut self, thread: usize, rank: u32) -> Result<(), AllocError> {
        if thread < self.ranks.len() {
            self.ranks[thread] = rank;
        }
        if let Some(Some(object)) = self.inputs.get(thread) {
            let object = *object;
            if let Ok(place) = self
                .gates
                .binary_search_by_key(&object, |gate| gate.endpoint)
            {
                return self.receive(place, rank);
            }
        }
        Ok(())
    }

    /// A thread of this rank receives at a gate.
    fn receive(&mut self, place: usize, rank: u32) -> Result<(), AllocError> {
        let Some(gate) = self.gates.get_mut(place) else {
            return Ok(());
        };
        let is_first = gate.first == UNRANKED;
        gate.first = gate.first.min(rank);
        gate.last = gate.last.max(rank);
        gate.others = gate.others.saturating_sub(1);
        let may_be_called = gate.others == 0 && !gate.is_polled;
        let endpoint = gate.endpoint;
        if is_first {
            self.open(endpoint, Manner::Sends)?;
        }
        if may_be_called {
            self.open(endpoint, Manner::Calls)?;
        }
        Ok(())
    }

    /// Who sends to an endpoint, or calls it and is answered, is no more held by that.
    fn open(&mut self, endpoint: u32, manner: Manner) -> Result<(), AllocError> {
        for used in self.threads.uses_of(endpoint) {
            let is_let_in = used.manner == manner && (manner == Manner::Sends || used.is_answered);
            if is_let_in && used.thread < self.held.len() {
                let held = self.held[used.thread].saturating_sub(1);
                self.held[used.thread] = held;
                if held == 0 {
                    self.make_ready(used.thread)?;
                }
            }
        }
        Ok(())
    }

    /// Leaves inputs to those alone that were found.
    fn drop_others(&mut self) {
        for thread in 0..self.inputs.len() {
            if rank_at(self.ranks.as_slice(), thread) == UNRANKED {
                self.inputs[thread] = None;
            }
        }
    }

    /// The doors to which those send that were found, and which they call, one for each badge.
    fn doors(&self, alloc: Global) -> Result<Vec<Door>, AllocError> {
        let mut doors = Vec::new(alloc);
        for gate in &self.gates {
            let mut sends = false;
            let mut called = None;
            for used in self.threads.uses_of(gate.endpoint) {
                if rank_at(self.ranks.as_slice(), used.thread) == UNRANKED {
                    continue;
                }
                sends = sends || used.manner == Manner::Sends;
                if used.manner == Manner::Calls && called != Some(used.badge) {
                    called = Some(used.badge);
                    doors.push(gate.door(gate.last, called))?;
                }
            }
            if sends {
                doors.push(gate.door(gate.first, None))?;
            }
        }
        Ok(doors)
    }
}

/// The settled threads of a level: as many as there are. Memory may be refused.
pub(crate) fn settled_for(
    alloc: Global,
    programs: &[Outline],
    threads: &Threads,
    priority: u32,
) -> Result<Settled, AllocError> {
    let mut search = Search::new(alloc, threads, programs, priority)?;
    for rank in 0..LIMIT {
        let Some(thread) = search.ready.pop() else {
            break;
        };
        search.find(thread, rank)?;
    }
    search.drop_others();
    let doors = search.doors(alloc)?;
    Ok(Settled {
        inputs: search.inputs,
        ranks: search.ranks,
        doors,
    })
}
