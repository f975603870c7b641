//! Who meets whom: which threads wait for each notification, receive at each endpoint, or call there.

use crate::calls::Deed;
use crate::thread_calls::ThreadCalls;
use indexmap::IndexMap;
use source_texts::SourceText;
use std::alloc::{AllocError, Global};

/// Sets of threads, bit N of each for thread N, by the numbers of objects in the text.
#[derive(Drop)]
struct Sets {
    of: IndexMap<usize, u64>,
}

/// Who meets whom, and which interrupts are acknowledged after a wait.
#[derive(Drop)]
pub(crate) struct Meetings {
    waiting: Sets,
    receiving: Sets,
    calling: Sets,
    sending: Sets,
    /// Bit N is interrupt number N of the text, of which there are at most 64.
    acknowledged: u64,
}

/// A system and what its threads do, in the order of the text.
#[derive(Clone, Copy)]
pub(crate) struct Scene<'s, 'x> {
    pub(crate) text: &'s SourceText<'x>,
    pub(crate) threads: &'s [ThreadCalls],
    pub(crate) meetings: &'s Meetings,
}

/// The bit of a number below 64 in a set.
pub(crate) fn only(number: usize) -> u64 {
    match u32::try_from(number) {
        Ok(number) => 1u64.checked_shl(number).unwrap_or(0),
        Err(_) => 0,
    }
}

impl Sets {
    /// Empty ones.
    fn new(alloc: Global) -> Self {
        Sets {
            of: IndexMap::new(alloc),
        }
    }

    /// The threads of an object.
    fn get(&self, object: usize) -> u64 {
        match self.of.get(&object) {
            Some(set) => *set,
            None => 0,
        }
    }

    /// A thread more of an object.
    fn add(&mut self, object: usize, thread: usize) -> Result<(), AllocError> {
        let set = self.get(object) | only(thread);
        self.of.insert(object, set)?;
        Ok(())
    }
}

impl Meetings {
    /// Those of all threads.
    pub(crate) fn of(alloc: Global, threads: &[ThreadCalls]) -> Result<Self, AllocError> {
        let mut meetings = Meetings {
            waiting: Sets::new(alloc),
            receiving: Sets::new(alloc),
            calling: Sets::new(alloc),
            sending: Sets::new(alloc),
            acknowledged: 0,
        };
        for (number, thread) in threads.iter().enumerate() {
            for call in &thread.calls {
                meetings.add(number, call.deed)?;
            }
            meetings.acknowledged |= thread.acknowledged(alloc)?;
        }
        Ok(meetings)
    }

    /// What a thread does.
    fn add(&mut self, thread: usize, deed: Deed) -> Result<(), AllocError> {
        match deed {
            Deed::Wait(bell) => self.waiting.add(bell, thread),
            Deed::Receive(endpoint) => self.receiving.add(endpoint, thread),
            Deed::Enter {
                endpoint,
                is_call: true,
            } => self.calling.add(endpoint, thread),
            Deed::Enter { endpoint, .. } => self.sending.add(endpoint, thread),
            _ => Ok(()),
        }
    }

    /// The threads that wait for a notification.
    pub(crate) fn waiting(&self, bell: usize) -> u64 {
        self.waiting.get(bell)
    }

    /// The threads that receive at an endpoint.
    pub(crate) fn receiving(&self, endpoint: usize) -> u64 {
        self.receiving.get(endpoint)
    }

    /// Whether all messages to an endpoint are calls, and there are some.
    pub(crate) fn is_for_calls(&self, endpoint: usize) -> bool {
        self.calling.get(endpoint) != 0 && self.sending.get(endpoint) == 0
    }

    /// Whether an interrupt is acknowledged after a wait.
    pub(crate) fn is_acknowledged(&self, interrupt: usize) -> bool {
        self.acknowledged & only(interrupt) != 0
    }
}

impl ThreadCalls {
    /// The interrupts that the thread acknowledges after a wait.
    fn acknowledged(&self, alloc: Global) -> Result<u64, AllocError> {
        let mut found = 0u64;
        let visits = self.program().reached_from_waits(alloc)?;
        for call in &self.calls {
            if let Deed::Acknowledge(interrupt) = call.deed {
                if visits.has(call.point) {
                    found |= only(interrupt);
                }
            }
        }
        Ok(found)
    }
}

impl<'x> Scene<'_, 'x> {
    /// The name of a thread, by its number.
    pub(crate) fn name(&self, number: usize) -> &'x str {
        match self.text.threads.get(number) {
            Some(thread) => self.text.object_name(thread.tcb),
            None => "?",
        }
    }

    /// The line of a point of a thread.
    pub(crate) fn line(&self, number: usize, point: u32) -> u64 {
        match self.text.threads.get(number) {
            Some(thread) => thread.point_line(point as usize),
            None => 1,
        }
    }
}
