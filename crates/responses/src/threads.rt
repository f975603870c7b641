//! What the threads of an image take, and what they ask of endpoints: the same for all levels. What is found by it is tested apart, so nothing is
//! promised of it here.

use crate::asks::Ask;
use crate::outlines::{Outline, Run};
use answering::{Answered, answers_at};
use std::alloc::{AllocError, Global};

/// A run of a thread at which it takes from an object.
#[derive(Clone, Copy)]
pub(crate) struct Taker {
    pub(crate) object: u32,
    /// The thread by its place among the programs, which is its number.
    pub(crate) thread: usize,
    /// The run by its place.
    pub(crate) place: usize,
}

/// What a thread asks of an endpoint.
#[derive(Clone, Copy, Debug, PartialEq, Eq)]
pub(crate) enum Manner {
    Receives,
    Polls,
    Sends,
    Calls,
}

/// That a thread asks this of an endpoint.
#[derive(Clone, Copy, PartialEq, Eq)]
pub(crate) struct Use {
    pub(crate) endpoint: u32,
    pub(crate) manner: Manner,
    /// The badge with which it calls, and 0 if it does not.
    pub(crate) badge: u32,
    pub(crate) thread: usize,
    /// Whether it calls, and each thread that receives there answers the badge.
    pub(crate) is_answered: bool,
}

/// What the threads of an image take, and what they ask of endpoints.
#[derive(Drop)]
pub(crate) struct Threads {
    /// Of each thread: the object from which it takes, if it takes from one alone.
    pub(crate) inputs: Vec<Option<u32>>,
    /// By their objects.
    pub(crate) takers: Vec<Taker>,
    /// By their endpoints, each once.
    pub(crate) uses: Vec<Use>,
}

impl Manner {
    /// Its place in the order of uses.
    fn rank(self) -> u32 {
        match self {
            Manner::Receives => 0,
            Manner::Polls => 1,
            Manner::Sends => 2,
            Manner::Calls => 3,
        }
    }
}

/// What is asked of an endpoint at a run.
fn use_of(thread: usize, run: &Run) -> Option<Use> {
    let (endpoint, manner, badge) = match run.ask {
        Ask::Accepts { endpoint, .. } => (endpoint, Manner::Receives, 0),
        Ask::Looks(endpoint) => (endpoint, Manner::Polls, 0),
        Ask::SendsTo(endpoint) => (endpoint, Manner::Sends, 0),
        Ask::Calls(endpoint) => (endpoint, Manner::Calls, run.badge),
        _ => return None,
    };
    Some(Use {
        endpoint,
        manner,
        badge,
        thread,
        is_answered: false,
    })
}

/// The object from which something that is asked takes.
pub(crate) fn taken_by(ask: Ask) -> Option<u32> {
    match ask {
        Ask::Takes(object) => Some(object),
        Ask::Accepts { endpoint, .. } => Some(endpoint),
        _ => None,
    }
}

/// The object from which a program takes, if it takes from one alone.
pub(crate) fn input_of(program: &Outline) -> Option<u32> {
    let mut input = None;
    for run in &program.runs {
        if let Some(object) = taken_by(run.ask) {
            match input {
                Some(other) if other != object => return None,
                _ => input = Some(object),
            }
        }
    }
    input
}

impl Threads {
    /// Those of an image with these programs, by what was found of answers. Memory may be refused.
    pub(crate) fn of(
        alloc: Global,
        programs: &[Outline],
        found: &[Answered],
    ) -> Result<Self, AllocError> {
        let mut threads = Threads {
            inputs: Vec::new(alloc),
            takers: Vec::new(alloc),
            uses: Vec::new(alloc),
        };
        for (thread, program) in programs.iter().enumerate() {
            threads.inputs.push(input_of(program))?;
            threads.note(thread, program)?;
        }
        threads.takers.sort_by_key(|taker| taker.object)?;
        threads.uses.sort_by_key(|used| (
            used.endpoint,
            used.manner.rank(),
            used.badge,
            used.thread,
        ))?;
        threads.uses.dedup();
        threads.note_answers(found);
        Ok(threads)
    }

    /// Notes what the runs of a thread ask.
    fn note(&mut self, thread: usize, program: &Outline) -> Result<(), AllocError> {
        for (place, run) in program.runs.iter().enumerate() {
            if let Some(object) = taken_by(run.ask) {
                self.takers.push(Taker {
                    object,
                    thread,
                    place,
                })?;
            }
            if let Some(found) = use_of(thread, run) {
                if self.uses.last() != Some(&found) {
                    self.uses.push(found)?;
                }
            }
        }
        Ok(())
    }

    /// Notes which calls are answered. Calls of an endpoint with one badge come one after another.
    fn note_answers(&mut self, found: &[Answered]) {
        let mut last: Option<Use> = None;
        for place in 0..self.uses.len() {
            let mut used = self.uses[place];
            if used.manner != Manner::Calls {
                continue;
            }
            used.is_answered = match last {
                Some(last) if last.endpoint == used.endpoint && last.badge == used.badge => {
                    last.is_answered
                }
                _ => self.is_answered(found, used.endpoint, used.badge),
            };
            self.uses[place] = used;
            last = Some(used);
        }
    }

    /// Whether each thread that receives from an endpoint answers a badge.
    fn is_answered(&self, found: &[Answered], endpoint: u32, badge: u32) -> bool {
        let uses = self.uses_of(endpoint);
        let count = uses.partition_point(|used| used.manner == Manner::Receives);
        let (receivers, _) = uses.split_at(count.min(uses.len()));
        receivers.iter().all(|used| match u32::try_from(used.thread) {
            Ok(thread) => answers_at(found, thread, badge),
            Err(_) => false,
        })
    }

    /// Who takes from an object.
    pub(crate) fn takers_of(&self, object: u32) -> &[Taker] {
        let first = self.takers.partition_point(|taker| taker.object < object);
        let (_, rest) = self.takers.split_at(first.min(self.takers.len()));
        let count = rest.partition_point(|taker| taker.object <= object);
        rest.split_at(count.min(rest.len())).0
    }

    /// What is asked of an endpoint.
    pub(crate) fn uses_of(&self, endpoint: u32) -> &[Use] {
        let first = self.uses.partition_point(|used| used.endpoint < endpoint);
        let (_, rest) = self.uses.split_at(first.min(self.uses.len()));
        let count = rest.partition_point(|used| used.endpoint <= endpoint);
        rest.split_at(count.min(rest.len())).0
    }
}
