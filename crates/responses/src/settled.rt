//! Settled threads of a level, and the test of them.

ghost use Rattle.std.specs.Prelude.{◌≡◌};
ghost use Rattle.std.specs.List.{list_all, list_any};
ghost use Rattle.responses.specs.Numbers.{number_at};
ghost use Rattle.responses.specs.Inputs.{input_at};
ghost use Rattle.responses.specs.Settling.{answers_door, are_settled, comes_before, has_taker, is_input_there, is_settled, keeps_doors, may_ask};

use crate::asks::AskTest;
use crate::doors::{Door, asks_settled, is_input};
use crate::outlines::{Outline, Run};
use crate::sums::is_high;
use answering::{Answered, answers_at};

/// The threads of a level that are settled: each takes from one object alone, its input, and sends to and calls such threads alone that come before it
/// and take what comes. Where nothing of the level is ready each waits at its input, and not in a call or a send.
#[derive(Drop)]
pub(crate) struct Settled {
    /// Of each thread by its number: its input, by its offset, if it is settled.
    pub(crate) inputs: Vec<Option<u32>>,
    /// Of each thread by its number: who comes first has the lower rank.
    pub(crate) ranks: Vec<u32>,
    pub(crate) doors: Vec<Door>,
}

impl Settled {
    /// The input of a thread, if it is settled.
    pub(crate) fn input(&self, thread: u32) -> Option<u32>
        ensures { result ≡ input_at self.now.inputs.items thread }
    {
        match self.inputs.get(thread as usize) {
            Some(input) => *input,
            None => None,
        }
    }

    /// The rank of a thread.
    pub(crate) fn rank(&self, thread: u32) -> u32
        ensures { result ≡ number_at self.now.ranks.items thread }
    {
        match self.ranks.get(thread as usize) {
            Some(rank) => *rank,
            None => 0,
        }
    }

    /// Whether a thread is settled with this input, and comes before the rank.
    fn comes_before(&self, object: u32, rank: u32, program: &Outline) -> bool
        ensures { result ≡ comes_before self.now object rank program.now }
    {
        is_input(object, self.input(program.number)) && self.rank(program.number) < rank
    }

    /// Whether such a thread receives at a door.
    fn has_taker(&self, programs: &[Outline], door: &Door) -> bool
        ensures { result ≡ has_taker self.now programs.now door.now }
    {
        programs.iter().any(|program| self.comes_before(door.endpoint, door.rank, program))
    }

    /// Whether one does at each door.
    fn have_takers(&self, programs: &[Outline]) -> bool
        ensures { result ≡ list_all (has_taker self.now programs.now) self.now.doors.items }
    {
        self.doors.iter().all(|door| self.has_taker(programs, door))
    }

    /// Whether a thread of this rank and input may ask what a run asks, if that is clear.
    fn may_ask(&self, rank: u32, input: u32, run: &Run) -> bool
        ensures { result ≡ may_ask self.now.doors.items rank input run.now }
    {
        run.is_clear && asks_settled(self.doors.as_slice(), rank, input, run)
    }

    /// Whether it may ask what all runs of a program ask.
    fn may_ask_all(&self, rank: u32, input: u32, program: &Outline) -> bool
        ensures { result ≡ list_all (may_ask self.now.doors.items rank input) program.now.runs.items }
    {
        program
            .runs
            .iter()
            .all(|run| self.may_ask(rank, input, run))
    }

    /// Whether a thread asks only what it may, if it is settled.
    fn is_settled(&self, priority: u32, program: &Outline) -> bool
        ensures { result ≡ is_settled priority self.now program.now }
    {
        match self.input(program.number) {
            Some(input) => {
                let rank = self.rank(program.number);
                is_high(priority, program) && self.may_ask_all(rank, input, program)
            }
            None => true,
        }
    }

    /// Whether a thread answers at a door, if that is its input.
    fn answers_door(&self, found: &[Answered], thread: u32, door: &Door) -> bool
        ensures { result ≡ answers_door self.now found.now thread door.now }
    {
        if !is_input(door.endpoint, self.input(thread)) {
            return true;
        }
        match door.answers {
            Some(badge) => answers_at(found, thread, badge),
            None => true,
        }
    }

    /// Whether it answers at each door that is its input.
    fn answers_doors(&self, found: &[Answered], thread: u32) -> bool
        ensures { result ≡ list_all (answers_door self.now found.now thread) self.now.doors.items }
    {
        self.doors
            .iter()
            .all(|door| self.answers_door(found, thread, door))
    }

    /// Whether a thread receives from doors that answer as it may, and answers there.
    fn keeps_doors(&self, found: &[Answered], program: &Outline) -> bool
        ensures { result ≡ keeps_doors self.now found.now program.now }
    {
        let doors = self.doors.as_slice();
        let input = self.input(program.number);
        let test = AskTest::KeepsDoors {
            doors,
            rank: self.rank(program.number),
            input,
        };
        test.holds_for(program) && self.answers_doors(found, program.number)
    }

    /// Whether each thread asks only what it may, if it is settled.
    fn ask_as_settled(&self, priority: u32, programs: &[Outline]) -> bool
        ensures { result ≡ list_all (is_settled priority self.now) programs.now }
    {
        programs
            .iter()
            .all(|program| self.is_settled(priority, program))
    }

    /// Whether each thread receives from doors that answer as it may, and answers there.
    fn all_keep_doors(&self, found: &[Answered], programs: &[Outline]) -> bool
        ensures { result ≡ list_all (keeps_doors self.now found.now) programs.now }
    {
        programs
            .iter()
            .all(|program| self.keeps_doors(found, program))
    }

    /// Whether the threads are settled.
    pub(crate) fn are_settled(
        &self,
        priority: u32,
        found: &[Answered],
        programs: &[Outline],
    ) -> bool
        ensures { result ≡ are_settled priority self.now found.now programs.now }
    {
        self.ask_as_settled(priority, programs)
            && self.have_takers(programs)
            && self.all_keep_doors(found, programs)
    }

    /// Whether an object is the input of one of them.
    fn is_input_there(&self, programs: &[Outline], object: u32) -> bool
        ensures { result ≡ is_input_there self.now programs.now object }
    {
        programs
            .iter()
            .any(|program| is_input(object, self.input(program.number)))
    }

    /// Whether each of these is.
    pub(crate) fn are_inputs(&self, programs: &[Outline], objects: &[u32]) -> bool
        ensures { result ≡ list_all (is_input_there self.now programs.now) objects.now }
    {
        objects
            .iter()
            .all(|object| self.is_input_there(programs, *object))
    }
}
