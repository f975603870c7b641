//! The threads that acknowledge lines: each on all ways from one take to the next.

ghost use Rattle.std.specs.Prelude.{◌≡◌, ◌&&◌, ◌==◌, ◌||◌, IfOk, not, true};
ghost use Rattle.std.specs.List.{list_all, list_any};
ghost use Rattle.responses.specs.Keepers.{AreKeepers, high_at, is_kept, keeps, keeps_by, left_to};

use crate::asks::{Ask, AskTest};
use crate::edge_checks::EdgeTest;
use crate::lines::{Bell, LINES, bell_at};
use crate::marks::marks_of;
use crate::outlines::Outline;
use crate::sums::is_high;
use std::alloc::{AllocError, Global};

/// The thread that acknowledges a line on each way from one take of its notification to the next, and alone takes from that.
#[derive(Drop)]
pub(crate) struct Keeper {
    /// By its number.
    pub(crate) thread: u32,
    /// By its offset.
    pub(crate) notification: u32,
    /// Whether the thread waits for no message, and takes from nothing else.
    pub(crate) is_alone: bool,
    /// Of each run of the thread: whether the line was acknowledged before, on each way from a take on.
    pub(crate) marks: Vec<bool>,
}

/// Whether no thread but that of this control block takes from a notification, and none polls it.
fn is_left_to(tcb: u32, queue: u32, programs: &[Outline]) -> bool
    ensures { result ≡ left_to tcb queue programs.now }
{
    programs.iter().all(|other| {
        let test = AskTest::Leaves {
            queue,
            takes: other.tcb == tcb,
        };
        test.holds_for(other)
    })
}

impl Keeper {
    /// Whether its marks are kept, and nobody else takes or polls, if it is of this thread, and the line signals this.
    fn keeps_by(&self, programs: &[Outline], line: u32, bell: &Bell, program: &Outline) -> bool
        ensures { result ≡ keeps_by programs.now line self.now bell.now program.now }
    {
        let takes = AskTest::TakesOnly(bell.notification);
        let marks = EdgeTest::KeepsMarks {
            line,
            marks: self.marks.as_slice(),
        };
        program.number == self.thread
            && self.notification == bell.notification
            && bell.badge != 0
            && is_left_to(program.tcb, bell.notification, programs)
            && marks.holds_for(program)
            && (!self.is_alone || takes.holds_for(program))
    }

    /// Whether it keeps the line that signals this.
    fn keeps(&self, programs: &[Outline], line: u32, bell: &Bell) -> bool
        ensures { result ≡ list_any (keeps_by programs.now line self.now bell.now) programs.now }
    {
        programs
            .iter()
            .any(|program| self.keeps_by(programs, line, bell, program))
    }

    /// Whether it keeps a line.
    fn keeps_line(&self, programs: &[Outline], bells: &[Option<Bell>], line: u32) -> bool
        ensures { result ≡ keeps programs.now bells.now line self.now }
    {
        match bell_at(bells, line) {
            Some(bell) => self.keeps(programs, line, &bell),
            None => false,
        }
    }

    /// Whether its thread is of the level of a priority and above.
    fn is_high(&self, priority: u32, programs: &[Outline]) -> bool
        ensures { result ≡ high_at programs.now priority self.now.thread }
    {
        match programs.get(self.thread as usize) {
            Some(program) => is_high(priority, program),
            None => false,
        }
    }

    /// Whether it is, and waits for no message.
    pub(crate) fn is_alone_of(&self, priority: u32, programs: &[Outline]) -> bool
        ensures { result ≡ (self.now.is_alone && high_at programs.now priority self.now.thread) }
    {
        self.is_alone && self.is_high(priority, programs)
    }
}

/// Who keeps a line, by a list of that.
pub(crate) fn keeper_at(keepers: &[Option<Keeper>], line: u32) -> Option<&Keeper> {
    match keepers.get(line as usize) {
        Some(Some(keeper)) => Some(keeper),
        _ => None,
    }
}

/// Whether a program takes from a notification.
fn takes_from(program: &Outline, notification: u32) -> bool {
    program.runs.iter().any(|run| match run.ask {
        Ask::Takes(other) => other == notification,
        _ => false,
    })
}

/// The thread that may keep a line that signals this. Memory may be refused.
fn candidate(
    alloc: Global,
    programs: &[Outline],
    line: u32,
    bell: &Bell,
) -> Result<Option<Keeper>, AllocError> {
    for program in programs {
        if takes_from(program, bell.notification) {
            return Ok(Some(Keeper {
                thread: program.number,
                notification: bell.notification,
                is_alone: AskTest::TakesOnly(bell.notification).holds_for(program),
                marks: marks_of(alloc, line, program)?,
            }));
        }
    }
    Ok(None)
}

/// Who keeps a line, if somebody does. Memory may be refused.
fn keeper_of(
    alloc: Global,
    programs: &[Outline],
    bells: &[Option<Bell>],
    line: u32,
) -> Result<Option<Keeper>, AllocError>
    ensures { IfOk result (λ keeper. is_kept programs.now bells.now line keeper ≡ true) }
{
    let Some(bell) = bell_at(bells, line) else {
        return Ok(None);
    };
    let Some(keeper) = candidate(alloc, programs, line, &bell)? else {
        return Ok(None);
    };
    if keeper.keeps_line(programs, bells, line) {
        return Ok(Some(keeper));
    }
    Ok(None)
}

/// Who keeps each line. Memory may be refused.
pub(crate) fn keepers_of(
    alloc: Global,
    programs: &[Outline],
    bells: &[Option<Bell>],
) -> Result<Vec<Option<Keeper>>, AllocError>
    ensures { IfOk result (λ keepers. AreKeepers programs.now bells.now keepers.items) }
{
    let mut keepers = Vec::new(alloc);
    for line in 0..LINES {
        keepers.push(keeper_of(alloc, programs, bells, line)?)?;
    }
    Ok(keepers)
}
