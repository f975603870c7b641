//! The rules on a point's system call, and on the way on after it.

ghost use Rattle.std.specs.Prelude.{◌≡◌, ◌<◌, IfOk, Some};
ghost use Rattle.model.specs.Acceptance.Rules.{first_broken};
ghost use Rattle.model.specs.declared.instructions.Instr.TheVariants.{Ecall};
ghost use Rattle.program_rules.specs.OfPrograms.{AreRead, call_way_rules, replayed_for, state_for, words_of};
ghost use Rattle.program_rules.specs.Visits.{IsShownHere, instruction_here, later_rules_here, slots_seen};
ghost use Rattle.typestate.specs.Logs.{KeepsParts, ShowsSome, part_of};
ghost use Rattle.typestate.specs.Replays.{replayed};
ghost use Rattle.wellformed.specs.Answering.{Answers};

use crate::kept::Known;
use crate::point_rules::{Way, registers_of};
use crate::points::Points;
use crate::space_rules::Called;
use crate::visits::{Seen, Visit, VisitedSlots};
use measure::AfterCall;
use model::Refusal;
use part_roots::PartRoots;
use typestate::{Behind, LogEntry, ShownPart};

impl Seen<'_, '_, '_, '_, '_> {
    /// Whether the way on after a system call at a point that leaves this, and these slots, keeps its rules: an `Err` names the first
    /// that it breaks, or says that memory was refused.
    fn way_behind(&self, point: u32, known: &Known, behind: &Behind) -> Result<(), Refusal>
        requires { point < words_of self.now.program.now }
        ensures { Answers (first_broken (call_way_rules self.now.program.now point known.now (slots_seen self.now) behind.now)) result }
    {
        let way = Way {
            at: self.program.at(point),
            measure: &known.measure,
            before: &known.bounds,
            behind: &behind.bounds,
            is_wait: behind.is_wait,
        };
        let step = AfterCall {
            written: registers_of(behind.written),
        };
        let next = self.program.address(point) + 4;
        let program = self.program;
        // Each is compared with the slots of a record, and so of one part alone.
        let mut roots = PartRoots::new(program.alloc)?;
        self.way_to(&way, &step, next, &mut roots)
    }
}

impl<'a> Visit<'_, '_, 'a, '_> {
    /// Whether the way on after a system call that leaves this, and makes these changes of slots, keeps its rules. What is shown goes on
    /// to the slots that it leaves.
    fn behind_rules(
        &self,
        points: &mut Points<'a>,
        shown: &mut ShownPart,
        known: &Known,
        behind: &Behind,
        made: &[LogEntry],
    ) -> Result<(), Refusal>
        requires { IsShownHere self.now points.old known.now shown.old }
        ensures shown { IfOk result (λ _. ShowsSome points.new.log shown.new) }
        ensures broken { Answers (first_broken (call_way_rules self.now.program.now self.now.point known.now
            (replayed (replayed_for self.now.program.now (part_of points.old.log known.now.part)) made.now) behind.now)) result }
        ensures read { IfOk result (λ _. AreRead self.now.program.now points.new) }
        ensures others { IfOk result (λ _. KeepsParts points.old.log points.new.log) }
    {
        let part = points.log.follow(known.part, made)?;
        points.log.show(shown, part)?;
        let seen = Seen {
            program: self.program,
            points: &*points,
            part,
            shown: &*shown,
        };
        seen.way_behind(self.point, known, behind)
    }

    /// Whether the system call at a point is accepted, and keeps the rules on its way on. It is not looked at again where the next point
    /// has the state that it leaves.
    pub(crate) fn call_rules(
        &self,
        points: &mut Points<'a>,
        shown: &mut ShownPart,
        known: &Known,
    ) -> Result<(), Refusal>
        requires { IsShownHere self.now points.old known.now shown.old }
        ensures shown { IfOk result (λ _. ShowsSome points.new.log shown.new) }
        ensures broken { instruction_here self.now ≡ Some Ecall
            → Answers (first_broken (later_rules_here self.now (state_for self.now.program.now points.old.log known.now) (Some Ecall))) result }
        ensures read { IfOk result (λ _. AreRead self.now.program.now points.new) }
        ensures others { IfOk result (λ _. KeepsParts points.old.log points.new.log) }
    {
        if self.leaves_next(points) {
            return Ok(());
        }
        let program = self.program;
        let slots = shown.slots(program.given.slots);
        let here = VisitedSlots {
            visit: *self,
            slots,
            is_clean: known.is_clean,
        };
        match here.called(&known.bounds)? {
            Called::Stray => Ok(()),
            Called::Refused(refusal) => Err(refusal),
            Called::Leaves(behind, made) => self.behind_rules(points, shown, known, &behind, &made),
        }
    }
}
