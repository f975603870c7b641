//! The rules on all points of a program, and on its entry.

ghost use Rattle.std.specs.Prelude.{◌≡◌, IfOk};
ghost use Rattle.model.specs.Acceptance.NotedStates.{are_same_slots};
ghost use Rattle.model.specs.Acceptance.Rules.{first_broken};
ghost use Rattle.program_rules.specs.OfPrograms.{AreWalkedFor, GoesAlongFor, entry_rules_for, listed_for, replayed_for, rules_for, state_for};
ghost use Rattle.program_rules.specs.Visits.{IsKeptHere, IsShownHere, point_rules_here, state_rules_here};
ghost use Rattle.typestate.specs.Logs.{Holds, KeepsParts, part_of};
ghost use Rattle.wellformed.specs.Answering.{Answers};

use crate::at_points::AtPoint;
use crate::kept::Known;
use crate::notes::RecordsLeft;
use crate::point_rules::entered;
use crate::points::Points;
use crate::programs::Program;
use crate::read_points::{ReadPoint, ReadPoints};
use crate::visits::{PlainPoint, Visit, VisitedSlots};
use crate::walks::Walk;
use model::{Instr, Refusal};
use rv32_isa::decode;
use std::alloc::AllocError;
use typestate::{Part, ShownPart, SlotLog};

impl<'a> Visit<'_, '_, 'a, '_> {
    /// The rules on the point with this state: an `Err` names the first that it breaks, or says that memory was refused.
    #[tactic(auto, unfolding(model::specs::Acceptance::PointRules::state_rules))]
    fn state_rules(
        &self,
        points: &mut Points<'a>,
        walk: &mut Walk,
        known: &Known,
    ) -> Result<(), Refusal>
        requires along { GoesAlongFor self.now.program.now points.old walk.old }
        requires here { IsShownHere self.now points.old known.now walk.old.shown }
        ensures broken { Answers (first_broken (state_rules_here self.now (state_for self.now.program.now points.old.log known.now))) result }
        ensures walked { IfOk result (λ _. AreWalkedFor self.now.program.now points.new walk.new) }
        ensures others { IfOk result (λ _. KeepsParts points.old.log points.new.log) }
    {
        walk.found.go_on(known.part);
        let program = self.program;
        let slots = walk.shown.slots(program.given.slots);
        let here = VisitedSlots {
            visit: *self,
            slots,
            is_clean: known.is_clean,
        };
        here.own_rules(known, &mut walk.found)?;
        match self.instr {
            Some(Instr::Ecall) => self.call_rules(points, &mut walk.shown, known),
            Some(instr) => {
                let plain = PlainPoint {
                    visit: *self,
                    points: &*points,
                    shown: &walk.shown,
                    known,
                    instr,
                };
                plain.ways_rules(&mut walk.roots)
            }
            None => Ok(()),
        }
    }

    /// The rules on the point: one without a state breaks none. Its part is shown for that, in place of another one, unless no rule asks
    /// for its slots.
    #[tactic(auto, unfolding(model::specs::Acceptance::PointRules::point_rules))]
    fn point_rules(
        &self,
        points: &mut Points<'a>,
        walk: &mut Walk,
        kept: &AtPoint<Known>,
    ) -> Result<(), Refusal>
        requires walked { AreWalkedFor self.now.program.now points.old walk.old }
        requires kept { IsKeptHere self.now points.old kept.now }
        ensures broken { Answers (first_broken (point_rules_here self.now)) result }
        ensures walked { IfOk result (λ _. AreWalkedFor self.now.program.now points.new walk.new) }
        ensures others { IfOk result (λ _. KeepsParts points.old.log points.new.log) }
    {
        match kept {
            AtPoint::Known(known) => {
                if self.keeps_own_unseen(known) {
                    if self.leaves_next(points) {
                        return Ok(());
                    }
                }
                points.log.show(&mut walk.shown, known.part)?;
                self.state_rules(points, walk, known)
            }
            AtPoint::Missing | AtPoint::Unmeasured => Ok(()),
        }
    }
}

impl ReadPoints<'_, '_, '_, '_> {
    /// The rules on the state of the thread's entry.
    fn entry_rules(&self) -> Result<(), Refusal>
        ensures { Answers (first_broken (entry_rules_for self.now.program.now)) result }
    {
        let program = self.program;
        let points = self.points;
        let entry = program.given.space.thread.header().entry;
        let at = program.at(entry);
        match self.at(entry) {
            AtPoint::Known(known) => {
                let has_slots = program.has_listed_slots(&points.log, known.part)?;
                entered(program.given.space.thread, at, &known, has_slots)
            }
            AtPoint::Missing | AtPoint::Unmeasured => Err(Refusal::RangeNotKept(at)),
        }
    }
}

impl<'a> Program<'a, '_> {
    /// The rules at the entry, and then on all points in their order.
    #[tactic(auto, unfolding(model::specs::Acceptance::PointRules::rules_of_program))]
    fn points_rules(&self, points: &mut Points<'a>, walk: &mut Walk) -> Result<(), Refusal>
        requires { AreWalkedFor self.now points.old walk.old }
        ensures { Answers (first_broken (rules_for self.now)) result }
    {
        let read = ReadPoints {
            program: self,
            points: &*points,
        };
        read.entry_rules()?;
        let mut records = RecordsLeft::of(self);
        let mut kept = read.at(0);
        'rules: for point in 0..self.given.space.thread.word_count() {
            let noted = records.take(point);
            let is_next_noted = records.is_next(point + 1);
            let instr = decode(self.given.space.thread.word(point));
            let visit = Visit {
                program: self,
                point,
                instr,
                noted: noted.as_ref(),
                is_next_noted,
            };
            walk.turn_to(&kept);
            visit.point_rules(points, walk, &kept)?;
            let still_read = ReadPoints {
                program: self,
                points: &*points,
            };
            let here = ReadPoint {
                read: still_read,
                point,
                instr,
            };
            here.pass(&mut kept);
        }
        Ok(())
    }

    /// Whether the slots of a part of the log are those that the image lists.
    fn has_listed_slots(&self, log: &SlotLog, part: Part) -> Result<bool, AllocError>
        requires { Holds log.now part }
        ensures { IfOk result (λ is. is ≡ are_same_slots (replayed_for self.now (part_of log.now part)) (listed_for self.now)) }
    {
        let shown = log.shown(part)?;
        let nothing = ShownPart::new(self.alloc);
        let slots = shown.slots(self.given.slots);
        Ok(slots.is_same(&nothing.slots(self.given.slots)))
    }

    /// The rules on the program: at its entry, and then at its points in their order.
    pub(crate) fn check(&self) -> Result<(), Refusal>
        ensures { Answers (first_broken (rules_for self.now)) result }
    {
        let (mut points, left) = Points::of(self)?;
        let roots = self.roots(&points)?;
        let mut walk = Walk::new(self.alloc, left, roots);
        let outcome = self.points_rules(&mut points, &mut walk);
        // By one call, in place of one for each of its maps.
        drop(walk);
        outcome
    }
}
