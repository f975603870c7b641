//! The ways on from a point with a state.

ghost use Rattle.std.specs.Prelude.{ℕ, ◌≡◌, ◌<◌, ◌≢◌, IfOk, IfSome, List, None, Option, Some, option_map, true, if◌then◌else◌};
ghost use Rattle.model.specs.Acceptance.Edges.{Edge as RuleEdge, after};
ghost use Rattle.model.specs.Acceptance.NotedStates.{PointState as State, are_same_slots};
ghost use Rattle.model.specs.Acceptance.PointRules.{point_at};
ghost use Rattle.model.specs.Acceptance.PointStates as states;
ghost use Rattle.model.specs.Acceptance.Rules.{first_broken};
ghost use Rattle.model.specs.declared.instructions.Instr.TheVariants.{Ecall};
ghost use Rattle.model.specs.declared.ranges.Range.{Range};
ghost use Rattle.program_rules.specs.Kept.{HasPart};
ghost use Rattle.program_rules.specs.OfPrograms.{AreRead, words_of};
ghost use Rattle.program_rules.specs.PointChecks.{IsBefore, is_branch};
ghost use Rattle.program_rules.specs.Visits.{AreRootedAt, AreRootedSeen, address_here, broken_by, instruction_here, later_rules_here, noted_from};
ghost use Rattle.program_rules.specs.Visits.{noted_here, noted_seen, rules_to, slots_at, slots_seen, taken_at, way_rules_here, ways_rules_at};
ghost use Rattle.ranges.specs.Edges.{way_of};
ghost use Rattle.typestate.specs.Logs.{Holds};
ghost use Rattle.wellformed.specs.Answering.{Answers};

use crate::at_points::AtPoint;
use crate::kept::Known;
use crate::point_rules::{Way, kept_at, left_calls_are_kept, left_states_are_kept};
use crate::points::Points;
use crate::programs::Program;
use crate::read_points::ReadPoints;
use crate::visits::{PlainPoint, Seen, Visit};
use measure::{AfterInstruction, Step};
use model::{Instr, Refusal};
use part_roots::PartRoots;
use ranges::{Bounds, Edge, after};
use std::alloc::AllocError;
use typestate::Part;

/// The ranges before an instruction, for the values that come this way: a branch leaves only some of them.
fn before<'b>(instr: Instr, bounds: &'b Bounds, edge: &'b Edge) -> &'b Bounds
    ensures { result.now ≡ (if is_branch instr then edge.now.bounds else bounds.now) }
{
    match instr {
        Instr::Branch { .. } => &edge.bounds,
        _ => bounds,
    }
}

/// Whether an instruction goes on after itself alone, or not at all.
#[tactic(auto, unfolding(model::specs::Acceptance::Edges::after))]
fn takes_no_way(instr: Instr) -> bool
    ensures { (pc : ℕ) (ranges : List Range) → result ≡ true → (after pc instr ranges).taken ≡ None }
{
    !matches!(instr, Instr::Jal { .. } | Instr::Branch { .. })
}

impl Program<'_, '_> {
    /// The point at an address, if the program has one there.
    pub(crate) fn point_at(&self, address: u32) -> Option<u32>
        ensures value { result ≡ point_at self.now.given.space.thread.now address }
        ensures within { IfSome result (λ point. point < words_of self.now) }
    {
        let header = self.given.space.thread.header();
        if address < header.base || address % 4 != 0 {
            return None;
        }
        let point = (address - header.base) / 4;
        if point < header.words {
            Some(point)
        } else {
            None
        }
    }
}

impl Seen<'_, '_, '_, '_, '_> {
    /// What is kept of the point at an address: nothing, where the program has none there.
    fn kept_at(&self, address: u32) -> AtPoint<Known>
        ensures noted { noted_seen self.now result ≡ noted_from self.now address }
        ensures held { HasPart self.now.points.now.log result }
    {
        let read = ReadPoints {
            program: self.program,
            points: self.points,
        };
        match self.program.point_at(address) {
            Some(point) => read.at(point),
            None => AtPoint::Missing,
        }
    }

    /// Whether the slots are those of another part. They are compared only where the roots of the parts do not show it. Memory may be
    /// refused.
    fn has_same_slots(&self, other: Part, roots: &mut PartRoots) -> Result<bool, AllocError>
        requires held { Holds self.now.points.now.log other }
        requires rooted { AreRootedSeen self.now roots.old }
        ensures is { IfOk result (λ is. is ≡ are_same_slots (slots_seen self.now) (slots_at self.now other)) }
        ensures rooted { IfOk result (λ _. AreRootedSeen self.now roots.new) }
    {
        if self.part.is_same(other) {
            return Ok(true);
        }
        if roots.is_same(self.part, other)? {
            return Ok(true);
        }
        let points = self.points;
        let program = self.program;
        let there = points.log.shown(other)?;
        let mine = self.shown.slots(program.given.slots);
        let theirs = there.slots(program.given.slots);
        let is_same = mine.is_same(&theirs);
        drop(there);
        Ok(is_same)
    }

    /// Whether a way on from these slots to an address keeps its rules. An `Err` names the first that it breaks, or says that memory
    /// was refused.
    pub(crate) fn way_to<S: Step>(
        &self,
        way: &Way<'_>,
        step: &S,
        address: u32,
        roots: &mut PartRoots,
    ) -> Result<(), Refusal>
        requires rooted { AreRootedSeen self.now roots.old }
        ensures rooted { IfOk result (λ _. AreRootedSeen self.now roots.new) }
        ensures answers { Answers (first_broken (rules_to self.now way.now (S.value_of step.now) address)) result }
    {
        let there = self.kept_at(address);
        match &there {
            AtPoint::Known(known) => {
                let has_slots = self.has_same_slots(known.part, roots)?;
                let program = self.program;
                let budget = program.given.space.thread.header().budget;
                kept_at(budget, way, step, known, has_slots)
            }
            AtPoint::Missing => Err(Refusal::BadTarget(way.at)),
            AtPoint::Unmeasured => Err(Refusal::MeasureNotFalling(way.at)),
        }
    }
}

impl Visit<'_, '_, '_, '_> {
    /// Whether the next point has the very state that this one leaves: no record notes it, and it has a state. The way to it keeps its
    /// rules then, and a system call before it is not refused.
    pub(crate) fn leaves_next(&self, points: &Points<'_>) -> bool
        ensures plain { AreRead self.now.program.now points.now → (s : State) (instr : Instr) → result ≡ true → states.Known s ≡ noted_here self.now
            → instruction_here self.now ≡ Some instr → instr ≢ Ecall
            → first_broken (way_rules_here self.now s instr (after (address_here self.now) instr s.ranges).fall_through) ≡ None }
        ensures call { AreRead self.now.program.now points.now → (s : State) → result ≡ true → states.Known s ≡ noted_here self.now
            → instruction_here self.now ≡ Some Ecall → first_broken (later_rules_here self.now s (Some Ecall)) ≡ None }
    {
        left_states_are_kept();
        left_calls_are_kept();
        if self.is_next_noted {
            return false;
        }
        match self.program.point_at(self.program.address(self.point) + 4) {
            Some(next) => next == self.point + 1 && points.kept.has_state(next),
            None => false,
        }
    }
}

impl PlainPoint<'_, '_, '_, '_, '_, '_, '_> {
    /// The rules on a way on from the instruction.
    fn way_rules(&self, way: &Edge, roots: &mut PartRoots) -> Result<(), Refusal>
        requires { AreRootedAt self.now roots.old }
        ensures rooted { IfOk result (λ _. AreRootedAt self.now roots.new) }
        ensures answers { (edge : RuleEdge) → way_of edge ≡ way.now
            → edge.before ≡ (if is_branch self.now.instr then edge.ranges else self.now.known.now.bounds)
            → Answers (broken_by self.now (Some edge)) result }
    {
        let before = before(self.instr, &self.known.bounds, way);
        let found = Way {
            at: self.visit.program.at(self.visit.point),
            measure: &self.known.measure,
            before,
            behind: &way.bounds,
            is_wait: false,
        };
        let step = AfterInstruction::new(self.instr, before, &way.bounds);
        let seen = Seen {
            program: self.visit.program,
            points: self.points,
            part: self.known.part,
            shown: self.shown,
        };
        seen.way_to(&found, &step, way.target, roots)
    }

    /// The same, where there may be no such way.
    fn option_rules(&self, way: &Option<Edge>, roots: &mut PartRoots) -> Result<(), Refusal>
        requires { AreRootedAt self.now roots.old }
        ensures rooted { IfOk result (λ _. AreRootedAt self.now roots.new) }
        ensures answers { (edge : Option RuleEdge) → option_map way_of edge ≡ way.now → IsBefore self.now.instr self.now.known.now.bounds edge
            → Answers (broken_by self.now edge) result }
    {
        match way {
            Some(way) => self.way_rules(way, roots),
            None => Ok(()),
        }
    }

    /// The rules on the taken way on.
    fn taken_rules(&self, roots: &mut PartRoots) -> Result<(), Refusal>
        requires { AreRootedAt self.now roots.old }
        ensures rooted { IfOk result (λ _. AreRootedAt self.now roots.new) }
        ensures answers { Answers (broken_by self.now (taken_at self.now)) result }
    {
        if takes_no_way(self.instr) {
            return Ok(());
        }
        let address = self.visit.program.address(self.visit.point);
        let ways = after(address, self.instr, &self.known.bounds);
        self.option_rules(&ways.taken, roots)
    }

    /// The rules on the ways on, the taken one first.
    pub(crate) fn ways_rules(&self, roots: &mut PartRoots) -> Result<(), Refusal>
        requires { AreRootedAt self.now roots.old }
        ensures rooted { IfOk result (λ _. AreRootedAt self.now roots.new) }
        ensures answers { Answers (first_broken (ways_rules_at self.now)) result }
    {
        if self.visit.leaves_next(self.points) {
            return self.taken_rules(roots);
        }
        let address = self.visit.program.address(self.visit.point);
        let ways = after(address, self.instr, &self.known.bounds);
        self.option_rules(&ways.taken, roots)?;
        self.option_rules(&ways.fall_through, roots)
    }
}
