//! What follows from the state of a point.

ghost use Rattle.std.specs.Prelude.{ℕ, ◌≡◌, ◌≢◌, ◌+◌, ◌<◌, ◌≤ℤ◌, ◌^◌, ◌-◌, IfOk, List, false, negsuc};
ghost use Rattle.measure.specs.Measures.{measure_of};
ghost use Rattle.model.specs.Acceptance.Edges.{after};
ghost use Rattle.model.specs.Acceptance.NotedStates.{NotedSlot};
ghost use Rattle.model.specs.Acceptance.PointStates.{follows_edge};
ghost use Rattle.model.specs.Images.Image.{Image, Thread};
ghost use Rattle.model.specs.Machine.Instructions.{IsInstr};
ghost use Rattle.model.specs.declared.instructions.Instr.TheVariants.{Ecall};
ghost use Rattle.program_rules.specs.Kept.{IsCleanIn, IsSound, ShowsKept, kept_as, noted_by, passed_as, state_by};
ghost use Rattle.program_rules.specs.OfPrograms.{IsCleanFor, address_for, noted_for, words_of};
ghost use Rattle.program_rules.specs.Reads.{IsCleanRead, IsKeptRead, instruction_read, left_read, noted_read};
ghost use Rattle.program_rules.specs.Visits.{IsLookedAtHere, behind_here, left_here};
ghost use Rattle.program_rules.specs.declared.at_points.AtPoint.TheVariants as kept;
ghost use Rattle.program_rules.specs.declared.kept.Known.{Known as State};
ghost use Rattle.typestate.specs.Logs.{KeepsParts};
ghost use Rattle.typestate.specs.declared.log_entries.LogEntry.{LogEntry};

use crate::at_points::AtPoint;
use crate::kept::Known;
use crate::point_rules::{Left, follows_call, writes_term};
use crate::programs::Program;
use crate::read_points::ReadPoint;
use crate::space_rules::Called;
use crate::visits::{Visit, VisitedSlots};
use model::Instr;
use ranges::pass;
use std::alloc::AllocError;
use typestate::{Part, ShownPart, SlotLog, points_without_stray_slots_have_none};

/// What is kept of what a point leaves for the next one, with the part that its slots have, and whether it is known that none of
/// them is one that the thread may not have.
fn keep(left: AtPoint<Left>, part: Part, is_clean: bool) -> AtPoint<Known>
    ensures { result ≡ kept_as left part is_clean }
{
    match left {
        AtPoint::Known(left) => AtPoint::Known(Known {
            bounds: left.bounds,
            measure: left.measure,
            part,
            is_clean,
        }),
        AtPoint::Missing => AtPoint::Missing,
        AtPoint::Unmeasured => AtPoint::Unmeasured,
    }
}

impl Known {
    /// Goes on after an instruction that is no system call: slots stay.
    fn pass(&mut self, pc: u32, instr: Instr) -> AtPoint<()>
        requires instr { IsInstr instr }
        requires measure { negsuc (2 ^ 63 - 2) ≤ℤ (measure_of self.old.measure).constant }
        ensures same { (slots : List NotedSlot) (log : List LogEntry)
            → noted_by slots log (passed_as self.new result) ≡ follows_edge instr (state_by slots log self.old) (after pc instr self.old.bounds).fall_through }
        ensures sound { (log : List LogEntry) (point : ℕ) → IsSound log point (kept.Known self.old) → IsSound log (point + 1) (passed_as self.new result) }
        ensures clean { (image : Image) (t : Thread) (slots : List NotedSlot) (log : List LogEntry) → IsCleanIn image t slots log (kept.Known self.old)
            → IsCleanIn image t slots log (passed_as self.new result) }
    {
        if !pass(pc, instr, &mut self.bounds) {
            return AtPoint::Missing;
        }
        if writes_term(instr, &self.measure) {
            return AtPoint::Unmeasured;
        }
        self.measure = self.measure.lowered();
        AtPoint::Known(())
    }
}

impl AtPoint<Known> {
    /// Keeps what became of its state.
    fn leave(&mut self, passed: AtPoint<()>)
        ensures { (k : State) → self.old ≡ kept.Known k → self.new ≡ passed_as k passed }
    {
        match passed {
            AtPoint::Known(()) => {}
            AtPoint::Missing => *self = AtPoint::Missing,
            AtPoint::Unmeasured => *self = AtPoint::Unmeasured,
        }
    }
}

impl Program<'_, '_> {
    /// The address of a point.
    pub(crate) fn address(&self, point: u32) -> u32
        requires within { point < words_of self.now }
        ensures { result ≡ address_for self.now point }
    {
        self.given.space.thread.header().base + 4 * point
    }
}

impl ReadPoint<'_, '_, '_, '_> {
    /// Makes of what is kept of the point, which has no system call, what is kept of the one after it, where no record notes that.
    pub(crate) fn pass_plain(&self, kept: &mut AtPoint<Known>)
        requires { IsKeptRead self.now kept.old }
        ensures same { instruction_read self.now ≢ Some Ecall
            → noted_read self.now kept.new ≡ left_read self.now (noted_read self.now kept.old) }
        ensures sound { IsSound self.now.read.points.now.log (self.now.point + 1) kept.new }
        ensures clean { IsCleanRead self.now kept.new }
    {
        let AtPoint::Known(known) = kept else {
            *kept = AtPoint::Missing;
            return;
        };
        match self.instr {
            None | Some(Instr::Ecall) => *kept = AtPoint::Missing,
            Some(instr) => {
                let passed = known.pass(self.read.program.address(self.point), instr);
                kept.leave(passed);
            }
        }
    }
}

impl Visit<'_, '_, '_, '_> {
    /// Adds to what is kept of the point what a look at its slots shows, where nothing is known of them.
    pub(crate) fn look(&self, kept: &mut AtPoint<Known>, log: &SlotLog, shown: &ShownPart)
        requires { IsLookedAtHere self.now log.now shown.now kept.old }
        ensures same { noted_for self.now.program.now log.now kept.new ≡ noted_for self.now.program.now log.now kept.old }
        ensures sound { IsSound log.now self.now.point kept.new }
        ensures shown { ShowsKept log.now shown.now kept.new }
        ensures clean { IsCleanFor self.now.program.now log.now kept.new }
    {
        points_without_stray_slots_have_none();
        if let AtPoint::Known(known) = kept {
            if known.is_clean {
                return;
            }
            let program = self.program;
            let slots = shown.slots(program.given.slots);
            let here = VisitedSlots {
                visit: *self,
                slots,
                is_clean: false,
            };
            known.is_clean = !here.has_stray_slots();
        }
    }

    /// What is kept of the point after a system call in this state.
    fn behind_called(
        &self,
        known: &Known,
        log: &mut SlotLog,
        shown: &ShownPart,
    ) -> Result<AtPoint<Known>, AllocError>
        requires { IsLookedAtHere self.now log.old shown.now (kept.Known known.now) }
        ensures same { IfOk result (λ k. noted_for self.now.program.now log.new k ≡ behind_here self.now log.old known.now) }
        ensures sound { IfOk result (IsSound log.new (self.now.point + 1)) }
        ensures clean { IfOk result (IsCleanFor self.now.program.now log.new) }
        ensures others { IfOk result (λ _. KeepsParts log.old log.new) }
    {
        let program = self.program;
        let slots = shown.slots(program.given.slots);
        let here = VisitedSlots {
            visit: *self,
            slots,
            is_clean: known.is_clean,
        };
        match here.called(&known.bounds)? {
            Called::Stray => Ok(AtPoint::Missing),
            Called::Refused(_) => Ok(AtPoint::Missing),
            Called::Leaves(behind, made) => {
                let part = log.follow(known.part, &made)?;
                let budget = program.given.space.thread.header().budget;
                let left = follows_call(budget, &known.measure, &behind);
                Ok(keep(left, part, behind.is_tidy))
            }
        }
    }

    /// Makes of what is kept of the point what is kept of the one after it, if no record notes that one: it is not worked out where one
    /// does. Memory may be refused.
    pub(crate) fn pass(
        &self,
        kept: &mut AtPoint<Known>,
        log: &mut SlotLog,
        shown: &ShownPart,
    ) -> Result<(), AllocError>
        requires { IsLookedAtHere self.now log.old shown.now kept.old }
        ensures same { IfOk result (λ _. self.now.is_next_noted ≡ false
            → noted_for self.now.program.now log.new kept.new ≡ left_here self.now (noted_for self.now.program.now log.old kept.old)) }
        ensures sound { IfOk result (λ _. IsSound log.new (self.now.point + 1) kept.new) }
        ensures clean { IfOk result (λ _. IsCleanFor self.now.program.now log.new kept.new) }
        ensures others { IfOk result (λ _. KeepsParts log.old log.new) }
    {
        if self.is_next_noted {
            *kept = AtPoint::Missing;
            return Ok(());
        }
        let AtPoint::Known(known) = kept else {
            *kept = AtPoint::Missing;
            return Ok(());
        };
        match self.instr {
            None => {
                *kept = AtPoint::Missing;
                Ok(())
            }
            Some(Instr::Ecall) => {
                *kept = self.behind_called(known, log, shown)?;
                Ok(())
            }
            Some(instr) => {
                let passed = known.pass(self.program.address(self.point), instr);
                kept.leave(passed);
                Ok(())
            }
        }
    }
}
