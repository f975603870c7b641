//! The rules at a point with a state, up to its system call and its ways on.

ghost use Rattle.std.specs.Prelude.{ℕ, ◌≡◌, List, None, Option, Some, false, true};
ghost use Rattle.std.specs.Result.{result_err};
ghost use Rattle.measure.specs.Measures.{measure_of};
ghost use Rattle.model.specs.Acceptance.Edges.{after};
ghost use Rattle.model.specs.Acceptance.Measures.{Measure as NotedMeasure};
ghost use Rattle.model.specs.Acceptance.NotedStates.{NotedSlot, PointState};
ghost use Rattle.model.specs.Acceptance.PointRules.{is_computed_jump, is_illegal, is_unmapped};
ghost use Rattle.model.specs.Acceptance.PointStates.{point_of};
ghost use Rattle.model.specs.Acceptance.Rules.{first_broken};
ghost use Rattle.model.specs.Images.Image.{Image, Thread};
ghost use Rattle.model.specs.declared.instructions.Instr.{Instr as RuleInstr};
ghost use Rattle.model.specs.declared.ranges.Range.{Range};
ghost use Rattle.program_rules.specs.OfPrograms.{NoneStrayFor};
ghost use Rattle.program_rules.specs.Programs.{thread_of};
ghost use Rattle.program_rules.specs.Visits.{AreMappedHere, is_unmapped_here, own_rules_here, state_with};
ghost use Rattle.typestate.specs.Calls.{known_with};

use crate::kept::Known;
use crate::point_rules::{FoundPages, Pages, ReachedBytes, size_of_load, size_of_store};
use crate::programs::Program;
use crate::visits::{Visit, VisitedSlots};
use measure::least;
use model::{Access, Instr, Point, Refusal};
use ranges::Bounds;

/// Whether a word is no instruction that a program may have.
fn is_illegal(instr: Option<Instr>) -> bool
    ensures { result ≡ is_illegal instr }
{
    match instr {
        None | Some(Instr::Ebreak) => true,
        Some(_) => false,
    }
}

/// Whether it is a jump to an address in a register.
fn is_computed_jump(instr: Option<Instr>) -> bool
    ensures { result ≡ is_computed_jump instr }
{
    matches!(instr, Some(Instr::Jalr { .. }))
}

/// Whether it is an instruction that goes on to the one after it alone, and neither loads nor stores: no rule on it asks for slots, but
/// for those on a system call.
#[tactic(auto, unfolding(model::specs::Acceptance::PointRules::is_unmapped, model::specs::Acceptance::Edges::after))]
fn goes_on_plainly(instr: Option<Instr>) -> bool
    ensures legal { result ≡ true → is_illegal instr ≡ false }
    ensures direct { result ≡ true → is_computed_jump instr ≡ false }
    ensures mapped { result ≡ true → (image : Image) (t : Thread) (state : PointState) → is_unmapped image t state instr ≡ false }
    ensures ways { result ≡ true → (pc : ℕ) (ranges : List Range) (i : RuleInstr) → instr ≡ Some i → (after pc i ranges).taken ≡ None }
{
    matches!(
        instr,
        Some(
            Instr::Upper { .. }
                | Instr::Immediate { .. }
                | Instr::Shift { .. }
                | Instr::Registers { .. }
                | Instr::Fence
                | Instr::Ecall
        )
    )
}

impl Program<'_, '_> {
    /// A point of the program.
    pub(crate) fn at(&self, point: u32) -> Point
        ensures { result ≡ point_of (thread_of self.now) point }
    {
        Point {
            thread: self.given.number,
            point,
        }
    }
}

impl VisitedSlots<'_, '_, '_, '_, '_> {
    /// Whether a load or store at the point may reach a byte that the thread may not read, or not write. Pages that were found mapped
    /// are not asked again, and those that are found now are noted.
    #[tactic(auto, unfolding(model::specs::Acceptance::PointRules::is_unmapped))]
    fn is_unmapped(&self, bounds: &Bounds, found: &mut FoundPages) -> bool
        requires { AreMappedHere self.now found.old }
        ensures is { (measure : NotedMeasure) → result ≡ is_unmapped_here self.now.visit (state_with self.now bounds.now measure) }
        ensures found { AreMappedHere self.now found.new }
        ensures part { found.new.part ≡ found.old.part }
    {
        let Some(instr) = self.visit.instr else {
            return false;
        };
        let program = self.visit.program;
        let pages = Pages {
            image: program.given.space.image,
            thread: program.given.space.thread,
            root: program.given.space.table,
            slots: self.slots,
            loads: program.loads,
            stores: program.stores,
        };
        match instr {
            Instr::Load {
                op,
                rs1,
                offset,
                ..
            } => {
                let size = size_of_load(op);
                let range = bounds.get(rs1);
                let bytes = ReachedBytes {
                    size,
                    range,
                    offset,
                };
                !pages.reaches(Access::Load, bytes, &mut found.loads)
            }
            Instr::Store {
                op,
                rs1,
                offset,
                ..
            } => {
                let size = size_of_store(op);
                let range = bounds.get(rs1);
                let bytes = ReachedBytes {
                    size,
                    range,
                    offset,
                };
                !pages.reaches(Access::Store, bytes, &mut found.stores)
            }
            _ => false,
        }
    }

    /// Whether the point with this state and these slots keeps its rules by itself. An `Err` names the first that it breaks: its word
    /// is an instruction (`IllegalInstruction`), and no jump to an address in a register (`ComputedJump`); no slot is one that the
    /// thread may not have (`CapNotThere`); the measure is at least 1 (`MeasureNotFalling`); and it loads and stores only where it
    /// may (`NotMapped`). Pages that are found mapped are noted.
    pub(crate) fn own_rules(&self, known: &Known, found: &mut FoundPages) -> Result<(), Refusal>
        requires { AreMappedHere self.now found.old }
        ensures found { AreMappedHere self.now found.new }
        ensures part { found.new.part ≡ found.old.part }
        ensures broken { result_err result
            ≡ first_broken (own_rules_here self.now.visit (state_with self.now known.now.bounds (measure_of known.now.measure))) }
    {
        let at = self.visit.program.at(self.visit.point);
        let instr = self.visit.instr;
        if is_illegal(instr) {
            return Err(Refusal::IllegalInstruction(at));
        }
        if is_computed_jump(instr) {
            return Err(Refusal::ComputedJump(at));
        }
        if self.has_stray_slots() {
            return Err(Refusal::CapNotThere(at));
        }
        if least(&known.measure, &known.bounds) < 1 {
            return Err(Refusal::MeasureNotFalling(at));
        }
        if self.is_unmapped(&known.bounds, found) {
            return Err(Refusal::NotMapped(at));
        }
        Ok(())
    }
}

impl Visit<'_, '_, '_, '_> {
    /// Whether the point keeps its own rules with this state whatever slots it has, and has no way on but to the next point: no record
    /// notes it, it is known that no slot is one that the thread may not have, and the instruction asks for none.
    pub(crate) fn keeps_own_unseen(&self, known: &Known) -> bool
        ensures own { (slots : List NotedSlot) → result ≡ true
            → (known.now.is_clean ≡ true → NoneStrayFor self.now.program.now slots)
            → first_broken (own_rules_here self.now (known_with known.now.bounds slots (measure_of known.now.measure))) ≡ None }
        ensures ways { (pc : ℕ) (ranges : List Range) (i : RuleInstr) → result ≡ true → self.now.instr ≡ Some i → (after pc i ranges).taken ≡ None }
    {
        if self.noted.is_some() {
            return false;
        }
        if !known.is_clean {
            return false;
        }
        if !goes_on_plainly(self.instr) {
            return false;
        }
        if least(&known.measure, &known.bounds) < 1 {
            return false;
        }
        true
    }
}
