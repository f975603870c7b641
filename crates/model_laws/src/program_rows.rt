//! Rows on the rules on programs, each with one thing wrong.

ghost use Rattle.std.specs.Prelude.{◌≡◌, ◌+◌, ◌-◌, ◌^◌, [], ◌∷◌, None, Some, negsuc, pos};
ghost use Rattle.model.specs.Acceptance.Accepted.{first_in, phases};
ghost use Rattle.model.specs.declared.refusals.Refusal.TheVariants.{BadTarget, CapNotThere, IllegalInstruction, MeasureNotFalling};
ghost use Rattle.model.specs.declared.refusals.Refusal.TheVariants.{NotMapped, OverBudget, RangeNotKept};
ghost use Rattle.model_laws.specs.Programs.{constant_at, empty_slot, entered_at, full_slot, nop, notification_slot};
ghost use Rattle.model_laws.specs.Programs.{noted_as, program, range_entry, term, waiting};
ghost use Rattle.model_laws.specs.Solo.{at_point};

/// Waiting costs four instructions a round; a record after the wait may not have more than the budget.
#[tactic(auto, unfolding(crate::proofs::Opened::opened))]
pub fn waits_keep_the_budget()
    ensures enough { first_in (phases (program 4 (waiting []) (constant_at 0 3 ∷ []))) ≡ None }
    ensures short { first_in (phases (program 3 (waiting []) (constant_at 0 3 ∷ []))) ≡ Some (MeasureNotFalling (at_point 0 3)) }
    ensures shorter { first_in (phases (program 2 (waiting []) (constant_at 0 3 ∷ []))) ≡ Some (OverBudget (at_point 0 0)) }
    ensures behind { first_in (phases (program 4 (waiting []) (constant_at 0 3 ∷ constant_at 3 5 ∷ []))) ≡ Some (OverBudget (at_point 0 2)) }
    ensures low { first_in (phases (program 4 (waiting []) (constant_at 0 2 ∷ constant_at 2 0 ∷ []))) ≡ Some (MeasureNotFalling (at_point 0 2)) }
{}

/// Past the end, `jal x0 8`, `jal x0 2`; a branch that is never taken leads nowhere.
#[tactic(auto, unfolding(crate::proofs::Opened::opened))]
pub fn edges_have_targets()
    ensures behind { first_in (phases (program 4 (nop ∷ []) (constant_at 0 3 ∷ []))) ≡ Some (BadTarget (at_point 0 0)) }
    ensures far { first_in (phases (program 4 (0x0080006F ∷ []) (constant_at 0 3 ∷ []))) ≡ Some (BadTarget (at_point 0 0)) }
    ensures odd { first_in (phases (program 4 (0x0020006F ∷ []) (constant_at 0 3 ∷ []))) ≡ Some (BadTarget (at_point 0 0)) }
    ensures never { first_in (phases (program 4 (0x06001263 ∷ 0xFFDFF06F ∷ []) (constant_at 0 3 ∷ []))) ≡ Some (MeasureNotFalling (at_point 0 1)) }
    ensures entry { first_in (phases (program 4 (nop ∷ []) [])) ≡ Some (RangeNotKept (at_point 0 0)) }
{}

/// `addi x5 x5 1` where the measure has x5, and no record after it.
#[tactic(auto, unfolding(crate::proofs::Opened::opened))]
pub fn measures_are_noted_anew()
    ensures { first_in (phases (program 30 (0x00128293 ∷ nop ∷ [])
        (noted_as 0 (pos 3) (record { register = 5; coefficient = pos 1 } ∷ []) (range_entry 5 0 10 ∷ []) [] ∷ [])))
        ≡ Some (MeasureNotFalling (at_point 0 0)) }
{}

/// `lw x1 -4(x0)`, a word that leaves the data page, a store to the code page and a load from it. The first point notes
/// what x6 is, so that the entry is refused where nothing else is.
#[tactic(auto, unfolding(crate::proofs::Opened::opened))]
pub fn accesses_are_mapped()
    ensures below { first_in (phases (program 9 (waiting (0xFFC02083 ∷ [])) (constant_at 0 3 ∷ constant_at 4 3 ∷ []))) ≡ Some (NotMapped (at_point 0 4)) }
    ensures last { first_in (phases (program 9 (waiting (0x00032083 ∷ []))
        (constant_at 0 3 ∷ noted_as 4 (pos 3) [] (range_entry 6 0x2000 0x2FFC ∷ []) [] ∷ [])))
        ≡ Some (BadTarget (at_point 0 4)) }
    ensures past { first_in (phases (program 9 (waiting (0x00032083 ∷ []))
        (constant_at 0 3 ∷ noted_as 4 (pos 3) [] (range_entry 6 0x2000 0x2FFD ∷ []) [] ∷ [])))
        ≡ Some (NotMapped (at_point 0 4)) }
    ensures code { first_in (phases (program 9 (waiting (0x00132023 ∷ []))
        (constant_at 0 3 ∷ noted_as 4 (pos 3) [] (range_entry 6 0x1000 0x1000 ∷ []) [] ∷ [])))
        ≡ Some (NotMapped (at_point 0 4)) }
    ensures unread { first_in (phases (program 9 (waiting (0x00032083 ∷ []))
        (constant_at 0 3 ∷ noted_as 4 (pos 3) [] (range_entry 6 0x1000 0x1000 ∷ []) [] ∷ [])))
        ≡ Some (NotMapped (at_point 0 4)) }
{}

/// The entry has the image's slots; no point has slots outside the thread's CNodes, or slots that derive from one another.
#[tactic(auto, unfolding(crate::proofs::Opened::opened))]
pub fn slots_are_the_threads()
    ensures entry { first_in (phases (program 4 (waiting []) (noted_as 0 (pos 3) [] [] (empty_slot 5 1 ∷ []) ∷ []))) ≡ Some (CapNotThere (at_point 0 0)) }
    ensures outside { first_in (phases (program 4 (waiting (nop ∷ [])) (constant_at 0 3 ∷ noted_as 4 (pos 1) [] [] (empty_slot 6 0 ∷ []) ∷ [])))
        ≡ Some (CapNotThere (at_point 0 4)) }
    ensures past_the_end { first_in (phases (program 4 (waiting (nop ∷ [])) (constant_at 0 3 ∷ noted_as 4 (pos 1) [] [] (empty_slot 5 16 ∷ []) ∷ [])))
        ≡ Some (CapNotThere (at_point 0 4)) }
    ensures circle { first_in (phases (program 4 (waiting (nop ∷ []))
        (constant_at 0 3 ∷ noted_as 4 (pos 1) [] [] (notification_slot 3 4 ∷ notification_slot 4 3 ∷ []) ∷ [])))
        ≡ Some (CapNotThere (at_point 0 4)) }
    ensures line { first_in (phases (program 4 (waiting (nop ∷ []))
        (constant_at 0 3 ∷ noted_as 4 (pos 1) [] [] (notification_slot 3 4 ∷ notification_slot 4 1 ∷ []) ∷ [])))
        ≡ Some (BadTarget (at_point 0 4)) }
{}

/// A full slot outside the thread's CNodes makes the slots differ, at the edge that leads there; an empty one does not, and
/// its own point is refused.
#[tactic(auto, unfolding(crate::proofs::Opened::opened))]
pub fn slots_outside_differ_where_they_are_full()
    ensures full { first_in (phases (program 4 (waiting []) (constant_at 0 3 ∷ noted_as 3 (pos 3) [] [] (full_slot 5 16 ∷ []) ∷ [])))
        ≡ Some (CapNotThere (at_point 0 2)) }
    ensures empty { first_in (phases (program 4 (waiting []) (constant_at 0 3 ∷ noted_as 3 (pos 4) [] [] (empty_slot 5 16 ∷ []) ∷ [])))
        ≡ Some (CapNotThere (at_point 0 3)) }
    ensures inside { first_in (phases (program 4 (waiting []) (constant_at 0 3 ∷ noted_as 3 (pos 4) [] [] (empty_slot 5 15 ∷ []) ∷ []))) ≡ None }
{}

/// After `addi x5 x5 1`, whose measure has x5, the next point has no measure, and the one after it no state: `jal` to the
/// one and to the other.
#[tactic(auto, unfolding(crate::proofs::Opened::opened))]
pub fn a_measure_is_lost_at_one_point()
    ensures next { first_in (phases (program 30 (0x0080006F ∷ 0x00128293 ∷ nop ∷ nop ∷ [])
        (constant_at 0 30 ∷ noted_as 1 (pos 3) (term 5 (pos 1) ∷ []) (range_entry 5 0 10 ∷ []) [] ∷ [])))
        ≡ Some (MeasureNotFalling (at_point 0 0)) }
    ensures after_it { first_in (phases (program 30 (0x00C0006F ∷ 0x00128293 ∷ nop ∷ nop ∷ [])
        (constant_at 0 30 ∷ noted_as 1 (pos 3) (term 5 (pos 1) ∷ []) (range_entry 5 0 10 ∷ []) [] ∷ [])))
        ≡ Some (BadTarget (at_point 0 0)) }
{}

/// A branch or a jump to the next point is no fall-through: `beq x0 x0 4` and `jal x0 4` leave no state there. Where both
/// ways of `beq x5 x0 4` lead there, the state is that of the fall-through, and x5 is 0 on the other.
#[tactic(auto, unfolding(crate::proofs::Opened::opened))]
pub fn a_taken_branch_is_no_fall_through()
    ensures branch { first_in (phases (program 9 (0x00000263 ∷ waiting []) (constant_at 0 9 ∷ []))) ≡ Some (BadTarget (at_point 0 0)) }
    ensures jump { first_in (phases (program 9 (0x0040006F ∷ waiting []) (constant_at 0 9 ∷ []))) ≡ Some (BadTarget (at_point 0 0)) }
    ensures both { first_in (phases (program 9 (0x00028263 ∷ waiting []) (constant_at 0 9 ∷ []))) ≡ Some (RangeNotKept (at_point 0 0)) }
    ensures noted { first_in (phases (program 9 (0x00028263 ∷ waiting []) (constant_at 0 9 ∷ constant_at 1 3 ∷ []))) ≡ None }
{}

/// `beq x5 x0 8`: where it is not taken x5 is at least 1, and the measure with x5 falls to its constant, and not to more.
#[tactic(auto, unfolding(crate::proofs::Opened::opened))]
pub fn a_measure_falls_over_the_values_of_a_way()
    ensures falls { first_in (phases (program 9 (0x00028463 ∷ nop ∷ waiting [])
        (noted_as 0 (pos 4) (term 5 (pos 1) ∷ []) (range_entry 5 0 10 ∷ []) [] ∷ constant_at 1 4 ∷ constant_at 2 3 ∷ []))) ≡ None }
    ensures stays { first_in (phases (program 9 (0x00028463 ∷ nop ∷ waiting [])
        (noted_as 0 (pos 4) (term 5 (pos 1) ∷ []) (range_entry 5 0 10 ∷ []) [] ∷ constant_at 1 5 ∷ constant_at 2 3 ∷ [])))
        ≡ Some (MeasureNotFalling (at_point 0 0)) }
{}

/// The least constant that a record may note is 1 less at the next point: x5 is 2^31 + 1, and x6 is 10.
#[tactic(auto, unfolding(crate::proofs::Opened::opened))]
pub fn a_constant_has_no_bound()
    ensures { first_in (phases (program 12 (0x800002B7 ∷ 0x00128293 ∷ 0x00A00313 ∷ nop ∷ nop ∷ waiting [])
        (constant_at 0 12
        ∷ noted_as 3 (negsuc (2 ^ 62 - 1)) (term 5 (pos (2 ^ 31 - 1)) ∷ term 6 (pos 1) ∷ [])
        (range_entry 5 (2 ^ 31 + 1) (2 ^ 31 + 1) ∷ range_entry 6 10 10 ∷ []) []
        ∷ constant_at 5 3 ∷ []))) ≡ None }
{}

/// An entry without state is refused for its range, whatever took the state; and what is wrong at the entry counts before
/// what is wrong at a smaller point, as EBREAK.
#[tactic(auto, unfolding(crate::proofs::Opened::opened))]
pub fn entries_are_looked_at_first()
    ensures unmeasured { first_in (phases (entered_at 1 (program 30 (0x00128293 ∷ waiting [])
        (noted_as 0 (pos 9) (term 5 (pos 1) ∷ []) (range_entry 5 0 10 ∷ []) [] ∷ [])))) ≡ Some (RangeNotKept (at_point 0 1)) }
    ensures missing { first_in (phases (entered_at 1 (program 30 (0x00100073 ∷ waiting []) (constant_at 0 9 ∷ [])))) ≡ Some (RangeNotKept (at_point 0 1)) }
    ensures budget { first_in (phases (entered_at 1 (program 30 (0x00100073 ∷ waiting []) (constant_at 0 9 ∷ constant_at 1 31 ∷ []))))
        ≡ Some (OverBudget (at_point 0 1)) }
    ensures point { first_in (phases (entered_at 1 (program 30 (0x00100073 ∷ waiting []) (constant_at 0 9 ∷ constant_at 1 3 ∷ []))))
        ≡ Some (IllegalInstruction (at_point 0 0)) }
{}
