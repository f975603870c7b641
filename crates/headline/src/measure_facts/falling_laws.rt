//! Measures over an instruction, and at a point.

ghost use Rattle.std.specs.Prelude.{ℕ, ◌≡◌, ◌<ℤ◌, ◌≤ℤ◌, pos, true, List, Some, slice_get};
ghost use Rattle.headline.specs.measure_facts.Terms.{NamesRegisters, WritesOnly};
ghost use Rattle.model.specs.declared.instructions.Instr.{Instr};
ghost use Rattle.model.specs.declared.instructions.Register.{Register};
ghost use Rattle.model.specs.declared.ranges.Range.{Range};
ghost use Rattle.model.specs.Acceptance.Measures.{Measure, behind_form, call_form, falls, least_value, measured, stays_below};
ghost use Rattle.model.specs.Acceptance.NotedStates.{PointState};
ghost use Rattle.model.specs.Acceptance.PointStates.{Known, noted};
ghost use Rattle.model.specs.Acceptance.ThreadInvariants.{LieWithin};
ghost use Rattle.model.specs.Images.Described.{Numbered};
ghost use Rattle.model.specs.Images.Image.{Image, whole_image};
ghost use Rattle.model.specs.Machine.Effects.{effect};
ghost use Rattle.model.specs.Machine.Instructions.{IsInstr};
ghost use Rattle.model.specs.Machine.ProgramMemory.{Content, RegisterFile};
ghost use Rattle.ranges.specs.Standing.{AreWords};

/// A measure that falls over an instruction, by the ranges before and after it, is less after it.
pub fn falls_is_less()
    ensures { (r : RegisterFile) (content : Content) (instr : Instr) (from to : Measure) (before behind : List Range)
        → AreWords r content → IsInstr instr → NamesRegisters from → NamesRegisters to
        → LieWithin r before → LieWithin (effect r content instr).registers behind
        → falls from to (behind_form instr before behind) before behind ≡ true
        → measured to (effect r content instr).registers <ℤ measured from r }
{}

/// No value of a measure over registers in their ranges is less than the least.
pub fn least_values_are_least()
    ensures { (r : RegisterFile) (m : Measure) (ranges : List Range)
        → NamesRegisters m → LieWithin r ranges → least_value m ranges ≤ℤ measured m r }
{}

/// The same over a system call, which leaves all registers but those that it writes.
pub fn falls_over_calls_is_less()
    ensures { (r s : RegisterFile) (written : List Register) (from to : Measure) (before behind : List Range)
        → WritesOnly r s written → NamesRegisters from → NamesRegisters to → LieWithin r before → LieWithin s behind
        → falls from to (call_form written) before behind ≡ true → measured to s <ℤ measured from r }
{}

/// A measure that stays below a budget over a system call is no more than the budget after it.
pub fn what_stays_below_is_within()
    ensures { (r s : RegisterFile) (written : List Register) (budget : ℕ) (to : Measure) (before behind : List Range)
        → WritesOnly r s written → NamesRegisters to → LieWithin r before → LieWithin s behind
        → stays_below budget to (call_form written) before behind ≡ true → measured to s ≤ℤ pos budget }
{}

/// The terms of a measure that is noted of a point name registers.
pub fn measures_of_points_name_registers()
    ensures { (image : Image) (k : ℕ) (t : Numbered) (point : ℕ) (state : PointState)
        → whole_image.fits image ≡ true → slice_get image.threads k ≡ Some t.thread → noted image t point ≡ Known state
        → NamesRegisters state.measure }
{}
