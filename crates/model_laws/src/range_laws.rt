//! Laws of ranges.

ghost use Rattle.std.specs.Prelude.{◌≡◌, ◌<◌, ◌≤◌, ◌^◌, ◌+ℤ◌, false, pos, true, ℤ, List, length};
ghost use Rattle.model.specs.declared.instructions.Exec.TheVariants.{Next};
ghost use Rattle.model.specs.declared.instructions.ImmediateOp.TheVariants.{Addi};
ghost use Rattle.model.specs.declared.instructions.Instr.TheVariants.{Immediate, Jal};
ghost use Rattle.model.specs.declared.instructions.Register.{Register};
ghost use Rattle.model.specs.declared.ranges.Range.{Range};
ghost use Rattle.model.specs.Machine.Instructions.{IsImmediate, IsRegister};
ghost use Rattle.model.specs.Machine.ProgramMemory.{Content, RegisterFile, read};
ghost use Rattle.model.specs.Machine.Effects.{effect};
ghost use Rattle.model.specs.Acceptance.Measures.{moves_within};
ghost use Rattle.model.specs.Acceptance.RangeRules.{ranges_after};
ghost use Rattle.model.specs.Acceptance.Ranges.{full, moved};
ghost use Rattle.model.specs.Acceptance.ThreadInvariants.{LieWithin};

/// Where registers lie in their ranges, they lie in the ranges after ADDI once it ran.
pub fn addi_keeps_ranges()
    ensures { (r : RegisterFile) (content : Content) (ranges : List Range) (rd rs1 : Register) (immediate : ℤ)
        → length r.words ≡ 32 → length ranges ≡ 31 → ((x : Register) → read r x < 2 ^ 32)
        → IsRegister rd → IsRegister rs1 → IsImmediate immediate → LieWithin r ranges
        → LieWithin (effect r content (Immediate Addi rd rs1 immediate)).registers (ranges_after r.pc (Immediate Addi rd rs1 immediate) ranges) }
{}

/// The same of JAL, where it does not trap.
pub fn jal_keeps_ranges()
    ensures { (r : RegisterFile) (content : Content) (ranges : List Range) (rd : Register) (offset : ℤ)
        → length r.words ≡ 32 → length ranges ≡ 31 → IsRegister rd → LieWithin r ranges
        → (effect r content (Jal rd offset)).exec ≡ Next
        → LieWithin (effect r content (Jal rd offset)).registers (ranges_after r.pc (Jal rd offset) ranges) }
{}

/// The range of a moved range is it moved where both ends stay words, and else full.
pub fn a_range_moves_where_its_ends_stay_words()
    ensures { (r : Range) (n : ℤ) → r.low ≤ r.high → r.high < 2 ^ 32
        → (moves_within r n ≡ true → (pos (moved r n).low ≡ pos r.low +ℤ n) × (pos (moved r n).high ≡ pos r.high +ℤ n))
        × (moves_within r n ≡ false → moved r n ≡ full) }
{}
