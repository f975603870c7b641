//! Laws of branches: what a branch leaves possible loses no value that can be there.

ghost use Rattle.std.specs.Prelude.{◌≡◌, ◌<◌, ◌^◌, ℕ, Bool, true, List, Some, length};
ghost use Rattle.model.specs.declared.instructions.BranchOp.{BranchOp};
ghost use Rattle.model.specs.declared.instructions.Register.{Register};
ghost use Rattle.model.specs.declared.ranges.Range.{Range};
ghost use Rattle.model.specs.Acceptance.Edges.{branch_ranges, joined, narrowed};
ghost use Rattle.model.specs.Machine.Effects.{is_taken};
ghost use Rattle.model.specs.Machine.Instructions.{IsRegister};
ghost use Rattle.model.specs.Machine.ProgramMemory.{RegisterFile, read};
ghost use Rattle.model.specs.Acceptance.ThreadInvariants.{LieWithin};
ghost use Rattle.ranges.specs.Inside.{LiesIn};

/// Each side of a branch that goes this way stays in what the branch narrows its range to.
pub fn narrowed_sides_keep_their_values()
    ensures { (op : BranchOp) (taken : Bool) (a b : ℕ) (r s : Range)
        → a < 2 ^ 32 → b < 2 ^ 32 → LiesIn a r → LiesIn b s → is_taken op a b ≡ taken
        → LiesIn a (narrowed op taken r s).0 × LiesIn b (narrowed op taken r s).1 }
{}

/// The same where both sides are one register.
pub fn joined_sides_keep_their_value()
    ensures { (op : BranchOp) (taken : Bool) (a : ℕ) (r : Range)
        → a < 2 ^ 32 → LiesIn a r → is_taken op a a ≡ taken
        → LiesIn a (joined true (narrowed op taken r r)).0 × LiesIn a (joined true (narrowed op taken r r)).1 }
{}

/// The way that a branch goes is never ruled out, and the registers lie in the ranges on it.
pub fn a_branch_keeps_the_registers_in_its_ranges()
    ensures { (r : RegisterFile) (ranges : List Range) (op : BranchOp) (rs1 rs2 : Register) (taken : Bool)
        → length ranges ≡ 31 → ((x : Register) → read r x < 2 ^ 32)
        → IsRegister rs1 → IsRegister rs2 → LieWithin r ranges → is_taken op (read r rs1) (read r rs2) ≡ taken
        → (kept : List Range) × (branch_ranges op taken rs1 rs2 ranges ≡ Some kept) × LieWithin r kept }
{}
