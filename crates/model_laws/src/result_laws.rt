//! Laws of results: what an instruction computes lies in the range that the rules give it.

ghost use Rattle.std.specs.Prelude.{◌≡◌, ℕ, ◌<◌, ◌^◌, ℤ, List, length, Some};
ghost use Rattle.model.specs.declared.instructions.Exec.TheVariants.{Next};
ghost use Rattle.model.specs.declared.instructions.RegisterOp.{RegisterOp};
ghost use Rattle.model.specs.declared.instructions.ImmediateOp.{ImmediateOp};
ghost use Rattle.model.specs.declared.instructions.ShiftOp.{ShiftOp};
ghost use Rattle.model.specs.declared.instructions.LoadOp.{LoadOp};
ghost use Rattle.model.specs.declared.instructions.Instr.{Instr};
ghost use Rattle.model.specs.declared.instructions.Register.{Register};
ghost use Rattle.model.specs.declared.ranges.Range.{Range};
ghost use Rattle.model.specs.Machine.Instructions.{IsImmediate, IsInstr};
ghost use Rattle.model.specs.Machine.ProgramMemory.{Content, FitsSize, RegisterFile, read};
ghost use Rattle.model.specs.Machine.Effects.{effect, immediate_result, load_result, load_size, register_result, shift_result};
ghost use Rattle.model.specs.Acceptance.RangeRules.{destination, immediate_range, load_range, ranges_after, register_range, shift_range};
ghost use Rattle.model.specs.Acceptance.Ranges.{range_of};
ghost use Rattle.model.specs.Acceptance.ThreadInvariants.{LieWithin};
ghost use Rattle.ranges.specs.Inside.{LiesIn};

/// Of two words in their ranges, the result of each operation lies in the range of the rule.
pub fn results_of_registers_lie_in_their_ranges()
    ensures { (op : RegisterOp) (a b : ℕ) (r s : Range) → a < 2 ^ 32 → b < 2 ^ 32 → LiesIn a r → LiesIn b s
        → LiesIn (register_result op a b) (register_range op r s) }
{}

/// The same of a word and an immediate.
pub fn results_of_immediates_lie_in_their_ranges()
    ensures { (op : ImmediateOp) (a : ℕ) (immediate : ℤ) (r : Range) → a < 2 ^ 32 → IsImmediate immediate → LiesIn a r
        → LiesIn (immediate_result op a immediate) (immediate_range op r immediate) }
{}

/// The same of a shift by a constant amount.
pub fn results_of_shifts_lie_in_their_ranges()
    ensures { (op : ShiftOp) (a amount : ℕ) (r : Range) → a < 2 ^ 32 → amount < 2 ^ 5 → LiesIn a r
        → LiesIn (shift_result op a amount) (shift_range op r amount) }
{}

/// What is loaded of a number of the load's size lies in the range of the load.
pub fn results_of_loads_lie_in_their_ranges()
    ensures { (op : LoadOp) (n : ℕ) → FitsSize (load_size op) n → LiesIn (load_result op n) (load_range op) }
{}

/// An instruction that goes on keeps the registers in the ranges after it, where memory holds bytes.
pub fn an_instruction_keeps_registers_in_their_ranges()
    ensures { (r : RegisterFile) (content : Content) (ranges : List Range) (instr : Instr)
        → length r.words ≡ 32 → length ranges ≡ 31 → ((x : Register) → read r x < 2 ^ 32)
        → ((place : ℕ) → content.byte place < 2 ^ 8) → IsInstr instr → LieWithin r ranges
        → (effect r content instr).exec ≡ Next
        → LieWithin (effect r content instr).registers (ranges_after r.pc instr ranges) }
{}

/// What an instruction that goes on writes to its destination lies in the range that this register has then.
pub fn what_an_instruction_writes_lies_in_its_range()
    ensures { (r : RegisterFile) (content : Content) (ranges : List Range) (instr : Instr) (rd : Register)
        → length r.words ≡ 32 → length ranges ≡ 31 → ((x : Register) → read r x < 2 ^ 32)
        → ((place : ℕ) → content.byte place < 2 ^ 8) → IsInstr instr → LieWithin r ranges
        → destination instr ≡ Some rd → (effect r content instr).exec ≡ Next
        → LiesIn (read (effect r content instr).registers rd) (range_of (ranges_after r.pc instr ranges) rd) }
{}
