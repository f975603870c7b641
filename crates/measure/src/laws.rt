//! What is true of measures on edges. Each law is the contract of a function that does nothing.

ghost use Rattle.std.specs.Prelude.{ℕ, ◌≡◌, [], List, false, pos, true};
ghost use Rattle.std.specs.List.{list_any};
ghost use Rattle.std.specs.Option.{option_map_or};
ghost use Rattle.model.specs.Acceptance.Measures.{Form, Measure, behind_form, call_form, falls, has_term, lowered, stays_below};
ghost use Rattle.model.specs.Acceptance.RangeRules.{destination};
ghost use Rattle.model.specs.declared.instructions.Instr.{Instr};
ghost use Rattle.model.specs.declared.instructions.Register.{Register};
ghost use Rattle.model.specs.declared.ranges.Range.{Range};

/// A measure of which an instruction writes no register falls after it, where it is lowered by 1.
pub fn unwritten_measures_fall()
    ensures { (m : Measure) (instr : Instr) (before behind : List Range) → option_map_or (λ rd. has_term m rd.0) (destination instr) false ≡ false
        → falls m (lowered m (pos 1)) (behind_form instr before behind) before behind ≡ true }
{}

/// A measure of which a system call writes no register falls after it, where it is lowered by 1.
pub fn measures_fall_behind_calls()
    ensures { (m : Measure) (written : List Register) (before behind : List Range) → list_any (λ x. has_term m x.0) written ≡ false
        → falls m (lowered m (pos 1)) (call_form written) before behind ≡ true }
{}

/// A measure that is a whole budget stays within it, whatever registers become.
pub fn budgets_stay_below()
    ensures { (budget : ℕ) (value_of : ℕ → Form) (before behind : List Range)
        → stays_below budget (record { constant = pos budget; terms = [] }) value_of before behind ≡ true }
{}
