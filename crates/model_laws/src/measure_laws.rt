//! Laws of measures without terms: the rules on measures compare constants.

ghost use Rattle.std.specs.Prelude.{◌≡◌, ℕ, List, [], int_le, int_lt, pos};
ghost use Rattle.model.specs.Machine.ProgramMemory.{RegisterFile};
ghost use Rattle.model.specs.Acceptance.Measures.{Form, Measure, falls, least_value, measured, stays_below};
ghost use Rattle.model.specs.declared.ranges.Range.{Range};

/// A measure without terms is its constant, whatever the registers hold.
pub fn a_measure_without_terms_is_its_constant()
    ensures value { (m : Measure) (r : RegisterFile) → m.terms ≡ [] → measured m r ≡ m.constant }
    ensures least { (m : Measure) (ranges : List Range) → m.terms ≡ [] → least_value m ranges ≡ m.constant }
{}

/// Between measures without terms, what falls is the constant.
pub fn constants_fall()
    ensures { (from to : Measure) (value_of : ℕ → Form) (before behind : List Range) → from.terms ≡ [] → to.terms ≡ []
        → falls from to value_of before behind ≡ int_lt to.constant from.constant }
{}

/// A measure without terms stays below a budget where its constant does.
pub fn a_constant_stays_below()
    ensures { (budget : ℕ) (to : Measure) (value_of : ℕ → Form) (before behind : List Range) → to.terms ≡ []
        → stays_below budget to value_of before behind ≡ int_le to.constant (pos budget) }
{}
