//! Measures.

ghost use Rattle.std.specs.Prelude.{◌≡◌, ◌<◌, ◌≤◌, ◌^◌, ◌-◌, ◌++◌, ◌∷◌, [], ◌≤ℤ◌, length, negsuc, pos, true};
ghost use Rattle.model.specs.Acceptance.Measures.{has_term, lowered};

use model::TermEntry;

/// A whole number for each choice of values for the registers: a constant and at most four terms, each a register
/// times a coefficient.
#[derive(Clone, Copy)]
pub struct Measure {
    constant: i64,
    terms: [TermEntry; 4],
    count: u8,
    ghost few: { count ≤ 4 },
}

/// What follows the last term.
const NO_TERM: TermEntry = TermEntry {
    register: 0,
    coefficient: 0,
};

impl Measure {
    ghost use Rattle.measure.specs.Measures.{measure_of};

    /// A measure without terms.
    pub fn new(constant: i64) -> Self
        ensures { measure_of result ≡ record { constant = constant; terms = [] } }
    {
        Measure {
            constant,
            terms: [NO_TERM; 4],
            count: 0,
        }
    }

    /// Adds a term.
    pub fn push(&mut self, term: TermEntry)
        requires { length (measure_of self.old).terms < 4 }
        ensures { measure_of self.new ≡ record (measure_of self.old) { terms = (measure_of self.old).terms ++ term ∷ [] } }
    {
        self.terms[usize::from(self.count)] = term;
        self.count += 1;
    }

    /// The constant.
    pub fn constant(&self) -> i64
        ensures { result ≡ (measure_of self.now).constant }
    {
        self.constant
    }

    /// The terms, at most four.
    pub fn terms(&self) -> &[TermEntry]
        ensures value { result.now ≡ (measure_of self.now).terms }
        ensures few { length result.now ≤ 4 }
    {
        &self.terms[..usize::from(self.count)]
    }

    /// Whether it has no term.
    pub(crate) fn is_constant(&self) -> bool
        ensures { result ≡ true → (measure_of self.now).terms ≡ [] }
    {
        self.count == 0
    }

    /// Whether it has a term of this register.
    pub fn has_term(&self, register: u32) -> bool
        ensures { result ≡ has_term (measure_of self.now) register }
    {
        self.terms().iter().any(|term| term.register == register)
    }

    /// The measure less 1.
    pub fn lowered(self) -> Self
        requires { negsuc (2 ^ 63 - 2) ≤ℤ (measure_of self).constant }
        ensures { measure_of result ≡ lowered (measure_of self) (pos 1) }
    {
        let terms = self.terms;
        Measure {
            constant: self.constant - 1,
            terms,
            count: self.count,
        }
    }
}
