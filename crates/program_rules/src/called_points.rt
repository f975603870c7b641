//! What a system call leaves of the state before it.

ghost use Rattle.std.specs.Prelude.{◌≡◌, ◌^◌, ◌-◌, ◌≤ℤ◌, [], IfSome, is_some, length, negsuc, true};
ghost use Rattle.measure.specs.Measures.{measure_of};
ghost use Rattle.model.specs.Acceptance.CallRules.{with_message};
ghost use Rattle.program_rules.specs.Kept.{AreOne, IsCalled, Leads, measure_behind, ranges_behind};
ghost use Rattle.program_rules.specs.OfPrograms.{budget_of};

use crate::kept::Known;
use crate::places::{CalledPoint, ShortPart};
use crate::programs::Program;
use measure::Measure;
use model::{Range, Register, TermEntry};
use ranges::Bounds;
use typestate::Written;

/// What calls write, the most frequent first.
const FORMS: [Written; 4] = [
    Written::Nothing,
    Written::Answer,
    Written::Badge,
    Written::Message,
];

/// Whether two measures are one.
fn is_same_measure(one: &Measure, other: &Measure) -> bool
    ensures { result ≡ true → measure_of one.now ≡ measure_of other.now }
{
    if one.constant() != other.constant() {
        return false;
    }
    are_same_terms(one.terms(), other.terms())
}

/// Whether two terms are one.
fn is_same_term(one: &TermEntry, other: &TermEntry) -> bool
    ensures { result ≡ true → one.now ≡ other.now }
{
    if one.register != other.register {
        return false;
    }
    one.coefficient == other.coefficient
}

/// Whether two lists of terms are one.
fn are_same_terms(one: &[TermEntry], other: &[TermEntry]) -> bool
    ensures { result ≡ true → one.now ≡ other.now }
{
    if one.len() != other.len() {
        return false;
    }
    for i in 0..one.len() {
        if !is_same_term(&one[i], &other[i]) {
            return false;
        }
    }
    true
}

/// Whether all registers have the same ranges.
fn is_same_bounds(one: &Bounds, other: &Bounds) -> bool
    ensures { result ≡ true → length one.now ≡ 31 → length other.now ≡ 31 → one.now ≡ other.now }
{
    if !one.is_within(other) {
        return false;
    }
    other.is_within(one)
}

/// Whether two states are one.
fn is_same(one: &Known, other: &Known) -> bool
    ensures { result ≡ true → length one.now.bounds ≡ 31 → length other.now.bounds ≡ 31 → AreOne one.now other.now }
{
    if !is_same_bounds(&one.bounds, &other.bounds) {
        return false;
    }
    if !is_same_measure(&one.measure, &other.measure) {
        return false;
    }
    if !one.part.is_same(other.part) {
        return false;
    }
    one.is_clean == other.is_clean
}

impl CalledPoint {
    /// The ranges after a message of which nothing is promised.
    #[tactic(auto, unfolding(model::specs::Kernel::Messages::word_registers))]
    fn with_message(&self, bounds: &Bounds) -> Bounds
        ensures { result ≡ with_message bounds.now self.now.badge [] }
    {
        let mut bounds = *bounds;
        bounds.set(Register::A0, self.badge);
        bounds.set(Register::A1, Range::FULL);
        bounds.set(Register(12), Range::FULL);
        bounds.set(Register(13), Range::FULL);
        bounds.set(Register(14), Range::FULL);
        bounds.set(Register(15), Range::FULL);
        bounds.set(Register(18), Range::FULL);
        bounds.set(Register(19), Range::FULL);
        bounds.set(Register(20), Range::FULL);
        bounds.set(Register(21), Range::FULL);
        bounds
    }

    /// The ranges after the call.
    fn bounds(&self, bounds: &Bounds) -> Bounds
        ensures { result ≡ ranges_behind self.now.written self.now.badge bounds.now }
    {
        match self.written {
            Written::Nothing => *bounds,
            Written::Badge => {
                let mut bounds = *bounds;
                bounds.set(Register::A0, self.badge);
                bounds
            }
            Written::Answer => {
                let mut bounds = *bounds;
                bounds.set(Register::A0, Range::single(0));
                bounds.set(Register::A1, Range::single(0));
                bounds
            }
            Written::Message => self.with_message(bounds),
        }
    }

    /// The measure after the call, if it is in range.
    fn measure(&self, program: &Program<'_, '_>, measure: &Measure) -> Option<Measure>
        ensures some { negsuc (2 ^ 63 - 2) ≤ℤ (measure_of measure.now).constant → is_some result ≡ true }
        ensures measure { IfSome result (λ next. measure_of next
            ≡ measure_behind (budget_of program.now) self.now.is_wait (measure_of measure.now)) }
    {
        if self.is_wait {
            return Some(Measure::new(program.given.space.thread.header().budget as i64));
        }
        if measure.constant() == i64::MIN {
            return None;
        }
        Some(measure.lowered())
    }

    /// The state after the call, if its measure is in range.
    pub(crate) fn behind(&self, program: &Program<'_, '_>, known: &Known) -> Option<Known>
        ensures some { negsuc (2 ^ 63 - 2) ≤ℤ (measure_of known.now.measure).constant → is_some result ≡ true }
        ensures called { IfSome result (IsCalled (budget_of program.now) self.now known.now) }
    {
        let measure = self.measure(program, &known.measure)?;
        Some(Known {
            bounds: self.bounds(&known.bounds),
            measure,
            part: self.part.part(),
            is_clean: self.is_clean,
        })
    }

    /// A call that writes such registers, if it leads from one state to another one.
    fn of(
        program: &Program<'_, '_>,
        written: Written,
        part: ShortPart,
        before: &Known,
        after: &Known,
    ) -> Option<Self>
        ensures { IfSome result (λ called. Leads (budget_of program.now) called before.now after.now) }
    {
        let anew = Measure::new(program.given.space.thread.header().budget as i64);
        let called = CalledPoint {
            part,
            badge: after.bounds.get(Register::A0),
            written,
            is_wait: is_same_measure(&after.measure, &anew),
            is_clean: after.is_clean,
        };
        let next = called.behind(program, before)?;
        if is_same(&next, after) {
            Some(called)
        } else {
            None
        }
    }

    /// The call that leads from one state to another one, if there is one.
    pub(crate) fn between(program: &Program<'_, '_>, before: &Known, after: &Known) -> Option<Self>
        ensures { IfSome result (λ called. Leads (budget_of program.now) called before.now after.now) }
    {
        let part = ShortPart::of(after.part)?;
        'forms: for written in &FORMS {
            if let Some(called) = CalledPoint::of(program, *written, part, before, after) {
                return Some(called);
            }
        }
        None
    }
}
