//! What a record notes of the registers and of the measure.

ghost use Rattle.std.specs.Prelude.{◌≡◌, ◌≤◌, length};
ghost use Rattle.measure.specs.Measures.{measure_of};
ghost use Rattle.model.specs.Acceptance.NotedStates.{record_measure, record_ranges};

use image_reading::RecordRef;
use measure::Measure;
use model::{Range, Register};
use ranges::Bounds;

/// The ranges that a record notes. Registers that it does not list have every value.
pub(crate) fn bounds_of(noted: &RecordRef<'_>) -> Bounds
    ensures { result ≡ record_ranges noted.now }
{
    let mut bounds = Bounds::full();
    for entry in noted.ranges() {
        if entry.register < 32 {
            let register = Register(entry.register as u8);
            bounds.set(
                register,
                Range {
                    low: entry.low,
                    high: entry.high,
                },
            );
        }
    }
    bounds
}

/// A record with no more terms than a measure has.
#[derive(Clone, Copy)]
pub(crate) struct MeasuredRecord<'r, 'a> {
    pub(crate) noted: &'r RecordRef<'a>,
    ghost few: { length noted.now.terms ≤ 4 },
}

impl MeasuredRecord<'_, '_> {
    /// The measure that it notes.
    pub(crate) fn measure(&self) -> Measure
        ensures { measure_of result ≡ record_measure self.now.noted.now }
    {
        let noted = self.noted;
        let mut measure = Measure::new(noted.constant());
        for term in noted.terms() {
            measure.push(term);
        }
        measure
    }
}
