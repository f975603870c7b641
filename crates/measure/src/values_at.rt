//! What a measure is where the registers hold values.

ghost use Rattle.std.specs.Prelude.{◌≡◌, pos};
ghost use Rattle.model.specs.Acceptance.Measures.{constant_form, measured, register_numbered};
ghost use Rattle.model.specs.Machine.ProgramMemory.{read};
ghost use Rattle.measure.specs.Measures.{measure_of};

use crate::forms::constant_of;
use crate::{Measure, Step, Value};

/// Registers that hold these words.
#[derive(Drop)]
struct Holding<'a> {
    words: &'a [u32; 32],
}

/// The value of a register. Register 0 is 0.
fn word_of(words: &[u32; 32], register: u32) -> u32
    ensures { result ≡ read (record { pc = 0; words = words.now }) (register_numbered register) }
{
    if register == 0 || register >= 32 {
        return 0;
    }
    words[register as usize]
}

impl<'a> Step for Holding<'a> {
    ghost value_of = { λ h register. constant_form (pos (read (record { pc = 0; words = h.words.now }) (register_numbered register))) };

    fn value(&self, register: u32) -> Value {
        Value::Constant(word_of(self.words, register))
    }
}

/// What the measure is where registers 1 to 31 hold these words.
pub fn value_at(measure: &Measure, words: &[u32; 32]) -> i128
    ensures { result ≡ measured (measure_of measure.now) (record { pc = 0; words = words.now }) }
{
    constant_of(measure, &Holding { words })
}
