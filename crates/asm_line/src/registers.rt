//! Registers as words: `x0` to `x31`.

ghost use Rattle.std.specs.Prelude.{◌≡◌, ◌<◌, IfOk};
ghost use Rattle.asm_line.specs.Words.{register_of, small_number_of};

use crate::faults::LineFault;

/// The number that one or two digits spell, without a zero before another digit.
fn small_number(digits: &[u8]) -> Option<u8>
    ensures { result ≡ small_number_of digits.now }
{
    match digits {
        [ones] if ones.is_ascii_digit() => Some(*ones - b'0'),
        [tens, ones] if tens.is_ascii_digit() && ones.is_ascii_digit() && *tens != b'0' => {
            Some((*tens - b'0') * 10 + (*ones - b'0'))
        }
        _ => None,
    }
}

/// The number of the register that a word is.
#[tactic(auto, unfolding(crate::specs::Words::register_of))]
pub(crate) fn register_in(word: &[u8]) -> Result<u8, LineFault>
    ensures register { result ≡ register_of word.now }
    ensures small { IfOk result (λ number. number < 32) }
{
    let [b'x', digits @ ..] = word else {
        return Err(LineFault::Syntax);
    };
    match small_number(digits) {
        Some(number) if number < 32 => Ok(number),
        _ => Err(LineFault::Syntax),
    }
}
