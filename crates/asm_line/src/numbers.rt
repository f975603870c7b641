//! Numbers: decimal, with a minus sign before them, or hexadecimal after `0x`.

ghost use Rattle.std.specs.Prelude.{◌≡◌, ◌≤◌, ◌-◌, ◌^◌, IfOk};
ghost use Rattle.asm_line.specs.Words.{digit_in, magnitude, negative_of, number_of, unsigned_of, within};

use crate::faults::LineFault;

/// The greatest number that is distinguished from the greater ones, which no line may have.
const GREATEST: u64 = i64::MAX as u64;

/// The value of a digit in a radix of 10 or 16.
fn digit(byte: u8, radix: u64) -> Result<u64, LineFault>
    ensures { result ≡ digit_in radix byte }
{
    let value = match byte {
        b'0'..=b'9' => byte - b'0',
        b'a'..=b'z' => byte - b'a' + 10,
        b'A'..=b'Z' => byte - b'A' + 10,
        _ => 36,
    };
    if (value as u64) < radix {
        Ok(value as u64)
    } else {
        Err(LineFault::Syntax)
    }
}

/// The number that digits spell, or the greatest if it is greater.
fn digits_value(digits: &[u8], radix: u64) -> Result<u64, LineFault>
    requires { radix ≤ 16 }
    ensures value { result ≡ magnitude radix digits.now }
    ensures least { IfOk result (λ n. n ≤ GREATEST) }
{
    if digits.is_empty() {
        return Err(LineFault::Syntax);
    }
    let mut value = 0u64;
    'digits: for byte in digits {
        value = value
            .saturating_mul(radix)
            .saturating_add(digit(*byte, radix)?)
            .min(GREATEST);
    }
    Ok(value)
}

/// The number that digits spell, with no sign.
fn whole(digits: &[u8], radix: u64) -> Result<i64, LineFault>
    requires { radix ≤ 16 }
    ensures { result ≡ unsigned_of radix digits.now }
{
    Ok(digits_value(digits, radix)? as i64)
}

/// The number that decimal digits spell after a minus sign.
fn negative(digits: &[u8]) -> Result<i64, LineFault>
    ensures { result ≡ negative_of digits.now }
{
    Ok(-(digits_value(digits, 10)? as i64))
}

/// The number that a word is. A number of 2^63 or more counts as the greatest of 63 bits.
#[tactic(auto, unfolding(crate::specs::Words::number_of))]
pub(crate) fn number_in(word: &[u8]) -> Result<i64, LineFault>
    ensures { result ≡ number_of word.now }
{
    match word {
        [b'-', digits @ ..] => negative(digits),
        [b'0', b'x', digits @ ..] => whole(digits, 16),
        digits => whole(digits, 10),
    }
}

/// An unsigned number from `low` to `high`.
pub(crate) fn between(number: i64, low: u32, high: u32) -> Result<u32, LineFault>
    ensures { result ≡ within low high number }
{
    if low as i64 <= number && number <= high as i64 {
        Ok(number as u32)
    } else {
        Err(LineFault::Range)
    }
}

/// A number of 32 bits.
pub(crate) fn word(number: i64) -> Result<u32, LineFault>
    ensures { result ≡ within 0 (2 ^ 32 - 1) number }
{
    between(number, 0, u32::MAX)
}
