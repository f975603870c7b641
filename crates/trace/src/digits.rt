//! Numbers and fixed texts, appended to a line.

ghost use Rattle.std.specs.Prelude.{◌≡◌, ◌+◌, ◌^◌, ◌<◌, ◌≤◌, ◌++◌, decimal, length};
ghost use Rattle.arrayvec.specs.ArrayVec.{array_vec_len};
ghost use Rattle.model.specs.Shared.Trace.{hex_digit, hex_byte, hex_word};

use arrayvec::ArrayVec;
use itoa::Buffer;

/// A line of text that is being written.
pub(crate) type Line = ArrayVec<u8, 32>;

/// Appends a fixed text.
pub(crate) fn push_text(to: &mut Line, text: &[u8])
    requires { array_vec_len to.old + length text.now ≤ 32 }
    ensures { to.new.items ≡ to.old.items ++ text.now }
{
    let _fits = to.try_extend_from_slice(text);
}

/// Appends a number as decimal digits, at most three.
pub(crate) fn push_decimal(to: &mut Line, number: u8)
    requires { array_vec_len to.old + 3 ≤ 32 }
    ensures text { to.new.items ≡ to.old.items ++ decimal number }
    ensures short { array_vec_len to.new ≤ array_vec_len to.old + 3 }
{
    let mut digits = Buffer::new();
    push_text(to, digits.format(number).as_bytes());
}

/// The hexadecimal digits, in lower case.
const DIGITS: [u8; 16] = *b"0123456789abcdef";

/// The hexadecimal digit of a number below 16.
pub(crate) fn hex_digit(digit: u32) -> u8
    requires { digit < 16 }
    ensures { result ≡ hex_digit digit }
{
    DIGITS[digit as usize]
}

/// A byte as two hexadecimal digits.
fn hex_byte(byte: u32) -> [u8; 2]
    requires { byte < 2 ^ 8 }
    ensures { result ≡ hex_byte byte }
{
    [hex_digit(byte / 16), hex_digit(byte % 16)]
}

/// A word as eight hexadecimal digits.
#[tactic(auto, unfolding(model::specs::Shared::Trace::hex_word))]
pub(crate) fn hex_word(word: u32) -> [u8; 8]
    ensures { result ≡ hex_word word }
{
    let first = hex_byte(word / 0x100_0000);
    let second = hex_byte(word / 0x1_0000 % 0x100);
    let third = hex_byte(word / 0x100 % 0x100);
    let fourth = hex_byte(word % 0x100);
    [
        first[0], first[1], second[0], second[1], third[0], third[1], fourth[0], fourth[1],
    ]
}

/// Appends a byte as two hexadecimal digits.
pub(crate) fn push_hex_byte(to: &mut Line, byte: u8)
    requires { array_vec_len to.old + 2 ≤ 32 }
    ensures { to.new.items ≡ to.old.items ++ hex_byte byte }
{
    let digits = hex_byte(u32::from(byte));
    push_text(to, &digits);
}
