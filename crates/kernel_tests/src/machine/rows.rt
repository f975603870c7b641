//! Rows of text: numbers, and after them ` | ` and a text, which names the row or says what is expected.

use std::test::Fail;

/// The numbers and the text of a row. There have to be just as many numbers as are asked for.
pub(crate) fn row<const N: usize>(line: &str) -> Result<([u32; N], &str), Fail> {
    let (list, text) = line.split_once(" | ").ok_or(line)?;
    let mut words = list.split_whitespace();
    let mut numbers = [0; N];
    for place in &mut numbers {
        *place = number(words.next().ok_or(line)?)?;
    }
    match words.next() {
        None => Ok((numbers, text)),
        Some(_) => Err(Fail::new(line)),
    }
}

/// A number of 32 bits: hexadecimal after `0x`, or else decimal, perhaps below 0.
fn number(word: &str) -> Result<u32, Fail> {
    match word.strip_prefix("0x") {
        Some(digits) => Ok(u32::from_str_radix(digits, 16)?),
        None => Ok(word.parse::<i32>()?.cast_unsigned()),
    }
}
