//! A text of an image, and its lines.

use std::alloc::Global;
use std::test::Fail;

/// A thread that counts down from ten and then waits for its bell for ever. The measures are exact: the loop takes 2 * x5 + 3
/// instructions from its head up to the wait, and the budget of 24 is used up.
pub const SOLO: &str = "memory 16 4
untyped u 0x8000 15
object code u frame
object vs u root
object pt u table
object data u frame
object main u tcb
object cs u cnode 4
object bell u notification
irq line 3 bell 1
cap cs 1 bell 2 0
cap cs 2 line 0 0
table vs 0 pt
map vs 0x1000 code 4
map vs 0x2000 data 3
thread main cs 28 vs 100 24 0 start 0x1000
measure 24
start: addi x5 x0 10
measure 3 x5 2
range x5 1 10
loop: addi x5 x5 -1
measure 4 x5 2
range x5 0 9
bne x5 x0 loop
again: addi x10 x0 1
addi x17 x0 5
ecall
jal x0 again
end
";

/// The lines of a text before the one of a number, counted from 1.
pub fn lines_before(alloc: Global, text: &str, number: usize) -> Result<String, Fail> {
    let mut before = String::new(alloc);
    let mut at = 1usize;
    for line in text.lines() {
        if at < number {
            put_line(&mut before, line)?;
        }
        at = at.saturating_add(1);
    }
    Ok(before)
}

/// A text with the line of a number put another way.
pub fn with_line(alloc: Global, text: &str, number: usize, new: &str) -> Result<String, Fail> {
    let mut changed = String::new(alloc);
    let mut at = 1usize;
    for line in text.lines() {
        put_line(&mut changed, if at == number { new } else { line })?;
        at = at.saturating_add(1);
    }
    Ok(changed)
}

/// Puts a line after a text.
pub fn put_line(text: &mut String, line: &str) -> Result<(), Fail> {
    text.push_str(line)?;
    Ok(text.push('\n')?)
}

/// A number: hexadecimal after `0x`, or else decimal.
pub fn number(word: &str) -> Result<u32, Fail> {
    match word.strip_prefix("0x") {
        Some(digits) => Ok(u32::from_str_radix(digits, 16)?),
        None => Ok(word.parse::<u32>()?),
    }
}
