//! The line of a plain instruction, which most lines are.

ghost use Rattle.std.specs.Prelude.{◌≡◌, true};
ghost use Rattle.trace.specs.PlainLines.{plain_text};

use crate::digits::{hex_digit, hex_word};

/// Addresses that differ in their last three digits alone are of one page of so many bytes.
const PAGE_SIZE: u32 = 0x1000;

/// Addresses that differ in their last digit alone are of one row of so many bytes.
const ROW_SIZE: u32 = 0x10;

/// The line of a plain instruction, with its line feed. It is kept, since that of an instruction of the same thread in the same
/// page differs in three digits alone.
#[derive(Drop)]
pub struct PlainLine {
    thread: u32,
    pc: u32,
    text: [u8; 24],
    ghost kept: { text ≡ plain_text thread pc },
}

/// The line of an instruction at `pc`, digit by digit.
fn text_of(thread: u32, pc: u32) -> [u8; 24]
    ensures { result ≡ plain_text thread pc }
{
    let who = hex_word(thread);
    let at = hex_word(pc);
    [
        who[0], who[1], who[2], who[3], who[4], who[5], who[6], who[7], b' ', at[0], at[1], at[2],
        at[3], at[4], at[5], at[6], at[7], b' ', b'p', b'l', b'a', b'i', b'n', b'\n',
    ]
}

impl PlainLine {
    /// The line of the thread whose TCB is at the physical address `thread`, for an instruction at `pc`.
    pub fn new(thread: u32, pc: u32) -> Self
        ensures { result.text ≡ plain_text thread pc }
    {
        PlainLine {
            thread,
            pc,
            text: text_of(thread, pc),
        }
    }

    /// Goes on to an instruction at `pc`, if it is of the same thread and in the same page. The answer says whether it is.
    #[inline]
    pub fn go_on(&mut self, thread: u32, pc: u32) -> bool
        ensures { result ≡ true → self.new.text ≡ plain_text thread pc }
    {
        if thread != self.thread {
            return false;
        }
        if pc / ROW_SIZE == self.pc / ROW_SIZE {
            self.text[16] = hex_digit(pc % 0x100 % 0x10);
            self.pc = pc;
            return true;
        }
        if pc / PAGE_SIZE != self.pc / PAGE_SIZE {
            return false;
        }
        self.text[14] = hex_digit(pc / 0x100 % 0x100 % 0x10);
        self.text[15] = hex_digit(pc % 0x100 / 0x10);
        self.text[16] = hex_digit(pc % 0x100 % 0x10);
        self.pc = pc;
        true
    }

    /// The line that was made last, with its line feed.
    #[inline]
    pub fn text(&self) -> &[u8; 24]
        ensures { result.now ≡ self.now.text }
    {
        &self.text
    }

    /// The line of an instruction at `pc` of which nothing else is reported, with its line feed: that of `Label::Ran` with the
    /// outcome `Plain`, for the thread whose TCB is at the physical address `thread`.
    pub fn line(&mut self, thread: u32, pc: u32) -> &[u8; 24]
        ensures { result.now ≡ plain_text thread pc }
    {
        if !self.go_on(thread, pc) {
            *self = PlainLine::new(thread, pc);
        }
        &self.text
    }
}
