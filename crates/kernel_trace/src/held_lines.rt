//! Lines that wait to be put.

ghost use Rattle.std.specs.Prelude.{ℕ, ◌≡◌, ◌+◌, ◌≤◌, ◌++◌, [], length, nat_le};
ghost use Rattle.kernel_trace.specs.Lines.{ended};
ghost use Rattle.trace.specs.PlainLines.{plain_text};

use crate::line_buffer::LineBuffer;
use kernel::Labels;
use model::{Label, Outcome};
use trace::{PlainLine, line};

/// How many bytes the longest line has, with its line feed.
const LONGEST_LINE: usize = 33;

/// Lines with their line feeds, up to 8192 bytes of them.
#[derive(Drop)]
pub(crate) struct HeldLines {
    pub(crate) bytes: LineBuffer,
    plain_line: PlainLine,
}

impl HeldLines {
    /// No lines.
    pub(crate) fn new() -> Self
        ensures { result.bytes ≡ [] }
    {
        HeldLines {
            bytes: LineBuffer::new(),
            plain_line: PlainLine::new(0, 0),
        }
    }

    /// Takes the line of a plain instruction of another thread, or in another page, than the last one.
    #[cold]
    #[inline(never)]
    fn turn_to(&mut self, thread: u32, pc: u32)
        ensures { length self.old.bytes + 24 ≤ 8192 → self.new.bytes ≡ self.old.bytes ++ plain_text thread pc }
    {
        let text = self.plain_line.line(thread, pc);
        let _fits = self.bytes.push_text(text);
    }

    /// Takes the line of a label, in a function of its own: few lines need it.
    #[inline(never)]
    fn put_line(&mut self, label: Label)
        ensures { length self.old.bytes + 33 ≤ 8192 → self.new.bytes ≡ self.old.bytes ++ ended label }
    {
        let text = line(label);
        let _fits = self.bytes.push_text(text.as_slice());
        let _fits = self.bytes.push_text(b"\n");
    }
}

impl Labels for HeldLines {
    ghost Item = { ℕ };

    ghost kept = { ended };

    ghost seen = { λ lines. lines.bytes };

    ghost wants = { λ lines. nat_le (length lines.bytes + 33) 8192 };

    #[inline]
    fn wants_more(&self) -> bool {
        self.bytes.room() >= LONGEST_LINE
    }

    #[inline]
    fn put(&mut self, label: Label) {
        match label {
            Label::Ran {
                thread,
                pc,
                outcome: Outcome::Plain,
            } => self.plain(thread, pc),
            Label::Idle => {
                let _fits = self.bytes.push_text(b"idle\n");
            }
            _ => self.put_line(label),
        }
    }

    #[inline]
    fn plain(&mut self, thread: u32, pc: u32) {
        if self.plain_line.go_on(thread, pc) {
            let _fits = self.bytes.push_text(self.plain_line.text());
        } else {
            self.turn_to(thread, pc);
        }
    }
}
