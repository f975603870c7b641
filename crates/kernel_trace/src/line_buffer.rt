//! Bytes that wait, in a piece of their own.

ghost use Rattle.std.specs.Prelude.{◌≡◌, ◌+◌, ◌≤◌, ◌++◌, [], length};

use std::marker::Model;

/// How many bytes a buffer holds at most.
const SIZE: usize = 8192;

/// Bytes that wait, up to 8192. What they were is not blanked when they are taken away. A clause sees the list of them.
#[derive(Drop)]
pub(crate) struct LineBuffer {
    bytes: [u8; SIZE],
    used: usize,
}

impl Model for LineBuffer {
    ghost use Rattle.std.specs.Prelude.{◌≡◌, ◌≤◌, ℕ, List, length, take};

    ghost Value = { List ℕ };

    ghost view = { λ buffer. take buffer.used buffer.bytes };

    ghost invariant = { λ buffer. (buffer.used ≤ 8192) × (length buffer.bytes ≡ 8192) };
}

impl LineBuffer {
    /// No bytes.
    pub(crate) fn new() -> Self
        ensures { result ≡ [] }
    {
        LineBuffer {
            bytes: [0; SIZE],
            used: 0,
        }
    }

    /// How many more bytes there is room for.
    #[inline]
    pub(crate) fn room(&self) -> usize
        ensures { result + length self.now ≡ 8192 }
    {
        SIZE - self.used
    }

    /// The bytes.
    pub(crate) fn as_slice(&self) -> &[u8]
        ensures { result.now ≡ self.now }
    {
        &self.bytes[..self.used]
    }

    /// Appends a text, if there is room for it. The answer says whether there was.
    #[inline]
    pub(crate) fn push_text(&mut self, text: &[u8]) -> bool
        ensures { length self.old + length text.now ≤ 8192 → self.new ≡ self.old ++ text.now }
    {
        if self.room() < text.len() {
            return false;
        }
        let end = self.used + text.len();
        self.bytes[self.used..end].copy_from_slice(text);
        self.used = end;
        true
    }

    /// Takes all bytes away.
    pub(crate) fn clear(&mut self)
        ensures { self.new ≡ [] }
    {
        self.used = 0;
    }
}
