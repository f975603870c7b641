//! The interrupt lines whose last handler goes with a removal: their bindings go with it.

ghost use Rattle.std.specs.Prelude.{ℕ, ◌≡◌, ◌==◌, ◌/◌, ◌<◌, ◌&&◌, ◌||◌, false, length, not, true};
ghost use Rattle.cnode_ops.specs.Lines.{has_line};
ghost use Rattle.model.specs.Capabilities.CapabilityKinds.{is_handler_of};
ghost use Rattle.slots.specs.Listed.{is_handled};

use crate::bits::{has_bit, with_bit};
use model::Cap;
use slots::SlotStore;

/// How many lines there are.
const LINES: u8 = 64;

/// A set of lines: one bit each.
#[derive(Clone, Copy)]
pub struct LineSet {
    bits: u64,
}

impl LineSet {
    /// No line.
    pub(crate) fn none() -> Self
        ensures { (line : ℕ) → has_line result line ≡ false }
    {
        LineSet { bits: 0 }
    }

    /// Whether it is known that no line is one of them.
    pub(crate) fn is_none(self) -> bool
        ensures { result ≡ true → (line : ℕ) → has_line self line ≡ false }
    {
        self.bits == 0
    }

    /// Whether a line is one of them.
    pub(crate) fn contains(self, line: u8) -> bool
        ensures { result ≡ has_line self line }
    {
        has_bit(self.bits, u32::from(line))
    }

    /// These and one more.
    fn with(self, line: u8) -> Self
        ensures { line < 64 → (other : ℕ) → other < 64 → has_line result other ≡ (has_line self other || line == other) }
    {
        LineSet {
            bits: with_bit(self.bits, u32::from(line)),
        }
    }

    /// These and one more, if that is wanted.
    fn with_if(self, line: u8, is_wanted: bool) -> Self
        ensures { line < 64 → (other : ℕ) → other < 64 → has_line result other ≡ (has_line self other || is_wanted && line == other) }
    {
        if is_wanted { self.with(line) } else { self }
    }

    /// These and the line that a capability handles, if it handles one.
    pub(crate) fn with_handled(self, capability: Cap) -> Self
        ensures { (line : ℕ) → line < 64 → has_line result line ≡ (has_line self line || is_handler_of line capability) }
    {
        let Cap::InterruptHandler { line } = capability else {
            return self;
        };
        if line >= LINES {
            return self;
        }
        self.with(line)
    }
}

/// Whether a line is one of some and no slot holds a handler of it.
fn is_lost<S: SlotStore>(store: &S, gone: LineSet, line: u8) -> bool
    requires { line < 64 }
    ensures { result ≡ (has_line gone line && not (is_handled (S.slots store.now) (length (S.memory store.now) / 16) line)) }
{
    gone.contains(line) && !store.is_handled(line)
}

/// Of some lines those of which no slot holds a handler.
pub(crate) fn lines_lost<S: SlotStore>(store: &S, gone: LineSet) -> LineSet
    ensures { (line : ℕ) → line < 64 → has_line result line
        ≡ (has_line gone line && not (is_handled (S.slots store.now) (length (S.memory store.now) / 16) line)) }
{
    // Most removals take no handler.
    if gone.is_none() {
        return gone;
    }
    let mut lost = LineSet::none();
    'lines: for line in 0..LINES {
        lost = lost.with_if(line, is_lost(store, gone, line));
    }
    lost
}
