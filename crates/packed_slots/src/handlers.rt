//! How many slots hold a handler of each interrupt line.

ghost use Rattle.std.specs.Prelude.{ℕ, ◌≡◌, ◌+◌, ◌^◌, ◌<◌, ◌≤◌, true, if◌then◌else◌, replicate, slice_index_or};
ghost use Rattle.model.specs.Capabilities.CapabilityKinds.{is_handler_of};
ghost use Rattle.model.specs.Capabilities.CapabilityWords.{IsCapability};

use model::Cap;
use std::marker::Model;

/// For each line, 0 to 63, how many slots hold a handler of it. A clause sees the list of these numbers.
#[derive(Drop)]
pub(crate) struct Handlers {
    counts: [u32; 64],
}

impl Model for Handlers {
    ghost use Rattle.std.specs.Prelude.{ℕ, ◌≡◌, List, length};

    ghost Value = { List ℕ };

    ghost view = { λ handlers. handlers.counts };

    ghost invariant = { λ handlers. length handlers.counts ≡ 64 };
}

impl Handlers {
    /// No slot holds a handler.
    pub(crate) fn none() -> Self
        ensures { result ≡ replicate 64 0 }
    {
        Handlers { counts: [0; 64] }
    }

    /// How many slots hold a handler of a line.
    pub(crate) fn count(&self, line: u8) -> u32
        requires { line < 64 }
        ensures { result ≡ slice_index_or self.now line 0 }
    {
        self.counts[usize::from(line)]
    }

    /// One slot more holds a capability.
    pub(crate) fn add(&mut self, capability: Cap)
        requires valid { IsCapability capability }
        requires room { (line : ℕ) → line < 64 → slice_index_or self.old line 0 ≤ 2 ^ 20 }
        ensures { (line : ℕ) → line < 64
            → slice_index_or self.new line 0 ≡ slice_index_or self.old line 0 + (if is_handler_of line capability then 1 else 0) }
    {
        if let Cap::InterruptHandler { line } = capability {
            self.counts[usize::from(line)] += 1;
        }
    }

    /// One slot less holds a capability.
    pub(crate) fn take(&mut self, capability: Cap)
        requires valid { IsCapability capability }
        requires held { (line : ℕ) → line < 64 → is_handler_of line capability ≡ true → 1 ≤ slice_index_or self.old line 0 }
        ensures { (line : ℕ) → line < 64
            → slice_index_or self.new line 0 + (if is_handler_of line capability then 1 else 0) ≡ slice_index_or self.old line 0 }
    {
        if let Cap::InterruptHandler { line } = capability {
            self.counts[usize::from(line)] -= 1;
        }
    }
}
