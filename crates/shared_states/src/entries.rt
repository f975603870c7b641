//! What trees are made of.

ghost use Rattle.std.specs.Prelude.{◌≡◌};
ghost use Rattle.shared_states.specs.Entries.{below};

/// An entry of trees: the two entries below it, or what is held at a number.
#[derive(Clone, Copy)]
pub enum Entry {
    /// For numbers whose bit is 0, and for those whose bit is 1.
    Pair { low: u32, high: u32 },
    /// This is held.
    Leaf(u64),
}

impl Entry {
    /// The entry below on a side.
    pub(crate) fn below(&self, side: bool) -> u32
        ensures { result ≡ below self.now side }
    {
        match self {
            Entry::Pair { low, high } => { if side { *high } else { *low } }
            Entry::Leaf(_) => 0,
        }
    }
}
