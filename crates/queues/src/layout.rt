//! What is where in memory.

ghost use Rattle.std.specs.Prelude.{ℕ, ◌≡◌};

/// What is where in memory, as far as queues ask: it is in no byte, since a new object is all zero.
pub trait Layout {
    ghost use Rattle.queues.specs.Layout.{Places};

    // The threads, and where objects keep the first and the last of those that wait at them.
    ghost places: { Self → Places };

    /// Whether a thread is at an offset.
    fn is_thread(&self, offset: u32) -> bool
        ensures { result ≡ (places self.now).threads offset };

    /// Where the object at an offset keeps the first and the last of those that wait at it, if any may.
    fn head(&self, offset: u32) -> Option<u32>
        ensures { result ≡ (places self.now).heads offset };
}
