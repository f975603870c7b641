//! Message buffers of threads, and what is copied between them.

ghost use Rattle.std.specs.Prelude.{◌≡◌, ◌≤◌, Some};
ghost use Rattle.model.specs.Kernel.Kinds.{kind_at};
ghost use Rattle.model.specs.Kernel.Messages.{buffer_of, with_copied};
ghost use Rattle.model.specs.Kernel.Retype.{NewThread};
ghost use Rattle.objects.specs.Frames.{IsFramed};
ghost use Rattle.objects.specs.Lives.{Beside, state};

use crate::lives::Live;
use model::Slot;
use slots::SlotStore;

/// Of a thread's own slots the one with the frame of its message buffer.
const BUFFER_SLOT: u32 = 2;

/// Where the first word is in a buffer that no register holds, in bytes.
const FIRST_WORD: u32 = 32;

impl<S: SlotStore> Live<S> {
    /// The frame of a thread's message buffer, if it has one.
    pub fn buffer(&self, thread: u32) -> Option<u32>
        requires { kind_at (state S.SlotStore self.now) thread ≡ Some NewThread }
        ensures { result ≡ buffer_of (state S.SlotStore self.now) thread }
    {
        let store = &self.store;
        store.frame(Slot::new(thread / 16 + BUFFER_SLOT))
    }

    /// So many words, from the first on that no register holds, go from one frame to another, as they are. The two may be one.
    pub fn copy_words(&mut self, source: u32, target: u32, count: u32)
        requires few { count ≤ 112 }
        requires source { IsFramed (state S.SlotStore self.old) source }
        requires target { IsFramed (state S.SlotStore self.old) target }
        ensures state { state S.SlotStore self.new
            ≡ record (state S.SlotStore self.old) { bytes = with_copied (state S.SlotStore self.old).bytes source target count } }
        ensures beside { Beside S.SlotStore self.old self.new }
    {
        let size = self.objects.memory_size();
        prove!(source <= size);
        prove!(target <= size);
        self.store
            .copy_words(source + FIRST_WORD, target + FIRST_WORD, count);
    }
}
