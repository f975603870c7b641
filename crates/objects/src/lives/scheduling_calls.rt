//! The calls on who runs.
//! seL4 Reference Manual, "Threads and Execution", "Scheduling".

ghost use Rattle.std.specs.Prelude.{ℕ, ◌≡◌, Some};
ghost use Rattle.model.specs.Kernel.Kinds.{kind_at};
ghost use Rattle.model.specs.Kernel.Retype.{NewThread};
ghost use Rattle.model.specs.Kernel.Scheduling.{current, leaves, to_tail};
ghost use Rattle.model.specs.Kernel.State.{thread_at, with_thread};
ghost use Rattle.model.specs.Kernel.ThreadCalls.{with_priority};
ghost use Rattle.objects.specs.Lives.{Beside, state};

use crate::lives::Live;
use slots::SlotStore;

impl<S: SlotStore> Live<S> {
    /// The current thread: the first of the greatest priority, if any is ready.
    pub fn current(&self) -> Option<u32>
        ensures { result ≡ current (state S.SlotStore self.now) }
    {
        self.objects.current()
    }

    /// How many ticks a thread runs on before it goes to the tail of its priority.
    pub fn slice(&self, thread: u32) -> u8
        ensures { result ≡ (thread_at (state S.SlotStore self.now) thread).slice }
    {
        match self.record_of(thread) {
            Some(found) => found.slice(),
            None => 0,
        }
    }

    /// Sets how many ticks a thread runs on.
    pub fn set_slice(&mut self, thread: u32, slice: u8)
        requires there { kind_at (state S.SlotStore self.old) thread ≡ Some NewThread }
        ensures state { state S.SlotStore self.new
            ≡ with_thread (state S.SlotStore self.old) thread (record (thread_at (state S.SlotStore self.old) thread) { slice = slice }) }
        ensures beside { Beside S.SlotStore self.old self.new }
    {
        self.objects.set_slice_at(&mut self.store, thread, slice);
    }

    /// A thread goes to the tail of its priority.
    pub fn to_tail(&mut self, thread: u32)
        requires there { kind_at (state S.SlotStore self.old) thread ≡ Some NewThread }
        ensures state { state S.SlotStore self.new
            ≡ to_tail (state S.SlotStore self.old) thread }
        ensures beside { Beside S.SlotStore self.old self.new }
    {
        self.objects.to_tail_at(&mut self.store, thread);
    }

    /// Sets the priority of a thread: one that runs goes to its tail, with the slice that it has.
    pub fn set_priority(&mut self, thread: u32, priority: u8)
        requires there { kind_at (state S.SlotStore self.old) thread ≡ Some NewThread }
        ensures state { state S.SlotStore self.new
            ≡ with_priority (state S.SlotStore self.old) thread priority }
        ensures beside { Beside S.SlotStore self.old self.new }
    {
        let runs = self.objects.runs(&self.store, thread);
        self.objects
            .set_priority_at(&mut self.store, thread, priority);
        if runs {
            self.objects.to_tail_at(&mut self.store, thread);
        }
    }

    /// A thread leaves every queue and the ready list, and nobody has the right to reply to it any more.
    pub fn leave(&mut self, thread: u32)
        requires there { kind_at (state S.SlotStore self.old) thread ≡ Some NewThread }
        ensures state { state S.SlotStore self.new
            ≡ leaves (state S.SlotStore self.old) thread }
        ensures beside { Beside S.SlotStore self.old self.new }
    {
        self.objects.forget(&mut self.store, thread);
    }
}
