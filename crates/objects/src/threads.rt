//! How one thread changes while it stays where it is.

ghost use Rattle.std.specs.Prelude.{ℕ, ◌≡◌, List, Some};
ghost use Rattle.model.specs.Capabilities.Slots.{Slots};
ghost use Rattle.model.specs.Kernel.Kinds.{kind_at};
ghost use Rattle.model.specs.Kernel.Retype.{NewThread};
ghost use Rattle.model.specs.Kernel.Scheduling.{current, is_runnable, to_tail, unready};
ghost use Rattle.model.specs.Kernel.State.{thread_at, with_thread};
ghost use Rattle.objects.specs.Frames.{SameBesideRecords};
ghost use Rattle.objects.specs.Premises.{IsThere};
ghost use Rattle.objects.specs.Standing.{Standing};
ghost use Rattle.objects.specs.Tables.{state_of};
ghost use Rattle.objects.specs.thread_records.Threads.{status_of};

use crate::tables::Objects;
use crate::thread_records;
use crate::thread_records::{Status, ThreadRecord};
use slots::SlotStore;

impl Objects {
    /// The current thread: the first of the greatest priority, if any is ready.
    #[tactic(auto, unfolding(crate::specs::Tables::state_of, crate::specs::Contents::told_by))]
    pub(crate) fn current(&self) -> Option<u32>
        ensures { (slots : Slots) (memory : List ℕ) → result ≡ current (state_of self.now slots memory) }
    {
        self.ready.current()
    }

    /// Sets whether a thread runs, and else what it waits for.
    pub(crate) fn set_status_at<S: SlotStore>(&mut self, store: &mut S, offset: u32, status: Status)
        requires { IsThere self.old (S.slots store.old) (S.memory store.old) NewThread offset }
        ensures state { state_of self.new (S.slots store.new) (S.memory store.new)
            ≡ with_thread (state_of self.old (S.slots store.old) (S.memory store.old)) offset
            (record (thread_at (state_of self.old (S.slots store.old) (S.memory store.old)) offset) { status = status_of status }) }
        ensures slots { S.slots store.new ≡ S.slots store.old }
        ensures bytes { SameBesideRecords (state_of self.old (S.slots store.old) (S.memory store.old)) (S.memory store.old) (S.memory store.new) }
        ensures order { S.order store.new ≡ S.order store.old }
        ensures stands { Standing self.new (S.slots store.new) (S.memory store.new) }
    {
        thread_records::set_status(store, offset, status);
    }

    /// Sets how many ticks a thread runs on.
    pub(crate) fn set_slice_at<S: SlotStore>(&mut self, store: &mut S, offset: u32, slice: u8)
        requires { IsThere self.old (S.slots store.old) (S.memory store.old) NewThread offset }
        ensures state { state_of self.new (S.slots store.new) (S.memory store.new)
            ≡ with_thread (state_of self.old (S.slots store.old) (S.memory store.old)) offset
            (record (thread_at (state_of self.old (S.slots store.old) (S.memory store.old)) offset) { slice = slice }) }
        ensures slots { S.slots store.new ≡ S.slots store.old }
        ensures bytes { SameBesideRecords (state_of self.old (S.slots store.old) (S.memory store.old)) (S.memory store.old) (S.memory store.new) }
        ensures order { S.order store.new ≡ S.order store.old }
        ensures stands { Standing self.new (S.slots store.new) (S.memory store.new) }
    {
        thread_records::set_slice(store, offset, slice);
    }

    /// Sets the priority of a thread, which may be in the ready list at another one.
    pub(crate) fn set_priority_at<S: SlotStore>(&mut self, store: &mut S, offset: u32, priority: u8)
        requires { IsThere self.old (S.slots store.old) (S.memory store.old) NewThread offset }
        ensures state { state_of self.new (S.slots store.new) (S.memory store.new)
            ≡ with_thread (state_of self.old (S.slots store.old) (S.memory store.old)) offset
            (record (thread_at (state_of self.old (S.slots store.old) (S.memory store.old)) offset) { priority = priority }) }
        ensures slots { S.slots store.new ≡ S.slots store.old }
        ensures bytes { SameBesideRecords (state_of self.old (S.slots store.old) (S.memory store.old)) (S.memory store.old) (S.memory store.new) }
        ensures order { S.order store.new ≡ S.order store.old }
        ensures stands { Standing self.new (S.slots store.new) (S.memory store.new) }
    {
        thread_records::set_priority(store, offset, priority);
    }

    /// Whether a thread runs.
    pub(crate) fn runs<S: SlotStore>(&self, store: &S, offset: u32) -> bool
        requires { IsThere self.now (S.slots store.now) (S.memory store.now) NewThread offset }
        ensures { result ≡ is_runnable (thread_at (state_of self.now (S.slots store.now) (S.memory store.now)) offset).status }
    {
        is_running(ThreadRecord::new(store, offset).status())
    }

    /// A thread leaves the ready list.
    pub(crate) fn unready<S: SlotStore>(&mut self, store: &mut S, offset: u32)
        requires stands { Standing self.old (S.slots store.old) (S.memory store.old) }
        ensures state { state_of self.new (S.slots store.new) (S.memory store.new)
            ≡ unready (state_of self.old (S.slots store.old) (S.memory store.old)) offset }
        ensures slots { S.slots store.new ≡ S.slots store.old }
        ensures bytes { SameBesideRecords (state_of self.old (S.slots store.old) (S.memory store.old)) (S.memory store.old) (S.memory store.new) }
        ensures order { S.order store.new ≡ S.order store.old }
        ensures stands { Standing self.new (S.slots store.new) (S.memory store.new) }
    {
        self.ready.leave(&self.held, store, offset);
    }

    /// A thread goes to the tail of its priority.
    pub(crate) fn to_tail_at<S: SlotStore>(&mut self, store: &mut S, offset: u32)
        requires { IsThere self.old (S.slots store.old) (S.memory store.old) NewThread offset }
        ensures state { state_of self.new (S.slots store.new) (S.memory store.new)
            ≡ to_tail (state_of self.old (S.slots store.old) (S.memory store.old)) offset }
        ensures slots { S.slots store.new ≡ S.slots store.old }
        ensures bytes { SameBesideRecords (state_of self.old (S.slots store.old) (S.memory store.old)) (S.memory store.old) (S.memory store.new) }
        ensures order { S.order store.new ≡ S.order store.old }
        ensures stands { Standing self.new (S.slots store.new) (S.memory store.new) }
    {
        let priority = ThreadRecord::new(store, offset).priority();
        self.ready.leave(&self.held, store, offset);
        self.ready.push(&self.held, store, priority, offset);
    }
}

/// Whether a thread with this status runs.
fn is_running(status: Status) -> bool
    ensures { result ≡ is_runnable (status_of status) }
{
    matches!(status, Status::Runnable)
}
