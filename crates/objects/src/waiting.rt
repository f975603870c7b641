//! Who waits at endpoints and notifications, and their words.

ghost use Rattle.std.specs.Prelude.{ℕ, ◌≡◌, Some, true};
ghost use Rattle.model.specs.Kernel.Kinds.{kind_at};
ghost use Rattle.model.specs.Kernel.Retype.{NewThread};
ghost use Rattle.model.specs.Kernel.Scheduling.{head_of};
ghost use Rattle.objects.specs.Frames.{SameBesideRecords};
ghost use Rattle.objects.specs.Premises.{MayWait};
ghost use Rattle.objects.specs.Standing.{Standing};
ghost use Rattle.objects.specs.Tables.{sending_in, state_of, waiting_of};
ghost use Rattle.objects.specs.Waiting.{StandsNowhere, changed_at, has_waiting, joined, served};

use crate::tables::Objects;
use crate::thread_records;
use crate::thread_records::{Sending, ThreadRecord};
use queues::waiting::{first, pop, push};
use slots::SlotStore;

impl Objects {
    /// A thread that is in no queue is put after those that wait at an object, to send this or to receive.
    pub(crate) fn enqueue<S: SlotStore>(
        &mut self,
        store: &mut S,
        queue: u32,
        thread: u32,
        sending: Option<Sending>,
    )
        requires may_wait { MayWait self.old (S.slots store.old) (S.memory store.old) thread }
        requires queue { has_waiting (kind_at (state_of self.old (S.slots store.old) (S.memory store.old)) queue) ≡ true }
        ensures state { state_of self.new (S.slots store.new) (S.memory store.new)
            ≡ changed_at (state_of self.old (S.slots store.old) (S.memory store.old)) queue (joined thread sending) }
        ensures slots { S.slots store.new ≡ S.slots store.old }
        ensures bytes { SameBesideRecords (state_of self.old (S.slots store.old) (S.memory store.old)) (S.memory store.old) (S.memory store.new) }
        ensures order { S.order store.new ≡ S.order store.old }
        ensures stands { Standing self.new (S.slots store.new) (S.memory store.new) }
    {
        self.set_sending_at(store, thread, sending);
        push(&self.held, store, queue, thread);
    }

    /// A thread that is in no queue is to send this, or to receive.
    fn set_sending_at<S: SlotStore>(&self, store: &mut S, thread: u32, sending: Option<Sending>)
        requires { MayWait self.now (S.slots store.old) (S.memory store.old) thread }
        ensures state { state_of self.now (S.slots store.new) (S.memory store.new) ≡ state_of self.now (S.slots store.old) (S.memory store.old) }
        ensures sending { sending_in self.now (S.memory store.new) thread ≡ sending }
        ensures slots { S.slots store.new ≡ S.slots store.old }
        ensures bytes { SameBesideRecords (state_of self.now (S.slots store.old) (S.memory store.old)) (S.memory store.old) (S.memory store.new) }
        ensures order { S.order store.new ≡ S.order store.old }
        ensures stands { Standing self.now (S.slots store.new) (S.memory store.new) }
    {
        thread_records::set_sending(store, thread, sending);
    }

    /// The first of those that wait at an object leaves.
    pub(crate) fn serve<S: SlotStore>(&mut self, store: &mut S, queue: u32, thread: u32)
        requires first { head_of (waiting_of self.old (S.memory store.old) queue) ≡ Some thread }
        requires stands { Standing self.old (S.slots store.old) (S.memory store.old) }
        ensures state { state_of self.new (S.slots store.new) (S.memory store.new)
            ≡ changed_at (state_of self.old (S.slots store.old) (S.memory store.old)) queue (served (sending_in self.old (S.memory store.old) thread)) }
        ensures slots { S.slots store.new ≡ S.slots store.old }
        ensures bytes { SameBesideRecords (state_of self.old (S.slots store.old) (S.memory store.old)) (S.memory store.old) (S.memory store.new) }
        ensures order { S.order store.new ≡ S.order store.old }
        ensures stands { Standing self.new (S.slots store.new) (S.memory store.new) }
        ensures there { kind_at (state_of self.new (S.slots store.new) (S.memory store.new)) thread ≡ Some NewThread }
    {
        pop(&self.held, store, queue);
    }

    /// The first thread that waits at an object.
    pub(crate) fn first_waiting<S: SlotStore>(&self, store: &S, queue: u32) -> Option<u32>
        requires { Standing self.now (S.slots store.now) (S.memory store.now) }
        ensures { result ≡ head_of (waiting_of self.now (S.memory store.now) queue) }
    {
        first(&self.held, store, queue)
    }

    /// What a thread sends, if it does.
    pub(crate) fn sending_of<S: SlotStore>(&self, store: &S, thread: u32) -> Option<Sending>
        requires { Standing self.now (S.slots store.now) (S.memory store.now) }
        ensures { result ≡ sending_in self.now (S.memory store.now) thread }
    {
        if self.has_thread(thread) {
            ThreadRecord::new(store, thread).sending()
        } else {
            None
        }
    }
}
