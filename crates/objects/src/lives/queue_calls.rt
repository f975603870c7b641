//! The calls on those that wait at endpoints and notifications.

ghost use Rattle.std.specs.Prelude.{ℕ, ◌≡◌, ◌↔◌, [], Some, false};
ghost use Rattle.model.specs.Kernel.Kinds.{kind_at};
ghost use Rattle.model.specs.Kernel.Retype.{NewEndpoint, NewNotification, NewThread};
ghost use Rattle.model.specs.Kernel.Soundness.{waiting_at};
ghost use Rattle.model.specs.Kernel.State.{endpoint_at, notification_at};
ghost use Rattle.objects.specs.Lives.{Beside, state};
ghost use Rattle.objects.specs.thread_records.Threads.{sender_of};
ghost use Rattle.objects.specs.Waiting.{IsOneSided, ReceiverTaken, SenderTaken, StandsNowhere, WaiterTaken, with_receiver, with_sender, with_waiter, with_word};

use crate::beginnings::WORD;
use crate::lives::Live;
use crate::records::{Entry, WaitingSender};
use crate::thread_records::Sending;
use slots::SlotStore;

impl<S: SlotStore> Live<S> {
    /// A thread that waits nowhere waits after the others at an endpoint where nobody receives, to send this.
    pub fn push_sender(&mut self, endpoint: u32, thread: u32, sending: Sending)
        requires endpoint { kind_at (state S.SlotStore self.old) endpoint ≡ Some NewEndpoint }
        requires there { kind_at (state S.SlotStore self.old) thread ≡ Some NewThread }
        requires apart { StandsNowhere (state S.SlotStore self.old).objects thread }
        requires alone { (endpoint_at (state S.SlotStore self.old) endpoint).receivers ≡ [] }
        ensures state { state S.SlotStore self.new
            ≡ with_sender (state S.SlotStore self.old) endpoint (sender_of thread sending) }
        ensures beside { Beside S.SlotStore self.old self.new }
    {
        self.objects
            .enqueue(&mut self.store, endpoint, thread, Some(sending));
    }

    /// A thread that waits nowhere waits after the others at an endpoint where nobody sends, to receive.
    pub fn push_receiver(&mut self, endpoint: u32, thread: u32)
        requires endpoint { kind_at (state S.SlotStore self.old) endpoint ≡ Some NewEndpoint }
        requires there { kind_at (state S.SlotStore self.old) thread ≡ Some NewThread }
        requires apart { StandsNowhere (state S.SlotStore self.old).objects thread }
        requires alone { (endpoint_at (state S.SlotStore self.old) endpoint).senders ≡ [] }
        ensures state { state S.SlotStore self.new
            ≡ with_receiver (state S.SlotStore self.old) endpoint thread }
        ensures beside { Beside S.SlotStore self.old self.new }
    {
        self.objects
            .enqueue(&mut self.store, endpoint, thread, None);
    }

    /// A thread that waits nowhere waits after the others at a notification.
    pub fn push_waiter(&mut self, notification: u32, thread: u32)
        requires notification { kind_at (state S.SlotStore self.old) notification ≡ Some NewNotification }
        requires there { kind_at (state S.SlotStore self.old) thread ≡ Some NewThread }
        requires apart { StandsNowhere (state S.SlotStore self.old).objects thread }
        ensures state { state S.SlotStore self.new
            ≡ with_waiter (state S.SlotStore self.old) notification thread }
        ensures beside { Beside S.SlotStore self.old self.new }
    {
        self.objects
            .enqueue(&mut self.store, notification, thread, None);
    }

    /// Takes the first thread that waits at an endpoint to send, with what it sends.
    pub fn take_sender(&mut self, endpoint: u32) -> Option<WaitingSender>
        requires endpoint { kind_at (state S.SlotStore self.old) endpoint ≡ Some NewEndpoint }
        requires one_sided { IsOneSided (endpoint_at (state S.SlotStore self.old) endpoint) }
        ensures state { SenderTaken (state S.SlotStore self.old) endpoint result (state S.SlotStore self.new) }
        ensures beside { Beside S.SlotStore self.old self.new }
    {
        let Some(thread) = self.objects.first_waiting(&self.store, endpoint) else {
            return None;
        };
        let Some(sending) = self.objects.sending_of(&self.store, thread) else {
            return None;
        };
        self.objects.serve(&mut self.store, endpoint, thread);
        Some(WaitingSender { thread, sending })
    }

    /// Takes the first thread that waits at an endpoint to receive.
    pub fn take_receiver(&mut self, endpoint: u32) -> Option<u32>
        requires endpoint { kind_at (state S.SlotStore self.old) endpoint ≡ Some NewEndpoint }
        requires one_sided { IsOneSided (endpoint_at (state S.SlotStore self.old) endpoint) }
        ensures state { ReceiverTaken (state S.SlotStore self.old) endpoint result (state S.SlotStore self.new) }
        ensures beside { Beside S.SlotStore self.old self.new }
    {
        let Some(thread) = self.objects.first_waiting(&self.store, endpoint) else {
            return None;
        };
        if self.objects.sending_of(&self.store, thread).is_some() {
            return None;
        }
        self.objects.serve(&mut self.store, endpoint, thread);
        Some(thread)
    }

    /// Takes the first thread that waits at a notification.
    pub fn take_waiter(&mut self, notification: u32) -> Option<u32>
        requires there { kind_at (state S.SlotStore self.old) notification ≡ Some NewNotification }
        ensures state { WaiterTaken (state S.SlotStore self.old) notification result (state S.SlotStore self.new) }
        ensures beside { Beside S.SlotStore self.old self.new }
    {
        let Some(thread) = self.objects.first_waiting(&self.store, notification) else {
            return None;
        };
        self.objects.serve(&mut self.store, notification, thread);
        Some(thread)
    }

    /// Whether a thread waits at the object at an offset.
    pub fn is_waited_at(&self, offset: u32) -> bool
        ensures { (result ≡ false) ↔ (waiting_at ((state S.SlotStore self.now).objects offset) ≡ []) }
    {
        self.objects.is_waited_at(&self.store, offset)
    }

    /// The word of a notification, or 0 where none is.
    pub fn word(&self, notification: u32) -> u32
        ensures { result ≡ (notification_at (state S.SlotStore self.now) notification).word }
    {
        let objects = &self.objects;
        match objects.held.get(notification) {
            Entry::Notification => self.store.mem().read32(notification + WORD),
            _ => 0,
        }
    }

    /// Sets the word of a notification.
    pub fn set_word(&mut self, notification: u32, word: u32)
        requires there { kind_at (state S.SlotStore self.old) notification ≡ Some NewNotification }
        ensures state { state S.SlotStore self.new
            ≡ with_word (state S.SlotStore self.old) notification word }
        ensures beside { Beside S.SlotStore self.old self.new }
    {
        self.store.write32(notification + WORD, word);
    }
}
