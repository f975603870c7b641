//! The tables that the kernel keeps beside slots and memory.

ghost use Rattle.std.specs.Prelude.{ℕ, ◌≡◌, ◌+◌, ◌*◌, ◌^◌, ◌<◌, ◌≤◌, Some, IfOk, List, true, false, if◌then◌else◌, is_some, length, replicate};
ghost use Rattle.std.specs.Option.{option_map_or};
ghost use Rattle.model.specs.Capabilities.Slots.{Slots};
ghost use Rattle.model.specs.Kernel.AddressSpaces.{page_size};
ghost use Rattle.model.specs.Kernel.Kinds.{frame_around, kind_at};
ghost use Rattle.model.specs.Kernel.Removal.{slot_count};
ghost use Rattle.model.specs.Kernel.Retype.{NewThread};
ghost use Rattle.model.specs.Kernel.Scheduling.{all_leave, leaves, wake};
ghost use Rattle.model.specs.Kernel.Setup.{boot_area, is_frame_object};
ghost use Rattle.model.specs.Kernel.State.{with_slots};
ghost use Rattle.model.specs.Shared.Lists.{times_in};
ghost use Rattle.objects.specs.Changes.{vacated};
ghost use Rattle.objects.specs.Contents.{is_frame, is_thread_kind, object_in};
ghost use Rattle.objects.specs.Frames.{IsFramed, SameBesideRecords};
ghost use Rattle.objects.specs.Premises.{HasLeft, IsThere};
ghost use Rattle.objects.specs.Rights.{has_right};
ghost use Rattle.objects.specs.Standing.{Standing};
ghost use Rattle.objects.specs.Tables.{contents_of, kind_in, ready_at, state_of, thread_in, waiting_of};
ghost use Rattle.objects.specs.Waiting.{has_waiting};
ghost use Rattle.removal_laws.specs.Finishing.{is_stranded, waits_nowhere};
ghost use Rattle.removal_laws.specs.Steps.{ends_thread};
ghost use Rattle.objects.specs.thread_records.Threads.{status_of};

use crate::held::Held;
use crate::records::Entry;
use crate::rights::void_rights;
use crate::thread_records::{Status, ThreadRecord};
use queues::{ReadyList, waiting};
use slots::SlotStore;
use std::alloc::{AllocError, Global};
use std::marker::Model;

/// How many ticks a thread gets when it is made runnable.
pub const FULL_SLICE: u8 = 5;

/// How many bytes a frame has.
const PAGE_SIZE: u32 = 4096;

/// The objects by their offsets in memory, the queues, the ready list and the interrupt lines. Only
/// [`Objects::new`] takes memory. Slots, and the bytes of frames, are the store's.
#[derive(Drop)]
pub struct Objects {
    pub(crate) bits: u32,
    pub(crate) radix: u32,
    pub(crate) held: Held,
    pub(crate) ready: ReadyList,
    pub(crate) masked: [bool; 64],
    pub(crate) pending: [bool; 64],
}

impl Model for Objects {
    ghost use Rattle.objects.specs.Tables.{AreTables, Tables};

    ghost Value = { Tables };

    ghost view = { λ o. record {
      bits = o.bits;
      radix = o.radix;
      entries = o.held;
      ready = o.ready;
      masked = o.masked;
      pending = o.pending;
    } };

    ghost invariant = { λ o. AreTables (record {
      bits = o.bits;
      radix = o.radix;
      entries = o.held;
      ready = o.ready;
      masked = o.masked;
      pending = o.pending;
    }) };
}

impl Objects {
    /// No objects yet in memory of 2^`bits` bytes, with room for all that may come; the boot CNode has 2^`radix` slots.
    ///
    /// # Errors
    ///
    /// Memory may be refused.
    #[tactic(auto, unfolding(crate::specs::Tables::state_of, crate::specs::Contents::told_by, model::specs::Kernel::Setup::boot_area))]
    pub fn new(alloc: Global, bits: u32, radix: u32) -> Result<Self, AllocError>
        requires least { 16 ≤ bits }
        requires most { bits ≤ 24 }
        requires radix { radix ≤ 14 }
        ensures state { IfOk result (λ o. (slots : Slots) (memory : List ℕ) → state_of o slots memory ≡ with_slots (boot_area bits radix) slots) }
        ensures stands { IfOk result (λ o. (slots : Slots) (memory : List ℕ) → 2 ^ bits ≡ length memory → Standing o slots memory) }
    {
        let size = power(bits);
        Ok(Objects {
            bits,
            radix,
            held: Held::new(alloc, size)?,
            ready: ReadyList::new(),
            masked: quiet(),
            pending: quiet(),
        })
    }

    /// The boot CNode has 2^`radix` slots.
    pub(crate) fn own_radix(&self) -> u32
        ensures value { result ≡ self.now.radix }
        ensures most { result ≤ 14 }
    {
        self.radix
    }

    /// How many slots the object has that starts at an offset.
    pub(crate) fn count_slots(&self, offset: u32) -> u32
        ensures { (memory : List ℕ) (waiting : ℕ → List ℕ) → result ≡ slot_count (object_in (contents_of self.now memory) waiting offset) }
    {
        match self.held.get(offset) {
            Entry::Thread => 3,
            Entry::CNode { radix } => 1 << radix,
            Entry::Nothing
            | Entry::Endpoint
            | Entry::Notification
            | Entry::Frame
            | Entry::PageTable
            | Entry::RootTable => 0,
        }
    }

    /// Whether an object starts at an offset.
    fn is_there(&self, offset: u32) -> bool
        ensures { (memory : List ℕ) (waiting : ℕ → List ℕ) → result ≡ is_some (object_in (contents_of self.now memory) waiting offset) }
    {
        !matches!(self.held.get(offset), Entry::Nothing)
    }

    /// Whether the object at an offset is a thread.
    pub(crate) fn has_thread(&self, offset: u32) -> bool
        ensures { result ≡ is_thread_kind (kind_in self.now offset) }
    {
        self.held.has_thread(offset)
    }

    /// Whether the object at an offset is a frame.
    pub(crate) fn has_frame(&self, offset: u32) -> bool
        ensures { (memory : List ℕ) (waiting : ℕ → List ℕ) → result ≡ is_frame_object (object_in (contents_of self.now memory) waiting offset) }
    {
        matches!(self.held.get(offset), Entry::Frame)
    }

    /// Whether threads may wait at the object at an offset.
    pub(crate) fn has_queue(&self, offset: u32) -> bool
        ensures { result ≡ has_waiting (kind_in self.now offset) }
    {
        matches!(self.held.get(offset), Entry::Endpoint | Entry::Notification)
    }

    /// Whether a place lies in a frame.
    pub(crate) fn is_framed(&self, place: u32) -> bool
        ensures value { (memory : List ℕ) → result ≡ option_map_or is_frame ((contents_of self.now memory).records (frame_around place)) false }
        ensures inside { result ≡ true → place < 2 ^ self.now.bits }
    {
        let frame = place - place % PAGE_SIZE;
        matches!(self.held.get(frame), Entry::Frame)
    }

    /// How many bytes memory has, 2^24 at most. Frames lie in it.
    pub(crate) fn memory_size(&self) -> u32
        ensures value { result ≡ 2 ^ self.now.bits }
        ensures most { result ≤ 2 ^ 24 }
        ensures frames { (slots : Slots) (memory : List ℕ) (frame : ℕ) → IsFramed (state_of self.now slots memory) frame → frame + page_size ≤ result }
    {
        power(self.bits)
    }

    /// A thread leaves every queue and the ready list, and nobody has the right to reply to it any more.
    pub(crate) fn forget<S: SlotStore>(&mut self, store: &mut S, thread: u32)
        requires there { kind_in self.old thread ≡ Some NewThread }
        requires stands { Standing self.old (S.slots store.old) (S.memory store.old) }
        ensures state { state_of self.new (S.slots store.new) (S.memory store.new)
            ≡ leaves (state_of self.old (S.slots store.old) (S.memory store.old)) thread }
        ensures slots { S.slots store.new ≡ S.slots store.old }
        ensures bytes { SameBesideRecords (state_of self.old (S.slots store.old) (S.memory store.old)) (S.memory store.old) (S.memory store.new) }
        ensures order { S.order store.new ≡ S.order store.old }
        ensures stands { Standing self.new (S.slots store.new) (S.memory store.new) }
        ensures waits_not { (queue : ℕ) → times_in (waiting_of self.new (S.memory store.new) queue) thread ≡ 0 }
        ensures ready_not { (priority : ℕ) → times_in (ready_at self.new (S.memory store.new) priority) thread ≡ 0 }
        ensures rights_not { (holder : ℕ) → has_right (thread_in self.new (S.memory store.new) holder) thread ≡ false }
    {
        waiting::leave(&self.held, store, thread);
        self.ready.leave(&self.held, store, thread);
        void_rights(&self.held, store, thread);
    }

    /// If the object at an offset is a thread, it leaves what it waits for.
    pub(crate) fn forget_at<S: SlotStore>(&mut self, store: &mut S, offset: u32)
        requires stands { Standing self.old (S.slots store.old) (S.memory store.old) }
        ensures state { state_of self.new (S.slots store.new) (S.memory store.new)
            ≡ all_leave (state_of self.old (S.slots store.old) (S.memory store.old))
            (ends_thread (state_of self.old (S.slots store.old) (S.memory store.old)) offset) }
        ensures slots { S.slots store.new ≡ S.slots store.old }
        ensures bytes { SameBesideRecords (state_of self.old (S.slots store.old) (S.memory store.old)) (S.memory store.old) (S.memory store.new) }
        ensures order { S.order store.new ≡ S.order store.old }
        ensures stands { Standing self.new (S.slots store.new) (S.memory store.new) }
        ensures waits_not { (queue : ℕ) → times_in (waiting_of self.new (S.memory store.new) queue) offset ≡ 0 }
        ensures ready_not { (priority : ℕ) → times_in (ready_at self.new (S.memory store.new) priority) offset ≡ 0 }
        ensures rights_not { (holder : ℕ) → has_right (thread_in self.new (S.memory store.new) holder) offset ≡ false }
    {
        if self.has_thread(offset) {
            self.forget(store, offset);
        }
    }

    /// Nothing is at an offset any more. No thread that is there waits or is ready, and nobody may reply to it.
    pub(crate) fn vacate<S: SlotStore>(&mut self, store: &mut S, offset: u32)
        requires gone { HasLeft self.old (S.memory store.old) offset }
        requires stands { Standing self.old (S.slots store.old) (S.memory store.old) }
        ensures state { state_of self.new (S.slots store.new) (S.memory store.new)
            ≡ vacated (state_of self.old (S.slots store.old) (S.memory store.old)) offset }
        ensures slots { S.slots store.new ≡ S.slots store.old }
        ensures bytes { SameBesideRecords (state_of self.old (S.slots store.old) (S.memory store.old)) (S.memory store.old) (S.memory store.new) }
        ensures order { S.order store.new ≡ S.order store.old }
        ensures stands { Standing self.new (S.slots store.new) (S.memory store.new) }
    {
        waiting::end(&self.held, store, offset);
        self.held.clear(offset);
    }

    /// Makes a thread runnable that does not run: it goes to the tail of its priority, with a full slice.
    pub(crate) fn wake_at<S: SlotStore>(&mut self, store: &mut S, offset: u32)
        requires { IsThere self.old (S.slots store.old) (S.memory store.old) NewThread offset }
        ensures state { state_of self.new (S.slots store.new) (S.memory store.new)
            ≡ wake (state_of self.old (S.slots store.old) (S.memory store.old)) offset }
        ensures slots { S.slots store.new ≡ S.slots store.old }
        ensures bytes { SameBesideRecords (state_of self.old (S.slots store.old) (S.memory store.old)) (S.memory store.old) (S.memory store.new) }
        ensures order { S.order store.new ≡ S.order store.old }
        ensures stands { Standing self.new (S.slots store.new) (S.memory store.new) }
    {
        self.set_status_at(store, offset, Status::Runnable);
        self.set_slice_at(store, offset, FULL_SLICE);
        self.to_tail_at(store, offset);
    }

    /// Whether a thread waits at an object that is gone.
    #[tactic(auto, unfolding(crate::specs::Tables::state_of, crate::specs::Contents::told_by))]
    fn waits_nowhere(&self, status: Status) -> bool
        ensures { (slots : Slots) (memory : List ℕ) → result ≡ waits_nowhere (state_of self.now slots memory) (status_of status) }
    {
        match status {
            Status::Blocked { queue } => !self.is_there(queue),
            Status::Inactive | Status::Runnable | Status::AwaitsReply | Status::AwaitsHandler => {
                false
            }
        }
    }

    /// Whether the object at an offset is a thread that waits at an object that is gone.
    fn is_stranded<S: SlotStore>(&self, store: &S, offset: u32) -> bool
        requires { Standing self.now (S.slots store.now) (S.memory store.now) }
        ensures { result ≡ is_stranded (state_of self.now (S.slots store.now) (S.memory store.now)) offset }
    {
        self.has_thread(offset) && self.waits_nowhere(ThreadRecord::new(store, offset).status())
    }

    /// Wakes the thread at an offset, if one is there that waits at an object that is gone.
    #[tactic(auto, unfolding(crate::specs::Tables::state_of, crate::specs::Contents::told_by))]
    pub(crate) fn wake_if_stranded<S: SlotStore>(&mut self, store: &mut S, offset: u32)
        requires stands { Standing self.old (S.slots store.old) (S.memory store.old) }
        ensures state { state_of self.new (S.slots store.new) (S.memory store.new)
            ≡ (if is_stranded (state_of self.old (S.slots store.old) (S.memory store.old)) offset
            then wake (state_of self.old (S.slots store.old) (S.memory store.old)) offset else (state_of self.old (S.slots store.old) (S.memory store.old))) }
        ensures slots { S.slots store.new ≡ S.slots store.old }
        ensures bytes { SameBesideRecords (state_of self.old (S.slots store.old) (S.memory store.old)) (S.memory store.old) (S.memory store.new) }
        ensures order { S.order store.new ≡ S.order store.old }
        ensures stands { Standing self.new (S.slots store.new) (S.memory store.new) }
    {
        if self.is_stranded(store, offset) {
            self.wake_at(store, offset);
        }
    }

    /// How many places there are where a thread may start.
    pub(crate) fn count_places(&self) -> u32
        ensures value { 512 * result ≡ 2 ^ self.now.bits }
        ensures most { result ≤ 2 ^ 15 }
    {
        self.held.count_threads()
    }
}

/// 2^`bits`, in bytes.
fn power(bits: u32) -> u32
    requires { bits ≤ 24 }
    ensures value { result ≡ 2 ^ bits }
    ensures most { result ≤ 2 ^ 24 }
{
    1 << bits
}

/// No line is masked or pending.
fn quiet() -> [bool; 64]
    ensures { result ≡ replicate 64 false }
{
    [false; 64]
}
