//! The calls on objects, which are lent the store beside which these are kept: a form that keeps its records in
//! the machine's bytes has the same.

ghost use Rattle.std.specs.Prelude.{ℕ, ◌≡◌, ◌↔◌, ◌^◌, ◌≤◌, [], List, None, false, is_some, length};
ghost use Rattle.model.specs.Capabilities.Slots.{Slots};
ghost use Rattle.model.specs.Kernel.Kinds.{kind_of};
ghost use Rattle.model.specs.Kernel.Removal.{slot_count};
ghost use Rattle.model.specs.Kernel.Setup.{is_frame_object};
ghost use Rattle.model.specs.Kernel.Soundness.{waiting_at};
ghost use Rattle.model.specs.Kernel.State.{as_thread, binding_slot};
ghost use Rattle.objects.specs.Changes.{MayStand, begun};
ghost use Rattle.objects.specs.Frames.{IsRoom, SameBesideObjects};
ghost use Rattle.objects.specs.Standing.{Standing};
ghost use Rattle.objects.specs.Tables.{state_of};
ghost use Rattle.model.specs.Kernel.ObjectTypes.{new_object};
ghost use Rattle.removal_laws.specs.Finishing.{woken};
ghost use Rattle.removal_laws.specs.Steps.{object_ended};

use crate::beginnings::begin_bytes;
use crate::held::{THREAD_SIZE, entry_of};
use crate::interrupt_lines::Line;
use crate::tables::Objects;
use model::{ObjectKind, Slot};
use slots::SlotStore;

impl Objects {
    /// The slot of the interrupt table that holds what a line signals.
    #[tactic(auto, unfolding(crate::specs::Tables::state_of, crate::specs::Contents::told_by))]
    pub fn binding(&self, line: Line) -> Slot
        ensures { (slots : Slots) (memory : List ℕ) → result ≡ binding_slot (state_of self.now slots memory) line }
    {
        Slot::new((1 << self.radix) + u32::from(line.number()))
    }

    /// The boot CNode has 2^`radix` slots.
    #[tactic(auto, unfolding(crate::specs::Tables::state_of, crate::specs::Contents::told_by))]
    pub fn boot_radix(&self) -> u32
        ensures value { (slots : Slots) (memory : List ℕ) → result ≡ (state_of self.now slots memory).boot_radix }
        ensures most { result ≤ 14 }
    {
        self.own_radix()
    }

    /// How many slots the object has that starts at an offset: none, where there is no object.
    #[tactic(auto, unfolding(crate::specs::Tables::state_of, crate::specs::Contents::told_by))]
    pub fn slots_of<S: SlotStore>(&self, store: &S, offset: u32) -> u32
        ensures { result ≡ slot_count ((state_of self.now (S.slots store.now) (S.memory store.now)).objects offset) }
    {
        self.count_slots(offset)
    }

    /// Whether the object at an offset is a thread.
    #[tactic(auto, unfolding(crate::specs::Tables::state_of, crate::specs::Contents::told_by))]
    pub fn is_thread<S: SlotStore>(&self, store: &S, offset: u32) -> bool
        ensures { result ≡ is_some (as_thread ((state_of self.now (S.slots store.now) (S.memory store.now)).objects offset)) }
    {
        self.has_thread(offset)
    }

    /// Whether the object at an offset is a frame.
    #[tactic(auto, unfolding(crate::specs::Tables::state_of, crate::specs::Contents::told_by))]
    pub fn is_frame<S: SlotStore>(&self, store: &S, offset: u32) -> bool
        ensures { result ≡ is_frame_object ((state_of self.now (S.slots store.now) (S.memory store.now)).objects offset) }
    {
        self.has_frame(offset)
    }

    /// The byte at a place in memory, if a frame is there.
    #[tactic(auto, unfolding(crate::specs::Tables::state_of, crate::specs::Contents::told_by))]
    pub fn byte<S: SlotStore>(&self, store: &S, place: u32) -> Option<u8>
        requires size { 2 ^ (state_of self.now (S.slots store.now) (S.memory store.now)).memory_bits ≡ length (S.memory store.now) }
        ensures { result ≡ (state_of self.now (S.slots store.now) (S.memory store.now)).bytes place }
    {
        if self.is_framed(place) {
            Some(store.mem().read8(place))
        } else {
            None
        }
    }

    /// Whether a thread waits at the object at an offset.
    #[tactic(auto, unfolding(crate::specs::Tables::state_of, crate::specs::Contents::told_by))]
    pub fn is_waited_at<S: SlotStore>(&self, store: &S, offset: u32) -> bool
        requires { Standing self.now (S.slots store.now) (S.memory store.now) }
        ensures { (result ≡ false) ↔ (waiting_at ((state_of self.now (S.slots store.now) (S.memory store.now)).objects offset) ≡ []) }
    {
        self.has_queue(offset) && self.first_waiting(store, offset).is_some()
    }

    /// The object at an offset ends, if there is one: a thread leaves every queue, and the rights to reply
    /// to it are void.
    pub fn end<S: SlotStore>(&mut self, store: &mut S, offset: u32)
        requires stands { Standing self.old (S.slots store.old) (S.memory store.old) }
        ensures state { state_of self.new (S.slots store.new) (S.memory store.new)
            ≡ object_ended (state_of self.old (S.slots store.old) (S.memory store.old)) offset }
        ensures slots { S.slots store.new ≡ S.slots store.old }
        ensures bytes { SameBesideObjects (state_of self.old (S.slots store.old) (S.memory store.old)) (S.memory store.old) (S.memory store.new) }
        ensures order { S.order store.new ≡ S.order store.old }
        ensures stands { Standing self.new (S.slots store.new) (S.memory store.new) }
    {
        self.forget_at(store, offset);
        self.vacate(store, offset);
    }

    /// A new object comes at an offset where nothing is. What memory holds there are the bytes of a frame.
    #[tactic(auto, unfolding(crate::specs::Tables::state_of, crate::specs::Contents::told_by))]
    pub fn begin<S: SlotStore>(&mut self, store: &mut S, offset: u32, kind: ObjectKind)
        requires free { (state_of self.old (S.slots store.old) (S.memory store.old)).objects offset ≡ None }
        requires fits { MayStand (state_of self.old (S.slots store.old) (S.memory store.old)).memory_bits kind offset }
        requires room { IsRoom (state_of self.old (S.slots store.old) (S.memory store.old)) (kind_of (new_object kind)) offset }
        requires stands { Standing self.old (S.slots store.old) (S.memory store.old) }
        ensures state { state_of self.new (S.slots store.new) (S.memory store.new)
            ≡ begun (state_of self.old (S.slots store.old) (S.memory store.old)) (S.memory store.old) kind offset }
        ensures slots { S.slots store.new ≡ S.slots store.old }
        ensures bytes { SameBesideObjects (state_of self.new (S.slots store.new) (S.memory store.new)) (S.memory store.old) (S.memory store.new) }
        ensures order { S.order store.new ≡ S.order store.old }
        ensures stands { Standing self.new (S.slots store.new) (S.memory store.new) }
    {
        self.held.put(offset, entry_of(kind));
        begin_bytes(store, offset, kind);
    }

    /// Threads that wait at objects that are gone run again, in rising order of their offsets.
    pub fn wake_stranded<S: SlotStore>(&mut self, store: &mut S)
        requires stands { Standing self.old (S.slots store.old) (S.memory store.old) }
        ensures state { state_of self.new (S.slots store.new) (S.memory store.new)
            ≡ woken (state_of self.old (S.slots store.old) (S.memory store.old)) }
        ensures slots { S.slots store.new ≡ S.slots store.old }
        ensures bytes { SameBesideObjects (state_of self.old (S.slots store.old) (S.memory store.old)) (S.memory store.old) (S.memory store.new) }
        ensures order { S.order store.new ≡ S.order store.old }
        ensures stands { Standing self.new (S.slots store.new) (S.memory store.new) }
    {
        let count = self.count_places();
        'places: for number in 0..count {
            self.wake_if_stranded(store, THREAD_SIZE * number);
        }
    }
}
