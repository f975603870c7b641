//! Making one new object: its slots or its page, its place in the tables, and its first capability.

ghost use Rattle.std.specs.Prelude.{ℕ, ◌≡◌, ◌+◌, ◌*◌, ◌/◌, ◌%◌, ◌^◌, ◌<◌, ◌≤◌, Some, None, true, length};
ghost use Rattle.kernel_invariant.specs.Growing.{Growing, one_placed};
ghost use Rattle.kernel_invariant.specs.Rooms.{RoomMade};
ghost use Rattle.model.specs.Kernel.ObjectTypes.{new_type};
ghost use Rattle.model.specs.Capabilities.Slots.{IsFull, OutsideSlots, SameOutside, depth_of, empty_entry, opened};
ghost use Rattle.model.specs.Kernel.Retype.{is_large_enough, is_small_enough, object_bits};
ghost use Rattle.cnode_ops.specs.object_lifetimes.Beginnings.{NoneNamed, with_begun};
ghost use Rattle.objects.specs.Frames.{IsRoom, SameBesideObjects};
ghost use Rattle.objects.specs.Standing.{Standing};
ghost use Rattle.objects.specs.Tables.{state_of};
ghost use Rattle.slots.specs.Kin.{object_at};

use model::{ObjectKind, ObjectType, Slot};
use objects::Objects;
use slots::SlotStore;

/// How many bytes a page has.
const PAGE_SIZE: u32 = 4096;

/// How many slots a thread has.
const THREAD_SLOTS: u32 = 3;

/// Where an object of a type is to begin: at a multiple of its size, which the type may have, in the largest memory.
#[derive(Clone, Copy)]
pub(crate) struct ObjectPlace {
    pub(crate) kind: ObjectType,
    pub(crate) place: u32,
    ghost near: { place < 2 ^ 24 },
    ghost aligned: { place % 2 ^ object_bits (new_type kind) ≡ 0 },
    ghost large: { is_large_enough (new_type kind) ≡ true },
    ghost small: { is_small_enough (new_type kind) ≡ true },
}

/// Opens the slots of a new object.
fn open_slots<S: SlotStore>(store: &mut S, new: ObjectPlace, count: u32)
    requires within { new.place + 16 * count ≤ length (S.memory store.old) }
    requires closed { OutsideSlots (S.slots store.old) new.place (16 * count) }
    ensures slots { S.slots store.new ≡ opened (S.slots store.old) (new.place / 16) count }
    ensures bytes { SameOutside (S.slots store.new) (S.memory store.old) (S.memory store.new) }
{
    store.open_range(Slot::new(new.place / 16), count);
}

/// How many slots a CNode has.
fn node_slots(radix: u8) -> u32
    requires { radix ≤ 14 }
    ensures value { result ≡ 2 ^ radix }
    ensures most { result ≤ 2 ^ 14 }
{
    1 << radix
}

/// Makes room for whatever Retype makes: an object's slots are open and empty, or its page is zero. Untyped memory needs none.
fn make_room<S: SlotStore>(store: &mut S, new: ObjectPlace)
    requires within { new.place + 2 ^ object_bits (new_type new.kind) ≤ length (S.memory store.old) }
    requires closed { OutsideSlots (S.slots store.old) new.place (2 ^ object_bits (new_type new.kind)) }
    ensures { RoomMade (S.slots store.old) (S.slots store.new) (S.memory store.old) (S.memory store.new) (new_type new.kind) new.place }
{
    let ObjectType::Object(kind) = new.kind else {
        return;
    };
    match kind {
        ObjectKind::Thread => open_slots(store, new, THREAD_SLOTS),
        ObjectKind::CNode { radix } => open_slots(store, new, node_slots(radix)),
        ObjectKind::Frame => store.zero(new.place, PAGE_SIZE),
        ObjectKind::PageTable => store.zero(new.place, PAGE_SIZE),
        ObjectKind::RootTable => store.zero(new.place, PAGE_SIZE),
        ObjectKind::Endpoint | ObjectKind::Notification => {}
    }
}

/// The object begins in the tables; untyped memory is no object.
fn begin_object<S: SlotStore>(objects: &mut Objects, store: &mut S, new: ObjectPlace)
    requires free { (state_of objects.old (S.slots store.old) (S.memory store.old)).objects new.place ≡ None }
    requires near { new.place < 2 ^ (state_of objects.old (S.slots store.old) (S.memory store.old)).memory_bits }
    requires room { IsRoom (state_of objects.old (S.slots store.old) (S.memory store.old)) (new_type new.kind) new.place }
    requires stands { Standing objects.old (S.slots store.old) (S.memory store.old) }
    ensures state { state_of objects.new (S.slots store.new) (S.memory store.new)
        ≡ with_begun (state_of objects.old (S.slots store.old) (S.memory store.old)) (S.memory store.old) new.kind new.place }
    ensures slots { S.slots store.new ≡ S.slots store.old }
    ensures bytes { SameBesideObjects (state_of objects.new (S.slots store.new) (S.memory store.new)) (S.memory store.old) (S.memory store.new) }
    ensures stands { Standing objects.new (S.slots store.new) (S.memory store.new) }
{
    if let ObjectType::Object(kind) = new.kind {
        objects.begin(store, new.place, kind);
    }
}

/// Makes one object where nothing is, with its first capability in an empty slot, derived from `parent`.
pub(crate) fn make_one<S: SlotStore>(
    objects: &mut Objects,
    store: &mut S,
    new: ObjectPlace,
    slot: Slot,
    parent: Slot,
)
    requires growing { Growing (state_of objects.old (S.slots store.old) (S.memory store.old)) (S.memory store.old) new.place
        (new.place + 2 ^ object_bits (new_type new.kind)) }
    requires unnamed { NoneNamed (S.slots store.old) new.place (new.place + 2 ^ object_bits (new_type new.kind)) }
    requires empty { S.slots store.old slot ≡ Some empty_entry }
    requires full { IsFull (S.slots store.old) parent }
    requires nameless { object_at (S.slots store.old) parent ≡ None }
    requires room { depth_of (S.slots store.old) parent < 255 }
    requires stands { Standing objects.old (S.slots store.old) (S.memory store.old) }
    ensures state { state_of objects.new (S.slots store.new) (S.memory store.new)
        ≡ one_placed (state_of objects.old (S.slots store.old) (S.memory store.old)) (new_type new.kind) new.place slot parent }
    ensures growing { (to : ℕ) → Growing (state_of objects.old (S.slots store.old) (S.memory store.old)) (S.memory store.old) new.place to
        → new.place + 2 ^ object_bits (new_type new.kind) ≤ to
        → Growing (state_of objects.new (S.slots store.new) (S.memory store.new)) (S.memory store.new)
        (new.place + 2 ^ object_bits (new_type new.kind)) to }
    ensures stands { Standing objects.new (S.slots store.new) (S.memory store.new) }
{
    make_room(store, new);
    begin_object(objects, store, new);
    store.insert(slot, new.kind.first_capability(new.place), Some(parent));
}
