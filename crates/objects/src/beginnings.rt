//! What the bytes of a new object hold.

ghost use Rattle.std.specs.Prelude.{ℕ, ◌≡◌, ◌+◌, ◌^◌, ◌<◌, ◌≤◌, Some, None, length};
ghost use Rattle.model.specs.Capabilities.Slots.{OutsideSlots};
ghost use Rattle.queues.specs.Words.{end_at};
ghost use Rattle.model.specs.Shared.Bytes.{word_at};
ghost use Rattle.objects.specs.Laid.{BegunAt, IsRoomAt, SameBesidePoint};
ghost use Rattle.model.specs.declared.object_types.ObjectKind.TheVariants.{Thread};

use crate::rights::put_replier;
use crate::thread_records;
use model::ObjectKind;
use queues::{begin_head, begin_thread};
use slots::SlotStore;

/// How far into a notification its word lies.
pub(crate) const WORD: u32 = 8;

/// A new object comes at an offset, with nobody linked there.
pub(crate) fn begin_bytes<S: SlotStore>(store: &mut S, offset: u32, kind: ObjectKind)
    requires { IsRoomAt kind (S.slots store.old) (length (S.memory store.old)) offset }
    ensures bytes { BegunAt kind offset (S.memory store.old) (S.memory store.new) }
    ensures slots { S.slots store.new ≡ S.slots store.old }
    ensures order { S.order store.new ≡ S.order store.old }
{
    match kind {
        ObjectKind::Thread => begin_thread_bytes(store, offset),
        ObjectKind::Endpoint => begin_point(store, offset),
        ObjectKind::Notification => begin_point(store, offset),
        ObjectKind::CNode { .. }
        | ObjectKind::Frame
        | ObjectKind::PageTable
        | ObjectKind::RootTable => {}
    }
}

/// A new thread begins that is in no queue and to which nobody may reply.
fn begin_thread_bytes<S: SlotStore>(store: &mut S, offset: u32)
    requires { IsRoomAt Thread (S.slots store.old) (length (S.memory store.old)) offset }
    ensures bytes { BegunAt Thread offset (S.memory store.old) (S.memory store.new) }
    ensures slots { S.slots store.new ≡ S.slots store.old }
    ensures order { S.order store.new ≡ S.order store.old }
{
    begin_thread(store, offset);
    thread_records::begin_thread(store, offset);
    put_replier(store, offset, Some(0));
}

/// An object begins at which nobody waits, and whose word is 0.
fn begin_point<S: SlotStore>(store: &mut S, offset: u32)
    requires few { length (S.memory store.old) ≤ 2 ^ 24 }
    requires within { offset + 16 ≤ length (S.memory store.old) }
    requires outside { OutsideSlots (S.slots store.old) offset 16 }
    ensures bytes { SameBesidePoint offset (S.memory store.old) (S.memory store.new) }
    ensures unwaited { (number : ℕ) → number < 2 → end_at (S.memory store.new) offset number ≡ None }
    ensures word { word_at (S.memory store.new) (offset + 8) ≡ 0 }
    ensures slots { S.slots store.new ≡ S.slots store.old }
    ensures order { S.order store.new ≡ S.order store.old }
{
    begin_head(store, offset);
    store.write32(offset + WORD, 0);
}
