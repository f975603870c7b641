//! Those that wait at objects: an object keeps the first and the last of them in two words of its own bytes, and each
//! thread its queue, the next and the previous thread at 244, 248 and 252.

ghost use Rattle.std.specs.Prelude.{ℕ, ◌≡◌, ◌<◌, [], ◌∷◌, ◌++◌, List, drop, true, is_some, length};
ghost use Rattle.model.specs.Kernel.Scheduling.{head_of};
ghost use Rattle.model.specs.Kernel.State.{put};
ghost use Rattle.model.specs.Shared.Lists.{times_in, without};
ghost use Rattle.queues.specs.Layout.{AreLaidOut};
ghost use Rattle.queues.specs.Queues.{QueuesStand, SameBesideWaiting, queue_of};

use crate::layout::Layout;
use crate::linking::{link_last, queue_of_thread, unlink};
use crate::words::{LinkWords, put_ends, read_ends};
use slots::SlotStore;

/// The first thread of a queue.
pub fn first<S: SlotStore, L: Layout>(layout: &L, store: &S, queue: u32) -> Option<u32>
    requires { AreLaidOut (L.places layout.now) (S.slots store.now) (length (S.memory store.now)) }
    ensures { result ≡ head_of (queue_of (L.places layout.now) (S.memory store.now) queue) }
{
    match layout.head(queue) {
        Some(head) => read_ends(store, head).first,
        None => None,
    }
}

/// Puts a thread that is in no queue after all others of this queue.
pub fn push<S: SlotStore, L: Layout>(layout: &L, store: &mut S, queue: u32, thread: u32)
    requires laid { AreLaidOut (L.places layout.now) (S.slots store.old) (length (S.memory store.old)) }
    requires stands { QueuesStand (L.places layout.now) (S.memory store.old) }
    requires apart { (other : ℕ) → times_in (queue_of (L.places layout.now) (S.memory store.old) other) thread ≡ 0 }
    requires there { (L.places layout.now).threads thread ≡ true }
    requires waited { is_some ((L.places layout.now).heads queue) ≡ true }
    ensures queues { (other : ℕ) → queue_of (L.places layout.now) (S.memory store.new) other
        ≡ put (queue_of (L.places layout.now) (S.memory store.old)) queue (queue_of (L.places layout.now) (S.memory store.old) queue ++ thread ∷ []) other }
    ensures stands { QueuesStand (L.places layout.now) (S.memory store.new) }
    ensures slots { S.slots store.new ≡ S.slots store.old }
    ensures bytes { SameBesideWaiting (L.places layout.now) (queue_of (L.places layout.now) (S.memory store.new)) (S.memory store.old) (S.memory store.new) }
    ensures order { S.order store.new ≡ S.order store.old }
{
    if let Some(head) = layout.head(queue) {
        let before = read_ends(store, head);
        let behind = link_last(store, LinkWords::Waiting, before, queue, thread);
        put_ends(store, head, behind);
    }
}

/// Takes a thread out of its queue, if it is in one.
pub fn leave<S: SlotStore, L: Layout>(layout: &L, store: &mut S, thread: u32)
    requires laid { AreLaidOut (L.places layout.now) (S.slots store.old) (length (S.memory store.old)) }
    requires stands { QueuesStand (L.places layout.now) (S.memory store.old) }
    ensures queues { (other : ℕ) → queue_of (L.places layout.now) (S.memory store.new) other
        ≡ without thread (queue_of (L.places layout.now) (S.memory store.old) other) }
    ensures stands { QueuesStand (L.places layout.now) (S.memory store.new) }
    ensures slots { S.slots store.new ≡ S.slots store.old }
    ensures bytes { SameBesideWaiting (L.places layout.now) (queue_of (L.places layout.now) (S.memory store.old)) (S.memory store.old) (S.memory store.new) }
    ensures order { S.order store.new ≡ S.order store.old }
{
    let Some(queue) = queue_of_thread(layout, store, LinkWords::Waiting, thread) else {
        return;
    };
    if let Some(head) = layout.head(queue) {
        let before = read_ends(store, head);
        let behind = unlink(store, LinkWords::Waiting, before, thread);
        put_ends(store, head, behind);
    }
}

/// Takes the first thread out of a queue.
pub fn pop<S: SlotStore, L: Layout>(layout: &L, store: &mut S, queue: u32) -> Option<u32>
    requires laid { AreLaidOut (L.places layout.now) (S.slots store.old) (length (S.memory store.old)) }
    requires stands { QueuesStand (L.places layout.now) (S.memory store.old) }
    ensures first { result ≡ head_of (queue_of (L.places layout.now) (S.memory store.old) queue) }
    ensures queues { (other : ℕ) → queue_of (L.places layout.now) (S.memory store.new) other
        ≡ put (queue_of (L.places layout.now) (S.memory store.old)) queue (drop 1 (queue_of (L.places layout.now) (S.memory store.old) queue)) other }
    ensures stands { QueuesStand (L.places layout.now) (S.memory store.new) }
    ensures slots { S.slots store.new ≡ S.slots store.old }
    ensures bytes { SameBesideWaiting (L.places layout.now) (queue_of (L.places layout.now) (S.memory store.old)) (S.memory store.old) (S.memory store.new) }
    ensures order { S.order store.new ≡ S.order store.old }
{
    let thread = first(layout, store, queue)?;
    leave(layout, store, thread);
    Some(thread)
}

/// Takes all threads out of a queue.
pub fn end<S: SlotStore, L: Layout>(layout: &L, store: &mut S, queue: u32)
    requires laid { AreLaidOut (L.places layout.now) (S.slots store.old) (length (S.memory store.old)) }
    requires stands { QueuesStand (L.places layout.now) (S.memory store.old) }
    ensures queues { (other : ℕ) → queue_of (L.places layout.now) (S.memory store.new) other
        ≡ put (queue_of (L.places layout.now) (S.memory store.old)) queue [] other }
    ensures stands { QueuesStand (L.places layout.now) (S.memory store.new) }
    ensures slots { S.slots store.new ≡ S.slots store.old }
    ensures bytes { SameBesideWaiting (L.places layout.now) (queue_of (L.places layout.now) (S.memory store.old)) (S.memory store.old) (S.memory store.new) }
    ensures order { S.order store.new ≡ S.order store.old }
{
    'threads: while let Some(thread) = first(layout, store, queue) {
        leave(layout, store, thread);
    }
}
