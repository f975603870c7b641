//! Threads linked in both directions, with the first and the last one of their queue at hand.

ghost use Rattle.std.specs.Prelude.{ℕ, ◌≡◌, None, Some, length};
ghost use Rattle.std.specs.Option.{ForSome};
ghost use Rattle.queues.specs.links.Threaded.{end_without, first_joined};
ghost use Rattle.queues.specs.Layout.{AreLaidOut, IsHeadAt, IsThreadAt};
ghost use Rattle.queues.specs.Words.{base_of, link_at, link_in, linked_last, taken_between, taken_out, with_ends, without_links};

use crate::layout::Layout;
use crate::words::{Ends, LinkWords, link, put_ends, put_link, put_link_at, word_of};
use slots::SlotStore;

/// The words of a thread's links, by their numbers.
const QUEUE: u32 = 0;

const NEXT: u32 = 1;

const PREVIOUS: u32 = 2;

/// The queue in which a thread is, if it is in one.
pub(crate) fn queue_of_thread<S: SlotStore, L: Layout>(
    layout: &L,
    store: &S,
    links: LinkWords,
    thread: u32,
) -> Option<u32>
    requires { AreLaidOut (L.places layout.now) (S.slots store.now) (length (S.memory store.now)) }
    ensures { result ≡ link_in (base_of links) (L.places layout.now).threads (S.memory store.now) 0 thread }
{
    if layout.is_thread(thread) {
        link(store, links, thread, QUEUE)
    } else {
        None
    }
}

/// Links a thread after the last one of a queue, and answers the ends that the queue then has.
pub(crate) fn link_last<S: SlotStore>(
    store: &mut S,
    links: LinkWords,
    ends: Ends,
    queue: u32,
    thread: u32,
) -> Ends
    requires there { IsThreadAt (S.slots store.old) (length (S.memory store.old)) thread }
    requires behind { ForSome ends.last (IsThreadAt (S.slots store.old) (length (S.memory store.old))) }
    ensures bytes { S.memory store.new ≡ linked_last (base_of links) (S.memory store.old) ends.last queue thread }
    ensures ends { result ≡ record { first = first_joined ends.first thread; last = Some thread } }
    ensures slots { S.slots store.new ≡ S.slots store.old }
    ensures order { S.order store.new ≡ S.order store.old }
    ensures size { length (S.memory store.new) ≡ length (S.memory store.old) }
{
    put_link(store, links, thread, QUEUE, word_of(Some(queue)));
    put_link(store, links, thread, NEXT, 0);
    put_link(store, links, thread, PREVIOUS, word_of(ends.last));
    put_link_at(store, links, ends.last, NEXT, word_of(Some(thread)));
    Ends {
        first: Some(ends.first.unwrap_or(thread)),
        last: Some(thread),
    }
}

/// Takes a thread out from between its neighbours, and answers the ends that its queue then has.
pub(crate) fn unlink<S: SlotStore>(store: &mut S, links: LinkWords, ends: Ends, thread: u32) -> Ends
    requires there { IsThreadAt (S.slots store.old) (length (S.memory store.old)) thread }
    requires behind { ForSome (link_at (base_of links) (S.memory store.old) thread 1) (IsThreadAt (S.slots store.old) (length (S.memory store.old))) }
    requires before { ForSome (link_at (base_of links) (S.memory store.old) thread 2) (IsThreadAt (S.slots store.old) (length (S.memory store.old))) }
    ensures bytes { S.memory store.new ≡ taken_out (base_of links) (S.memory store.old) thread }
    ensures ends { result ≡ record {
      first = end_without (link_at (base_of links) (S.memory store.old) thread 2) (link_at (base_of links) (S.memory store.old) thread 1) ends.first;
      last = end_without (link_at (base_of links) (S.memory store.old) thread 1) (link_at (base_of links) (S.memory store.old) thread 2) ends.last;
    } }
    ensures slots { S.slots store.new ≡ S.slots store.old }
    ensures order { S.order store.new ≡ S.order store.old }
    ensures size { length (S.memory store.new) ≡ length (S.memory store.old) }
{
    let after = link(store, links, thread, NEXT);
    let before = link(store, links, thread, PREVIOUS);
    part(store, links, thread, before, after);
    Ends {
        first: end_without(before, after, ends.first),
        last: end_without(after, before, ends.last),
    }
}

/// Takes a thread out from between these two.
fn part<S: SlotStore>(
    store: &mut S,
    links: LinkWords,
    thread: u32,
    before: Option<u32>,
    after: Option<u32>,
)
    requires there { IsThreadAt (S.slots store.old) (length (S.memory store.old)) thread }
    requires behind { ForSome after (IsThreadAt (S.slots store.old) (length (S.memory store.old))) }
    requires before { ForSome before (IsThreadAt (S.slots store.old) (length (S.memory store.old))) }
    ensures bytes { S.memory store.new ≡ taken_between (base_of links) (S.memory store.old) thread before after }
    ensures slots { S.slots store.new ≡ S.slots store.old }
    ensures order { S.order store.new ≡ S.order store.old }
    ensures size { length (S.memory store.new) ≡ length (S.memory store.old) }
{
    put_link(store, links, thread, QUEUE, 0);
    put_link_at(store, links, before, NEXT, word_of(after));
    put_link_at(store, links, after, PREVIOUS, word_of(before));
}

/// The end of a queue without a thread that has one neighbour towards that end, and another away from it.
fn end_without(towards: Option<u32>, away: Option<u32>, end: Option<u32>) -> Option<u32>
    ensures { result ≡ end_without towards away end }
{
    match towards {
        None => away,
        Some(_) => end,
    }
}

/// A thread begins that is in no queue and is not ready.
pub fn begin_thread<S: SlotStore>(store: &mut S, thread: u32)
    requires { IsThreadAt (S.slots store.old) (length (S.memory store.old)) thread }
    ensures bytes { S.memory store.new ≡ without_links (S.memory store.old) thread }
    ensures slots { S.slots store.new ≡ S.slots store.old }
    ensures order { S.order store.new ≡ S.order store.old }
{
    put_link(store, LinkWords::Waiting, thread, QUEUE, 0);
    put_link(store, LinkWords::Ready, thread, QUEUE, 0);
}

/// An object begins at which nobody waits.
pub fn begin_head<S: SlotStore>(store: &mut S, head: u32)
    requires { IsHeadAt (S.slots store.old) (length (S.memory store.old)) head }
    ensures bytes { S.memory store.new ≡ with_ends (S.memory store.old) head (record { first = None; last = None }) }
    ensures slots { S.slots store.new ≡ S.slots store.old }
    ensures order { S.order store.new ≡ S.order store.old }
{
    let nobody = Ends {
        first: None,
        last: None,
    };
    put_ends(store, head, nobody);
}
