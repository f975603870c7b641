//! The words of links in memory: one more than the offset or the number that they name; 0 is nobody.

ghost use Rattle.std.specs.Prelude.{ℕ, ◌≡◌, ◌+◌, ◌*◌, ◌<◌, ◌≤◌, Some, length};
ghost use Rattle.std.specs.Option.{ForSome};
ghost use Rattle.queues.specs.Layout.{IsHeadAt, IsThreadAt};
ghost use Rattle.queues.specs.Words.{base_of, end_at, ends_at, link_at, somebody, with_end, with_ends, with_link, with_link_at, word_of};

use slots::SlotStore;

/// Which links of a thread: those among the threads that wait, or among those that are ready.
#[derive(Clone, Copy)]
pub enum LinkWords {
    Waiting,
    Ready,
}

/// The first and the last thread of a queue.
#[derive(Clone, Copy)]
pub struct Ends {
    pub first: Option<u32>,
    pub last: Option<u32>,
}

impl LinkWords {
    /// How many bytes into a thread these links begin.
    fn base(self) -> u32
        ensures value { result ≡ base_of self }
        ensures least { 244 ≤ result }
        ensures most { result ≤ 256 }
    {
        match self {
            LinkWords::Waiting => 244,
            LinkWords::Ready => 256,
        }
    }
}

/// Who is named by a word.
fn somebody(word: u32) -> Option<u32>
    ensures { result ≡ somebody word }
{
    if word == 0 { None } else { Some(word - 1) }
}

/// The word that names a thread or a queue. Offsets lie in memory, so nothing wraps.
pub(crate) fn word_of(named: Option<u32>) -> u32
    ensures { result ≡ word_of named }
{
    match named {
        Some(offset) => offset.wrapping_add(1),
        None => 0,
    }
}

/// One of the links of a thread: 0 its queue, 1 the next thread, 2 the previous one.
pub(crate) fn link<S: SlotStore>(
    store: &S,
    links: LinkWords,
    thread: u32,
    number: u32,
) -> Option<u32>
    requires there { IsThreadAt (S.slots store.now) (length (S.memory store.now)) thread }
    requires small { number < 3 }
    ensures { result ≡ link_at (base_of links) (S.memory store.now) thread number }
{
    somebody(store.mem().read32(thread + (links.base() + 4 * number)))
}

/// Writes one of the links of a thread.
pub(crate) fn put_link<S: SlotStore>(
    store: &mut S,
    links: LinkWords,
    thread: u32,
    number: u32,
    word: u32,
)
    requires there { IsThreadAt (S.slots store.old) (length (S.memory store.old)) thread }
    requires small { number < 3 }
    ensures bytes { S.memory store.new ≡ with_link (base_of links) (S.memory store.old) thread number word }
    ensures slots { S.slots store.new ≡ S.slots store.old }
    ensures order { S.order store.new ≡ S.order store.old }
    ensures size { length (S.memory store.new) ≡ length (S.memory store.old) }
    ensures threads { (other : ℕ) → IsThreadAt (S.slots store.old) (length (S.memory store.old)) other
        → IsThreadAt (S.slots store.new) (length (S.memory store.new)) other }
{
    store.write32(thread + (links.base() + 4 * number), word);
}

/// Writes one of the links of a thread, if there is one.
pub(crate) fn put_link_at<S: SlotStore>(
    store: &mut S,
    links: LinkWords,
    thread: Option<u32>,
    number: u32,
    word: u32,
)
    requires there { ForSome thread (IsThreadAt (S.slots store.old) (length (S.memory store.old))) }
    requires small { number < 3 }
    ensures bytes { S.memory store.new ≡ with_link_at (base_of links) (S.memory store.old) thread number word }
    ensures slots { S.slots store.new ≡ S.slots store.old }
    ensures order { S.order store.new ≡ S.order store.old }
    ensures size { length (S.memory store.new) ≡ length (S.memory store.old) }
    ensures threads { (other : ℕ) → IsThreadAt (S.slots store.old) (length (S.memory store.old)) other
        → IsThreadAt (S.slots store.new) (length (S.memory store.new)) other }
{
    if let Some(offset) = thread {
        put_link(store, links, offset, number, word);
    }
}

/// The first and the last of those that wait, from where an object keeps them.
pub(crate) fn read_ends<S: SlotStore>(store: &S, head: u32) -> Ends
    requires { IsHeadAt (S.slots store.now) (length (S.memory store.now)) head }
    ensures { result ≡ ends_at (S.memory store.now) head }
{
    let memory = store.mem();
    Ends {
        first: somebody(memory.read32(head)),
        last: somebody(memory.read32(head + 4)),
    }
}

/// Writes the first or the last of those that wait.
fn put_end<S: SlotStore>(store: &mut S, head: u32, number: u32, word: u32)
    requires there { IsHeadAt (S.slots store.old) (length (S.memory store.old)) head }
    requires small { number < 2 }
    ensures bytes { S.memory store.new ≡ with_end (S.memory store.old) head number word }
    ensures slots { S.slots store.new ≡ S.slots store.old }
    ensures order { S.order store.new ≡ S.order store.old }
    ensures there { IsHeadAt (S.slots store.new) (length (S.memory store.new)) head }
{
    store.write32(head + 4 * number, word);
}

/// Writes the first and the last of those that wait to where an object keeps them.
pub(crate) fn put_ends<S: SlotStore>(store: &mut S, head: u32, ends: Ends)
    requires { IsHeadAt (S.slots store.old) (length (S.memory store.old)) head }
    ensures bytes { S.memory store.new ≡ with_ends (S.memory store.old) head ends }
    ensures slots { S.slots store.new ≡ S.slots store.old }
    ensures order { S.order store.new ≡ S.order store.old }
{
    put_end(store, head, 0, word_of(ends.first));
    put_end(store, head, 1, word_of(ends.last));
}
