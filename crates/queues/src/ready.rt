//! Those that are ready to run. Each thread keeps the priority at which it is ready, the next and the previous thread
//! at 256, 260 and 264 of its own bytes.

ghost use Rattle.std.specs.Prelude.{ℕ, ◌≡◌, ◌≢◌, ◌==◌, ◌<◌, ◌*◌, ◌+◌, [], ◌∷◌, ◌++◌, IfSome, List, None, Option};
ghost use Rattle.std.specs.Prelude.{Some, true, false, is_some, length, replicate, slice_set};
ghost use Rattle.std.specs.Int.{bit_at};
ghost use Rattle.std.specs.Option.{ForSome};
ghost use Rattle.model.specs.Kernel.Scheduling.{first_below};
ghost use Rattle.model.specs.Kernel.State.{put};
ghost use Rattle.model.specs.Shared.Lists.{times_in, without};
ghost use Rattle.queues.specs.Layout.{AreLaidOut, Places};
ghost use Rattle.queues.specs.Ready.{IsHighest, IsTop, ReadyStands, SameBesideReady, ends_of, is_marked, nobody, ready_of};

use crate::layout::Layout;
use crate::linking::{link_last, queue_of_thread, unlink};
use crate::words::{Ends, LinkWords};
use slots::SlotStore;
use std::marker::Model;

/// Priorities are 0 to 255.
const PRIORITIES: usize = 256;

/// How many priorities a word has marks of.
const WORD_MARKS: u32 = 64;

/// The queues of the priorities: the first and the last thread of each, and one bit for each, which is set where its
/// queue is not empty. So neither the thread that runs nor a change costs a search.
#[derive(Drop)]
pub struct ReadyList {
    ends: [Ends; PRIORITIES],
    marks: [u64; 4],
}

impl Model for ReadyList {
    ghost use Rattle.std.specs.Prelude.{List};
    ghost use Rattle.queues.specs.Ready.{AreMarked};
    ghost use Rattle.queues.specs.declared.words.Ends.{Ends};

    ghost Value = { List Ends };

    ghost view = { λ list. list.ends };

    ghost invariant = { λ list. AreMarked list.ends list.marks };
}

impl ReadyList {
    /// Nobody is ready.
    pub fn new() -> Self
        ensures empty { (places : Places) (memory : List ℕ) (priority : ℕ) → ready_of places result memory priority ≡ [] }
        ensures stands { (places : Places) (memory : List ℕ) → ((offset : ℕ) → places.threads offset ≡ false) → ReadyStands places result memory }
    {
        ReadyList {
            ends: empty_queues(),
            marks: no_marks(),
        }
    }

    /// The first thread of the greatest priority.
    pub fn current(&self) -> Option<u32>
        ensures { (places : Places) (memory : List ℕ) → result ≡ first_below 256 (ready_of places self.now memory) }
    {
        let priority = highest(&self.marks)?;
        self.ends[priority as usize].first
    }

    /// Puts a thread that is not ready after all others of this priority.
    pub fn push<S: SlotStore, L: Layout>(
        &mut self,
        layout: &L,
        store: &mut S,
        priority: u8,
        thread: u32,
    )
        requires laid { AreLaidOut (L.places layout.now) (S.slots store.old) (length (S.memory store.old)) }
        requires stands { ReadyStands (L.places layout.now) self.old (S.memory store.old) }
        requires apart { (other : ℕ) → times_in (ready_of (L.places layout.now) self.old (S.memory store.old) other) thread ≡ 0 }
        requires there { (L.places layout.now).threads thread ≡ true }
        ensures queues { (other : ℕ) → ready_of (L.places layout.now) self.new (S.memory store.new) other
            ≡ put (ready_of (L.places layout.now) self.old (S.memory store.old)) priority
            (ready_of (L.places layout.now) self.old (S.memory store.old) priority ++ thread ∷ []) other }
        ensures stands { ReadyStands (L.places layout.now) self.new (S.memory store.new) }
        ensures slots { S.slots store.new ≡ S.slots store.old }
        ensures bytes { SameBesideReady (ready_of (L.places layout.now) self.new (S.memory store.new)) (S.memory store.old) (S.memory store.new) }
        ensures order { S.order store.new ≡ S.order store.old }
    {
        let priority = u32::from(priority);
        let before = self.ends[priority as usize];
        let behind = link_last(store, LinkWords::Ready, before, priority, thread);
        self.put(priority, behind);
    }

    /// Takes a thread out of the list, if it is ready.
    #[inline(always)]
    pub fn leave<S: SlotStore, L: Layout>(&mut self, layout: &L, store: &mut S, thread: u32)
        requires laid { AreLaidOut (L.places layout.now) (S.slots store.old) (length (S.memory store.old)) }
        requires stands { ReadyStands (L.places layout.now) self.old (S.memory store.old) }
        ensures queues { (other : ℕ) → ready_of (L.places layout.now) self.new (S.memory store.new) other
            ≡ without thread (ready_of (L.places layout.now) self.old (S.memory store.old) other) }
        ensures stands { ReadyStands (L.places layout.now) self.new (S.memory store.new) }
        ensures slots { S.slots store.new ≡ S.slots store.old }
        ensures bytes { SameBesideReady (ready_of (L.places layout.now) self.old (S.memory store.old)) (S.memory store.old) (S.memory store.new) }
        ensures order { S.order store.new ≡ S.order store.old }
    {
        let Some(priority) = queue_of_thread(layout, store, LinkWords::Ready, thread) else {
            return;
        };
        let before = self.ends[priority as usize];
        let behind = unlink(store, LinkWords::Ready, before, thread);
        self.put(priority, behind);
    }

    /// Gives the queue of a priority another first and last thread.
    fn put(&mut self, priority: u32, ends: Ends)
        requires { priority < 256 }
        ensures { self.new ≡ slice_set self.old priority ends }
    {
        mark(&mut self.marks, priority, ends.first.is_some());
        self.ends[priority as usize] = ends;
    }
}

/// The queues of all priorities, where nobody is ready.
fn empty_queues() -> [Ends; PRIORITIES]
    ensures { result ≡ replicate 256 nobody }
{
    let nobody = Ends {
        first: None,
        last: None,
    };
    [nobody; PRIORITIES]
}

/// No priority is marked.
fn no_marks() -> [u64; 4]
    ensures { result ≡ replicate 4 0 }
{
    [0; 4]
}

/// A word with another value of one bit.
fn with_bit(word: u64, bit: u32, value: bool) -> u64
    requires { bit < 64 }
    ensures own { (bit_at result bit == 1) ≡ value }
    ensures others { (i : ℕ) → i < 64 → i ≢ bit → bit_at result i ≡ bit_at word i }
{
    if value {
        word | 1 << bit
    } else {
        word & !(1 << bit)
    }
}

/// Sets or clears the mark of a priority.
fn mark(marks: &mut [u64; 4], priority: u32, value: bool)
    requires { priority < 256 }
    ensures own { is_marked marks.new priority ≡ value }
    ensures others { (other : ℕ) → other ≢ priority → is_marked marks.new other ≡ is_marked marks.old other }
{
    let at = (priority / WORD_MARKS) as usize;
    marks[at] = with_bit(marks[at], priority % WORD_MARKS, value);
}

/// The highest priority whose mark is set among those of a word. If none is, the highest below these is the highest.
fn highest_of(marks: &[u64; 4], number: u32) -> Option<u32>
    requires { number < 4 }
    ensures found { IfSome result (IsTop (64 * (number + 1)) marks.now) }
    ensures none { result ≡ None → (below : Option ℕ) → IsHighest (64 * number) marks.now below
        → IsHighest (64 * (number + 1)) marks.now below }
{
    let word = marks[number as usize];
    if word == 0 {
        None
    } else {
        Some(WORD_MARKS * number + word.ilog2())
    }
}

/// The highest priority whose mark is set: words are looked at from the greatest priorities on.
fn highest(marks: &[u64; 4]) -> Option<u32>
    ensures { IsHighest 256 marks.now result }
{
    let mut number = 4;
    'words: while number > 0 {
        number -= 1;
        let found = highest_of(marks, number);
        if found.is_some() {
            return found;
        }
    }
    None
}
