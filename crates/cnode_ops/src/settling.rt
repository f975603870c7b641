//! What is left to do once all slots of a removal are empty.

ghost use Rattle.std.specs.Prelude.{ℕ, ◌≡◌, ◌≢◌, ◌+◌, ◌*◌, ◌^◌, ◌<◌, ◌≤◌, Some, length, min, replicate, slice_index, true};
ghost use Rattle.kernel_invariant.specs.Wholeness.{Agreed};
ghost use Rattle.cnode_ops.specs.Unsettled.{Covers, IsWithSlots, Lands, nothing, start_with, with_waiting};
ghost use Rattle.model.specs.Capabilities.Slots.{IsOpen, empty_entry};
ghost use Rattle.objects.specs.Tables.{Tables, state_of};
ghost use Rattle.removal_laws.specs.Finishing.{MaySettle, StrayClosed, settled, without_strays};

use model::Slot;
use objects::Objects;
use slots::SlotStore;

/// How many slots a block has.
const BLOCK: u32 = 0x4000;

/// How many blocks the largest memory has.
const BLOCKS: usize = 64;

/// How many slots the largest memory has.
const SLOTS: u32 = 0x10_0000;

/// What the objects that ended leave to settle: slots of theirs are open from `first` on and before `end`, in each block
/// from its start on, and threads may wait at one.
#[derive(Drop)]
pub struct Unsettled {
    first: u32,
    end: u32,
    starts: [u32; BLOCKS],
    waited: bool,
}

/// No block has a start.
fn no_starts() -> [u32; BLOCKS]
    ensures { result ≡ replicate 64 (2 ^ 20) }
{
    [SLOTS; BLOCKS]
}

/// A block starts at a slot, if not before.
fn note_start(starts: &mut [u32; BLOCKS], block: u32, start: u32)
    requires { block < 64 }
    ensures own { slice_index starts.new block ≡ min (slice_index starts.old block) start }
    ensures others { (k : ℕ) → k ≢ block → slice_index starts.new k ≡ slice_index starts.old k }
{
    let at = block as usize;
    starts[at] = starts[at].min(start);
}

/// Each block that has one of some slots starts at the first of those that it has, if not before.
fn note_starts(starts: &mut [u32; BLOCKS], first: u32, last: u32)
    requires some { first ≤ last }
    requires near { last < 2 ^ 20 }
    ensures { (k : ℕ) → slice_index starts.new k ≡ start_with (slice_index starts.old k) first last k }
{
    'touched: for block in first / BLOCK..last / BLOCK + 1 {
        note_start(starts, block, first.max(BLOCK * block));
    }
}

/// The first slot from one on that is not before the start of its block.
fn next_noted(starts: &[u32; BLOCKS], at: u32) -> u32
    ensures { Lands starts.now at result }
{
    'later: for block in at / BLOCK..64 {
        let start = starts[block as usize];
        if start < BLOCK * block + BLOCK {
            return start.max(at);
        }
    }
    at
}

impl Unsettled {
    /// Nothing has ended yet, in memory of so many slots.
    pub(crate) fn nothing(count: u32) -> Self
        ensures { result ≡ nothing count }
    {
        Unsettled {
            first: count,
            end: 0,
            starts: no_starts(),
            waited: false,
        }
    }

    /// An object ended as well that has so many slots from `first` on.
    pub(crate) fn note_slots(&mut self, first: u32, count: u32)
        requires { count ≢ 0 → first + count ≤ 2 ^ 20 }
        ensures none { count ≡ 0 → self.new ≡ self.old }
        ensures some { count ≢ 0 → IsWithSlots self.old first count self.new }
    {
        if count == 0 {
            return;
        }
        note_starts(&mut self.starts, first, first + (count - 1));
        self.first = self.first.min(first);
        self.end = self.end.max(first + count);
    }

    /// An object ended as well at which threads waited, if they did.
    pub(crate) fn note_waiting(&mut self, waited: bool)
        ensures { self.new ≡ with_waiting self.old waited }
    {
        self.waited = self.waited || waited;
    }
}

/// Closes a slot that belongs to no object, if it is open.
fn close_stray<S: SlotStore>(store: &mut S, slot: Slot, stray: bool)
    requires within { 16 * (slot + 1) ≤ length (S.memory store.old) }
    requires empty { stray ≡ true → IsOpen (S.slots store.old) slot → S.slots store.old slot ≡ Some empty_entry }
    ensures state { (o : Tables) → Agreed o (S.slots store.old) (S.memory store.old)
        → StrayClosed (state_of o (S.slots store.old) (S.memory store.old)) slot stray (state_of o (S.slots store.new) (S.memory store.new)) }
    ensures agree { (o : Tables) → Agreed o (S.slots store.old) (S.memory store.old) → Agreed o (S.slots store.new) (S.memory store.new) }
{
    if !stray {
        return;
    }
    if store.is_open(slot) {
        store.close_range(slot, 1);
    }
}

/// Closes the open slots that belong to no object any more: no others than those of objects that ended. Blocks that have none
/// of theirs are passed by.
fn close_strays<S: SlotStore>(store: &mut S, objects: &Objects, left: &Unsettled)
    requires agree { Agreed objects.now (S.slots store.old) (S.memory store.old) }
    requires may { MaySettle (state_of objects.now (S.slots store.old) (S.memory store.old)) }
    requires covered { Covers (S.slots store.old) (state_of objects.now (S.slots store.old) (S.memory store.old)) left.now }
    ensures state { state_of objects.now (S.slots store.new) (S.memory store.new)
        ≡ without_strays (state_of objects.now (S.slots store.old) (S.memory store.old)) }
    ensures agree { Agreed objects.now (S.slots store.new) (S.memory store.new) }
{
    let mut at = left.first;
    'slots: while at < left.end {
        let own = objects.slots_of(store, 16 * at);
        close_stray(store, Slot::new(at), own == 0);
        at = next_noted(&left.starts, at + own.max(1));
    }
}

/// Closes the slots of objects that are gone, and lets the threads run again that waited at some.
pub(crate) fn settle<S: SlotStore>(store: &mut S, objects: &mut Objects, left: &Unsettled)
    requires agree { Agreed objects.old (S.slots store.old) (S.memory store.old) }
    requires may { MaySettle (state_of objects.old (S.slots store.old) (S.memory store.old)) }
    requires covered { Covers (S.slots store.old) (state_of objects.old (S.slots store.old) (S.memory store.old)) left.now }
    ensures state { state_of objects.new (S.slots store.new) (S.memory store.new)
        ≡ settled (state_of objects.old (S.slots store.old) (S.memory store.old)) }
    ensures agree { Agreed objects.new (S.slots store.new) (S.memory store.new) }
{
    close_strays(store, objects, left);
    if left.waited {
        objects.wake_stranded(store);
    }
}
