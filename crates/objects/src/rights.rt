//! Rights to reply. A thread keeps in its bytes from 268 on the one thread that may have the right to reply to it, so that
//! nobody has to be looked for to take that right away; or that several may have it. The kernel gives it to one at most.

ghost use Rattle.std.specs.Prelude.{ℕ, ◌≡◌, ◌==◌, ◌&&◌, ◌^◌, ◌<◌, Some, None, not, length, option_map};
ghost use Rattle.std.specs.Option.{ForSome};
ghost use Rattle.model.specs.Kernel.State.{put};
ghost use Rattle.objects.specs.Changes.{voided};
ghost use Rattle.objects.specs.Laid.{AreThreadsLaid, IsThreadPlace, SameBesideThreads, threads_by};
ghost use Rattle.objects.specs.Rights.{AreKnown, SameBesideReplier, has_right, noted, replier_at};
ghost use Rattle.objects.specs.Tables.{entry_in};
ghost use Rattle.objects.specs.declared.records.Entry.TheVariants.{Thread};

use crate::held::{Held, THREAD_SIZE};
use crate::thread_records;
use crate::thread_records::ThreadRecord;
use slots::SlotStore;

/// How far into a thread the word lies.
const REPLIER: u32 = 268;

/// The word that says that several threads may have the right.
const SEVERAL: u32 = u32::MAX;

/// The one thread that may have the right to reply to a thread, or none where several may have it.
fn replier<S: SlotStore>(store: &S, thread: u32) -> Option<u32>
    requires { IsThreadPlace (S.slots store.now) (length (S.memory store.now)) thread }
    ensures { result ≡ replier_at (S.memory store.now) thread }
{
    let word = store.mem().read32(thread + REPLIER);
    if word == SEVERAL { None } else { Some(word) }
}

/// From now on this thread alone may have the right to reply to a thread, or several may have it.
pub(crate) fn put_replier<S: SlotStore>(store: &mut S, thread: u32, replier: Option<u32>)
    requires there { IsThreadPlace (S.slots store.old) (length (S.memory store.old)) thread }
    requires small { ForSome replier (λ holder. holder < 2 ^ 24) }
    ensures replier { replier_at (S.memory store.new) thread ≡ replier }
    ensures bytes { SameBesideReplier (Some thread) (S.memory store.old) (S.memory store.new) }
    ensures slots { S.slots store.new ≡ S.slots store.old }
    ensures order { S.order store.new ≡ S.order store.old }
{
    store.write32(thread + REPLIER, replier.unwrap_or(SEVERAL));
}

/// Whether the thread at an offset has the right to reply to another.
fn has_right<S: SlotStore>(held: &Held, store: &S, holder: u32, caller: u32) -> bool
    requires { AreThreadsLaid held.now (S.slots store.now) (length (S.memory store.now)) }
    ensures { result ≡ has_right (threads_by held.now (S.memory store.now) holder) caller }
{
    held.has_thread(holder) && ThreadRecord::new(store, holder).caller() == Some(caller)
}

/// Whether a thread other than the holder has the right to reply to a caller.
fn has_right_besides<S: SlotStore>(
    held: &Held,
    store: &S,
    holder: u32,
    thread: u32,
    caller: u32,
) -> bool
    requires { AreThreadsLaid held.now (S.slots store.now) (length (S.memory store.now)) }
    ensures { result ≡ (not (thread == holder) && has_right (threads_by held.now (S.memory store.now) thread) caller) }
{
    thread != holder && has_right(held, store, thread, caller)
}

/// The thread at an offset is to have the right to reply to a caller, or to nobody.
pub(crate) fn note<S: SlotStore>(held: &Held, store: &mut S, holder: u32, caller: Option<u32>)
    requires laid { AreThreadsLaid held.now (S.slots store.old) (length (S.memory store.old)) }
    requires there { entry_in held.now holder ≡ Thread }
    requires caller { ForSome caller (λ named. entry_in held.now named ≡ Thread) }
    ensures noted { (named : ℕ) → caller ≡ Some named
        → replier_at (S.memory store.new) named ≡ noted (threads_by held.now (S.memory store.old)) holder named (replier_at (S.memory store.old) named) }
    ensures bytes { SameBesideReplier caller (S.memory store.old) (S.memory store.new) }
    ensures slots { S.slots store.new ≡ S.slots store.old }
    ensures order { S.order store.new ≡ S.order store.old }
{
    let Some(caller) = caller else {
        return;
    };
    let Some(thread) = replier(store, caller) else {
        return;
    };
    if has_right_besides(held, store, holder, thread, caller) {
        put_replier(store, caller, None);
    } else {
        put_replier(store, caller, Some(holder));
    }
}

/// Takes away the right to reply to a thread from the thread at an offset, if that has it.
fn void_right<S: SlotStore>(held: &Held, store: &mut S, holder: u32, gone: u32)
    requires { AreThreadsLaid held.now (S.slots store.old) (length (S.memory store.old)) }
    ensures threads { (other : ℕ) → threads_by held.now (S.memory store.new) other
        ≡ put (threads_by held.now (S.memory store.old)) holder (option_map (voided gone) (threads_by held.now (S.memory store.old) holder)) other }
    ensures bytes { SameBesideThreads held.now (S.memory store.old) (S.memory store.new) }
    ensures slots { S.slots store.new ≡ S.slots store.old }
    ensures order { S.order store.new ≡ S.order store.old }
{
    if has_right(held, store, holder, gone) {
        thread_records::set_caller(store, holder, None);
    }
}

/// Takes away all rights to reply to a thread, where several threads may have one.
fn void_several<S: SlotStore>(held: &Held, store: &mut S, gone: u32)
    requires { AreThreadsLaid held.now (S.slots store.old) (length (S.memory store.old)) }
    ensures threads { (other : ℕ) → threads_by held.now (S.memory store.new) other ≡ option_map (voided gone) (threads_by held.now (S.memory store.old) other) }
    ensures bytes { SameBesideThreads held.now (S.memory store.old) (S.memory store.new) }
    ensures slots { S.slots store.new ≡ S.slots store.old }
    ensures order { S.order store.new ≡ S.order store.old }
{
    let count = held.count_threads();
    'threads: for number in 0..count {
        void_right(held, store, THREAD_SIZE * number, gone);
    }
}

/// Takes away all rights to reply to a thread.
pub(crate) fn void_rights<S: SlotStore>(held: &Held, store: &mut S, gone: u32)
    requires laid { AreThreadsLaid held.now (S.slots store.old) (length (S.memory store.old)) }
    requires known { AreKnown (threads_by held.now (S.memory store.old)) (S.memory store.old) }
    requires there { entry_in held.now gone ≡ Thread }
    ensures threads { (other : ℕ) → threads_by held.now (S.memory store.new) other ≡ option_map (voided gone) (threads_by held.now (S.memory store.old) other) }
    ensures bytes { SameBesideThreads held.now (S.memory store.old) (S.memory store.new) }
    ensures slots { S.slots store.new ≡ S.slots store.old }
    ensures order { S.order store.new ≡ S.order store.old }
{
    match replier(store, gone) {
        Some(holder) => void_right(held, store, holder, gone),
        None => void_several(held, store, gone),
    }
}
