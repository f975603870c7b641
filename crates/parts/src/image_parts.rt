//! The threads of an accepted image, with what each takes and may change.

ghost use Rattle.std.specs.Prelude.{◌≡◌, ◌==◌, ◌&&◌, not, nat_lt, All, IfErr, IfOk, IfSome, List, is_some, length, option_map, slice_get};
ghost use Rattle.std.specs.Int.{bit_at};
ghost use Rattle.std.specs.List.{list_all, range_with_len};
ghost use Rattle.headline.specs.parts.Given.{AllHoldGiven};
ghost use Rattle.headline.specs.parts.Parts.{alone, is_above, takes_nothing};
ghost use Rattle.model.specs.Acceptance.Accepted.{IsAccepted};
ghost use Rattle.model.specs.Acceptance.Devices.{KeepsDevices};
ghost use Rattle.model.specs.Acceptance.ThreadRules.{is_member};
ghost use Rattle.model.specs.Images.Described.{described};
ghost use Rattle.model.specs.Kernel.Steps.{state_after};
ghost use Rattle.model.specs.declared.events.Event.{Event};
ghost use Rattle.model.specs.declared.refusals.Refusal.TheVariants.{OutOfMemory};
ghost use Rattle.parts.specs.Alone.{WhyNotAlone};
ghost use Rattle.parts.specs.Promises.{IsUndisturbed, RunsAsAlone};
ghost use Rattle.parts.specs.Taken.{taken};
ghost use Rattle.parts.specs.Uses.{AreUses, ChangesThese, TakesThese, is_high, is_part, is_separate, part_of};

use crate::alone::{Alone, NotAlone, alone_of};
use crate::taken::{Taken, all_taken};
use crate::uses::{Uses, frames_of, uses_of};
use headline::parts::threads_never_hold_more;
use image_reading::{ImageRef, header_of};
use model::Refusal;
use part_laws::promised::{accepted_parts_above_are_undisturbed, accepted_parts_run_as_alone};
use std::alloc::{AllocError, Global};
use std::marker::Model;
use verify::Accepted;
use wellformed::NumberSet;

/// The threads of an accepted image, with what each takes and may change. A part is a set of threads, as a word: bit N is thread N of the
/// image, from 0 on. Bits of no thread count for nothing.
#[derive(Drop)]
pub struct Parts<'i, 'a> {
    accepted: &'i Accepted<'a>,
    uses: Vec<Uses>,
}

impl<'i, 'a> Model for Parts<'i, 'a> {
    ghost use Rattle.model.specs.Images.Image.{Image};
    ghost use Rattle.parts.specs.Uses.{AreUses};

    ghost Value = { Image };

    ghost view = { λ p. p.accepted.now };

    ghost invariant = { λ p. AreUses p.accepted.now 0 p.accepted.now.threads p.uses.items };
}

/// Whether a bit of a word is set.
fn is_set(word: u64, bit: usize) -> bool
    ensures { result ≡ (bit_at word bit == 1) }
{
    bit < 64 && word >> bit & 1 == 1
}

/// Whether a thread is of a part and has a control block. Most have another one.
fn has_block(threads: u64, uses: &Uses, tcb: u32) -> bool
    ensures { result ≡ (bit_at threads uses.now.number == 1 && uses.now.tcb == tcb) }
{
    uses.tcb == tcb && is_set(threads, uses.number)
}

/// Whether a control block is that of a thread of a part.
pub(crate) fn is_in(all: &[Uses], threads: u64, tcb: u32) -> bool
    ensures { result ≡ is_part threads all.now tcb }
{
    for uses in all {
        if has_block(threads, uses, tcb) {
            return true;
        }
    }
    false
}

/// Whether one thread takes an object that another may change.
pub(crate) fn is_taken(taker: &Uses, other: &Uses, object: u32) -> bool
    ensures { result ≡ (is_member object taker.now.takes && is_member object other.now.changes) }
{
    taker.takes.contains(object) && other.changes.contains(object)
}

/// Whether a thread may change this object, if it is one of so many.
fn may_change(objects: u32, other: &Uses, object: u32) -> bool
    ensures { result ≡ (nat_lt object objects && is_member object other.now.changes) }
{
    object < objects && other.changes.contains(object)
}

/// Whether a thread may change none of those of so many objects that are in a set. It goes through the set.
fn changes_none(objects: u32, takes: &NumberSet, other: &Uses) -> bool
    ensures { result ≡ list_all (λ object. not (is_member object takes.now && is_member object other.now.changes)) (range_with_len 0 objects) }
{
    for place in 0..takes.len() {
        if may_change(objects, other, takes.at(place)) {
            return false;
        }
    }
    true
}

/// Whether one thread takes none of so many objects that another may change. Mostly this is seen at once.
pub(crate) fn is_apart(objects: u32, taker: &Uses, other: &Uses) -> bool
    ensures { result ≡ list_all (λ object. not (is_member object taker.now.takes && is_member object other.now.changes)) (range_with_len 0 objects) }
{
    if taker.takes.is_apart(&other.changes) {
        return true;
    }
    changes_none(objects, taker.takes.numbers(), other)
}

/// Whether a thread takes nothing from another, or is not of the part, or the other is.
fn is_separate(objects: u32, all: &[Uses], threads: u64, taker: &Uses, other: &Uses) -> bool
    ensures { result ≡ is_separate objects threads all.now taker.now other.now }
{
    !is_in(all, threads, taker.tcb)
        || is_in(all, threads, other.tcb)
        || is_apart(objects, taker, other)
}

/// Whether a thread takes nothing from those outside of the part, or is not of the part.
fn takes_nothing_from_all(objects: u32, all: &[Uses], threads: u64, taker: &Uses) -> bool
    ensures { result ≡ list_all (is_separate objects threads all.now taker.now) all.now }
{
    if !is_in(all, threads, taker.tcb) {
        return true;
    }
    for other in all {
        if !is_separate(objects, all, threads, taker, other) {
            return false;
        }
    }
    true
}

/// Whether no thread of the part takes anything from those outside.
fn all_take_nothing(objects: u32, all: &[Uses], threads: u64) -> bool
    ensures { result ≡ list_all (λ taker. list_all (is_separate objects threads all.now taker) all.now) all.now }
{
    for taker in all {
        if !takes_nothing_from_all(objects, all, threads, taker) {
            return false;
        }
    }
    true
}

/// Whether a thread's priority is above another's, or it is not of the part, or the other is.
fn is_high(all: &[Uses], threads: u64, own: &Uses, other: &Uses) -> bool
    ensures { result ≡ is_high threads all.now own.now other.now }
{
    !is_in(all, threads, own.tcb) || is_in(all, threads, other.tcb) || other.priority < own.priority
}

/// Whether a thread's priority is above those outside of the part, or it is not of the part.
fn is_above_all(all: &[Uses], threads: u64, own: &Uses) -> bool
    ensures { result ≡ list_all (is_high threads all.now own.now) all.now }
{
    if !is_in(all, threads, own.tcb) {
        return true;
    }
    for other in all {
        if !is_high(all, threads, own, other) {
            return false;
        }
    }
    true
}

/// Whether all priorities of the part are above those outside.
fn all_are_above(all: &[Uses], threads: u64) -> bool
    ensures { result ≡ list_all (λ own. list_all (is_high threads all.now own) all.now) all.now }
{
    for own in all {
        if !is_above_all(all, threads, own) {
            return false;
        }
    }
    true
}

/// What each thread takes and may change.
fn all_uses(alloc: Global, image: &ImageRef<'_>) -> Result<Vec<Uses>, Refusal>
    ensures uses { IfOk result (λ uses. AreUses image.now 0 image.now.threads uses.items) }
    ensures memory { IfErr result (λ refusal. refusal ≡ OutOfMemory) }
{
    let frames = frames_of(alloc, image)?;
    let mut all = Vec::new(alloc);
    for thread in image.threads() {
        let uses = uses_of(alloc, image, frames.as_slice(), all.len(), &thread)?;
        all.push(uses)?;
    }
    Ok(all)
}

/// The threads of an accepted image, with what each takes and may change. For each thread it goes over all
/// mapped frames and lines of the machine, and over the capabilities that the thread reaches.
///
/// # Errors
///
/// Memory may be refused.
pub fn parts_of<'i, 'a>(alloc: Global, accepted: &'i Accepted<'a>) -> Result<Parts<'i, 'a>, Refusal>
    ensures image { IfOk result (λ image. image ≡ accepted.now) }
    // Whatever happens, no thread ever holds more than its image lists for it.
    ensures held { IfOk result (λ image. (events : List Event) → All (KeepsDevices accepted.now) events
        → AllHoldGiven accepted.now (state_after (described accepted.now) events)) }
    ensures memory { IfErr result (λ refusal. refusal ≡ OutOfMemory) }
{
    threads_never_hold_more();
    let image = accepted.image();
    let uses = all_uses(alloc, image)?;
    Ok(Parts { accepted, uses })
}

/// What a thread takes and may change, by its number.
fn uses_at(all: &[Uses], thread: usize) -> Option<&Uses>
    ensures { option_map (λ uses. uses.now) result ≡ slice_get all.now thread }
{
    all.get(thread)
}

impl Parts<'_, '_> {
    /// Whether nothing that a thread of the part takes may be changed by a thread outside of it.
    pub fn takes_nothing(&self, threads: u64) -> bool
        ensures { result ≡ takes_nothing self.now (part_of self.now threads) }
    {
        let objects = header_of(self.accepted.image()).objects;
        all_take_nothing(objects, self.uses.as_slice(), threads)
    }

    /// The numbers of what a thread takes, with some that are of no object, if there is a thread with this number.
    pub fn taken_by(&self, thread: usize) -> Option<&NumberSet>
        ensures there { is_some result ≡ nat_lt thread (length self.now.threads) }
        ensures numbers { IfSome result (λ set. TakesThese self.now thread set.now) }
    {
        let _ = header_of(self.accepted.image());
        match uses_at(self.uses.as_slice(), thread) {
            Some(uses) => Some(uses.takes.numbers()),
            None => None,
        }
    }

    /// The numbers of what a thread may change, likewise.
    pub fn changed_by(&self, thread: usize) -> Option<&NumberSet>
        ensures there { is_some result ≡ nat_lt thread (length self.now.threads) }
        ensures numbers { IfSome result (λ set. ChangesThese self.now thread set.now) }
    {
        let _ = header_of(self.accepted.image());
        match uses_at(self.uses.as_slice(), thread) {
            Some(uses) => Some(uses.changes.numbers()),
            None => None,
        }
    }

    /// Whether the part's priorities are above those of all others.
    pub fn is_above(&self, threads: u64) -> bool
        ensures { result ≡ is_above self.now (part_of self.now threads) }
    {
        let _ = self.accepted;
        all_are_above(self.uses.as_slice(), threads)
    }

    /// What threads of the part take and threads outside of it may change: in the order of the threads, of the others, and of the
    /// objects. It takes time in proportion to what each thread takes, for each other thread, and to the objects for each two threads of
    /// which one may change what the other takes.
    ///
    /// # Errors
    ///
    /// Memory may be refused.
    pub fn taken(&self, alloc: Global, threads: u64) -> Result<Vec<Taken>, AllocError>
        ensures { IfOk result (λ found. found.items ≡ taken self.now (part_of self.now threads)) }
    {
        let objects = header_of(self.accepted.image()).objects;
        all_taken(alloc, objects, self.uses.as_slice(), threads)
    }

    /// The image of the part alone: without the other threads, and all else as it is.
    ///
    /// # Errors
    ///
    /// Why there is none ([`NotAlone`]).
    pub fn alone(&self, alloc: Global, threads: u64) -> Result<Alone, NotAlone>
        // The bytes spell that image, and the verifier accepts them.
        ensures accepted { IfOk result (λ bytes. IsAccepted bytes (alone self.now (part_of self.now threads))) }
        // If the part takes nothing from the others, what it does over any events of the whole it does alone over its own among them.
        ensures runs { IfOk result (λ _. RunsAsAlone self.now (part_of self.now threads)) }
        // If its priorities are above theirs too, it does so over the same events, line by line, and is idle where the others run.
        ensures undisturbed { IfOk result (λ _. IsUndisturbed self.now (part_of self.now threads)) }
        ensures refused { IfErr result (WhyNotAlone (alone self.now (part_of self.now threads))) }
    {
        accepted_parts_run_as_alone();
        accepted_parts_above_are_undisturbed();
        alone_of(alloc, self.accepted.image(), self.uses.as_slice(), threads)
    }
}
