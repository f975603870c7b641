//! What a thread takes from others and what it may change, by the numbers of the objects.

ghost use Rattle.std.specs.Prelude.{ℕ, ◌≡◌, ◌==◌, ◌+◌, ◌&&◌, ◌||◌, not, IfErr, IfOk, OnOk};
ghost use Rattle.std.specs.List.{list_any};
ghost use Rattle.headline.specs.parts.Parts.{changes_by, takes_by};
ghost use Rattle.model.specs.Acceptance.ThreadRules.{is_member, reached};
ghost use Rattle.model.specs.Capabilities.Rights.{may_read, may_write, rights};
ghost use Rattle.model.specs.Images.Described.{numbered};
ghost use Rattle.model.specs.Images.Image.{no_buffer};
ghost use Rattle.model.specs.declared.refusals.Refusal.TheVariants.{OutOfMemory};
ghost use Rattle.parts.specs.Uses.{IsUse};

use crate::object_sets::ObjectSet;
use image_reading::{ImageRef, ThreadRef, capability_of, header_of, listed_in};
use model::{CapabilityEntry, FrameEntry, Refusal};
use std::alloc::Global;
use thread_spaces::reached_of;
use wellformed::{NumberSet, is_endpoint, is_frame, type_at};

/// Of the rights of a capability or a mapping.
const WRITE: u32 = 1;

const READ: u32 = 2;

/// The number of the frame of a thread without a message buffer.
const NO_BUFFER: u32 = u32::MAX;

/// What a thread takes and what it may change.
#[derive(Drop)]
pub(crate) struct Uses {
    /// Which of the image's threads it is, from 0 on.
    pub(crate) number: usize,
    /// Its control block.
    pub(crate) tcb: u32,
    pub(crate) priority: u32,
    /// The objects that it takes.
    pub(crate) takes: ObjectSet,
    /// Those that it may change.
    pub(crate) changes: ObjectSet,
}

/// Puts a number into a set, if a test was passed.
fn put_if(set: &mut NumberSet, passed: bool, number: u32) -> Result<(), Refusal>
    ensures put { OnOk result ((n : ℕ) → is_member n set.new ≡ (is_member n set.old || (passed && number == n))) }
    ensures memory { IfErr result (λ refusal. refusal ≡ OutOfMemory) }
{
    if !passed {
        return Ok(());
    }
    set.insert(number)
}

/// Whether a word of rights writes.
fn may_write(word: u32) -> bool
    ensures { result ≡ may_write (rights word) }
{
    word & WRITE != 0
}

/// Whether a word of rights reads.
fn may_read(word: u32) -> bool
    ensures { result ≡ may_read (rights word) }
{
    word & READ != 0
}

/// Whether a thread takes what a capability of its own names.
fn takes_by(image: &ImageRef<'_>, entry: CapabilityEntry) -> bool
    ensures { result ≡ takes_by image.now entry }
{
    may_read(entry.rights) || (is_endpoint(type_at(image, entry.source)) && may_write(entry.rights))
}

/// Whether a thread may change what a capability of its own names.
fn changes_by(image: &ImageRef<'_>, entry: CapabilityEntry) -> bool
    ensures { result ≡ changes_by image.now entry }
{
    may_write(entry.rights) || (!is_frame(type_at(image, entry.source)) && may_read(entry.rights))
}

/// One capability that is listed more: what it names, whether the thread takes it, and whether it may change it.
fn note_capability(
    image: &ImageRef<'_>,
    entry: CapabilityEntry,
    sources: &mut NumberSet,
    takes: &mut NumberSet,
    changes: &mut NumberSet,
) -> Result<(), Refusal>
    ensures sources { OnOk result ((n : ℕ) → is_member n sources.new ≡ (is_member n sources.old || entry.source == n)) }
    ensures takes { OnOk result ((n : ℕ) → is_member n takes.new ≡ (is_member n takes.old || (takes_by image.now entry && entry.source == n))) }
    ensures changes { OnOk result ((n : ℕ) → is_member n changes.new ≡ (is_member n changes.old || (changes_by image.now entry && entry.source == n))) }
    ensures memory { IfErr result (λ refusal. refusal ≡ OutOfMemory) }
{
    put_if(sources, true, entry.source)?;
    put_if(takes, takes_by(image, entry), entry.source)?;
    put_if(changes, changes_by(image, entry), entry.source)
}

/// The capabilities in one CNode.
fn note_listed(
    image: &ImageRef<'_>,
    cnode: u32,
    sources: &mut NumberSet,
    takes: &mut NumberSet,
    changes: &mut NumberSet,
) -> Result<(), Refusal>
    ensures sources { OnOk result ((n : ℕ) → is_member n sources.new
        ≡ (is_member n sources.old || list_any (λ c. c.cnode == cnode && c.source == n) image.now.capabilities)) }
    ensures takes { OnOk result ((n : ℕ) → is_member n takes.new
        ≡ (is_member n takes.old || list_any (λ c. c.cnode == cnode && (takes_by image.now c && c.source == n)) image.now.capabilities)) }
    ensures changes { OnOk result ((n : ℕ) → is_member n changes.new
        ≡ (is_member n changes.old || list_any (λ c. c.cnode == cnode && (changes_by image.now c && c.source == n)) image.now.capabilities)) }
    ensures memory { IfErr result (λ refusal. refusal ≡ OutOfMemory) }
{
    let listed = listed_in(image, cnode);
    for number in listed.first..listed.end {
        note_capability(image, capability_of(image, number), sources, takes, changes)?;
    }
    Ok(())
}

/// The capabilities in these CNodes.
fn note_capabilities(
    image: &ImageRef<'_>,
    cnodes: &NumberSet,
    sources: &mut NumberSet,
    takes: &mut NumberSet,
    changes: &mut NumberSet,
) -> Result<(), Refusal>
    ensures sources { OnOk result ((n : ℕ) → is_member n sources.new
        ≡ (is_member n sources.old || list_any (λ c. is_member c.cnode cnodes.now && c.source == n) image.now.capabilities)) }
    ensures takes { OnOk result ((n : ℕ) → is_member n takes.new
        ≡ (is_member n takes.old || list_any (λ c. is_member c.cnode cnodes.now && (takes_by image.now c && c.source == n)) image.now.capabilities)) }
    ensures changes { OnOk result ((n : ℕ) → is_member n changes.new
        ≡ (is_member n changes.old || list_any (λ c. is_member c.cnode cnodes.now && (changes_by image.now c && c.source == n)) image.now.capabilities)) }
    ensures memory { IfErr result (λ refusal. refusal ≡ OutOfMemory) }
{
    for place in 0..cnodes.len() {
        note_listed(image, cnodes.at(place), sources, takes, changes)?;
    }
    Ok(())
}

/// One frame that is mapped more, if it is so under the thread's root table.
fn note_frame(
    is_own: bool,
    entry: &FrameEntry,
    takes: &mut NumberSet,
    changes: &mut NumberSet,
) -> Result<(), Refusal>
    ensures takes { OnOk result ((n : ℕ) → is_member n takes.new ≡ (is_member n takes.old || (is_own && entry.now.frame == n))) }
    ensures changes { OnOk result ((n : ℕ) → is_member n changes.new
        ≡ (is_member n changes.old || ((is_own && may_write (rights entry.now.rights)) && entry.now.frame == n))) }
    ensures memory { IfErr result (λ refusal. refusal ≡ OutOfMemory) }
{
    put_if(takes, is_own, entry.frame)?;
    put_if(changes, is_own && may_write(entry.rights), entry.frame)
}

/// The mapped frames of an image, which are read once for all threads. Memory may be refused.
pub(crate) fn frames_of(alloc: Global, image: &ImageRef<'_>) -> Result<Vec<FrameEntry>, Refusal>
    ensures frames { IfOk result (λ frames. frames.items ≡ image.now.frames) }
    ensures memory { IfErr result (λ refusal. refusal ≡ OutOfMemory) }
{
    let mut frames = Vec::new(alloc);
    for entry in image.frames() {
        frames.push(entry)?;
    }
    Ok(frames)
}

/// The frames that are mapped under a root table.
fn note_frames(
    frames: &[FrameEntry],
    root: u32,
    takes: &mut NumberSet,
    changes: &mut NumberSet,
) -> Result<(), Refusal>
    ensures takes { OnOk result ((n : ℕ) → is_member n takes.new ≡ (is_member n takes.old || list_any (λ f. f.root == root && f.frame == n) frames.now)) }
    ensures changes { OnOk result ((n : ℕ) → is_member n changes.new
        ≡ (is_member n changes.old || list_any (λ f. (f.root == root && may_write (rights f.rights)) && f.frame == n) frames.now)) }
    ensures memory { IfErr result (λ refusal. refusal ≡ OutOfMemory) }
{
    for entry in frames {
        let is_own = entry.root == root;
        note_frame(is_own, entry, takes, changes)?;
    }
    Ok(())
}

/// The frame of the message buffer, if there is one.
fn note_buffer(buffer: u32, takes: &mut NumberSet, changes: &mut NumberSet) -> Result<(), Refusal>
    ensures takes { OnOk result ((n : ℕ) → is_member n takes.new ≡ (is_member n takes.old || (not (buffer == no_buffer) && buffer == n))) }
    ensures changes { OnOk result ((n : ℕ) → is_member n changes.new ≡ (is_member n changes.old || (not (buffer == no_buffer) && buffer == n))) }
    ensures memory { IfErr result (λ refusal. refusal ≡ OutOfMemory) }
{
    let there = buffer != NO_BUFFER;
    put_if(takes, there, buffer)?;
    put_if(changes, there, buffer)
}

/// The notifications of the lines whose handlers are among what capabilities name: after all objects, in the order of the lines.
fn note_lines(
    image: &ImageRef<'_>,
    sources: &NumberSet,
    changes: &mut NumberSet,
) -> Result<(), Refusal>
    ensures changes { OnOk result ((n : ℕ) → is_member n changes.new
        ≡ (is_member n changes.old || list_any (λ i. is_member (image.now.header.objects + i.0) sources.now && (i.1).notification == n)
        (numbered image.now.interrupts))) }
    ensures memory { IfErr result (λ refusal. refusal ≡ OutOfMemory) }
{
    let header = header_of(image);
    for number in 0..header.interrupts {
        let is_held = sources.contains(header.objects + number);
        put_if(changes, is_held, image.interrupt(number).notification)?;
    }
    Ok(())
}

/// What a thread takes and what it may change, in an image with these frames.
pub(crate) fn uses_of(
    alloc: Global,
    image: &ImageRef<'_>,
    frames: &[FrameEntry],
    number: usize,
    thread: &ThreadRef<'_>,
) -> Result<Uses, Refusal>
    ensures number { IfOk result (λ uses. uses.number ≡ number) }
    ensures uses { IfOk result (λ uses. frames.now ≡ image.now.frames → IsUse image.now thread.now uses) }
    ensures memory { IfErr result (λ refusal. refusal ≡ OutOfMemory) }
{
    let header = thread.header();
    let cnodes = reached_of(alloc, image, thread)?;
    let mut sources = NumberSet::new(alloc);
    let mut takes = NumberSet::new(alloc);
    let mut changes = NumberSet::new(alloc);
    note_frames(frames, header.root, &mut takes, &mut changes)?;
    note_capabilities(image, &cnodes, &mut sources, &mut takes, &mut changes)?;
    note_buffer(header.buffer, &mut takes, &mut changes)?;
    note_lines(image, &sources, &mut changes)?;
    let taken = ObjectSet::of(alloc, takes)?;
    let changed = ObjectSet::of(alloc, changes)?;
    Ok(Uses {
        number,
        tcb: header.tcb,
        priority: header.priority,
        takes: taken,
        changes: changed,
    })
}
