//! Threads: their objects and programs, and that none shares CNodes or an address space with an earlier one.

ghost use Rattle.std.specs.Prelude.{ℕ, ◌≡◌, ◌+◌, ◌*◌, ◌/◌, ◌<◌, ◌≤◌, ◌&&◌, ◌||◌, ◌==◌, not, [], false, Some, IfErr, OnOk, take, slice_get};
ghost use Rattle.std.specs.List.{list_all, list_any};
ghost use Rattle.std.specs.Option.{option_map_or};
ghost use Rattle.model.specs.declared.refusals.Refusal.TheVariants.{OutOfMemory};
ghost use Rattle.model.specs.Acceptance.Rules.{first_broken};
ghost use Rattle.model.specs.Acceptance.ThreadRules.{has_bad_buffer, has_guard, holds_other_root, is_bad, is_bad_buffer, is_code, is_in_use, is_member};
ghost use Rattle.model.specs.Acceptance.ThreadRules.{program_end, reached, rules_of_thread, shares_cspace, shares_vspace, thread_rules};
ghost use Rattle.model.specs.Acceptance.WellFormed.{executes, is_root_type, source_type};
ghost use Rattle.model.specs.Images.Fills.{frame_at, program_pages};
ghost use Rattle.model.specs.Kernel.AddressSpaces.{address_limit};
ghost use Rattle.wellformed.specs.Answering.{AreBuffers, AreEarlier, Answers, with_buffer, with_number};

use crate::mappings::{ADDRESS_LIMIT, PAGE, executes};
use crate::number_sets::NumberSet;
use crate::object_types::{
    is_frame, is_guard, is_root_table, is_thread, radix_of, source_type, type_at,
};
use crate::reach::reached;
use image_reading::{ImageRef, ThreadRef, capability_of, frame_at, header_of, listed_in};
use model::{CapabilityEntry, Refusal, ThreadHeader};
use std::alloc::Global;

/// What the threads before one have.
#[derive(Drop)]
pub(crate) struct Earlier {
    /// Their TCBs.
    tcbs: NumberSet,
    /// Their root tables.
    roots: NumberSet,
    /// The CNodes that they reach.
    cnodes: NumberSet,
    /// The frames of their message buffers.
    buffers: NumberSet,
}

/// The number of the frame of a thread without a message buffer.
const NO_BUFFER: u32 = u32::MAX;

/// Whether the thread's root is a CNode, and its guard word is valid for it.
fn has_guard(image: &ImageRef<'_>, thread: &ThreadRef<'_>) -> bool
    ensures { result ≡ has_guard image.now thread.now }
{
    match radix_of(type_at(image, thread.header().cnode)) {
        Some(radix) => is_guard(radix, thread.header().guard),
        None => false,
    }
}

/// Whether a page is mapped with execute under a root table.
fn is_code(image: &ImageRef<'_>, root: u32, address: u32) -> bool
    ensures { result ≡ option_map_or executes (frame_at image.now root address) false }
{
    match frame_at(image, root, address) {
        Some(entry) => executes(entry),
        None => false,
    }
}

/// Where the program ends.
fn program_end(header: &ThreadHeader) -> u64
    ensures { result ≡ header.now.base + 4 * header.now.words }
{
    u64::from(header.base) + 4 * u64::from(header.words)
}

/// Whether all pages of the program are mapped with execute.
fn is_mapped(image: &ImageRef<'_>, thread: &ThreadRef<'_>) -> bool
    requires { program_end thread.now ≤ address_limit }
    ensures { result ≡ list_all (is_code image.now thread.now) (program_pages thread.now) }
{
    let header = thread.header();
    for page in 0..(4 * header.words + (PAGE - 1)) / PAGE {
        if !is_code(image, header.root, header.base + page * PAGE) {
            return false;
        }
    }
    true
}

/// Whether a thread's objects, program or entry do not fit.
#[tactic(auto, unfolding(model::specs::Acceptance::ThreadRules::is_bad))]
fn is_bad(image: &ImageRef<'_>, number: u32, thread: &ThreadRef<'_>, tcbs: &NumberSet) -> bool
    requires { is_member thread.now.header.tcb tcbs.now ≡ is_in_use image.now number thread.now }
    ensures { result ≡ is_bad image.now (record { number = number; thread = thread.now }) }
{
    let header = thread.header();
    !is_thread(type_at(image, header.tcb))
        || !is_root_table(type_at(image, header.root))
        || tcbs.contains(header.tcb)
        || !has_guard(image, thread)
        || header.base % PAGE != 0
        || program_end(&header) > u64::from(ADDRESS_LIMIT)
        || !is_mapped(image, thread)
        || header.words <= header.entry
}

/// Whether some number is in both sets.
fn share_some(numbers: &NumberSet, others: &NumberSet) -> bool
    ensures { result ≡ list_any (λ n. is_member n others.now) numbers.now }
{
    for place in 0..numbers.len() {
        if others.contains(numbers.at(place)) {
            return true;
        }
    }
    false
}

/// Whether a capability's source is another root table than this one.
fn is_other_root(image: &ImageRef<'_>, entry: CapabilityEntry, root: u32) -> bool
    ensures { result ≡ (is_root_type (source_type image.now entry.source) && not (entry.source == root)) }
{
    is_root_table(source_type(image, entry.source)) && entry.source != root
}

/// Whether a CNode holds another root table than this one.
fn holds_other_root(image: &ImageRef<'_>, cnode: u32, root: u32) -> bool
    ensures { result ≡ list_any (λ c. c.cnode == cnode && (is_root_type (source_type image.now c.source) && not (c.source == root))) image.now.capabilities }
{
    let listed = listed_in(image, cnode);
    for item in listed.first..listed.end {
        if is_other_root(image, capability_of(image, item), root) {
            return true;
        }
    }
    false
}

/// Whether one of the CNodes holds another root table than this one.
fn hold_other_root(image: &ImageRef<'_>, cnodes: &NumberSet, root: u32) -> bool
    ensures { result ≡ list_any (λ c. is_member c.cnode cnodes.now && is_root_type (source_type image.now c.source) && not (c.source == root))
        image.now.capabilities }
{
    for place in 0..cnodes.len() {
        if holds_other_root(image, cnodes.at(place), root) {
            return true;
        }
    }
    false
}

/// Whether an earlier thread has the root table, or one of the CNodes holds another.
fn shares_vspace(image: &ImageRef<'_>, root: u32, cnodes: &NumberSet, roots: &NumberSet) -> bool
    ensures { result ≡ (is_member root roots.now
        || list_any (λ c. is_member c.cnode cnodes.now && is_root_type (source_type image.now c.source) && not (c.source == root)) image.now.capabilities) }
{
    roots.contains(root) || hold_other_root(image, cnodes, root)
}

/// Whether a capability has an object as its source.
fn is_source(image: &ImageRef<'_>, object: u32) -> bool
    ensures { result ≡ list_any (λ c. c.source == object) image.now.capabilities }
{
    for entry in image.capabilities() {
        if entry.source == object {
            return true;
        }
    }
    false
}

/// Whether the image maps a frame with execute, under whatever root table.
fn is_executed(image: &ImageRef<'_>, frame: u32) -> bool
    ensures { result ≡ list_any (λ f. f.frame == frame && executes f) image.now.frames }
{
    for entry in image.frames() {
        if entry.frame == frame && executes(entry) {
            return true;
        }
    }
    false
}

/// Whether a frame is no frame, an earlier thread's buffer, a capability's source, or code.
fn is_bad_buffer(image: &ImageRef<'_>, number: u32, buffer: u32, buffers: &NumberSet) -> bool
    requires { is_member buffer buffers.now ≡ list_any (λ u. u.header.buffer == buffer) (take number image.now.threads) }
    ensures { result ≡ is_bad_buffer image.now number buffer }
{
    !is_frame(type_at(image, buffer))
        || buffers.contains(buffer)
        || is_source(image, buffer)
        || is_executed(image, buffer)
}

/// Whether a thread has a message buffer that it may not have.
#[tactic(auto, unfolding(model::specs::Acceptance::ThreadRules::has_bad_buffer))]
fn has_bad_buffer(
    image: &ImageRef<'_>,
    number: u32,
    thread: &ThreadRef<'_>,
    buffers: &NumberSet,
) -> bool
    requires { AreBuffers (take number image.now.threads) buffers.now }
    ensures { result ≡ has_bad_buffer image.now (record { number = number; thread = thread.now }) }
{
    let buffer = thread.header().buffer;
    if buffer == NO_BUFFER {
        return false;
    }
    is_bad_buffer(image, number, buffer, buffers)
}

/// Puts all numbers of a set into another.
fn put_all(numbers: &NumberSet, into: &mut NumberSet) -> Result<(), Refusal>
    ensures put { OnOk result ((n : ℕ) → is_member n into.new ≡ (is_member n into.old || is_member n numbers.now)) }
    ensures memory { IfErr result (λ refusal. refusal ≡ OutOfMemory) }
{
    for place in 0..numbers.len() {
        into.insert(numbers.at(place))?;
    }
    Ok(())
}

/// Puts a thread's buffer, if it has one, into the set of those of earlier threads.
fn note_buffer(buffer: u32, buffers: &mut NumberSet) -> Result<(), Refusal>
    ensures put { OnOk result (buffers.new ≡ with_buffer buffer buffers.old) }
    ensures memory { IfErr result (λ refusal. refusal ≡ OutOfMemory) }
{
    if buffer == NO_BUFFER {
        return Ok(());
    }
    buffers.insert(buffer)
}

/// One earlier thread more, with the CNodes that it reaches.
fn note_thread(
    header: &ThreadHeader,
    found: &NumberSet,
    earlier: &mut Earlier,
) -> Result<(), Refusal>
    ensures tcbs { OnOk result (earlier.new.tcbs ≡ with_number header.now.tcb earlier.old.tcbs) }
    ensures roots { OnOk result (earlier.new.roots ≡ with_number header.now.root earlier.old.roots) }
    ensures buffers { OnOk result (earlier.new.buffers ≡ with_buffer header.now.buffer earlier.old.buffers) }
    ensures cnodes { OnOk result ((n : ℕ) → is_member n earlier.new.cnodes ≡ (is_member n earlier.old.cnodes || is_member n found.now)) }
    ensures memory { IfErr result (λ refusal. refusal ≡ OutOfMemory) }
{
    earlier.tcbs.insert(header.tcb)?;
    earlier.roots.insert(header.root)?;
    note_buffer(header.buffer, &mut earlier.buffers)?;
    put_all(found, &mut earlier.cnodes)
}

/// The rules on one thread, and what the threads up to it have.
fn check_thread(
    alloc: Global,
    image: &ImageRef<'_>,
    number: u32,
    thread: &ThreadRef<'_>,
    earlier: &mut Earlier,
) -> Result<(), Refusal>
    requires there { slice_get image.now.threads number ≡ Some thread.now }
    requires earlier { AreEarlier image.now (take number image.now.threads) earlier.old.tcbs earlier.old.roots earlier.old.cnodes earlier.old.buffers }
    ensures rules { Answers (first_broken (rules_of_thread image.now (record { number = number; thread = thread.now }))) result }
    ensures earlier { OnOk result (AreEarlier image.now
        (take (number + 1) image.now.threads) earlier.new.tcbs earlier.new.roots earlier.new.cnodes earlier.new.buffers) }
{
    let header = thread.header();
    if is_bad(image, number, thread, &earlier.tcbs) {
        return Err(Refusal::BadThread { thread: number });
    }
    let found = reached(alloc, image, thread)?;
    if share_some(&found, &earlier.cnodes) {
        return Err(Refusal::SharedCSpace { thread: number });
    }
    if shares_vspace(image, header.root, &found, &earlier.roots) {
        return Err(Refusal::SharedVSpace { thread: number });
    }
    if has_bad_buffer(image, number, thread, &earlier.buffers) {
        return Err(Refusal::BadBuffer { thread: number });
    }
    note_thread(&header, &found, earlier)
}

/// The threads, in their order, where no thread is before them.
#[tactic(auto, unfolding(model::specs::Acceptance::ThreadRules::thread_rules))]
fn check_each_thread(
    alloc: Global,
    image: &ImageRef<'_>,
    earlier: &mut Earlier,
) -> Result<(), Refusal>
    requires { AreEarlier image.now [] earlier.old.tcbs earlier.old.roots earlier.old.cnodes earlier.old.buffers }
    ensures { Answers (first_broken (thread_rules image.now)) result }
{
    let _ = header_of(image);
    let mut number = 0;
    for thread in image.threads() {
        check_thread(alloc, image, number, &thread, earlier)?;
        number += 1;
    }
    Ok(())
}

/// The threads, in their order.
pub(crate) fn check_threads(alloc: Global, image: &ImageRef<'_>) -> Result<(), Refusal>
    ensures { Answers (first_broken (thread_rules image.now)) result }
{
    let mut earlier = Earlier {
        tcbs: NumberSet::new(alloc),
        roots: NumberSet::new(alloc),
        cnodes: NumberSet::new(alloc),
        buffers: NumberSet::new(alloc),
    };
    check_each_thread(alloc, image, &mut earlier)
}
