//! What is said of the parts of an image.

use crate::arrows::{Arrows, arrows_of};
use crate::groups::{Groups, groups_of};
use crate::names::{all_of, is_of, names_of, only};
use crate::uses::all_uses;
use image_reading::ImageRef;
use parts::Parts;
use source_texts::SourceText;
use std::alloc::{AllocError, Global};

/// What is said after the names of a part that takes nothing: what `takes_nothing` of `parts` means.
fn free_words(is_one: bool) -> &'static str {
    if is_one {
        "takes nothing from the others: no other part may change what it reads, receives or waits for"
    } else {
        "take nothing from the others: no other part may change what they read, receive or wait for"
    }
}

/// What is said besides if its priorities are above those of all others.
const ABOVE: &str = "; its priorities are above theirs";

/// Whether a set has one thread alone.
fn is_one(threads: u64) -> bool {
    threads & threads.wrapping_sub(1) == 0
}

/// Puts whether a part takes nothing from the others, and whether its priorities are above theirs.
fn put_part(
    alloc: Global,
    text: &SourceText<'_>,
    parts: &Parts<'_, '_>,
    arrows: &Arrows,
    threads: u64,
    lines: &mut String,
) -> Result<(), AllocError> {
    let names = names_of(alloc, text, threads)?;
    lines.push_str(names.as_str())?;
    lines.push_str(" ")?;
    if parts.takes_nothing(threads) {
        lines.push_str(free_words(is_one(threads)))?;
    } else {
        let others = names_of(alloc, text, arrows.into_all(threads))?;
        let verb = if is_one(threads) { "takes" } else { "take" };
        write!(lines, "{verb} what others may change: {others}")?;
    }
    if parts.is_above(threads) {
        lines.push_str(ABOVE)?;
    }
    lines.push_str("\n")
}

/// Puts a line for each group.
fn put_groups(
    alloc: Global,
    text: &SourceText<'_>,
    parts: &Parts<'_, '_>,
    arrows: &Arrows,
    groups: &Groups,
    lines: &mut String,
) -> Result<(), AllocError> {
    for group in groups.all().iter() {
        put_part(alloc, text, parts, arrows, *group, lines)?;
    }
    Ok(())
}

/// Puts the names of a group that is the only one.
fn put_only_group(
    alloc: Global,
    text: &SourceText<'_>,
    lines: &mut String,
) -> Result<(), AllocError> {
    let names = names_of(alloc, text, all_of(text))?;
    write!(lines, "one group: {names}\n")
}

/// Puts the lines of all arrows. Where there are none it is not asked what makes them so.
fn put_arrows(
    alloc: Global,
    text: &SourceText<'_>,
    image: &ImageRef<'_>,
    arrows: &Arrows,
    lines: &mut String,
) -> Result<(), AllocError> {
    if arrows.is_empty() {
        return Ok(());
    }
    let uses = all_uses(alloc, text, image)?;
    arrows.put_all(text, uses.as_slice(), lines)
}

/// The parts of an accepted image, with the names of its text: a line for each two of them and each object that one may change and the
/// other takes (of more than eight objects between two the first two, and how many more), and then one for each group.
///
/// # Errors
///
/// Memory may be refused.
pub fn parts_report(
    alloc: Global,
    text: &SourceText<'_>,
    image: &ImageRef<'_>,
    parts: &Parts<'_, '_>,
) -> Result<String, AllocError> {
    let arrows = arrows_of(alloc, text.objects.len(), text.threads.len(), parts)?;
    let groups = groups_of(alloc, text.threads.len(), &arrows)?;
    let mut lines = String::new(alloc);
    put_arrows(alloc, text, image, &arrows, &mut lines)?;
    if groups.all().len() == 1 {
        put_only_group(alloc, text, &mut lines)?;
    } else {
        put_groups(alloc, text, parts, &arrows, &groups, &mut lines)?;
    }
    Ok(lines)
}

/// The last lines of [`parts_report`], those of the groups, where there are at least two.
///
/// # Errors
///
/// Memory may be refused.
pub fn groups_report(
    alloc: Global,
    text: &SourceText<'_>,
    parts: &Parts<'_, '_>,
) -> Result<String, AllocError> {
    let arrows = arrows_of(alloc, text.objects.len(), text.threads.len(), parts)?;
    let groups = groups_of(alloc, text.threads.len(), &arrows)?;
    let mut lines = String::new(alloc);
    if groups.all().len() > 1 {
        put_groups(alloc, text, parts, &arrows, &groups, &mut lines)?;
    }
    Ok(lines)
}

/// The groups of the parts of an accepted image, in the order of their first threads.
///
/// # Errors
///
/// Memory may be refused.
pub fn part_groups(
    alloc: Global,
    text: &SourceText<'_>,
    parts: &Parts<'_, '_>,
) -> Result<Groups, AllocError> {
    let arrows = arrows_of(alloc, text.objects.len(), text.threads.len(), parts)?;
    groups_of(alloc, text.threads.len(), &arrows)
}

/// What is said of a part whose image alone is accepted, as `alone` of `parts` promises of it.
fn promise_of(parts: &Parts<'_, '_>, threads: u64) -> &'static str {
    if !parts.takes_nothing(threads) {
        "not as in the whole\n"
    } else if parts.is_above(threads) {
        "as in the whole, over all events\n"
    } else {
        "as in the whole, over its own events\n"
    }
}

/// What is said of a part whose image alone is accepted: a line for each thing that it takes and others may change, and whether what it
/// does is what it does in the whole.
///
/// # Errors
///
/// Memory may be refused.
pub fn alone_report(
    alloc: Global,
    text: &SourceText<'_>,
    image: &ImageRef<'_>,
    parts: &Parts<'_, '_>,
    threads: u64,
) -> Result<String, AllocError> {
    let mut lines = String::new(alloc);
    let arrows = arrows_of(alloc, text.objects.len(), text.threads.len(), parts)?;
    if !parts.takes_nothing(threads) {
        let uses = all_uses(alloc, text, image)?;
        arrows.put_into(text, uses.as_slice(), threads, &mut lines)?;
    }
    put_part(alloc, text, parts, &arrows, threads, &mut lines)?;
    lines.push_str(promise_of(parts, threads))?;
    Ok(lines)
}
