//! What the text of an image declares: its parts, the promises of its doors, its device pages and lines; and the groups of its parts.

use crate::findings::{Device, Door, Group, Line, Part, WordRange};
use image_reading::ImageRef;
use part_reports::{part_groups, parts_report};
use parts::Parts;
use source_texts::SourceText;
use std::alloc::{AllocError, Global};

/// How many arrows a report has at most: `parts` has all.
const MOST_ARROWS: usize = 1000;

/// The name of a part, by its number.
pub(crate) fn part_name<'a>(text: &SourceText<'a>, number: usize) -> &'a str {
    match text.threads.get(number) {
        Some(thread) => text.object_name(thread.tcb),
        None => "?",
    }
}

/// Whether a thread is in a set.
fn is_of(threads: u64, number: usize) -> bool {
    match u32::try_from(number) {
        Ok(number) if number < 64 => threads >> number & 1 == 1,
        _ => false,
    }
}

/// The names of the threads of a set.
fn names_of<'a>(
    alloc: Global,
    text: &SourceText<'a>,
    threads: u64,
) -> Result<Vec<&'a str>, AllocError> {
    let mut names = Vec::new(alloc);
    for number in 0..text.threads.len() {
        if is_of(threads, number) {
            names.push(part_name(text, number))?;
        }
    }
    Ok(names)
}

/// The parts of a text.
pub(crate) fn parts_in<'a>(
    alloc: Global,
    text: &SourceText<'a>,
) -> Result<Vec<Part<'a>>, AllocError> {
    let mut parts = Vec::new(alloc);
    for thread in &text.threads {
        parts.push(Part {
            name: text.object_name(thread.tcb),
            priority: thread.priority,
            budget: thread.budget,
            instructions: thread.points.len() as u64,
        })?;
    }
    Ok(parts)
}

/// The promises of a text.
pub(crate) fn doors_in<'a>(
    alloc: Global,
    text: &SourceText<'a>,
) -> Result<Vec<Door<'a>>, AllocError> {
    let mut doors = Vec::new(alloc);
    for promise in &text.promises {
        let mut words = Vec::new(alloc);
        for word in &promise.words {
            words.push(WordRange {
                low: word.low,
                high: word.high,
            })?;
        }
        doors.push(Door {
            name: text.object_name(promise.endpoint),
            badge_low: promise.badge_low,
            badge_high: promise.badge_high,
            words,
        })?;
    }
    Ok(doors)
}

/// The device pages of a text, whose objects lie at these addresses.
pub(crate) fn devices_in<'a>(
    alloc: Global,
    text: &SourceText<'a>,
    addresses: &[u64],
) -> Result<Vec<Device<'a>>, AllocError> {
    let mut devices = Vec::new(alloc);
    for (number, object) in text.objects.iter().enumerate() {
        if object.is_device {
            let address = match addresses.get(number) {
                Some(address) => *address,
                None => 0,
            };
            devices.push(Device {
                name: object.name,
                address,
            })?;
        }
    }
    Ok(devices)
}

/// The lines of a text.
pub(crate) fn lines_in<'a>(
    alloc: Global,
    text: &SourceText<'a>,
) -> Result<Vec<Line<'a>>, AllocError> {
    let mut lines = Vec::new(alloc);
    for line in &text.interrupts {
        lines.push(Line {
            name: line.name,
            number: line.number,
            bell: text.object_name(line.notification),
            badge: line.badge,
        })?;
    }
    Ok(lines)
}

/// The threads outside of a set that may change what it takes.
fn others_of(alloc: Global, parts: &Parts<'_, '_>, threads: u64) -> Result<u64, AllocError> {
    let mut others = 0u64;
    for found in parts.taken(alloc, threads)?.iter() {
        match u32::try_from(found.other) {
            Ok(number) if number < 64 => others |= 1u64 << number,
            _ => {}
        }
    }
    Ok(others)
}

/// The groups of the parts of an image, by the names of its text.
pub(crate) fn groups_in<'a>(
    alloc: Global,
    text: &SourceText<'a>,
    parts: &Parts<'_, '_>,
) -> Result<Vec<Group<'a>>, AllocError> {
    let found = part_groups(alloc, text, parts)?;
    let mut all = Vec::new(alloc);
    for threads in found.all().iter() {
        let others = others_of(alloc, parts, *threads)?;
        all.push(Group {
            parts: names_of(alloc, text, *threads)?,
            takes_nothing: parts.takes_nothing(*threads),
            is_above: parts.is_above(*threads),
            others: names_of(alloc, text, others)?,
        })?;
    }
    Ok(all)
}

/// The lines of the first arrows between parts, and how many there are: those of `parts` but for the last ones, which are on groups.
pub(crate) fn arrows_in(
    alloc: Global,
    text: &SourceText<'_>,
    image: &ImageRef<'_>,
    parts: &Parts<'_, '_>,
    groups: usize,
) -> Result<(Vec<String>, usize), AllocError> {
    let report = parts_report(alloc, text, image, parts)?;
    let count = report.lines().count().saturating_sub(groups);
    let mut arrows = Vec::new(alloc);
    for line in report.lines().take(count.min(MOST_ARROWS)) {
        arrows.push(String::from_str(alloc, line)?)?;
    }
    Ok((arrows, count))
}
