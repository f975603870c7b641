//! What is not the same in two texts, though it lets no thread do more or less: programs, the words of pages, and what is promised.

use asm::{SourceFault, assemble};
use image::Image;
use indexmap::IndexMap;
use source_texts::{PromiseLine, SourceText, source_place};
use std::alloc::{AllocError, Global};

/// The kind of fault of a text for which memory was refused.
const OUT_OF_MEMORY: u32 = 5;

/// A text with what it declares, and its image if it makes one.
#[derive(Clone, Copy)]
pub(crate) struct Side<'c, 't, 'n, 'i> {
    pub(crate) content: &'c str,
    pub(crate) text: &'t SourceText<'n>,
    pub(crate) image: Option<&'i Image>,
}

/// The image of a text, if it makes one: not where a program is still to be compiled.
pub(crate) fn image_of(alloc: Global, text: &str) -> Result<Option<Image>, AllocError> {
    match assemble(alloc, text) {
        Ok(image) => Ok(Some(image)),
        Err(SourceFault { kind, .. }) if u32::from(kind) == OUT_OF_MEMORY => Err(AllocError),
        Err(_) => Ok(None),
    }
}

/// A line of a text, counted from 1.
fn line_of(content: &str, number: u64) -> &str {
    let mut at = 0u64;
    for line in content.lines() {
        at = at.saturating_add(1);
        if at == number {
            return line;
        }
    }
    ""
}

/// The first place in which two lists of words differ, where words that are missing are 0.
fn first_difference(one: &[u32], other: &[u32]) -> Option<usize> {
    for place in 0..one.len().max(other.len()) {
        if word_at(one, place) != word_at(other, place) {
            return Some(place);
        }
    }
    None
}

/// A word of a list, or 0 after its end.
fn word_at(words: &[u32], place: usize) -> u32 {
    match words.get(place) {
        Some(word) => *word,
        None => 0,
    }
}

impl<'t, 'n, 'i> Side<'_, 't, 'n, 'i> {
    /// The numbers of the threads by their names.
    fn threads(&self, alloc: Global) -> Result<IndexMap<&'n str, usize>, AllocError> {
        let mut threads = IndexMap::new(alloc);
        for (number, thread) in self.text.threads.iter().enumerate() {
            threads.insert(self.text.object_name(thread.tcb), number)?;
        }
        Ok(threads)
    }

    /// The words of a thread's program.
    fn program(&self, thread: usize) -> &'i [u32] {
        match self.image {
            Some(image) => match image.parts().threads.get(thread) {
                Some(parts) => parts.words.as_slice(),
                None => &[],
            },
            None => &[],
        }
    }

    /// The words that frames begin with, by their names.
    fn contents(&self, alloc: Global) -> Result<IndexMap<&'n str, &'i [u32]>, AllocError> {
        let mut contents = IndexMap::new(alloc);
        if let Some(image) = self.image {
            for content in &image.parts().contents {
                let name = self.text.object_name(content.frame as usize);
                contents.insert(name, content.words.as_slice())?;
            }
        }
        Ok(contents)
    }

    /// The line that says which words a frame begins with, if there is one.
    fn content_line(&self, name: &str) -> Option<u64> {
        for content in &self.text.contents {
            if self.text.object_name(content.frame) == name {
                return Some(content.line);
            }
        }
        None
    }

    /// What is promised at an endpoint.
    fn promise(&self, name: &str) -> Option<&'t PromiseLine> {
        for promise in &self.text.promises {
            if self.text.object_name(promise.endpoint) == name {
                return Some(promise);
            }
        }
        None
    }

    /// The line of a point of a thread, or of its last one where it has no such point.
    fn point_line(&self, thread: usize, point: usize) -> u64 {
        match self.text.threads.get(thread) {
            Some(thread) => { thread.point_line(point.min(thread.points.len().saturating_sub(1))) }
            None => 1,
        }
    }
}

/// What is promised, as a line says it.
fn push_promise(to: &mut String, promise: Option<&PromiseLine>) -> Result<(), AllocError> {
    let Some(promise) = promise else {
        return to.push_str("nothing");
    };
    let (low, high) = (promise.badge_low, promise.badge_high);
    write!(to, "badges {low} to {high}")?;
    for word in &promise.words {
        let (low, high) = (word.low, word.high);
        write!(to, ", a word of {low} to {high}")?;
    }
    Ok(())
}

/// Whether two promises are the same.
fn is_same_promise(one: Option<&PromiseLine>, other: Option<&PromiseLine>) -> bool {
    match (one, other) {
        (Some(one), Some(other)) => one.badge_low == other.badge_low
            && one.badge_high == other.badge_high
            && one.words.len() == other.words.len()
            && one
                .words
                .iter()
                .zip(&other.words)
                .all(|(a, b)| a.low == b.low && a.high == b.high),
        (None, None) => true,
        _ => false,
    }
}

/// The first difference between the programs of each thread that both have.
fn put_programs(
    alloc: Global,
    to: &mut String,
    before: Side<'_, '_, '_, '_>,
    after: Side<'_, '_, '_, '_>,
) -> Result<(), AllocError> {
    let threads = before.threads(alloc)?;
    for (name, number) in after.threads(alloc)?.iter() {
        let Some(other) = threads.get(*name) else {
            continue;
        };
        let (is, was) = (after.program(*number), before.program(*other));
        let place = match first_difference(is, was) {
            Some(place) => place,
            None if is.len() != was.len() => is.len().min(was.len()),
            None => continue,
        };
        let line = after.point_line(*number, place);
        write!(to, "{name}: has another program from line {line} on")?;
        match source_place(line_of(after.content, line)) {
            Some(source) => write!(to, ", {source}\n")?,
            None => to.push_str("\n")?,
        }
    }
    Ok(())
}

/// The first difference between the words that a frame begins with.
fn put_content(
    to: &mut String,
    after: Side<'_, '_, '_, '_>,
    name: &str,
    is: &[u32],
    was: &[u32],
) -> Result<(), AllocError> {
    let Some(place) = first_difference(is, was) else {
        return Ok(());
    };
    let (word, other) = (word_at(is, place), word_at(was, place));
    write!(
        to,
        "{name}: begins with {word:#x} in place of {other:#x} in word {place}"
    )?;
    match after.content_line(name) {
        Some(line) => write!(to, " (line {line})\n"),
        None => to.push_str("\n"),
    }
}

/// The first difference between the words of each frame.
fn put_contents(
    alloc: Global,
    to: &mut String,
    before: Side<'_, '_, '_, '_>,
    after: Side<'_, '_, '_, '_>,
) -> Result<(), AllocError> {
    let (is, was) = (after.contents(alloc)?, before.contents(alloc)?);
    for (name, words) in is.iter() {
        let others = match was.get(*name) {
            Some(words) => *words,
            None => &[],
        };
        put_content(to, after, *name, *words, others)?;
    }
    for (name, words) in was.iter() {
        if is.get(*name).is_none() {
            put_content(to, after, *name, &[], *words)?;
        }
    }
    Ok(())
}

/// What is promised otherwise at an endpoint.
fn put_promise(
    to: &mut String,
    before: Side<'_, '_, '_, '_>,
    after: Side<'_, '_, '_, '_>,
    name: &str,
) -> Result<(), AllocError> {
    let (is, was) = (after.promise(name), before.promise(name));
    if is_same_promise(is, was) {
        return Ok(());
    }
    write!(to, "{name}: is promised ")?;
    push_promise(to, is)?;
    to.push_str(" in place of ")?;
    push_promise(to, was)?;
    match is {
        Some(PromiseLine { line, .. }) => write!(to, " (line {line})\n"),
        None => to.push_str("\n"),
    }
}

/// What is promised otherwise.
fn put_promises(
    to: &mut String,
    before: Side<'_, '_, '_, '_>,
    after: Side<'_, '_, '_, '_>,
) -> Result<(), AllocError> {
    for promise in &after.text.promises {
        put_promise(to, before, after, after.text.object_name(promise.endpoint))?;
    }
    for promise in &before.text.promises {
        let name = before.text.object_name(promise.endpoint);
        if after.promise(name).is_none() {
            put_promise(to, before, after, name)?;
        }
    }
    Ok(())
}

/// All that is not the same: programs and words where both texts make images, and promises.
pub(crate) fn changed(
    alloc: Global,
    before: Side<'_, '_, '_, '_>,
    after: Side<'_, '_, '_, '_>,
) -> Result<String, AllocError> {
    let mut changed = String::new(alloc);
    if before.image.is_some() && after.image.is_some() {
        put_programs(alloc, &mut changed, before, after)?;
        put_contents(alloc, &mut changed, before, after)?;
    }
    put_promises(&mut changed, before, after)?;
    Ok(changed)
}
