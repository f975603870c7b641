//! Lists of an image, as vectors of their own.

ghost use Rattle.std.specs.Prelude.{◌≡◌, IfOk, All, length};
ghost use Rattle.image_copies.specs.Counts.{HasPromiseCount, HasRecordCounts};

use image::{Content, Promise, RecordParts};
use image_reading::{
    ContentRef, Contents, Entry, PromiseRef, Promises, RecordRef, Records, Section, ThreadRef,
};
use model::{RangeEntry, SlotEntry, TermEntry};
use std::alloc::{AllocError, Global};

/// The entries of a section.
pub(crate) fn entries_of<E: Entry>(
    alloc: Global,
    section: Section<'_, E>,
) -> Result<Vec<E>, AllocError>
    ensures { IfOk result (λ all. all.items ≡ section.entry) }
{
    let mut all = Vec::new(alloc);
    for entry in section {
        all.push(entry)?;
    }
    Ok(all)
}

/// The words of a program.
pub(crate) fn words_of(alloc: Global, thread: &ThreadRef<'_>) -> Result<Vec<u32>, AllocError>
    ensures { IfOk result (λ words. words.items ≡ thread.now.words) }
{
    let mut words = Vec::new(alloc);
    for index in 0..thread.word_count() {
        words.push(thread.word(index))?;
    }
    Ok(words)
}

/// The words that a frame begins with.
fn content_words(alloc: Global, content: &ContentRef<'_>) -> Result<Vec<u32>, AllocError>
    ensures { IfOk result (λ words. words.items ≡ content.now.words) }
{
    let mut words = Vec::new(alloc);
    for index in 0..content.word_count() {
        words.push(content.word(index))?;
    }
    Ok(words)
}

/// A frame and the words that it begins with.
fn content_of(alloc: Global, content: &ContentRef<'_>) -> Result<Content, AllocError>
    ensures { IfOk result (λ made. made ≡ content.now) }
{
    let _ = content.word_count();
    let words = content_words(alloc, content)?;
    Ok(Content {
        frame: content.header().frame,
        words,
    })
}

/// What frames begin with.
pub(crate) fn contents_of(alloc: Global, contents: Contents<'_>) -> Result<Vec<Content>, AllocError>
    ensures { IfOk result (λ all. all.items ≡ contents.entry) }
{
    let mut all = Vec::new(alloc);
    for content in contents {
        all.push(content_of(alloc, &content)?)?;
    }
    Ok(all)
}

/// A promise.
fn promise_of(alloc: Global, promise: &PromiseRef<'_>) -> Result<Promise, AllocError>
    ensures { IfOk result (λ made. HasPromiseCount promise.now → made ≡ promise.now) }
{
    let header = promise.header();
    let words = entries_of(alloc, promise.words())?;
    Ok(Promise {
        endpoint: header.endpoint,
        badge_low: header.badge_low,
        badge_high: header.badge_high,
        words,
    })
}

/// The promises.
pub(crate) fn promises_of(alloc: Global, promises: Promises<'_>) -> Result<Vec<Promise>, AllocError>
    ensures { IfOk result (λ all. All HasPromiseCount promises.entry → all.items ≡ promises.entry) }
{
    let mut all = Vec::new(alloc);
    for promise in promises {
        all.push(promise_of(alloc, &promise)?)?;
    }
    Ok(all)
}

/// A record of these parts.
fn record_with(
    point: u32,
    constant: i64,
    ranges: Vec<RangeEntry>,
    slots: Vec<SlotEntry>,
    terms: Vec<TermEntry>,
) -> RecordParts
    ensures { result ≡ record {
      header = record { point = point; ranges = length ranges.items; slots = length slots.items; terms = length terms.items; constant = constant };
      ranges = ranges.items;
      slots = slots.items;
      terms = terms.items;
    } }
{
    RecordParts {
        point,
        constant,
        ranges,
        slots,
        terms,
    }
}

/// A record of a certificate.
fn record_of(alloc: Global, point: &RecordRef<'_>) -> Result<RecordParts, AllocError>
    ensures { IfOk result (λ made. HasRecordCounts point.now → made ≡ point.now) }
{
    let number = point.point();
    let constant = point.constant();
    let ranges = entries_of(alloc, point.ranges())?;
    let slots = entries_of(alloc, point.slots())?;
    let terms = entries_of(alloc, point.terms())?;
    Ok(record_with(number, constant, ranges, slots, terms))
}

/// The records of a certificate.
pub(crate) fn records_of(
    alloc: Global,
    records: Records<'_>,
) -> Result<Vec<RecordParts>, AllocError>
    ensures { IfOk result (λ all. All HasRecordCounts records.entry → all.items ≡ records.entry) }
{
    let mut all = Vec::new(alloc);
    for point in records {
        all.push(record_of(alloc, &point)?)?;
    }
    Ok(all)
}
