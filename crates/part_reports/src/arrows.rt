//! Which threads may change what which others take.

use crate::names::{is_of, name_of, only};
use crate::objects::{Between, ThreadObjects, first_object, without_first};
use crate::uses::{Side, Uses, put_words};
use parts::Parts;
use source_texts::SourceText;
use std::alloc::{AllocError, Global};

/// Up to so many objects between one thread and another each have a line.
const ALL_NAMED: u32 = 8;

/// Of more objects these have one, as examples: who shares more shares pages by the hundred.
const FIRST_NAMED: u32 = 2;

/// All arrows of an image: an arrow is what one thread may change and another takes.
#[derive(Drop)]
pub(crate) struct Arrows {
    /// What each thread takes and may change.
    objects: Vec<ThreadObjects>,
    /// Of each thread those that may change what it takes.
    into: Vec<u64>,
}

/// An arrow by one object.
#[derive(Clone, Copy)]
struct Arrow {
    taker: usize,
    other: usize,
    object: usize,
    /// Whether there is one the other way.
    is_both: bool,
}

/// The threads that may change what one takes.
fn changers_of(all: &[ThreadObjects], taker: usize) -> u64 {
    let Some(own) = all.get(taker) else {
        return 0;
    };
    let mut others = 0;
    for (number, other) in all.iter().enumerate() {
        if number != taker && own.takes_from(other) {
            others |= only(number);
        }
    }
    others
}

impl Arrows {
    /// Whether there are none.
    pub(crate) fn is_empty(&self) -> bool {
        self.into.iter().all(|others| *others == 0)
    }

    /// The threads that may change what a thread takes.
    pub(crate) fn into(&self, thread: usize) -> u64 {
        match self.into.get(thread) {
            Some(others) => *others,
            None => 0,
        }
    }

    /// Those that may change what a thread of a set takes, and are not of it.
    pub(crate) fn into_all(&self, threads: u64) -> u64 {
        let mut others = 0;
        for (number, into) in self.into.iter().enumerate() {
            if is_of(threads, number) {
                others |= *into;
            }
        }
        others & !threads
    }

    /// The lines from one thread to another: with those of objects for which there is an arrow the other way, too, or without.
    fn lines_of(&self, taker: usize, other: usize, has_both: bool) -> Option<Lines<'_>> {
        let between = Between::new(self.objects.get(taker)?, self.objects.get(other)?, has_both);
        Some(Lines {
            taker,
            other,
            between,
        })
    }

    /// Puts a line for each two threads and each object that one may change and the other takes: of more than [`ALL_NAMED`] objects
    /// between two the first, and how many more. Two that are opposite have one line, where the first of both threads changes.
    pub(crate) fn put_all(
        &self,
        text: &SourceText<'_>,
        uses: &[Uses],
        lines: &mut String,
    ) -> Result<(), AllocError> {
        for taker in 0..self.into.len() {
            for other in 0..self.into.len() {
                if is_of(self.into(taker), other) {
                    if let Some(found) = self.lines_of(taker, other, other < taker) {
                        found.put(text, uses, lines)?;
                    }
                }
            }
        }
        Ok(())
    }

    /// Puts a line for each object that a thread of a set takes and one outside may change.
    pub(crate) fn put_into(
        &self,
        text: &SourceText<'_>,
        uses: &[Uses],
        threads: u64,
        lines: &mut String,
    ) -> Result<(), AllocError> {
        for taker in 0..self.into.len() {
            for other in 0..self.into.len() {
                if is_of(threads, taker) && is_of(self.into(taker) & !threads, other) {
                    if let Some(found) = self.lines_of(taker, other, true) {
                        found.put_first(text, uses, u32::MAX, lines)?;
                    }
                }
            }
        }
        Ok(())
    }
}

/// The lines from one thread to another.
#[derive(Clone, Copy)]
struct Lines<'o> {
    taker: usize,
    other: usize,
    between: Between<'o>,
}

impl Lines<'_> {
    /// The arrow by an object.
    fn arrow(&self, object: usize) -> Arrow {
        Arrow {
            taker: self.taker,
            other: self.other,
            object,
            is_both: self.between.is_both(object),
        }
    }

    /// Puts so many of them.
    fn put_first(
        &self,
        text: &SourceText<'_>,
        uses: &[Uses],
        many: u32,
        lines: &mut String,
    ) -> Result<(), AllocError> {
        let mut left = many;
        for place in 0..self.between.places() {
            let mut word = self.between.word(place);
            for _ in 0..word.count_ones().min(left) {
                put_arrow(text, uses, self.arrow(first_object(place, word)), lines)?;
                word = without_first(word);
                left = left.saturating_sub(1);
            }
        }
        Ok(())
    }

    /// Puts how many more there are.
    fn put_more(
        &self,
        text: &SourceText<'_>,
        more: u32,
        lines: &mut String,
    ) -> Result<(), AllocError> {
        let (from, to) = (name_of(text, self.other), name_of(text, self.taker));
        write!(lines, "{from}, {to}: and {more} more such\n")
    }

    /// Puts all of them, or of many the first and how many more there are.
    fn put(
        &self,
        text: &SourceText<'_>,
        uses: &[Uses],
        lines: &mut String,
    ) -> Result<(), AllocError> {
        let count = self.between.count();
        if count <= ALL_NAMED {
            return self.put_first(text, uses, count, lines);
        }
        self.put_first(text, uses, FIRST_NAMED, lines)?;
        self.put_more(text, count.saturating_sub(FIRST_NAMED), lines)
    }
}

/// Puts what a thread does with the object of an arrow.
fn put_side(
    text: &SourceText<'_>,
    uses: &[Uses],
    thread: usize,
    object: usize,
    side: Side,
    lines: &mut String,
) -> Result<(), AllocError> {
    match uses.get(thread) {
        Some(uses) => uses.put(text, name_of(text, thread), object, side, lines),
        None => Ok(()),
    }
}

/// Puts the line of an arrow. One that is for both ways begins with the first thread.
fn put_arrow(
    text: &SourceText<'_>,
    uses: &[Uses],
    arrow: Arrow,
    lines: &mut String,
) -> Result<(), AllocError> {
    let (from, to) = if arrow.is_both && arrow.taker < arrow.other {
        (arrow.taker, arrow.other)
    } else {
        (arrow.other, arrow.taker)
    };
    let (sign, first, second) = if arrow.is_both {
        (" <-> ", Side::Both, Side::Both)
    } else {
        (" -> ", Side::Changes, Side::Takes)
    };
    let by = text.object_name(arrow.object);
    put_words(
        &[
            name_of(text, from),
            sign,
            name_of(text, to),
            " by ",
            by,
            ": ",
        ],
        lines,
    )?;
    put_side(text, uses, from, arrow.object, first, lines)?;
    lines.push_str("; ")?;
    put_side(text, uses, to, arrow.object, second, lines)?;
    lines.push_str("\n")
}

/// All arrows of an image with so many objects and threads.
pub(crate) fn arrows_of(
    alloc: Global,
    objects: usize,
    threads: usize,
    parts: &Parts<'_, '_>,
) -> Result<Arrows, AllocError> {
    let mut all = Vec::new(alloc);
    for number in 0..threads {
        all.push(ThreadObjects::of(alloc, objects, parts, number)?)?;
    }
    let mut into = Vec::new(alloc);
    for number in 0..threads {
        into.push(changers_of(all.as_slice(), number))?;
    }
    Ok(Arrows { objects: all, into })
}
