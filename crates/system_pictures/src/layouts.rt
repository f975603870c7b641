//! Where boxes lie and arrows end: threads from the highest priority down, beside them what they share, and last what comes from outside.
//! No two boxes overlap, and arrows run between the columns alone.

use crate::arrows::{Arrow, Arrows};
use crate::uses::Uses;
use source_texts::SourceText;
use std::alloc::{AllocError, Global};

/// How high the head of a box is: its name and a line below it.
const HEAD: u32 = 34;

/// How high a line is, and so how far apart arrows end.
pub(crate) const LINE: u32 = 13;

/// What is below the last line of a box.
const FOOT: u32 = 6;

/// How far apart boxes are.
const GAP: u32 = 14;

/// How high the box of a line of the machine or of the world is.
pub(crate) const OUTSIDE: u32 = 22;

/// Where the picture begins.
const TOP: u32 = 10;

/// A thread or an object that is drawn.
#[derive(Drop)]
pub(crate) struct Place {
    /// Its number.
    pub(crate) number: usize,
    pub(crate) top: u32,
    pub(crate) height: u32,
    /// What is said in it below its head.
    pub(crate) notes: Vec<String>,
}

/// What reaches an object from outside: a line of the machine, or the world at a device page.
#[derive(Clone, Copy, Debug)]
pub(crate) struct Outside {
    /// The line by its number in the text.
    pub(crate) line: Option<usize>,
    pub(crate) top: u32,
    /// How far below the top of the picture the middle of the object is.
    pub(crate) object_height: u32,
}

/// Where all is drawn.
#[derive(Drop)]
pub(crate) struct Layout {
    pub(crate) threads: Vec<Place>,
    pub(crate) objects: Vec<Place>,
    pub(crate) outside: Vec<Outside>,
    pub(crate) height: u32,
}

/// A number with what it is sorted by.
#[derive(Clone, Copy, Debug, PartialEq, Eq, PartialOrd, Ord)]
struct Keyed {
    key: u64,
    number: usize,
}

/// Which arrows end at each of so many threads or objects.
#[derive(Drop)]
struct Ends {
    of: Vec<Vec<usize>>,
}

impl Ends {
    /// None.
    fn none(alloc: Global, count: usize) -> Result<Ends, AllocError> {
        let mut of = Vec::new(alloc);
        for _ in 0..count {
            of.push(Vec::new(alloc))?;
        }
        Ok(Ends { of })
    }

    /// One arrow more that ends at a thread or object.
    fn add(&mut self, at: usize, arrow: usize) -> Result<(), AllocError> {
        if let Some(arrows) = self.of.get_mut(at) {
            arrows.push(arrow)?;
        }
        Ok(())
    }

    /// The arrows that end at a thread or object.
    fn at(&self, number: usize) -> &[usize] {
        match self.of.get(number) {
            Some(arrows) => arrows.as_slice(),
            None => &[],
        }
    }
}

/// The threads of a text from the highest priority down.
fn thread_order(alloc: Global, text: &SourceText<'_>) -> Result<Vec<Keyed>, AllocError> {
    let mut order = Vec::new(alloc);
    for (number, thread) in text.threads.iter().enumerate() {
        let key = u64::MAX - u64::from(thread.priority);
        order.push(Keyed { key, number })?;
    }
    order.sort()?;
    Ok(order)
}

/// The place in an order of each of so many numbers.
fn ranks_of(alloc: Global, count: usize, order: &[Keyed]) -> Result<Vec<u64>, AllocError> {
    let mut ranks = Vec::new(alloc);
    ranks.resize(count, 0u64)?;
    let mut place = 0u64;
    for entry in order {
        if let Some(rank) = ranks.get_mut(entry.number) {
            *rank = place;
        }
        place = place.saturating_add(1);
    }
    Ok(ranks)
}

/// The place of a number in an order.
fn rank_of(ranks: &[u64], number: usize) -> u64 {
    match ranks.get(number) {
        Some(rank) => *rank,
        None => 0,
    }
}

/// Whether an object is drawn though no thread uses it: a device page, or what a line signals.
fn is_met_outside(text: &SourceText<'_>, object: usize) -> bool {
    text.is_device(object)
        || text
            .interrupts
            .iter()
            .any(|line| line.notification == object)
}

/// The objects that are drawn, each beside the threads that use it as far as that goes.
fn object_order(
    alloc: Global,
    text: &SourceText<'_>,
    arrows: &Arrows,
    ends: &Ends,
    ranks: &[u64],
) -> Result<Vec<Keyed>, AllocError> {
    let mut order = Vec::new(alloc);
    for number in 0..text.objects.len() {
        let at = ends.at(number);
        if !at.is_empty() || is_met_outside(text, number) {
            let key = middle_of(arrows, at, ranks);
            order.push(Keyed { key, number })?;
        }
    }
    order.sort()?;
    Ok(order)
}

/// The middle of the places of the threads at which these arrows begin, in thousandths; the last one where there are none.
fn middle_of(arrows: &Arrows, at: &[usize], ranks: &[u64]) -> u64 {
    let mut sum = 0u64;
    let mut count = 0u64;
    for number in at {
        if let Some(arrow) = arrows.all.get(*number) {
            sum = sum.saturating_add(rank_of(ranks, arrow.thread));
            count = count.saturating_add(1);
        }
    }
    match sum.saturating_mul(1000).checked_div(count) {
        Some(middle) => middle,
        None => u64::MAX,
    }
}

/// Which end of an arrow.
#[derive(Clone, Copy, PartialEq, Eq)]
enum End {
    Thread,
    Object,
}

/// Arrows that end in one box, in the order in which they go to the other column.
fn sorted_arrows(
    alloc: Global,
    arrows: &Arrows,
    at: &[usize],
    other: End,
    ranks: &[u64],
) -> Result<Vec<Keyed>, AllocError> {
    let mut order = Vec::new(alloc);
    for number in at {
        if let Some(arrow) = arrows.all.get(*number) {
            let place = match other {
                End::Thread => arrow.thread,
                End::Object => arrow.object,
            };
            let key = rank_of(ranks, place);
            order.push(Keyed {
                key,
                number: *number,
            })?;
        }
    }
    order.sort()?;
    Ok(order)
}

/// Says where arrows end in a box, the first one so far below the top of the picture.
fn end_arrows(arrows: &mut Arrows, order: &[Keyed], end: End, first: u32) {
    let mut height = first;
    for entry in order {
        if let Some(arrow) = arrows.all.get_mut(entry.number) {
            end_arrow(arrow, end, height);
        }
        height = height.saturating_add(LINE);
    }
}

/// Says where an arrow ends.
fn end_arrow(arrow: &mut Arrow, end: End, height: u32) {
    match end {
        End::Thread => arrow.thread_height = height,
        End::Object => arrow.object_height = height,
    }
}

/// How high so many lines are.
fn lines_high(count: usize) -> u32 {
    match u32::try_from(count) {
        Ok(count) => count.saturating_mul(LINE),
        Err(_) => u32::MAX,
    }
}

/// Whether a page is a thread's own.
fn is_own_page(text: &SourceText<'_>, users: &[u64], frame: usize) -> bool {
    let is_alone = match users.get(frame) {
        Some(set) => *set != 0 && set.wrapping_sub(1) & *set == 0,
        None => false,
    };
    is_alone && !text.is_device(frame)
}

/// What is said in the box of a thread below its priority: how many pages it alone has, and the lines that it acknowledges.
fn notes_of(
    alloc: Global,
    text: &SourceText<'_>,
    uses: &Uses,
    users: &[u64],
    thread: usize,
    root: usize,
) -> Result<Vec<String>, AllocError> {
    let mut notes = Vec::new(alloc);
    let mut pages = 0u32;
    for frame in &text.frames {
        if frame.root == root && is_own_page(text, users, frame.frame) {
            pages = pages.saturating_add(1);
        }
    }
    if pages > 0 {
        let words = if pages == 1 { "page" } else { "pages" };
        notes.push(format!(in alloc; "{pages} {words} of its own")?)?;
    }
    for found in &uses.lines {
        if found.thread == thread {
            if let Some(line) = text.interrupts.get(found.line) {
                let number = line.number;
                notes.push(format!(in alloc; "acknowledges line {number}")?)?;
            }
        }
    }
    Ok(notes)
}

/// A layout that is being made.
#[derive(Drop)]
struct Laying<'t, 's> {
    alloc: Global,
    text: &'t SourceText<'s>,
    uses: &'t Uses,
    users: Vec<u64>,
    layout: Layout,
}

impl Laying<'_, '_> {
    /// Places the threads, one below the other, and says where their arrows begin.
    fn place_threads(
        &mut self,
        arrows: &mut Arrows,
        order: &[Keyed],
        ends: &Ends,
        object_ranks: &[u64],
    ) -> Result<(), AllocError> {
        let mut top = TOP;
        for entry in order {
            let number = entry.number;
            let at = ends.at(number);
            let sorted = sorted_arrows(self.alloc, arrows, at, End::Object, object_ranks)?;
            let notes = self.notes(number)?;
            let first = top
                .saturating_add(HEAD)
                .saturating_add(lines_high(notes.len()));
            end_arrows(
                arrows,
                sorted.as_slice(),
                End::Thread,
                first.saturating_add(LINE / 2),
            );
            let end = first
                .saturating_add(lines_high(sorted.len()))
                .saturating_add(FOOT);
            let height = end.saturating_sub(top);
            self.layout.threads.push(Place {
                number,
                top,
                height,
                notes,
            })?;
            top = end.saturating_add(GAP);
        }
        self.layout.height = self.layout.height.max(top);
        Ok(())
    }

    /// What is said in the box of a thread.
    fn notes(&self, number: usize) -> Result<Vec<String>, AllocError> {
        match self.text.threads.get(number) {
            Some(thread) => notes_of(
                self.alloc,
                self.text,
                self.uses,
                self.users.as_slice(),
                number,
                thread.root,
            ),
            None => Ok(Vec::new(self.alloc)),
        }
    }

    /// Places the objects, each as near as may be to where its arrows begin, and says where they end.
    fn place_objects(
        &mut self,
        arrows: &mut Arrows,
        order: &[Keyed],
        ends: &Ends,
        thread_ranks: &[u64],
    ) -> Result<(), AllocError> {
        let mut free = TOP;
        for entry in order {
            let number = entry.number;
            let at = ends.at(number);
            let sorted = sorted_arrows(self.alloc, arrows, at, End::Thread, thread_ranks)?;
            let lines = lines_high(sorted.len());
            let height = lines.saturating_add(10).max(HEAD.saturating_add(4));
            let wanted = mean_height(arrows, sorted.as_slice()).saturating_sub(height / 2);
            let top = free.max(wanted);
            let above = height.saturating_sub(lines) / 2;
            let first = top.saturating_add(above).saturating_add(LINE / 2);
            end_arrows(arrows, sorted.as_slice(), End::Object, first);
            self.layout.objects.push(Place {
                number,
                top,
                height,
                notes: Vec::new(self.alloc),
            })?;
            free = top.saturating_add(height).saturating_add(GAP);
        }
        self.layout.height = self.layout.height.max(free);
        Ok(())
    }

    /// Places what comes from outside beside the objects that it reaches.
    fn place_outside(&mut self) -> Result<(), AllocError> {
        let mut free = TOP;
        for object in &self.layout.objects {
            let middle = object.top.saturating_add(object.height / 2);
            let outside = &mut self.layout.outside;
            for (line, interrupt) in self.text.interrupts.iter().enumerate() {
                if interrupt.notification == object.number {
                    free = push_outside(outside, free, Some(line), middle)?;
                }
            }
            if self.text.is_device(object.number) {
                free = push_outside(outside, free, None, middle)?;
            }
        }
        self.layout.height = self.layout.height.max(free);
        Ok(())
    }
}

/// Places what reaches an object from outside, and says where the next one may lie.
fn push_outside(
    outside: &mut Vec<Outside>,
    free: u32,
    line: Option<usize>,
    object_height: u32,
) -> Result<u32, AllocError> {
    let top = free.max(object_height.saturating_sub(OUTSIDE / 2));
    outside.push(Outside {
        line,
        top,
        object_height,
    })?;
    Ok(top.saturating_add(OUTSIDE).saturating_add(6))
}

/// The middle of the heights at which arrows begin.
fn mean_height(arrows: &Arrows, order: &[Keyed]) -> u32 {
    let mut sum = 0u64;
    let mut count = 0u64;
    for entry in order {
        if let Some(arrow) = arrows.all.get(entry.number) {
            sum = sum.saturating_add(u64::from(arrow.thread_height));
            count = count.saturating_add(1);
        }
    }
    match sum.checked_div(count) {
        Some(mean) => u32::try_from(mean).unwrap_or(0),
        None => 0,
    }
}

/// Which arrows end at each thread, and which at each object.
fn ends_of(
    alloc: Global,
    text: &SourceText<'_>,
    arrows: &Arrows,
) -> Result<(Ends, Ends), AllocError> {
    let mut threads = Ends::none(alloc, text.threads.len())?;
    let mut objects = Ends::none(alloc, text.objects.len())?;
    for (number, arrow) in arrows.all.iter().enumerate() {
        threads.add(arrow.thread, number)?;
        objects.add(arrow.object, number)?;
    }
    Ok((threads, objects))
}

/// Where the threads of a text lie, with what they use, and where these arrows end.
pub(crate) fn layout_of(
    alloc: Global,
    text: &SourceText<'_>,
    uses: &Uses,
    arrows: &mut Arrows,
) -> Result<Layout, AllocError> {
    let (at_threads, at_objects) = ends_of(alloc, text, arrows)?;
    let threads = thread_order(alloc, text)?;
    let thread_ranks = ranks_of(alloc, text.threads.len(), threads.as_slice())?;
    let objects = object_order(alloc, text, arrows, &at_objects, thread_ranks.as_slice())?;
    let object_ranks = ranks_of(alloc, text.objects.len(), objects.as_slice())?;
    let mut laying = Laying {
        alloc,
        text,
        uses,
        users: uses.users(alloc, text.objects.len())?,
        layout: Layout {
            threads: Vec::new(alloc),
            objects: Vec::new(alloc),
            outside: Vec::new(alloc),
            height: TOP,
        },
    };
    laying.place_threads(
        arrows,
        threads.as_slice(),
        &at_threads,
        object_ranks.as_slice(),
    )?;
    laying.place_objects(
        arrows,
        objects.as_slice(),
        &at_objects,
        thread_ranks.as_slice(),
    )?;
    laying.place_outside()?;
    Ok(laying.layout)
}
