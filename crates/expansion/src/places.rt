//! Where the pages of a part are in its address space.

use crate::faults::{Fault, refused};
use described_systems::{Part, View};
use indexmap::IndexMap;
use std::alloc::{AllocError, Global};

/// The number of the first page of a program, which is at 0x1000.
pub(crate) const CODE_PAGE: u32 = 1;

/// The number of the first page that may be chosen, at 0x10000.
const FIRST_PAGE: u32 = 16;

/// How many pages there are below 0x80000000.
const PAGES_END: u32 = 1 << 19;

/// How many words a page has.
const PAGE_WORDS: u64 = 1024;

/// How many pages a program has at most.
const MOST_CODE_PAGES: u32 = 64;

/// The address of a page, by its number.
pub(crate) fn address_of(page: u32) -> u32 {
    page.saturating_mul(4096)
}

/// The number of the 4 MiB in which a page is.
pub(crate) fn region_of(page: u32) -> u32 {
    page >> 10
}

/// A page of a part, by the number of its address.
#[derive(Clone, Copy)]
pub(crate) struct PlacedPage<'a> {
    pub(crate) line: u64,
    pub(crate) name: &'a str,
    /// The first of its frames.
    pub(crate) page: u32,
    pub(crate) frames: u32,
    pub(crate) writes: bool,
}

/// Pages in a row.
#[derive(Clone, Copy)]
pub(crate) struct Row {
    pub(crate) first: u32,
    pub(crate) count: u32,
}

/// Where all pages of a part are.
#[derive(Drop)]
pub(crate) struct Places<'a> {
    /// Its program, from 0x1000.
    pub(crate) code: Row,
    pub(crate) pages: Vec<PlacedPage<'a>>,
    /// What a program from C has besides.
    pub(crate) data: Row,
    pub(crate) stack: Row,
    /// The 4 MiB for which it has page tables.
    pub(crate) regions: Vec<u32>,
}

/// The addresses by the names of pages, by which parts have a page at the same address where that is free.
#[derive(Drop)]
pub(crate) struct Habits<'a> {
    pages: IndexMap<&'a str, u32>,
}

impl<'a> Habits<'a> {
    /// The addresses that are said, in the order of the parts.
    pub(crate) fn of(alloc: Global, parts: &[Part<'a>]) -> Result<Self, AllocError> {
        let mut habits = Habits {
            pages: IndexMap::new(alloc),
        };
        for part in parts {
            for view in &part.views {
                if let Some(address) = view.address {
                    habits.note(view.page, address >> 12)?;
                }
            }
        }
        Ok(habits)
    }

    /// Where a page is, unless that is known.
    fn note(&mut self, name: &'a str, page: u32) -> Result<(), AllocError> {
        if self.pages.get(name).is_none() {
            self.pages.insert(name, page)?;
        }
        Ok(())
    }
}

/// An address space that is being filled.
#[derive(Drop)]
struct Space<'a> {
    alloc: Global,
    /// What is on each page that is used.
    used: IndexMap<u32, &'a str>,
    /// Where each page is that has its place.
    pages: IndexMap<&'a str, u32>,
    /// No page is free from the first that may be chosen up to this one.
    next: u32,
}

impl<'a> Space<'a> {
    fn new(alloc: Global) -> Self {
        Space {
            alloc,
            used: IndexMap::new(alloc),
            pages: IndexMap::new(alloc),
            next: FIRST_PAGE,
        }
    }

    fn is_free(&self, page: u32) -> bool {
        self.used.get(&page).is_none()
    }

    /// What is on one of so many frames from this one on, or the end of all addresses, if something is.
    fn first_used(&self, page: u32, frames: u32) -> Option<&'a str> {
        for page in page..page.saturating_add(frames) {
            if PAGES_END <= page {
                return Some("the end of all addresses");
            }
            if let Some(name) = self.used.get(&page) {
                return Some(*name);
            }
        }
        None
    }

    /// Pages in a row that are used for one thing.
    fn take_row(&mut self, row: Row, name: &'a str) -> Result<(), AllocError> {
        for page in row.first..row.first.saturating_add(row.count) {
            self.used.insert(page, name)?;
        }
        Ok(())
    }

    /// A page of which all frames are free gets its place.
    fn take(&mut self, view: &View<'a>, page: u32) -> Result<(), AllocError> {
        let row = Row {
            first: page,
            count: view.frames,
        };
        self.take_row(row, view.page)?;
        self.pages.insert(view.page, page)?;
        Ok(())
    }

    /// A page at an address that is said.
    fn take_said(&mut self, view: &View<'a>, address: u32) -> Result<(), Fault> {
        let page = address >> 12;
        if let Some(other) = self.first_used(page, view.frames) {
            let name = view.page;
            return Err(refused(
                view.line,
                format!(in self.alloc; "{name} and {other} are both at {address:#x}"),
            ));
        }
        Ok(self.take(view, page)?)
    }

    /// The pages at addresses that are said.
    fn take_all_said(&mut self, part: &Part<'a>) -> Result<(), Fault> {
        for view in &part.views {
            if let Some(address) = view.address {
                self.take_said(view, address)?;
            }
        }
        Ok(())
    }

    /// The pages that other parts have at addresses which are free here.
    fn take_habits(&mut self, part: &Part<'a>, habits: &Habits<'a>) -> Result<(), AllocError> {
        for view in &part.views {
            if self.pages.get(view.page).is_none() {
                if let Some(page) = habits.pages.get(view.page) {
                    if self.first_used(*page, view.frames).is_none() {
                        self.take(view, *page)?;
                    }
                }
            }
        }
        Ok(())
    }

    /// The first of so many free pages in a row.
    fn first_free(&self, frames: u32) -> Option<u32> {
        let mut free = 0u32;
        for page in self.next..PAGES_END {
            free = if self.is_free(page) {
                free.saturating_add(1)
            } else {
                0
            };
            if frames <= free {
                return Some(page.saturating_sub(frames.saturating_sub(1)));
            }
        }
        None
    }

    /// The other pages, where the first is free.
    fn take_rest(&mut self, part: &Part<'a>) -> Result<(), Fault> {
        for view in &part.views {
            if self.pages.get(view.page).is_none() {
                let Some(page) = self.first_free(view.frames) else {
                    return Err(self.no_room(view.line));
                };
                if view.frames == 1 {
                    self.next = page;
                }
                self.take(view, page)?;
            }
        }
        Ok(())
    }

    fn no_room(&self, line: u64) -> Fault {
        refused(
            line,
            format!(in self.alloc; "no address is free for this in the part"),
        )
    }

    /// Whether so many pages from this one on are free, and one on each side.
    fn is_free_row(&self, row: Row) -> bool {
        for page in row.first.saturating_sub(1)..=row.first.saturating_add(row.count) {
            if page >= PAGES_END || !self.is_free(page) {
                return false;
            }
        }
        true
    }

    /// The first pages in a row that are free.
    fn free_row(&self, count: u32) -> Option<Row> {
        for first in FIRST_PAGE..PAGES_END {
            let row = Row { first, count };
            if self.is_free_row(row) {
                return Some(row);
            }
        }
        None
    }

    /// Pages in a row for what a program from C has besides.
    fn take_free_row(&mut self, line: u64, count: u32, name: &'a str) -> Result<Row, Fault> {
        if count == 0 {
            return Ok(Row { first: 0, count });
        }
        match self.free_row(count) {
            Some(row) => {
                self.take_row(row, name)?;
                Ok(row)
            }
            None => Err(self.no_room(line)),
        }
    }

    /// The pages of a part, in the order of its lines.
    fn placed(&self, part: &Part<'a>) -> Result<Vec<PlacedPage<'a>>, AllocError> {
        let mut placed = Vec::new(self.alloc);
        for view in &part.views {
            if let Some(page) = self.pages.get(view.page) {
                placed.push(PlacedPage {
                    line: view.line,
                    name: view.page,
                    page: *page,
                    frames: view.frames,
                    writes: view.writes,
                })?;
            }
        }
        Ok(placed)
    }

    /// The 4 MiB in which pages are, and that in which the part may map.
    fn regions(&self, part: &Part<'a>) -> Result<Vec<u32>, AllocError> {
        let mut regions = Vec::new(self.alloc);
        for (page, _) in self.used.iter() {
            add_once(&mut regions, region_of(*page))?;
        }
        if let Some(pool) = part.pool {
            if let Some(address) = pool.region {
                add_once(&mut regions, address >> 22)?;
            }
        }
        Ok(regions)
    }
}

/// A number more, if it is not there.
fn add_once(numbers: &mut Vec<u32>, number: u32) -> Result<(), AllocError> {
    if !numbers.contains(&number) {
        numbers.push(number)?;
    }
    Ok(())
}

/// How many words the program of a part has.
fn word_count(part: &Part<'_>) -> u64 {
    let mut count = 0u64;
    for line in &part.code {
        if line.is_instruction() {
            count = count.saturating_add(1);
        }
    }
    count
}

/// The pages of a program.
fn code_of(alloc: Global, part: &Part<'_>) -> Result<Row, Fault> {
    if let Some(sources) = &part.sources {
        return Ok(Row {
            first: CODE_PAGE,
            count: sources.pages,
        });
    }
    let words = word_count(part);
    for count in 1..=MOST_CODE_PAGES {
        if words <= PAGE_WORDS.saturating_mul(u64::from(count)) {
            return Ok(Row {
                first: CODE_PAGE,
                count,
            });
        }
    }
    let name = part.name;
    Err(refused(
        part.line,
        format!(in alloc; "the program of part {name} has {words} words, and 65536 are the most"),
    ))
}

/// The data and the stack of a program from C.
fn data_and_stack<'a>(space: &mut Space<'a>, part: &Part<'a>) -> Result<(Row, Row), Fault> {
    match &part.sources {
        Some(sources) => {
            let data = space.take_free_row(sources.line, sources.data, "data")?;
            let stack = space.take_free_row(sources.line, sources.stack, "the stack")?;
            Ok((data, stack))
        }
        None => {
            let none = Row { first: 0, count: 0 };
            Ok((none, none))
        }
    }
}

/// Where all pages of a part are. Where other parts have them is noted.
pub(crate) fn places_of<'a>(
    alloc: Global,
    part: &Part<'a>,
    habits: &mut Habits<'a>,
) -> Result<Places<'a>, Fault> {
    let code = code_of(alloc, part)?;
    let mut space = Space::new(alloc);
    space.take_row(code, "the program")?;
    space.take_all_said(part)?;
    space.take_habits(part, habits)?;
    space.take_rest(part)?;
    let (data, stack) = data_and_stack(&mut space, part)?;
    let pages = space.placed(part)?;
    for page in &pages {
        habits.note(page.name, page.page)?;
    }
    Ok(Places {
        code,
        pages,
        data,
        stack,
        regions: space.regions(part)?,
    })
}
