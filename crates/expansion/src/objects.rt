//! The objects of a text, the greatest first: nothing is lost between them then.

use crate::faults::{Fault, refused};
use crate::places::{Places, Row};
use crate::sizes::{PAGE_BYTES, SLOT_BYTES, bits_for, power_of_two};
use described_systems::{Declaration, Kind, Part};
use std::alloc::{AllocError, Global};

/// The greatest radix of a CNode.
const MOST_RADIX: u32 = 14;

/// The size of a frame that is a device page; that of others is 0.
const DEVICE_SIZE: u32 = 1;

/// What an object is.
#[derive(Clone, Copy)]
pub(crate) enum Sort {
    Untyped { bits: u32 },
    Tcb,
    Endpoint,
    Notification,
    CNode { radix: u32 },
    Frame,
    /// A frame that the world writes and reads.
    DevicePage,
    Table,
    Root,
}

impl Sort {
    /// How many bytes it takes.
    pub(crate) fn bytes(self) -> u64 {
        match self {
            Sort::Untyped { bits } => power_of_two(bits),
            Sort::CNode { radix } => SLOT_BYTES.saturating_mul(power_of_two(radix)),
            Sort::Frame | Sort::DevicePage | Sort::Table | Sort::Root => PAGE_BYTES,
            Sort::Tcb => 512,
            Sort::Endpoint | Sort::Notification => 16,
        }
    }

    /// The word of a text for it.
    pub(crate) fn word(self) -> &'static str {
        match self {
            Sort::Untyped { .. } => "untyped",
            Sort::Tcb => "tcb",
            Sort::Endpoint => "endpoint",
            Sort::Notification => "notification",
            Sort::CNode { .. } => "cnode",
            Sort::Frame | Sort::DevicePage => "frame",
            Sort::Table => "table",
            Sort::Root => "root",
        }
    }

    /// The size that a text has after that word.
    pub(crate) fn size(self) -> Option<u32> {
        match self {
            Sort::Untyped { bits } => Some(bits),
            Sort::CNode { radix } => Some(radix),
            Sort::DevicePage => Some(DEVICE_SIZE),
            _ => None,
        }
    }
}

/// An object, by its name.
#[derive(Drop)]
pub(crate) struct Object {
    pub(crate) line: u64,
    pub(crate) name: String,
    pub(crate) sort: Sort,
}

/// The objects so far.
#[derive(Drop)]
pub(crate) struct Objects {
    alloc: Global,
    pub(crate) list: Vec<Object>,
}

/// The radix of the CNode of a part: the least with which all slots are there.
pub(crate) fn radix_of(alloc: Global, part: &Part<'_>) -> Result<u32, Fault> {
    let slots = part.next_slot;
    match bits_for(u64::from(slots), 1, MOST_RADIX) {
        Some(radix) => Ok(radix),
        None => {
            let name = part.name;
            Err(refused(
                part.line,
                format!(in alloc; "part {name} has {slots} slots, and 16384 are the most"),
            ))
        }
    }
}

/// The name of a frame of a page: the first one has that of the page.
pub(crate) fn frame_name(alloc: Global, page: &str, frame: u32) -> Result<String, AllocError> {
    if frame == 0 {
        String::from_str(alloc, page)
    } else {
        format!(in alloc; "{page}_page{frame}")
    }
}

impl Objects {
    /// No objects.
    pub(crate) fn new(alloc: Global) -> Self {
        Objects {
            alloc,
            list: Vec::new(alloc),
        }
    }

    fn add(&mut self, line: u64, name: String, sort: Sort) -> Result<(), AllocError> {
        self.list.push(Object { line, name, sort })?;
        Ok(())
    }

    /// An object of a part, by the end of its name.
    fn add_of(&mut self, part: &Part<'_>, ending: &str, sort: Sort) -> Result<(), AllocError> {
        let owner = part.name;
        let name = format!(in self.alloc; "{owner}_{ending}")?;
        self.add(part.line, name, sort)
    }

    /// Frames of a part with numbers in their names.
    fn add_row(&mut self, part: &Part<'_>, stem: &str, row: Row) -> Result<(), AllocError> {
        let owner = part.name;
        for number in 0..row.count {
            let name = format!(in self.alloc; "{owner}_{stem}{number}")?;
            self.add(part.line, name, Sort::Frame)?;
        }
        Ok(())
    }

    /// The page tables of a part.
    fn add_tables(&mut self, part: &Part<'_>, regions: &[u32]) -> Result<(), AllocError> {
        let owner = part.name;
        for region in regions {
            let name = format!(in self.alloc; "{owner}_table{region}")?;
            self.add(part.line, name, Sort::Table)?;
        }
        Ok(())
    }

    /// All objects of a part.
    pub(crate) fn add_part(
        &mut self,
        part: &Part<'_>,
        places: &Places<'_>,
        radix: u32,
    ) -> Result<(), AllocError> {
        let name = String::from_str(self.alloc, part.name)?;
        self.add(part.line, name, Sort::Tcb)?;
        self.add_row(part, "code", places.code)?;
        self.add_row(part, "data", places.data)?;
        self.add_row(part, "stack", places.stack)?;
        self.add_of(part, "space", Sort::Root)?;
        self.add_tables(part, places.regions.as_slice())?;
        self.add_of(part, "slots", Sort::CNode { radix })?;
        match part.pool {
            Some(pool) => self.add_of(part, "pool", Sort::Untyped { bits: pool.bits }),
            None => Ok(()),
        }
    }

    /// A page, a device page, a bell or a door. A page has as many frames as are said of it.
    pub(crate) fn add_declared(&mut self, declared: &Declaration<'_>) -> Result<(), AllocError> {
        let sort = match declared.kind {
            Kind::Page => Sort::Frame,
            Kind::Device => Sort::DevicePage,
            Kind::Bell => Sort::Notification,
            Kind::Door => Sort::Endpoint,
            Kind::Part | Kind::Number => return Ok(()),
        };
        for frame in 0..declared.frames {
            let name = frame_name(self.alloc, declared.name, frame)?;
            self.add(declared.line, name, sort)?;
        }
        Ok(())
    }

    /// The greatest first, and those of one size in the order of the description.
    pub(crate) fn arrange(&mut self) -> Result<(), AllocError> {
        self.list.sort_by_key(|object| object.line)?;
        self.list
            .sort_by_key(|object| u64::MAX - object.sort.bytes())
    }

    /// How many bytes all of them take.
    pub(crate) fn bytes(&self) -> u64 {
        let mut bytes = 0u64;
        for object in &self.list {
            bytes = bytes.saturating_add(object.sort.bytes());
        }
        bytes
    }
}
