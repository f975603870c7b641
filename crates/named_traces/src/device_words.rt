//! The words of device pages, by their addresses and by names.

ghost use Rattle.std.specs.Prelude.{◌≡◌};
ghost use Rattle.named_traces.specs.Words.{word_of_page};

use crate::names::push_next;
use indexmap::IndexMap;
use std::alloc::{AllocError, Global};

/// The bytes of a page, and of a word.
const PAGE_BYTES: u32 = 4096;

const WORD_BYTES: u32 = 4;

/// The words of a page.
const PAGE_WORDS: u32 = 1024;

/// A word of a device page.
#[derive(Clone, Copy, Debug, PartialEq, Eq)]
pub struct DeviceWord<'t> {
    /// The name of the page.
    pub page: &'t str,
    /// The number of the word in its page, from 0.
    pub index: u32,
}

impl DeviceWord<'_> {
    /// Puts it as `NAME INDEX`.
    ///
    /// # Errors
    ///
    /// Memory is refused.
    pub fn push(&self, to: &mut String) -> Result<(), AllocError> {
        let (page, index) = (self.page, self.index);
        write!(to, "{page} {index}")
    }
}

/// A device page.
#[derive(Clone, Copy, Debug, PartialEq, Eq)]
pub struct DevicePage {
    /// The physical address of its first byte.
    start: u32,
}

impl DevicePage {
    /// The physical address of the word of this number, from 0, if the page has so many.
    pub fn word(self, index: u32) -> Option<u32>
        ensures { result ≡ word_of_page self.start index }
    {
        if index < PAGE_WORDS {
            self.start.checked_add(WORD_BYTES * index)
        } else {
            None
        }
    }
}

/// The device pages of a text.
#[derive(Drop)]
pub(crate) struct DevicePages<'t> {
    /// Their names, by the physical addresses of their first bytes.
    names: IndexMap<u32, &'t str>,
    /// The pages by their names.
    pages: IndexMap<&'t str, DevicePage>,
}

impl<'t> DevicePages<'t> {
    /// No page.
    pub(crate) fn new(alloc: Global) -> Self {
        DevicePages {
            names: IndexMap::new(alloc),
            pages: IndexMap::new(alloc),
        }
    }

    /// One page more.
    pub(crate) fn add(&mut self, start: u32, name: &'t str) -> Result<(), AllocError> {
        self.names.insert(start, name)?;
        self.pages.insert(name, DevicePage { start })?;
        Ok(())
    }

    /// The page of this name.
    pub(crate) fn page(&self, name: &str) -> Option<DevicePage> {
        self.pages.get(name).copied()
    }

    /// The word at a physical address.
    pub(crate) fn word(&self, address: u32) -> Option<DeviceWord<'t>> {
        let place = address % PAGE_BYTES;
        let page = self.names.get(&address.saturating_sub(place))?;
        Some(DeviceWord {
            page: *page,
            index: place / WORD_BYTES,
        })
    }

    /// Whether there is one.
    pub(crate) fn are_any(&self) -> bool {
        !self.names.is_empty()
    }

    /// Puts the names of the pages.
    pub(crate) fn push_names(&self, to: &mut String) -> Result<(), AllocError> {
        for (before, name) in self.names.values().enumerate() {
            push_next(to, before, name)?;
        }
        Ok(())
    }
}
