//! Pages that a thread reached lately, with the places where they begin, so that an access to one of them needs no walk.

ghost use Rattle.std.specs.Prelude.{◌≡◌, ◌%◌, ◌^◌, IfSome, slice_set};
ghost use Rattle.std.specs.List.{All};
ghost use Rattle.user_memory.specs.KeptPages.{IsAround, IsNone, place_among, place_in, place_known, with_page};

use crate::page::Page;
use crate::spaces::MOST_MEMORY;
use model::Access;

/// Bytes of a page.
const PAGE_SIZE: u32 = 0x1000;

/// No page has this number.
const NO_NUMBER: u32 = 0x10_0000;

impl Page {
    /// None yet.
    fn none() -> Page
        ensures { IsNone result }
    {
        Page {
            number: NO_NUMBER,
            base: 0,
        }
    }

    /// The page of an address that has a place in memory.
    pub(crate) fn around(address: u32, place: u32) -> Option<Page>
        ensures { IfSome result (IsAround address place) }
    {
        if place < MOST_MEMORY && place >= address % PAGE_SIZE {
            Some(Page {
                number: address / PAGE_SIZE,
                base: place - address % PAGE_SIZE,
            })
        } else {
            None
        }
    }

    /// The place of an address, if it lies in the page.
    #[inline]
    fn place(self, address: u32) -> Option<u32>
        ensures { result ≡ place_in self address }
    {
        if address / PAGE_SIZE == self.number {
            Some(self.base + address % PAGE_SIZE)
        } else {
            None
        }
    }
}

/// Four pages, each by the low two bits of its number.
type FewPages = [Page; 4];

/// The place of an address, if it lies in one of the pages.
#[inline]
fn place_among(pages: &FewPages, address: u32) -> Option<u32>
    ensures { result ≡ place_among pages.now address }
{
    pages[(address / PAGE_SIZE % 4) as usize].place(address)
}

/// Keeps a page, in place of the one whose number has the same low two bits.
fn put(pages: &mut FewPages, page: Page)
    ensures { pages.new ≡ slice_set pages.old (page.number % 4) page }
{
    pages[(page.number % 4) as usize] = page;
}

/// The root table of a thread, and the pages under it that the thread reached lately: the one that it runs from, and those that
/// it loads from and stores into.
#[derive(Drop)]
pub(crate) struct Pages {
    pub(crate) root: Option<u32>,
    code: Page,
    loads: FewPages,
    stores: FewPages,
}

impl Pages {
    /// None yet.
    pub(crate) fn under(root: Option<u32>) -> Pages
        ensures root { result.root ≡ root }
        ensures code { IsNone result.code }
        ensures loads { All IsNone result.loads }
        ensures stores { All IsNone result.stores }
    {
        Pages {
            root,
            code: Page::none(),
            loads: [Page::none(); 4],
            stores: [Page::none(); 4],
        }
    }

    /// The place that an address has for an access, if its page is kept.
    #[inline]
    pub(crate) fn place(&self, address: u32, access: Access) -> Option<u32>
        ensures { result ≡ place_known self.now access address }
    {
        match access {
            Access::Fetch => self.code.place(address),
            Access::Load => place_among(&self.loads, address),
            Access::Store => place_among(&self.stores, address),
        }
    }

    /// Keeps a page for an access.
    pub(crate) fn keep(&mut self, page: Page, access: Access)
        ensures { self.new ≡ with_page self.old access page }
    {
        match access {
            Access::Fetch => self.code = page,
            Access::Load => put(&mut self.loads, page),
            Access::Store => put(&mut self.stores, page),
        }
    }
}
