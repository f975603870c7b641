//! Whether loads and stores reach only bytes that the thread may read or write.
//! RISC-V Unprivileged ISA, 2.6 "Load and Store Instructions".

ghost use Rattle.std.specs.Prelude.{ℕ, ◌≡◌, ◌<◌, ◌≤◌, ◌≤ℤ◌, ◌+ℤ◌, ◌^◌, IfNone, IfSome, false, pos, true};
ghost use Rattle.std.specs.Int.{byte_len};
ghost use Rattle.model.specs.Machine.Effects.{load_size, store_size};
ghost use Rattle.model.specs.Machine.ProgramMemory.{width_of};
ghost use Rattle.program_rules.specs.point_rules.Runs.{AreRuns};
ghost use Rattle.program_rules.specs.ReachedPages.{are_mapped_in, is_allowed_in, is_listed_there, is_mapped_in, is_mapped_there};

use crate::point_rules::listed_pages::{PageRun, is_listed, run_end};
use crate::point_rules::page_numbers::Page;
use crate::point_rules::{AccessPages, FoundRuns, Pages, ReachedBytes};
use model::{Access, AccessSize, LoadOp, StoreOp};

/// How many bytes an access of this size has.
fn width(size: AccessSize) -> u32
    ensures value { result ≡ byte_len (width_of size) }
    ensures range { (1 ≤ result) × (result ≤ 4) }
{
    match size {
        AccessSize::Byte => 1,
        AccessSize::Halfword => 2,
        AccessSize::Word => 4,
    }
}

/// How much a load reads.
pub(crate) fn size_of_load(op: LoadOp) -> AccessSize
    ensures { result ≡ load_size op }
{
    match op {
        LoadOp::Lb | LoadOp::Lbu => AccessSize::Byte,
        LoadOp::Lh | LoadOp::Lhu => AccessSize::Halfword,
        LoadOp::Lw => AccessSize::Word,
    }
}

/// How much a store writes.
pub(crate) fn size_of_store(op: StoreOp) -> AccessSize
    ensures { result ≡ store_size op }
{
    match op {
        StoreOp::Sb => AccessSize::Byte,
        StoreOp::Sh => AccessSize::Halfword,
        StoreOp::Sw => AccessSize::Word,
    }
}

/// The whole number that is so far after an address.
fn moved(address: u32, offset: i32) -> i64
    ensures value { result ≡ pos address +ℤ offset }
    ensures range { result ≤ℤ pos (2 ^ 40) }
{
    i64::from(address) + i64::from(offset)
}

impl AccessPages<'_, '_, '_, '_> {
    /// The pages, run by run, that the image maps.
    fn runs(&self) -> &[PageRun]
        ensures { AreRuns (is_listed_there self.now) result.now }
    {
        let pages = self.pages;
        match self.access {
            Access::Load => pages.loads,
            Access::Store => pages.stores,
            Access::Fetch => &[],
        }
    }

    /// Whether a page is mapped.
    fn is_mapped(&self, page: Page) -> bool
        ensures { result ≡ is_mapped_there self.now page.number }
    {
        let pages = self.pages;
        is_listed(pages.image, pages.thread, self.access, page)
            || pages.slots.maps(self.access, pages.root, page.number)
    }

    /// A page after this one, up to which all are mapped: none, where this one is not. Those that the image maps one after another
    /// are one step, and so are those that were found.
    fn mapped_to(&self, page: Page) -> Option<u32>
        ensures later { IfSome result (λ next. page.number < next) }
        ensures mapped { IfSome result (λ next. (p : ℕ) → page.number ≤ p → p < next → is_mapped_there self.now p ≡ true) }
        ensures missing { IfNone result (is_mapped_there self.now page.number ≡ false) }
    {
        let found = self.found;
        let known = found.end(page.number);
        if page.number < known {
            return Some(known);
        }
        let end = run_end(self.runs(), page.number);
        if page.number < end {
            return Some(end);
        }
        if self.is_mapped(page) {
            Some(page.number + 1)
        } else {
            None
        }
    }

    /// The first page from one on that is not mapped, if it does not lie after the last one: else a page after that, up to which all
    /// are mapped.
    fn mapped_before(&self, first: Page, last: Page) -> u32
        ensures from { first.number ≤ result }
        ensures mapped { (p : ℕ) → first.number ≤ p → p < result → is_mapped_there self.now p ≡ true }
        ensures missing { result ≤ last.number → is_mapped_there self.now result ≡ false }
    {
        let mut page = first.number;
        'pages: for _ in first.number..last.number + 1 {
            if last.number < page {
                return page;
            }
            page = match self.mapped_to(Page { number: page }) {
                Some(next) => next,
                None => return page,
            };
        }
        page
    }
}

impl Pages<'_, '_> {
    /// Whether every page from that of one byte to that of another is mapped. Those that are found mapped are noted.
    fn are_mapped(&self, access: Access, first: u32, last: u32, found: &mut FoundRuns) -> bool
        requires { AreRuns (is_mapped_in self.now access) found.old }
        ensures is { result ≡ are_mapped_in self.now access first last }
        ensures found { AreRuns (is_mapped_in self.now access) found.new }
    {
        let start = Page::of(first);
        let last = Page::of(last);
        let mapped = AccessPages {
            pages: self,
            access,
            found: &*found,
        };
        let end = mapped.mapped_before(start, last);
        found.note(PageRun {
            first: start.number,
            end,
        });
        last.number < end
    }

    /// Whether all accesses to bytes meet only mapped pages. Pages that were found mapped are not asked again, and those that are
    /// found now are noted.
    pub(crate) fn reaches(&self, access: Access, bytes: ReachedBytes, found: &mut FoundRuns) -> bool
        requires { AreRuns (is_mapped_in self.now access) found.old }
        ensures is { result ≡ is_allowed_in self.now access (byte_len (width_of bytes.size))
            (pos bytes.range.low +ℤ bytes.offset) (pos bytes.range.high +ℤ bytes.offset) }
        ensures found { AreRuns (is_mapped_in self.now access) found.new }
    {
        let least = moved(bytes.range.low, bytes.offset);
        let greatest = moved(bytes.range.high, bytes.offset);
        let last = greatest + i64::from(width(bytes.size) - 1);
        if least < 0 {
            return false;
        }
        if last > 0xffff_ffff {
            return false;
        }
        self.are_mapped(access, least as u32, last as u32, found)
    }
}
