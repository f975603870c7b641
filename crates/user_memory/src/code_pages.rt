//! What a thread reaches by the pages that are kept while it runs plain instructions.

ghost use Rattle.std.specs.Prelude.{ℕ, ◌≡◌, IfSome, Some, Ok};
ghost use Rattle.model.specs.Kernel.AddressSpaces.{content_of};
ghost use Rattle.model.specs.Machine.ProgramMemory.{FitsSize, loaded, place_at};
ghost use Rattle.model.specs.declared.instructions.Access.TheVariants.{Fetch};
ghost use Rattle.model.specs.declared.instructions.AccessSize.TheVariants.{Word};
ghost use Rattle.objects.specs.Lives.{state_in};
ghost use Rattle.user_memory.specs.KeptPages.{AreOwn};
ghost use Rattle.user_memory.specs.Views.{IsFound};

use crate::execution::word_at;
use crate::keeping::keep_page;
use crate::known_words::KnownWords;
use crate::page::Page;
use crate::pages::Pages;
use crate::roots::root_of;
use crate::spaces::Space;
use cnode_ops::Kernel;
use model::{Access, AccessSize, MemoryFault};
use packed_slots::WalkStore;

/// What is known of a thread that runs: the pages that it reached lately, and what words of code spell.
#[derive(Drop)]
pub(crate) struct Code<'k> {
    pub(crate) pages: Pages,
    pub(crate) known: &'k mut KnownWords,
}

/// The root table of a thread, with no page yet.
pub(crate) fn code_of<'k, S: WalkStore>(
    kernel: &Kernel<S>,
    thread: u32,
    known: &'k mut KnownWords,
) -> Code<'k>
    ensures { AreOwn (state_in S.slots S.memory kernel.now) thread result.pages }
{
    let pages = Pages::under(root_of(kernel, thread));
    Code { pages, known }
}

/// The place that an address has for an access of a thread, in another page than those that are kept. This page is kept then,
/// if there is one.
#[cold]
#[inline(never)]
fn find_elsewhere<S: WalkStore>(
    kernel: &mut Kernel<S>,
    thread: u32,
    pages: &mut Pages,
    address: u32,
    access: Access,
) -> Option<u32>
    requires { AreOwn (state_in S.slots S.memory kernel.old) thread pages.old }
    ensures found { IsFound (content_of (state_in S.slots S.memory kernel.old) thread) access address result }
    ensures unchanged { kernel.new ≡ kernel.old }
    ensures pages { AreOwn (state_in S.slots S.memory kernel.old) thread pages.new }
{
    let root = pages.root;
    let live = &mut kernel.live;
    keep_page(&mut live.store, root, address, access, None);
    let space = Space { kernel, root };
    let place = space.kept_place(address, access)?;
    if let Some(page) = Page::around(address, place) {
        pages.keep(page, access);
    }
    Some(place)
}

/// The place that an address has for an access of a thread, by the pages that are kept. Where it has none it may have one by a
/// walk.
#[inline(always)]
pub(crate) fn find<S: WalkStore>(
    kernel: &mut Kernel<S>,
    thread: u32,
    pages: &mut Pages,
    address: u32,
    access: Access,
) -> Option<u32>
    requires { AreOwn (state_in S.slots S.memory kernel.old) thread pages.old }
    ensures found { IsFound (content_of (state_in S.slots S.memory kernel.old) thread) access address result }
    ensures unchanged { kernel.new ≡ kernel.old }
    ensures pages { AreOwn (state_in S.slots S.memory kernel.old) thread pages.new }
{
    match pages.place(address, access) {
        Some(place) => Some(place),
        None => find_elsewhere(kernel, thread, pages, address, access),
    }
}

/// The number at an address by the place of its first byte, where it lies in one page.
#[inline(always)]
pub(crate) fn number_at<S: WalkStore>(
    kernel: &Kernel<S>,
    thread: u32,
    address: u32,
    access: Access,
    size: AccessSize,
    place: u32,
) -> Option<u32>
    requires { Ok place ≡ place_at (content_of (state_in S.slots S.memory kernel.now) thread) access address }
    ensures value { (number : ℕ) → result ≡ Some number
        → Ok number ≡ loaded (content_of (state_in S.slots S.memory kernel.now) thread) access size address }
    ensures range { IfSome result (FitsSize size) }
{
    let live = &kernel.live;
    let memory = live.store.mem();
    match size {
        AccessSize::Word if address % 4 == 0 => Some(memory.read32(place)),
        AccessSize::Halfword if address % 2 == 0 => {
            let bytes = [memory.read8(place), memory.read8(place + 1)];
            Some(u32::from(u16::from_le_bytes(bytes)))
        }
        AccessSize::Byte => Some(u32::from(memory.read8(place))),
        _ => None,
    }
}

/// The word that a thread runs next, by the pages that are kept.
#[inline]
pub(crate) fn fetch_paged<S: WalkStore>(
    kernel: &mut Kernel<S>,
    thread: u32,
    pages: &mut Pages,
    address: u32,
) -> Result<u32, MemoryFault>
    requires { AreOwn (state_in S.slots S.memory kernel.old) thread pages.old }
    ensures value { result ≡ loaded (content_of (state_in S.slots S.memory kernel.old) thread) Fetch Word address }
    ensures unchanged { kernel.new ≡ kernel.old }
    ensures pages { AreOwn (state_in S.slots S.memory kernel.old) thread pages.new }
{
    if let Some(place) = find(kernel, thread, pages, address, Access::Fetch) {
        if let Some(word) = number_at(
            kernel,
            thread,
            address,
            Access::Fetch,
            AccessSize::Word,
            place,
        ) {
            return Ok(word);
        }
    }
    word_at(kernel, thread, pages.root, address, Access::Fetch)
}
