//! Pages that an image maps, those one after another together.
//! RISC-V Privileged ISA, "Sv32: Page-Based 32-bit Virtual-Memory Systems".

ghost use Rattle.std.specs.Prelude.{ℕ, ◌≡◌, ◌<◌, ◌≤◌, Bool, IfOk, true};
ghost use Rattle.std.specs.List.{list_any};
ghost use Rattle.model.specs.Acceptance.PointRules.{maps_for};
ghost use Rattle.model.specs.Capabilities.Rights.{rights};
ghost use Rattle.program_rules.specs.point_rules.Runs.{AreRuns, IsRun};

use crate::point_rules::page_numbers::{PAGE, Page};
use image_reading::{ImageRef, ThreadRef, frame_at, header_of};
use model::{Access, FrameEntry, Rights};
use std::alloc::{AllocError, Global};
use typestate::allows;

/// Pages from one on to before another, by their numbers.
#[derive(Clone, Copy)]
pub struct PageRun {
    pub first: u32,
    pub end: u32,
}

/// The rights of a mapping.
fn rights_of(frame: FrameEntry) -> Rights
    requires { frame.rights ≤ 7 }
    ensures { result ≡ rights frame.rights }
{
    Rights(frame.rights as u8)
}

/// Whether the image maps a page under the thread's root table for an access.
pub(crate) fn is_listed(
    image: &ImageRef<'_>,
    thread: &ThreadRef<'_>,
    access: Access,
    page: Page,
) -> bool
    ensures { result ≡ list_any (maps_for access thread.now page.number) image.now.frames }
{
    let root = thread.header().root;
    match frame_at(image, root, page.number * PAGE) {
        Some(frame) => allows(access, rights_of(frame)),
        None => false,
    }
}

/// The last run with a page more: where that is apart from it, the run goes to the others, and the page begins the next one.
/// Memory may be refused.
fn with_page(runs: &mut Vec<PageRun>, last: PageRun, page: Page) -> Result<PageRun, AllocError>
    ensures runs { IfOk result (λ _. (test : ℕ → Bool) → AreRuns test runs.old.items → IsRun test last → AreRuns test runs.new.items) }
    ensures last { IfOk result (λ longer. (test : ℕ → Bool) → IsRun test last → test page.number ≡ true → IsRun test longer) }
{
    let end = page.number + 1;
    if page.number == last.end {
        return Ok(PageRun {
            first: last.first,
            end,
        });
    }
    runs.push(last)?;
    Ok(PageRun {
        first: page.number,
        end,
    })
}

/// The pages, run by run in their order, that the image maps under the thread's root table for an access.
///
/// # Errors
///
/// Memory may be refused.
pub fn runs_of(
    alloc: Global,
    image: &ImageRef<'_>,
    thread: &ThreadRef<'_>,
    access: Access,
) -> Result<Vec<PageRun>, AllocError>
    ensures { IfOk result (λ runs. AreRuns (λ page. list_any (maps_for access thread.now page) image.now.frames) runs.items) }
{
    let root = thread.header().root;
    let mut runs = Vec::new(alloc);
    let mut last = PageRun { first: 0, end: 0 };
    'frames: for number in 0..header_of(image).frames {
        let entry = image.frame(number);
        let page = Page::of(entry.address);
        if entry.root == root && is_listed(image, thread, access, page) {
            last = with_page(&mut runs, last, page)?;
        }
    }
    runs.push(last)?;
    Ok(runs)
}

/// Where the run ends that a page lies in: at the page itself, where none has it.
pub(crate) fn run_end(runs: &[PageRun], page: u32) -> u32
    ensures { (test : ℕ → Bool) → AreRuns test runs.now → (p : ℕ) → page ≤ p → p < result → test p ≡ true }
{
    let place = runs.partition_point(|run| run.end <= page);
    match runs.get(place) {
        Some(run) if run.first <= page => run.end,
        _ => page,
    }
}
