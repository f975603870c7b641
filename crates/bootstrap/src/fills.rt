//! Frames that begin with what an image lists, and with programs, page by page.

ghost use Rattle.std.specs.Prelude.{◌≡◌, ◌+◌, ◌*◌, ◌%◌, ◌^◌, ◌<◌, ◌≤◌, IfSome, None, true, false, drop, map, take};
ghost use Rattle.kernel_machine.specs.Setups.{state_in};
ghost use Rattle.bootstrap.specs.Filling.{ArePlaces, page_filled, pages_filled};
ghost use Rattle.bootstrap.specs.Limits.{ContentFits, ThreadFits};
ghost use Rattle.bootstrap.specs.Loading.{all_performed, performed, placed, progress_of};
ghost use Rattle.model.specs.Kernel.Outcomes.{GivesState};
ghost use Rattle.model.specs.Images.BootCalls.{content_operation, program_operation};
ghost use Rattle.model.specs.Images.Described.{numbered_threads};
ghost use Rattle.model.specs.Images.Fills.{frame_at, program_pages};
ghost use Rattle.model.specs.Kernel.AddressSpaces.{page_size};
ghost use Rattle.model.specs.Kernel.Setup.{fill};

use crate::boot_images::BootImage;
use crate::loading::Loader;
use image_reading::{ContentRef, ThreadRef, frame_at};
use model::{BootFault, FrameEntry};
use wellformed::{is_frame, is_root_table, type_at};

/// How many bytes a page has.
const PAGE: u32 = 4096;

impl Loader {
    /// Fills frames with what the image lists for them.
    pub(crate) fn fill_contents(
        &mut self,
        image: &BootImage<'_, '_>,
        places: &[u64],
    ) -> Result<(), BootFault>
        requires places { ArePlaces image.now.read.now image.now.read.now.header.objects places.now }
        ensures outcome { GivesState (all_performed image.now.read.now.header.untypeds (progress_of self.old)
            (map (content_operation image.now.read.now) image.now.read.now.contents)) result (progress_of self.new) }
        ensures counted { self.new.calls ≡ self.old.calls }
    {
        for content in image.read.contents() {
            self.fill_content(image, places, &content)?;
        }
        Ok(())
    }

    /// Fills one frame.
    fn fill_content(
        &mut self,
        image: &BootImage<'_, '_>,
        places: &[u64],
        content: &ContentRef<'_>,
    ) -> Result<(), BootFault>
        requires fits { ContentFits image.now.read.now.header content.now }
        requires places { ArePlaces image.now.read.now image.now.read.now.header.objects places.now }
        ensures outcome { GivesState (performed image.now.read.now.header.untypeds (progress_of self.old) (content_operation image.now.read.now content.now))
            result (progress_of self.new) }
        ensures counted { self.new.calls ≡ self.old.calls }
    {
        let frame = content.header().frame;
        if !is_frame(type_at(image.read, frame)) {
            return Err(BootFault::Outside(frame));
        }
        self.fill(frame, places[frame as usize], content.bytes())
    }

    /// Puts the programs of the threads where they are mapped.
    pub(crate) fn fill_programs(
        &mut self,
        image: &BootImage<'_, '_>,
        places: &[u64],
    ) -> Result<(), BootFault>
        requires places { ArePlaces image.now.read.now image.now.read.now.header.objects places.now }
        ensures outcome { GivesState (all_performed image.now.read.now.header.untypeds (progress_of self.old)
            (map (program_operation image.now.read.now) (numbered_threads image.now.read.now))) result (progress_of self.new) }
        ensures counted { self.new.calls ≡ self.old.calls }
    {
        let mut number = 0;
        for thread in image.read.threads() {
            self.fill_program(image, places, number, &thread)?;
            number += 1;
        }
        Ok(())
    }

    /// Puts one program where it is mapped, if it begins at a page under a root table.
    fn fill_program(
        &mut self,
        image: &BootImage<'_, '_>,
        places: &[u64],
        number: u32,
        thread: &ThreadRef<'_>,
    ) -> Result<(), BootFault>
        requires fits { ThreadFits image.now.read.now.header thread.now }
        requires places { ArePlaces image.now.read.now image.now.read.now.header.objects places.now }
        ensures outcome { GivesState (performed image.now.read.now.header.untypeds (progress_of self.old)
            (program_operation image.now.read.now (record { number = number; thread = thread.now }))) result (progress_of self.new) }
        ensures counted { self.new.calls ≡ self.old.calls }
    {
        let header = thread.header();
        if header.base % PAGE != 0 {
            return Err(BootFault::Outside(number));
        }
        if is_root_table(type_at(image.read, header.root)) {
            self.fill_pages(image, places, number, thread)
        } else {
            Err(BootFault::Outside(number))
        }
    }

    /// Fills the pages of a program.
    fn fill_pages(
        &mut self,
        image: &BootImage<'_, '_>,
        places: &[u64],
        number: u32,
        thread: &ThreadRef<'_>,
    ) -> Result<(), BootFault>
        requires fits { ThreadFits image.now.read.now.header thread.now }
        requires places { ArePlaces image.now.read.now image.now.read.now.header.objects places.now }
        ensures outcome { GivesState (placed number self.old.calls
            (pages_filled image.now.read.now thread.now (state_in self.old.machine) (program_pages thread.now))) result (progress_of self.new) }
        ensures counted { self.new.calls ≡ self.old.calls }
    {
        let pages = (4 * thread.header().words + (PAGE - 1)) / PAGE;
        for page in 0..pages {
            self.fill_page(image, places, number, thread, page)?;
        }
        Ok(())
    }

    /// Fills one page of a program.
    fn fill_page(
        &mut self,
        image: &BootImage<'_, '_>,
        places: &[u64],
        number: u32,
        thread: &ThreadRef<'_>,
        page: u32,
    ) -> Result<(), BootFault>
        requires places { ArePlaces image.now.read.now image.now.read.now.header.objects places.now }
        requires page { page ≤ 64 }
        ensures outcome { GivesState (placed number self.old.calls
            (page_filled image.now.read.now thread.now (state_in self.old.machine) (thread.now.header.base + page * page_size))) result (progress_of self.new) }
        ensures counted { self.new.calls ≡ self.old.calls }
    {
        let header = thread.header();
        let address = u64::from(header.base) + u64::from(page * PAGE);
        match frame_behind(image, header.root, address) {
            Some(frame) => {
                let bytes = page_of(thread.program(), page);
                self.fill(number, places[frame.frame as usize], bytes)
            }
            None => Err(BootFault::Outside(number)),
        }
    }

    /// Puts bytes into the frame at a place. What is not there is reported by a number.
    fn fill(&mut self, number: u32, place: u64, bytes: &[u8]) -> Result<(), BootFault>
        ensures outcome { GivesState (placed number self.old.calls (fill (state_in self.old.machine) place bytes.now)) result (progress_of self.new) }
        ensures counted { self.new.calls ≡ self.old.calls }
    {
        if self.is_outside(place) {
            return Err(BootFault::Outside(number));
        }
        if self.machine.fill(place as u32, bytes) {
            Ok(())
        } else {
            Err(BootFault::Outside(number))
        }
    }

    /// Whether a place lies beyond the end of memory, where no frame is.
    fn is_outside(&self, place: u64) -> bool
        ensures outside { result ≡ true → (state_in self.now.machine).objects place ≡ None }
        ensures inside { result ≡ false → place < 2 ^ 32 }
    {
        u64::from(self.machine.memory_size()) <= place
    }
}

/// The frame that the image maps at an address under a root table. None is mapped beyond the last address.
fn frame_behind(image: &BootImage<'_, '_>, root: u32, address: u64) -> Option<FrameEntry>
    ensures value { result ≡ frame_at image.now.read.now root address }
    ensures named { IfSome result (λ f. f.frame < image.now.read.now.header.objects) }
{
    match u32::try_from(address) {
        Ok(address) => frame_at(image.read, root, address),
        Err(_) => None,
    }
}

/// The part of a program that lies in a page.
fn page_of(program: &[u8], page: u32) -> &[u8]
    requires { page ≤ 64 }
    ensures { result.now ≡ take page_size (drop (page * page_size) program.now) }
{
    let start = (page * PAGE) as usize;
    if program.len() <= start {
        return &program[program.len()..];
    }
    let rest = &program[start..];
    if rest.len() <= PAGE as usize {
        return rest;
    }
    &rest[..PAGE as usize]
}
