//! Reading an image.

ghost use Rattle.std.specs.Prelude.{◌≡◌, ◌<◌, Some, true, slice_get};
ghost use Rattle.model.specs.Images.Format.{reading};
ghost use Rattle.model.specs.Images.Image.{whole_image};
ghost use Rattle.image_reading.specs.Sections.{HasCounts};

use crate::contents::{ContentRef, Contents, contents_end};
use crate::entries::{Counts, Section, entries_end};
use crate::headers::image_header;
use crate::promises::{Promises, promises_end};
use crate::threads::{ThreadRef, Threads, threads_end};
use model::{
    CapabilityEntry, FrameEntry, ImageHeader, InterruptEntry, ObjectEntry, Refusal, TableEntry,
    UntypedEntry,
};
use std::marker::Model;

/// An image, lent from the bytes of its file.
#[derive(Drop)]
pub struct ImageRef<'a> {
    bytes: &'a [u8],
    header: ImageHeader,
    untypeds_at: usize,
    objects_at: usize,
    capabilities_at: usize,
    interrupts_at: usize,
    tables_at: usize,
    frames_at: usize,
    contents_at: usize,
    promises_at: usize,
    threads_at: usize,
}

impl<'a> Model for ImageRef<'a> {
    ghost use Rattle.model.specs.Images.Image.{Image};
    ghost use Rattle.image_reading.specs.Sections.{AreSections, sections_image};

    ghost Value = { Image };

    ghost view = { λ i. sections_image i.bytes.now i.header i.untypeds_at i.objects_at i.capabilities_at i.interrupts_at i.tables_at i.frames_at i.contents_at
        i.promises_at i.threads_at };

    ghost invariant = { λ i. AreSections i.bytes.now i.header i.untypeds_at i.objects_at i.capabilities_at i.interrupts_at i.tables_at i.frames_at i.contents_at
        i.promises_at i.threads_at };
}

/// The counts that the ranges of an image's fields depend on.
fn counts_of(header: &ImageHeader) -> Counts
    ensures { result ≡ record {
      version = header.now.version;
      untypeds = header.now.untypeds;
      objects = header.now.objects;
      interrupts = header.now.interrupts;
      words = 0;
    } }
{
    Counts {
        version: header.version,
        untypeds: header.untypeds,
        objects: header.objects,
        interrupts: header.interrupts,
        words: 0,
    }
}

impl<'a> ImageRef<'a> {
    /// The image's fixed part.
    pub fn header(&self) -> ImageHeader
        ensures value { result ≡ self.now.header }
        ensures fits { whole_image.fits self.now ≡ true }
        ensures counts { HasCounts self.now }
    {
        let _ = &self.bytes;
        self.header
    }

    /// An untyped memory, by its number from 0.
    pub fn untyped(&self, number: u32) -> UntypedEntry
        requires { number < self.now.header.untypeds }
        ensures { slice_get self.now.untypeds number ≡ Some result }
    {
        let _ = self.header();
        self.untypeds().entry(number)
    }

    /// An object, by its number from 0.
    pub fn object(&self, number: u32) -> ObjectEntry
        requires { number < self.now.header.objects }
        ensures { slice_get self.now.objects number ≡ Some result }
    {
        let _ = self.header();
        self.objects().entry(number)
    }

    /// A capability, by its number from 0.
    pub fn capability(&self, number: u32) -> CapabilityEntry
        requires { number < self.now.header.capabilities }
        ensures { slice_get self.now.capabilities number ≡ Some result }
    {
        let _ = self.header();
        self.capabilities().entry(number)
    }

    /// An interrupt, by its number from 0.
    pub fn interrupt(&self, number: u32) -> InterruptEntry
        requires { number < self.now.header.interrupts }
        ensures { slice_get self.now.interrupts number ≡ Some result }
    {
        let _ = self.header();
        self.interrupts().entry(number)
    }

    /// A page table that is mapped, by its number from 0.
    pub fn table(&self, number: u32) -> TableEntry
        requires { number < self.now.header.tables }
        ensures { slice_get self.now.tables number ≡ Some result }
    {
        let _ = self.header();
        self.tables().entry(number)
    }

    /// A frame that is mapped, by its number from 0.
    pub fn frame(&self, number: u32) -> FrameEntry
        requires { number < self.now.header.frames }
        ensures { slice_get self.now.frames number ≡ Some result }
    {
        let _ = self.header();
        self.frames().entry(number)
    }

    /// The untyped memories.
    #[tactic(auto, unfolding(crate::specs::Sections::untypeds_format))]
    pub fn untypeds(&self) -> Section<'a, UntypedEntry>
        ensures { result ≡ self.now.untypeds }
    {
        let header = &self.header;
        Section::new(
            self.bytes,
            self.untypeds_at,
            counts_of(header),
            0,
            header.untypeds,
        )
    }

    /// The objects, in the order of the untyped memories that they are made in.
    #[tactic(auto, unfolding(crate::specs::Sections::objects_format))]
    pub fn objects(&self) -> Section<'a, ObjectEntry>
        ensures { result ≡ self.now.objects }
    {
        let header = &self.header;
        Section::new(
            self.bytes,
            self.objects_at,
            counts_of(header),
            0,
            header.objects,
        )
    }

    /// The capabilities, in rising order of CNode and index.
    #[tactic(auto, unfolding(crate::specs::Sections::capabilities_format))]
    pub fn capabilities(&self) -> Section<'a, CapabilityEntry>
        ensures { result ≡ self.now.capabilities }
    {
        let header = &self.header;
        Section::new(
            self.bytes,
            self.capabilities_at,
            counts_of(header),
            0,
            header.capabilities,
        )
    }

    /// The interrupts, in rising order of their lines.
    #[tactic(auto, unfolding(crate::specs::Sections::interrupts_format))]
    pub fn interrupts(&self) -> Section<'a, InterruptEntry>
        ensures { result ≡ self.now.interrupts }
    {
        let header = &self.header;
        Section::new(
            self.bytes,
            self.interrupts_at,
            counts_of(header),
            0,
            header.interrupts,
        )
    }

    /// The page tables that are mapped, in rising order of root table and address.
    #[tactic(auto, unfolding(crate::specs::Sections::tables_format))]
    pub fn tables(&self) -> Section<'a, TableEntry>
        ensures { result ≡ self.now.tables }
    {
        let header = &self.header;
        Section::new(
            self.bytes,
            self.tables_at,
            counts_of(header),
            0,
            header.tables,
        )
    }

    /// The frames that are mapped, in rising order of root table and address.
    #[tactic(auto, unfolding(crate::specs::Sections::frames_format))]
    pub fn frames(&self) -> Section<'a, FrameEntry>
        ensures { result ≡ self.now.frames }
    {
        let header = &self.header;
        Section::new(
            self.bytes,
            self.frames_at,
            counts_of(header),
            0,
            header.frames,
        )
    }

    /// What frames begin with, in rising order of the frames.
    #[tactic(auto, unfolding(crate::specs::Sections::contents_format))]
    pub fn contents(&self) -> Contents<'a>
        ensures { result ≡ self.now.contents }
    {
        Contents {
            bytes: self.bytes,
            at: self.contents_at,
            objects: self.header.objects,
            least: 0,
            left: self.header.contents,
        }
    }

    /// The promises, in rising order of their endpoints.
    #[tactic(auto, unfolding(crate::specs::Sections::promises_format))]
    pub fn promises(&self) -> Promises<'a>
        ensures { result ≡ self.now.promises }
    {
        Promises {
            bytes: self.bytes,
            at: self.promises_at,
            counts: counts_of(&self.header),
            least: 0,
            left: self.header.promises,
        }
    }

    /// The threads.
    #[tactic(auto, unfolding(crate::specs::Sections::threads_format))]
    pub fn threads(&self) -> Threads<'a>
        ensures { result ≡ self.now.threads }
    {
        Threads {
            bytes: self.bytes,
            at: self.threads_at,
            version: self.header.version,
            counts: counts_of(&self.header),
            left: self.header.threads,
        }
    }

    /// One content, by its number from 0. It goes over those before it.
    pub fn content(&self, number: u32) -> ContentRef<'a>
        requires { number < self.now.header.contents }
        ensures { slice_get self.now.contents number ≡ Some result }
    {
        let _ = &self.bytes;
        let mut before = number;
        for content in self.contents() {
            if before == 0 {
                return content;
            }
            before -= 1;
        }
        unreachable!()
    }

    /// One thread, by its number from 0. It goes over those before it.
    pub fn thread(&self, number: u32) -> ThreadRef<'a>
        requires { number < self.now.header.threads }
        ensures { slice_get self.now.threads number ≡ Some result }
    {
        let _ = &self.bytes;
        let mut before = number;
        for thread in self.threads() {
            if before == 0 {
                return thread;
            }
            before -= 1;
        }
        unreachable!()
    }
}

/// The image that the bytes begin with, and the offset after it.
#[tactic(auto, unfolding(model::specs::Images::Image::image_with, model::specs::Images::Image::sections_format, crate::specs::Sections::untypeds_format, crate::specs::Sections::objects_format, crate::specs::Sections::capabilities_format, crate::specs::Sections::interrupts_format, crate::specs::Sections::tables_format, crate::specs::Sections::frames_format, crate::specs::Sections::contents_format, crate::specs::Sections::promises_format, crate::specs::Sections::threads_format))]
fn image_at(bytes: &[u8]) -> Result<(ImageRef<'_>, usize), Refusal>
    ensures { result ≡ whole_image.reads bytes.now 0 }
{
    let (header, untypeds_at) = image_header(bytes, 0)?;
    let counts = Counts {
        version: header.version,
        untypeds: header.untypeds,
        objects: header.objects,
        interrupts: header.interrupts,
        words: 0,
    };
    let objects_at = entries_end::<UntypedEntry>(bytes, untypeds_at, counts, 0, header.untypeds)?;
    let capabilities_at = entries_end::<ObjectEntry>(bytes, objects_at, counts, 0, header.objects)?;
    let interrupts_at = entries_end::<CapabilityEntry>(
        bytes,
        capabilities_at,
        counts,
        0,
        header.capabilities,
    )?;
    let tables_at = entries_end::<InterruptEntry>(
        bytes,
        interrupts_at,
        counts,
        0,
        header.interrupts,
    )?;
    let frames_at = entries_end::<TableEntry>(bytes, tables_at, counts, 0, header.tables)?;
    let contents_at = entries_end::<FrameEntry>(bytes, frames_at, counts, 0, header.frames)?;
    let promises_at = contents_end(bytes, contents_at, header.objects, header.contents)?;
    let threads_at = promises_end(bytes, promises_at, counts, header.promises)?;
    let end = threads_end(bytes, threads_at, header.version, counts, header.threads)?;
    let image = ImageRef {
        bytes,
        header,
        untypeds_at,
        objects_at,
        capabilities_at,
        interrupts_at,
        tables_at,
        frames_at,
        contents_at,
        promises_at,
        threads_at,
    };
    Ok((image, end))
}

/// The image that the bytes spell, all of them.
///
/// # Errors
///
/// What is refused first, from 1 to 5.
pub fn read(bytes: &[u8]) -> Result<ImageRef<'_>, Refusal>
    ensures { result ≡ reading whole_image bytes.now }
{
    let (image, end) = image_at(bytes)?;
    if end < bytes.len() {
        return Err(Refusal::Trailing { offset: end as u64 });
    }
    Ok(image)
}
