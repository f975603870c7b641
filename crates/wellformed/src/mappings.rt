//! Tables, frames, contents and promises: whether they fit what they name, and whether code can be written.

ghost use Rattle.std.specs.Prelude.{ℕ, ◌≡◌, ◌==◌, ◌+◌, ◌<◌, [], IfErr, IfOk, OnOk, if◌then◌else◌, flat_map, map};
ghost use Rattle.std.specs.List.{list_any};
ghost use Rattle.model.specs.declared.refusals.Refusal.TheVariants.{BadMapping, OutOfMemory};
ghost use Rattle.model.specs.Acceptance.Rules.{first_broken, refuse_if};
ghost use Rattle.model.specs.Acceptance.ThreadRules.{is_member};
ghost use Rattle.model.specs.Acceptance.WellFormed.{content_rule, executes, fills_nothing, frame_rules, has_writable_code, is_address};
ghost use Rattle.model.specs.Acceptance.WellFormed.{is_covered, is_device, is_mapped_before, is_mapped_twice, is_named_otherwise, mapping_rules};
ghost use Rattle.model.specs.Acceptance.WellFormed.{misplaces_frame, misplaces_table, promise_rule, promises_nothing};
ghost use Rattle.model.specs.Images.Described.{numbered};
ghost use Rattle.wellformed.specs.Answering.{Answers, AreNamed, AreTwice, with_number};

use crate::number_sets::NumberSet;
use crate::object_types::{is_endpoint, is_frame, is_page_table, is_root_table, type_at};
use image_reading::{ContentRef, ImageRef, PromiseRef, header_of, lists_region, object_of};
use model::{FrameEntry, Refusal, TableEntry};
use std::alloc::Global;

/// Virtual addresses from here on are never mapped.
pub(crate) const ADDRESS_LIMIT: u32 = 0x8000_0000;

/// The bytes of a page.
pub(crate) const PAGE: u32 = 0x1000;

/// The bytes that a page table maps.
pub(crate) const REGION: u32 = 0x40_0000;

/// Whether a virtual address is a multiple of a size.
fn is_address(address: u32, size: u32) -> bool
    requires { 0 < size }
    ensures { result ≡ is_address address size }
{
    address < ADDRESS_LIMIT && address % size == 0
}

/// Whether table `item` is misplaced. A page table is mapped once.
#[tactic(auto, unfolding(model::specs::Acceptance::WellFormed::misplaces_table))]
fn misplaces_table(image: &ImageRef<'_>, item: u32, entry: TableEntry, mapped: &NumberSet) -> bool
    requires { is_member entry.table mapped.now ≡ is_mapped_before image.now item entry.table }
    ensures { result ≡ misplaces_table image.now (item, entry) }
{
    !is_root_table(type_at(image, entry.root))
        || !is_page_table(type_at(image, entry.table))
        || !is_address(entry.address, REGION)
        || mapped.contains(entry.table)
}

/// The tables, in their order.
fn check_tables(alloc: Global, image: &ImageRef<'_>) -> Result<(), Refusal>
    ensures { Answers (first_broken (map (λ t. refuse_if (misplaces_table image.now t) (BadMapping t.0)) (numbered image.now.tables))) result }
{
    let mut mapped = NumberSet::new(alloc);
    for item in 0..header_of(image).tables {
        let entry = image.table(item);
        if misplaces_table(image, item, entry, &mapped) {
            return Err(Refusal::BadMapping { item });
        }
        mapped.insert(entry.table)?;
    }
    Ok(())
}

/// Whether some table covers the page of a mapping.
fn is_covered(image: &ImageRef<'_>, entry: FrameEntry) -> bool
    ensures { result ≡ is_covered image.now entry }
{
    lists_region(image, entry.root, entry.address / REGION)
}

/// Whether a frame's mapping is misplaced.
#[tactic(auto, unfolding(model::specs::Acceptance::WellFormed::misplaces_frame))]
fn misplaces_frame(image: &ImageRef<'_>, entry: FrameEntry) -> bool
    ensures { result ≡ misplaces_frame image.now entry }
{
    !is_root_table(type_at(image, entry.root))
        || !is_frame(type_at(image, entry.frame))
        || !is_address(entry.address, PAGE)
        || !is_covered(image, entry)
        || entry.rights == 0
        || entry.rights == 1
        || entry.rights == 5
}

/// Whether a mapping lets instructions run.
pub(crate) fn executes(entry: FrameEntry) -> bool
    ensures { result ≡ executes entry }
{
    entry.rights & 4 != 0
}

/// Whether a number is that of a device page.
fn is_device(image: &ImageRef<'_>, number: u32) -> bool
    ensures { result ≡ is_device image.now number }
{
    if number >= header_of(image).objects {
        return false;
    }
    let object = object_of(image, number);
    object.kind == 6 && object.size == 1
}

/// What names frames besides the one mapping at hand.
#[derive(Drop)]
struct FrameNames<'n, 'i, 'a> {
    image: &'i ImageRef<'a>,
    /// What capabilities name as sources.
    sources: &'n NumberSet,
    /// Frames that are mapped more than once.
    twice: NumberSet,
    /// Frames that contents fill.
    filled: NumberSet,
    ghost listed: { AreNamed (λ c. c.source) image.now.capabilities sources.now },
    ghost mapped: { AreTwice (λ f. f.frame) image.now.frames twice },
    ghost contents: { AreNamed (λ c. c.header.frame) image.now.contents filled },
}

/// Puts one more mapped frame into the set of those that are mapped, or that are mapped more than once.
fn note_mapping(frame: u32, once: &mut NumberSet, twice: &mut NumberSet) -> Result<(), Refusal>
    ensures once { OnOk result (once.new ≡ with_number frame once.old) }
    ensures twice { OnOk result (twice.new ≡ (if is_member frame once.old then with_number frame twice.old else twice.old)) }
    ensures memory { IfErr result (λ refusal. refusal ≡ OutOfMemory) }
{
    if once.contains(frame) {
        return twice.insert(frame);
    }
    once.insert(frame)
}

/// The frames that are mapped more than once.
fn mapped_twice(alloc: Global, image: &ImageRef<'_>) -> Result<NumberSet, Refusal>
    ensures twice { IfOk result (AreTwice (λ f. f.frame) image.now.frames) }
    ensures memory { IfErr result (λ refusal. refusal ≡ OutOfMemory) }
{
    let mut once = NumberSet::new(alloc);
    let mut twice = NumberSet::new(alloc);
    for item in 0..header_of(image).frames {
        note_mapping(image.frame(item).frame, &mut once, &mut twice)?;
    }
    Ok(twice)
}

/// The frames that contents fill.
fn filled_frames(alloc: Global, image: &ImageRef<'_>) -> Result<NumberSet, Refusal>
    ensures filled { IfOk result (AreNamed (λ c. c.header.frame) image.now.contents) }
    ensures memory { IfErr result (λ refusal. refusal ≡ OutOfMemory) }
{
    let mut filled = NumberSet::new(alloc);
    for content in image.contents() {
        filled.insert(content.header().frame)?;
    }
    Ok(filled)
}

impl FrameNames<'_, '_, '_> {
    /// Whether a mapping is of code that can be written, or that something else than its mapping reaches.
    #[tactic(auto, unfolding(model::specs::Acceptance::WellFormed::has_writable_code))]
    fn has_writable_code(&self, item: u32, entry: FrameEntry) -> bool
        requires { is_member entry.frame self.now.twice ≡ is_mapped_twice self.now.image.now item entry.frame }
        ensures { result ≡ has_writable_code self.now.image.now (item, entry) }
    {
        entry.rights == 7
            || (executes(entry)
                && (self.twice.contains(entry.frame)
                    || self.sources.contains(entry.frame)
                    || self.filled.contains(entry.frame)
                    || is_device(self.image, entry.frame)))
    }

    /// The mappings of frames, in their order, numbered on after the tables.
    fn check_frames(&self) -> Result<(), Refusal>
        ensures { Answers (first_broken (flat_map (frame_rules self.now.image.now) (numbered self.now.image.now.frames))) result }
    {
        let image = self.image;
        let header = header_of(image);
        for number in 0..header.frames {
            let item = header.tables + number;
            let entry = image.frame(number);
            if misplaces_frame(image, entry) {
                return Err(Refusal::BadMapping { item });
            }
            if self.has_writable_code(number, entry) {
                return Err(Refusal::WritableCode { item });
            }
        }
        Ok(())
    }
}

/// The mappings of frames, in their order, by what else names frames.
fn check_frames(alloc: Global, image: &ImageRef<'_>, sources: &NumberSet) -> Result<(), Refusal>
    requires { AreNamed (λ c. c.source) image.now.capabilities sources.now }
    ensures { Answers (first_broken (flat_map (frame_rules image.now) (numbered image.now.frames))) result }
{
    let twice = mapped_twice(alloc, image)?;
    let filled = filled_frames(alloc, image)?;
    let names = FrameNames {
        image,
        sources,
        twice,
        filled,
    };
    names.check_frames()
}

/// Whether a content is of no frame.
fn fills_nothing(image: &ImageRef<'_>, content: &ContentRef<'_>) -> bool
    ensures { result ≡ fills_nothing image.now content.now }
{
    !is_frame(type_at(image, content.header().frame))
}

/// The contents, in their order, numbered on after the tables and frames.
fn check_contents(image: &ImageRef<'_>) -> Result<(), Refusal>
    ensures { Answers (first_broken (map (content_rule image.now) (numbered image.now.contents))) result }
{
    let header = header_of(image);
    let mut number = 0;
    for content in image.contents() {
        if fills_nothing(image, &content) {
            return Err(Refusal::BadMapping {
                item: header.tables + header.frames + number,
            });
        }
        number += 1;
    }
    Ok(())
}

/// Whether a promise is of no endpoint.
fn promises_nothing(image: &ImageRef<'_>, promise: &PromiseRef<'_>) -> bool
    ensures { result ≡ promises_nothing image.now promise.now }
{
    !is_endpoint(type_at(image, promise.header().endpoint))
}

/// The promises, in their order, numbered on after the contents.
fn check_promises(image: &ImageRef<'_>) -> Result<(), Refusal>
    ensures { Answers (first_broken (map (promise_rule image.now) (numbered image.now.promises))) result }
{
    let header = header_of(image);
    let mut number = 0;
    for promise in image.promises() {
        if promises_nothing(image, &promise) {
            return Err(Refusal::BadPromise {
                item: header.tables + header.frames + header.contents + number,
            });
        }
        number += 1;
    }
    Ok(())
}

/// The rules on tables, frames, contents and promises. `sources` has the objects that capabilities name.
#[tactic(auto, unfolding(model::specs::Acceptance::WellFormed::mapping_rules))]
pub(crate) fn check_mappings(
    alloc: Global,
    image: &ImageRef<'_>,
    sources: &NumberSet,
) -> Result<(), Refusal>
    requires { AreNamed (λ c. c.source) image.now.capabilities sources.now }
    ensures { Answers (first_broken (mapping_rules image.now)) result }
{
    check_tables(alloc, image)?;
    check_frames(alloc, image, sources)?;
    check_contents(image)?;
    check_promises(image)
}
