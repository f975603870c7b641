//! Whole texts.

ghost use Rattle.std.specs.Prelude.{◌≡◌, ◌⊎◌, ◌≤◌, ◌<◌, true, max, option_map, IfOk, IfErr, IsSome, MatchResult, Ok, Err};
ghost use Rattle.std.specs.List.{All};
ghost use Rattle.std.specs.Str.Lines.{lines};
ghost use Rattle.model.specs.Images.Image as described;
ghost use Rattle.model.specs.Images.Image.{whole_image};
ghost use Rattle.model.specs.Images.Listing.{listing, version_listed};
ghost use Rattle.asm.specs.Drafts.{nothing_read};
ghost use Rattle.asm.specs.Meaning.{all_read, and_then, finished, on_line, text_means, text_read, waiting_read};
ghost use Rattle.asm.specs.Outcomes.{Means, MeansText};

use crate::assembly::Assembly;
use crate::faults::{Fault, SourceFault};
use crate::labels::{Labels, labels_of};
use asm_line::parse_line;
use image::Image;
use std::alloc::Global;

/// Adds a line of the text.
#[tactic(auto, unfolding(crate::specs::Meaning::text_read))]
fn add_text<'a>(
    assembly: &mut Assembly<'a>,
    text: &'a str,
    number: u64,
    is_last: bool,
    labels: &[Labels<'a>],
) -> Result<(), Fault>
    ensures { Means result (λ _. assembly.new) (text_read labels.now number is_last assembly.old text.now) }
{
    let line = parse_line(text)?;
    assembly.add_line(line, number, is_last, labels)
}

/// Adds the line with this number, if there is one.
fn add_waiting<'a>(
    assembly: &mut Assembly<'a>,
    waiting: Option<&'a str>,
    number: u64,
    is_last: bool,
    labels: &[Labels<'a>],
) -> Result<(), SourceFault>
    ensures fault { IfErr result (λ fault. (fault.line ≡ number) × (1 ≤ fault.kind) × (fault.kind ≤ 5)) }
    ensures meant { MatchResult result (λ _. waiting_read labels.now number is_last assembly.old (option_map (λ text. text.now) waiting.entry)
        ≡ Ok assembly.new)
        (λ fault. IsSome waiting.entry × ((fault.kind ≡ 5)
        ⊎ (waiting_read labels.now number is_last assembly.old (option_map (λ text. text.now) waiting.entry) ≡ Err fault.kind))) }
{
    match waiting {
        Some(text) => match add_text(assembly, text, number, is_last, labels) {
            Ok(()) => Ok(()),
            Err(fault) => Err(fault.at(number)),
        },
        None => Ok(()),
    }
}

/// Adds all lines of a text, and gives the number of the last one. Each waits for the next one, which shows whether it is
/// the last.
fn add_lines<'a>(
    assembly: &mut Assembly<'a>,
    text: &'a str,
    labels: &[Labels<'a>],
) -> Result<u64, SourceFault>
    ensures fault { IfErr result (λ fault. (1 ≤ fault.line) × (1 ≤ fault.kind) × (fault.kind ≤ 5)) }
    ensures meant { MatchResult result (λ number. all_read labels.now 0 assembly.old (lines text.now) ≡ Ok (number, assembly.new))
        (λ fault. (fault.kind ≡ 5) ⊎ (all_read labels.now 0 assembly.old (lines text.now) ≡ Err (fault.line, fault.kind))) }
{
    let mut waiting = None;
    let mut number = 0u64;
    'lines: for line in text.lines() {
        add_waiting(assembly, waiting, number, false, labels)?;
        waiting = Some(line);
        number = number.saturating_add(1);
    }
    add_waiting(assembly, waiting, number, true, labels)?;
    Ok(number)
}

/// The image after the last line, which has this number.
fn finished(assembly: Assembly<'_>, number: u64) -> Result<Image, SourceFault>
    ensures image { IfOk result (λ image. whole_image.fits image ≡ true) }
    ensures fault { IfErr result (λ fault. (1 ≤ fault.line) × (1 ≤ fault.kind) × (fault.kind ≤ 5)) }
    ensures meant { MeansText result (on_line (max number 1) (finished assembly.entry)) }
{
    match assembly.finish() {
        Ok(image) => Ok(image),
        Err(fault) => Err(fault.at(number.max(1))),
    }
}

/// The image that a text describes whose threads have these labels.
fn image_with<'a>(alloc: Global, text: &'a str, labels: &[Labels<'a>]) -> Result<Image, SourceFault>
    ensures image { IfOk result (λ image. whole_image.fits image ≡ true) }
    ensures fault { IfErr result (λ fault. (1 ≤ fault.line) × (1 ≤ fault.kind) × (fault.kind ≤ 5)) }
    ensures meant { MeansText result (and_then (all_read labels.now 0 nothing_read (lines text.now)) (λ read. on_line (max read.0 1) (finished read.1))) }
{
    let mut assembly = Assembly::new(alloc);
    match add_lines(&mut assembly, text, labels) {
        Ok(number) => finished(assembly, number),
        Err(fault) => {
            // In place of this one call, each field would be dropped on its own, which is long to prove.
            drop(assembly);
            Err(fault)
        }
    }
}

/// The image that a text describes, line by line. A line ends with a line feed, or a carriage return
/// and a line feed; the last may end with the text. The listing of an image whose threads begin in
/// their programs, and whose version is the first that has fields for what it holds, gives that image, unless it fails
/// because it is out of memory.
///
/// # Errors
///
/// The first line that is at fault, and how (`SourceFault`). What no line is at fault for, as an image
/// without threads, is reported at the last line.
#[tactic(auto, unfolding(crate::specs::Meaning::text_means))]
pub fn assemble(alloc: Global, text: &str) -> Result<Image, SourceFault>
    ensures image { IfOk result (λ image. whole_image.fits image ≡ true) }
    ensures fault { IfErr result (λ fault. (1 ≤ fault.line) × (1 ≤ fault.kind) × (fault.kind ≤ 5)) }
    ensures listed { (listed : described.Image) → whole_image.fits listed ≡ true
        → listed.header.version ≡ version_listed listed.objects listed.promises listed.threads
        → All (λ (t : described.Thread). t.header.entry < t.header.words) listed.threads → text.now ≡ listing listed
        → MatchResult result (λ image. image ≡ listed) (λ fault. fault.kind ≡ 5) }
    ensures meant { MatchResult result (λ image. text_means text.now ≡ Ok image)
        (λ fault. (fault.kind ≡ 5) ⊎ (text_means text.now ≡ Err (fault.line, fault.kind))) }
{
    let labels = labels_of(alloc, text)?;
    image_with(alloc, text, &labels)
}
