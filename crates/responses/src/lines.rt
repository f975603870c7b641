//! What the lines of an image signal.

ghost use Rattle.std.specs.Prelude.{◌≡◌, ◌==◌, IfErr, IfOk, find, option_map};
ghost use Rattle.model.specs.Acceptance.Accepted.{IsWellFormed};
ghost use Rattle.model.specs.declared.refusals.Refusal.TheVariants.{OutOfMemory};
ghost use Rattle.responses.specs.Lines.{AreBells, bell_at, bell_for};

use image_reading::{ImageRef, header_of};
use model::Refusal;
use std::alloc::Global;
use thread_spaces::PlacedImage;

/// How many lines there are.
pub(crate) const LINES: u32 = 64;

/// What a line signals: the notification at an offset, with a badge.
#[derive(Clone, Copy, Drop)]
pub(crate) struct Bell {
    pub(crate) notification: u32,
    pub(crate) badge: u32,
}

/// What a line signals, if the image binds it.
fn bell_of(placed: &PlacedImage<'_, '_>, line: u32) -> Option<Bell>
    ensures { result ≡ option_map (bell_for placed.now.image.now) (find (λ i. i.line == line) placed.now.image.now.interrupts) }
{
    let image = placed.image;
    for number in 0..header_of(image).interrupts {
        let entry = image.interrupt(number);
        if entry.line == line {
            return Some(Bell {
                notification: placed.offsets[entry.notification as usize],
                badge: entry.badge,
            });
        }
    }
    None
}

/// What a line signals, by a list of that.
pub(crate) fn bell_at(bells: &[Option<Bell>], line: u32) -> Option<Bell>
    ensures { result ≡ bell_at bells.now line }
{
    match bells.get(line as usize) {
        Some(bell) => *bell,
        None => None,
    }
}

/// What each line signals.
pub(crate) fn bells_of(
    alloc: Global,
    placed: &PlacedImage<'_, '_>,
) -> Result<Vec<Option<Bell>>, Refusal>
    ensures bells { IfOk result (λ bells. AreBells placed.now.image.now bells.items) }
    ensures memory { IfErr result (λ refusal. refusal ≡ OutOfMemory) }
{
    let mut bells = Vec::new(alloc);
    for line in 0..LINES {
        bells.push(bell_of(placed, line))?;
    }
    Ok(bells)
}
