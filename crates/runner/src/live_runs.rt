//! A live run: events come a line at a time, and the lines of its events are out before the next line is read.

ghost use Rattle.std.specs.Prelude.{ℕ, ◌≡◌, ◌≢◌, Err, IfErr, IfOk, OnOk, Some};
ghost use Rattle.kernel_machine.specs.Setups.{state_in};
ghost use Rattle.kernel_trace.specs.Lines.{Failed};
ghost use Rattle.model.specs.Acceptance.Accepted.{first_breach};
ghost use Rattle.model.specs.Images.Format.{reading};
ghost use Rattle.model.specs.Images.Image.{Image, whole_image};
ghost use Rattle.model.specs.declared.boot_faults.BootFault.{BootFault};
ghost use Rattle.model.specs.declared.refusals.Refusal.{Refusal};
ghost use Rattle.runner.specs.Devices.{AreDevicePages};
ghost use Rattle.runner.specs.Live.{Answers, AnswersBooted, AnswersFrom, GivesAll, NextAnswer, StartsAccepted, StartsBooted, StopsAt, StopsShort, is_line_kept};
ghost use Rattle.runner.specs.Unverified.{FailsToBoot};
ghost use Rattle.runner.specs.declared.live_runs.LiveFault.TheVariants as faults;
ghost use Rattle.sinks.specs.LineInputs.{GivesLines};
ghost use Rattle.sinks.specs.Sinks.{Grows, GrowsByBeginning};

use crate::device_pages::DevicePages;
use crate::running::RunFault;
use headline::accepted_images_run_safely;
use image::read;
use kernel::System;
use kernel_trace::put_answer;
use loader::{boot, boot_unverified};
use model::{BootFault, Refusal};
use sinks::{EventLine, EventLines, LineFault, Sink};
use std::alloc::Global;
use thiserror::Error;
use verify::verify;

/// Why a live run ended before the end of its lines.
#[derive(Clone, Copy, Debug, PartialEq, Eq, Error)]
pub enum LiveFault {
    /// It did not begin. Nothing was put, and no line was read.
    #[error("the run does not begin: {0:?}")]
    Start(RunFault),
    /// This line, counted from 1, is malformed, or outside the image's device pages. The lines before it were answered.
    #[error("line {0} is malformed, or outside the image's device pages")]
    Line(u64),
    /// The input cannot be read, or has more than 2^64 - 1 lines. The lines that it gave were answered.
    #[error("the input cannot be read")]
    Input,
    /// The sink took no more. What it took is a beginning of the trace.
    #[error("the output takes no more")]
    Output,
}

impl From<RunFault> for LiveFault {
    ghost from_gives = { λ run fault. fault ≡ faults.Start run };

    fn from(fault: RunFault) -> LiveFault {
        LiveFault::Start(fault)
    }
}

/// A system that was booted, and the device pages of its image.
#[derive(Drop)]
struct Started {
    system: System,
    pages: DevicePages,
}

/// Verifies the image, boots it, and answers the lines of events, one after another: the lines of a line's events are put before the next line
/// is asked for. Nothing is kept of what was answered, so that a run goes on for as long as lines come.
///
/// # Errors
///
/// Why the image does not run; the first line that is malformed or outside the image's device pages; that the input cannot be read, or that
/// the output takes no more.
pub fn live<L: EventLines, S: Sink>(
    alloc: Global,
    bytes: &[u8],
    lines: &mut L,
    sink: &mut S,
) -> Result<(), LiveFault>
    // All lines are answered: the image is accepted, its run over the events that they ask for is safe, and exactly the lines of its trace are put.
    ensures ok { OnOk result (Answers bytes.now (λ _. GivesAll (L.left lines.old) (L.left lines.new)) (Grows (S.contents sink.old) (S.contents sink.new))) }
    // So it is for the lines before one that is malformed, or does not keep to the device pages,
    ensures line { (number : ℕ) → result ≡ Err (LiveFault.Line number)
        → Answers bytes.now (StopsAt number (L.left lines.old) (L.left lines.new)) (Grows (S.contents sink.old) (S.contents sink.new)) }
    // and for those before the input could not be read.
    ensures input { result ≡ Err LiveFault.Input
        → Answers bytes.now (λ _. StopsShort (L.left lines.old) (L.left lines.new)) (Grows (S.contents sink.old) (S.contents sink.new)) }
    // Where the sink fails, its count of failures says so, and a beginning of those lines is put.
    ensures output { result ≡ Err LiveFault.Output
        → Answers bytes.now (λ _. GivesLines (L.left lines.old) (L.left lines.new)) (GrowsByBeginning (S.contents sink.old) (S.contents sink.new))
        × Failed (S.failures sink.old) (S.failures sink.new) }
    // What does not begin puts nothing, and asks for no line.
    ensures start { (fault : RunFault) → result ≡ Err (LiveFault.Start fault) → (sink.new ≡ sink.old) × (lines.new ≡ lines.old) }
    // A refusal is the first breach.
    ensures refused { (refusal : Refusal) → result ≡ Err (LiveFault.Start (RunFault.Refused refusal)) → first_breach bytes.now ≡ Some refusal }
    // An image that cannot be read is refused for the first reason.
    ensures unread { IfErr (reading whole_image bytes.now) (λ refusal. result ≡ Err (LiveFault.Start (RunFault.Refused refusal))) }
    // Out of memory is no refusal.
    ensures enough { result ≢ Err (LiveFault.Start (RunFault.Refused Refusal.OutOfMemory)) }
    // Each image boots.
    ensures boots { (fault : BootFault) → result ≢ Err (LiveFault.Start (RunFault.Boot fault)) }
{
    let mut started = start(alloc, bytes)?;
    accepted_images_run_safely();
    answer_lines(&mut started.system, &started.pages, lines, sink)
}

/// Verifies the image, and boots it.
fn start(alloc: Global, bytes: &[u8]) -> Result<Started, RunFault>
    ensures ok { IfOk result (λ started. StartsAccepted bytes.now (state_in started.system) started.pages) }
    ensures refused { (refusal : Refusal) → result ≡ Err (RunFault.Refused refusal) → first_breach bytes.now ≡ Some refusal }
    ensures unread { IfErr (reading whole_image bytes.now) (λ refusal. result ≡ Err (RunFault.Refused refusal)) }
    ensures enough { result ≢ Err (RunFault.Refused Refusal.OutOfMemory) }
    ensures boots { (fault : BootFault) → result ≢ Err (RunFault.Boot fault) }
{
    let accepted = verify(alloc, bytes)?;
    let pages = DevicePages::of(alloc, accepted.image())?;
    let system = boot(alloc, &accepted)?;
    Ok(Started { system, pages })
}

/// Reads the image, boots it without verifying it, and answers the lines of events as a live run does. Nothing is promised of what is put but that
/// it is the kernel's trace.
///
/// # Errors
///
/// Why the image does not run; the first line that is malformed or outside the image's device pages; that the input cannot be read, or that
/// the output takes no more.
pub fn live_unverified<L: EventLines, S: Sink>(
    alloc: Global,
    bytes: &[u8],
    lines: &mut L,
    sink: &mut S,
) -> Result<(), LiveFault>
    // All lines are answered: the image boots, and all lines of the kernel's trace over the events that they ask for are put.
    ensures ok { OnOk result (AnswersBooted bytes.now (λ _. GivesAll (L.left lines.old) (L.left lines.new))
        (Grows (S.contents sink.old) (S.contents sink.new))) }
    // So it is for the lines before one that is malformed, or does not keep to the device pages,
    ensures line { (number : ℕ) → result ≡ Err (LiveFault.Line number)
        → AnswersBooted bytes.now (StopsAt number (L.left lines.old) (L.left lines.new)) (Grows (S.contents sink.old) (S.contents sink.new)) }
    // and for those before the input could not be read.
    ensures input { result ≡ Err LiveFault.Input
        → AnswersBooted bytes.now (λ _. StopsShort (L.left lines.old) (L.left lines.new)) (Grows (S.contents sink.old) (S.contents sink.new)) }
    // Where the sink fails, its count of failures says so, and a beginning of those lines is put.
    ensures output { result ≡ Err LiveFault.Output
        → AnswersBooted bytes.now (λ _. GivesLines (L.left lines.old) (L.left lines.new)) (GrowsByBeginning (S.contents sink.old) (S.contents sink.new))
        × Failed (S.failures sink.old) (S.failures sink.new) }
    // What does not begin puts nothing, and asks for no line.
    ensures start { (fault : RunFault) → result ≡ Err (LiveFault.Start fault) → (sink.new ≡ sink.old) × (lines.new ≡ lines.old) }
    // A refusal is that of the reading,
    ensures refused { (refusal : Refusal) → result ≡ Err (LiveFault.Start (RunFault.Refused refusal)) → reading whole_image bytes.now ≡ Err refusal }
    // and what cannot be read is refused for the first reason.
    ensures unread { IfErr (reading whole_image bytes.now) (λ refusal. result ≡ Err (LiveFault.Start (RunFault.Refused refusal))) }
    // The image that is read does not boot, for this reason.
    ensures boot { (fault : BootFault) → result ≡ Err (LiveFault.Start (RunFault.Boot fault)) → FailsToBoot bytes.now fault }
    // Out of memory is no refusal,
    ensures enough { result ≢ Err (LiveFault.Start (RunFault.Refused Refusal.OutOfMemory)) }
    // and no fault of booting.
    ensures room { result ≢ Err (LiveFault.Start (RunFault.Boot BootFault.OutOfMemory)) }
{
    let mut started = start_unverified(alloc, bytes)?;
    answer_lines(&mut started.system, &started.pages, lines, sink)
}

/// Reads the image, and boots it.
fn start_unverified(alloc: Global, bytes: &[u8]) -> Result<Started, RunFault>
    ensures ok { IfOk result (λ started. StartsBooted bytes.now (state_in started.system) started.pages) }
    ensures refused { (refusal : Refusal) → result ≡ Err (RunFault.Refused refusal) → reading whole_image bytes.now ≡ Err refusal }
    ensures unread { IfErr (reading whole_image bytes.now) (λ refusal. result ≡ Err (RunFault.Refused refusal)) }
    ensures boot { (fault : BootFault) → result ≡ Err (RunFault.Boot fault) → FailsToBoot bytes.now fault }
    ensures enough { result ≢ Err (RunFault.Refused Refusal.OutOfMemory) }
    ensures room { result ≢ Err (RunFault.Boot BootFault.OutOfMemory) }
{
    let image = read(bytes)?;
    let pages = DevicePages::of(alloc, &image)?;
    let system = boot_unverified(alloc, &image)?;
    Ok(Started { system, pages })
}

/// Answers lines, one after another.
fn answer_lines<L: EventLines, S: Sink>(
    system: &mut System,
    pages: &DevicePages,
    lines: &mut L,
    sink: &mut S,
) -> Result<(), LiveFault>
    ensures ok { OnOk result ((image : Image) → AreDevicePages image image.header.objects pages.now
        → AnswersFrom image (state_in system.old) (GivesAll (L.left lines.old) (L.left lines.new)) (Grows (S.contents sink.old) (S.contents sink.new))) }
    ensures line { (number : ℕ) → result ≡ Err (LiveFault.Line number) → (image : Image) → AreDevicePages image image.header.objects pages.now
        → AnswersFrom image (state_in system.old) (StopsAt number (L.left lines.old) (L.left lines.new) image)
        (Grows (S.contents sink.old) (S.contents sink.new)) }
    ensures input { result ≡ Err LiveFault.Input → (image : Image) → AreDevicePages image image.header.objects pages.now
        → AnswersFrom image (state_in system.old) (StopsShort (L.left lines.old) (L.left lines.new)) (Grows (S.contents sink.old) (S.contents sink.new)) }
    ensures output { result ≡ Err LiveFault.Output → ((image : Image) → AreDevicePages image image.header.objects pages.now
        → AnswersFrom image (state_in system.old) (GivesLines (L.left lines.old) (L.left lines.new))
        (GrowsByBeginning (S.contents sink.old) (S.contents sink.new))) × Failed (S.failures sink.old) (S.failures sink.new) }
    ensures begun { (fault : RunFault) → result ≢ Err (LiveFault.Start fault) }
{
    'lines: for done in 0..u64::MAX {
        if !answer_next(system, pages, done + 1, lines, sink)? {
            return Ok(());
        }
    }
    Err(LiveFault::Input)
}

/// Answers the next line, of this number. The result is whether there was one.
fn answer_next<L: EventLines, S: Sink>(
    system: &mut System,
    pages: &DevicePages,
    number: u64,
    lines: &mut L,
    sink: &mut S,
) -> Result<bool, LiveFault>
    ensures next { (image : Image) → AreDevicePages image image.header.objects pages.now
        → NextAnswer image number (state_in system.old) (state_in system.new) (L.left lines.old) (L.left lines.new) (S.contents sink.old)
        (S.contents sink.new) result }
    ensures kept { OnOk result (S.failures sink.new ≡ S.failures sink.old) }
    ensures failed { result ≡ Err LiveFault.Output → Failed (S.failures sink.old) (S.failures sink.new) }
    ensures begun { (fault : RunFault) → result ≢ Err (LiveFault.Start fault) }
{
    let line = match lines.next_line() {
        Ok(Some(line)) => line,
        Ok(None) => return Ok(false),
        Err(LineFault::Malformed) => return Err(LiveFault::Line(number)),
        Err(LineFault::Unreadable) => return Err(LiveFault::Input),
    };
    if !keeps(pages, line) {
        return Err(LiveFault::Line(number));
    }
    match put_answer(system, line, sink) {
        Ok(()) => Ok(true),
        Err(_) => Err(LiveFault::Output),
    }
}

/// Whether what a line asks for keeps to the device pages.
fn keeps(pages: &DevicePages, line: EventLine) -> bool
    ensures { (image : Image) → AreDevicePages image image.header.objects pages.now → result ≡ is_line_kept image line }
{
    match line {
        EventLine::Blank | EventLine::Settle(_) => true,
        EventLine::Events(event, _) => pages.keep(event),
    }
}
