//! Runs of accepted images with the names of a system: what is proved of runs, of events by names.

ghost use Rattle.std.specs.Prelude.{OnOk};
ghost use Rattle.tool.specs.SafeRuns.{PutsSafeRun};

use named_runs::{ListFault, NamedLines, named_events};
use named_traces::TextNames;
use runner::{LiveFault, RunFault, live, run};
use sinks::Sink;
use std::alloc::Global;
use std::io::BufRead;

/// Why an image did not run over events with names, or not over all.
#[derive(Drop)]
pub enum NotRun {
    /// This line of the events, counted from 1, has no event, for this reason where one was found, or else for its address, which is
    /// outside the device pages.
    Line { line: u64, why: Option<String> },
    /// The image does not run, or the sink took no more.
    Run(RunFault),
    /// The lines of the events cannot be read.
    Input,
    /// Memory was refused.
    OutOfMemory,
}

impl From<ListFault> for NotRun {
    fn from(fault: ListFault) -> NotRun {
        match fault {
            ListFault::Line { line, why } => NotRun::Line {
                line,
                why: Some(why),
            },
            ListFault::OutOfMemory => NotRun::OutOfMemory,
        }
    }
}

impl From<RunFault> for NotRun {
    fn from(fault: RunFault) -> NotRun {
        NotRun::Run(fault)
    }
}

/// Verifies an image, boots it, and puts a line for each event of a list whose words may be names.
///
/// # Errors
///
/// The first line of the list that has no event; or why the image does not run, or that the sink takes no more.
pub fn run_by_names<S: Sink>(
    alloc: Global,
    image: &[u8],
    names: &TextNames<'_>,
    list: &[u8],
    sink: &mut S,
) -> Result<(), NotRun>
    // The image is accepted, its run is safe, and exactly the lines of its trace are put.
    ensures ok { OnOk result (PutsSafeRun image.now (S.contents sink.old) (S.contents sink.new)) }
{
    let events = named_events(alloc, names, list)?;
    run(alloc, image, events.as_slice(), sink)?;
    Ok(())
}

/// Why a live run ended before the end of its lines.
pub(crate) fn live_fault<R: BufRead + Drop>(
    alloc: Global,
    fault: LiveFault,
    lines: &NamedLines<'_, '_, R>,
) -> NotRun {
    match fault {
        LiveFault::Start(fault) => NotRun::Run(fault),
        LiveFault::Input => NotRun::Input,
        LiveFault::Output => NotRun::Run(RunFault::Output),
        LiveFault::Line(line) => match lines.why() {
            None => NotRun::Line { line, why: None },
            Some(why) => match String::from_str(alloc, why) {
                Ok(why) => NotRun::Line {
                    line,
                    why: Some(why),
                },
                Err(_) => NotRun::OutOfMemory,
            },
        },
    }
}

/// Verifies an image, boots it, and answers lines of events whose words may be names: the lines of the trace of each are put before the
/// next one is read.
///
/// # Errors
///
/// Why the image does not run; the first line that has no event, or one outside the device pages; or the input cannot be read, or the
/// sink takes no more.
pub fn live_by_names<R: BufRead + Drop, S: Sink>(
    alloc: Global,
    image: &[u8],
    names: &TextNames<'_>,
    reader: R,
    sink: &mut S,
) -> Result<(), NotRun>
    // The image is accepted, its run is safe, and exactly the lines of its trace are put.
    ensures ok { OnOk result (PutsSafeRun image.now (S.contents sink.old) (S.contents sink.new)) }
{
    let mut lines = NamedLines::new(alloc, names, reader);
    match live(alloc, image, &mut lines, sink) {
        Ok(()) => Ok(()),
        Err(fault) => Err(live_fault(alloc, fault, &lines)),
    }
}
