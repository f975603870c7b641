//! A run of an image that is not verified.

ghost use Rattle.std.specs.Prelude.{ℕ, ◌≡◌, ◌≢◌, ◌⊎◌, Err, IfErr, IfOk, IfSome, OnOk};
ghost use Rattle.model.specs.Images.Format.{reading};
ghost use Rattle.model.specs.Images.Image.{whole_image};
ghost use Rattle.model.specs.declared.boot_faults.BootFault.{BootFault};
ghost use Rattle.model.specs.declared.refusals.Refusal.{Refusal};
ghost use Rattle.kernel_trace.specs.Lines.{Failed};
ghost use Rattle.runner.specs.Devices.{first_outside};
ghost use Rattle.runner.specs.Unverified.{FailsToBoot, PutsTrace, PutsTraceBeginning, ReadsOutside};

use crate::device_pages::first_outside;
use crate::running::{RunFault, put_lines};
use image::read;
use loader::boot_unverified;
use model::{BootFault, Event, Refusal};
use sinks::Sink;
use std::alloc::Global;

/// Reads an image, boots it without verifying it, and puts one line for each event.
///
/// Nothing is promised of the lines but that they are the kernel's: threads may fault, be refused, and run as long as they
/// like.
///
/// # Errors
///
/// Why the image does not run, or that an `Output` takes no more. Where it is no `Output`, it is known before the first line.
pub fn run_unverified<S: Sink>(
    alloc: Global,
    bytes: &[u8],
    events: &[Event],
    sink: &mut S,
) -> Result<(), RunFault>
    // The image boots, and all lines of the kernel's trace are put.
    ensures ok { OnOk result (PutsTrace bytes.now events.now (S.contents sink.old) (S.contents sink.new)) }
    // A refusal is that of the reading, and nothing is put.
    ensures refused { (refusal : Refusal) → result ≡ Err (RunFault.Refused refusal) → (reading whole_image bytes.now ≡ Err refusal) × (sink.new ≡ sink.old) }
    // What cannot be read is refused for the first reason, and nothing is put.
    ensures unread { IfErr (reading whole_image bytes.now) (λ refusal. (result ≡ Err (RunFault.Refused refusal)) × (sink.new ≡ sink.old)) }
    // What is outside is the first event that does not keep to the device pages of the image that is read, and nothing is put.
    ensures outside { (index : ℕ) → result ≡ Err (RunFault.Outside index) → ReadsOutside bytes.now events.now index × (sink.new ≡ sink.old) }
    // Where there is such an event, nothing else is answered but that memory is refused.
    ensures inside { IfOk (reading whole_image bytes.now)
        (λ image. IfSome (first_outside image events.now) (λ index. (result ≡ Err (RunFault.Outside index)) ⊎ (result ≡ Err RunFault.OutOfMemory))) }
    // The image that is read does not boot, for this reason, and nothing is put.
    ensures boot { (fault : BootFault) → result ≡ Err (RunFault.Boot fault) → FailsToBoot bytes.now fault × (sink.new ≡ sink.old) }
    // Where memory is refused, nothing is put.
    ensures memory { result ≡ Err RunFault.OutOfMemory → sink.new ≡ sink.old }
    // Where the sink fails, its count of failures says so, and a beginning of those lines is put.
    ensures output { result ≡ Err RunFault.Output
        → PutsTraceBeginning bytes.now events.now (S.contents sink.old) (S.contents sink.new) × Failed (S.failures sink.old) (S.failures sink.new) }
    // Out of memory is no refusal,
    ensures enough { result ≢ Err (RunFault.Refused Refusal.OutOfMemory) }
    // and no fault of booting.
    ensures room { result ≢ Err (RunFault.Boot BootFault.OutOfMemory) }
{
    let image = read(bytes)?;
    if let Some(index) = first_outside(alloc, &image, events)? {
        return Err(RunFault::Outside(index));
    }
    let system = boot_unverified(alloc, &image)?;
    put_lines(system, events, sink)
}
