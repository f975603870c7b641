//! A run: an image is verified and booted, and each event puts a line.

ghost use Rattle.std.specs.Prelude.{ℕ, ◌≡◌, ◌≢◌, Err, IfErr, OnErr, OnOk, Some};
ghost use Rattle.kernel_machine.specs.Setups.{state_in};
ghost use Rattle.model.specs.Acceptance.Accepted.{first_breach};
ghost use Rattle.model.specs.Images.Format.{reading};
ghost use Rattle.model.specs.Images.Image.{whole_image};
ghost use Rattle.model.specs.Kernel.Steps.{trace};
ghost use Rattle.model.specs.declared.boot_faults.BootFault.{BootFault};
ghost use Rattle.model.specs.declared.refusals.Refusal.{Refusal};
ghost use Rattle.runner.specs.declared.running.RunFault.TheVariants.{Output, OutOfMemory};
ghost use Rattle.kernel_trace.specs.Lines.{Failed, lines_of};
ghost use Rattle.runner.specs.Running.{IsOutside, PutsAll, PutsSome, boot_fault_of, fault_of};
ghost use Rattle.sinks.specs.Sinks.{Grows, GrowsByBeginning};

use crate::device_pages::first_outside;
use headline::accepted_images_run_safely;
use kernel::System;
use kernel_trace::put_trace;
use loader::boot;
use model::{BootFault, Event, Refusal};
use sinks::{Sink, SinkFault};
use std::alloc::{AllocError, Global};
use thiserror::Error;
use verify::verify;

/// Why a run ended before its last event.
#[derive(Clone, Copy, Debug, PartialEq, Eq, Error)]
pub enum RunFault {
    /// The image is not accepted. Nothing was put.
    #[error("the image is refused: {0:?}")]
    Refused(Refusal),
    /// The event of this index, from 0, is the first that is outside the device pages of the image. Nothing was put.
    #[error("event {0} is outside the image's device pages")]
    Outside(usize),
    /// The image does not boot. Nothing was put.
    #[error("the image does not boot: {0:?}")]
    Boot(BootFault),
    /// The sink took no more. What it took is a beginning of the trace.
    #[error("the output takes no more")]
    Output,
    /// Memory was refused. Nothing was put.
    #[error("out of memory")]
    OutOfMemory,
}

impl From<SinkFault> for RunFault {
    ghost from_gives = { λ _ fault. fault ≡ Output };

    fn from(_fault: SinkFault) -> RunFault {
        RunFault::Output
    }
}

impl From<AllocError> for RunFault {
    ghost from_gives = { λ _ fault. fault ≡ OutOfMemory };

    fn from(_fault: AllocError) -> RunFault {
        RunFault::OutOfMemory
    }
}

impl From<Refusal> for RunFault {
    ghost from_gives = { λ refusal fault. fault ≡ fault_of refusal };

    fn from(refusal: Refusal) -> RunFault {
        match refusal {
            Refusal::OutOfMemory => RunFault::OutOfMemory,
            refusal => RunFault::Refused(refusal),
        }
    }
}

impl From<BootFault> for RunFault {
    ghost from_gives = { λ boot fault. fault ≡ boot_fault_of boot };

    fn from(fault: BootFault) -> RunFault {
        match fault {
            BootFault::OutOfMemory => RunFault::OutOfMemory,
            fault => RunFault::Boot(fault),
        }
    }
}

/// Verifies the image, boots it, and puts one line for each event. What the world stores and looks at lies in its device pages.
///
/// # Errors
///
/// Why the image does not run, or that an `Output` takes no more. Where it is no `Output`, it is known before the first line.
pub fn run<S: Sink>(
    alloc: Global,
    bytes: &[u8],
    events: &[Event],
    sink: &mut S,
) -> Result<(), RunFault>
    // The image is accepted; it boots with no kernel error into the state that it describes, inside its untyped memory. Exactly the
    // lines of the kernel's trace from there are put; none is a fault or an error, and each thread keeps its budget.
    ensures ok { OnOk result (PutsAll bytes.now events.now (S.contents sink.old) (S.contents sink.new)) }
    // A refusal is the first breach, and nothing is put.
    ensures refused { (refusal : Refusal) → result ≡ Err (RunFault.Refused refusal) → (first_breach bytes.now ≡ Some refusal) × (sink.new ≡ sink.old) }
    // What is outside is the first event that does not keep to the device pages of the image, which is accepted, and nothing is put.
    ensures outside { (index : ℕ) → result ≡ Err (RunFault.Outside index) → IsOutside bytes.now events.now index × (sink.new ≡ sink.old) }
    // An image that cannot be read is refused for the first reason, and nothing is put.
    ensures unread { IfErr (reading whole_image bytes.now) (λ refusal. (result ≡ Err (RunFault.Refused refusal)) × (sink.new ≡ sink.old)) }
    // Where memory is refused, nothing is put.
    ensures memory { result ≡ Err RunFault.OutOfMemory → sink.new ≡ sink.old }
    // Where the sink fails, its count of failures says so, and a beginning of those lines is put.
    ensures output { result ≡ Err RunFault.Output
        → PutsSome bytes.now events.now (S.contents sink.old) (S.contents sink.new) × Failed (S.failures sink.old) (S.failures sink.new) }
    // Out of memory is no refusal.
    ensures enough { result ≢ Err (RunFault.Refused Refusal.OutOfMemory) }
    // Each image boots.
    ensures boots { (fault : BootFault) → result ≢ Err (RunFault.Boot fault) }
{
    let accepted = verify(alloc, bytes)?;
    if let Some(index) = first_outside(alloc, accepted.image(), events)? {
        return Err(RunFault::Outside(index));
    }
    let system = boot(alloc, &accepted)?;
    accepted_images_run_safely();
    put_lines(system, events, sink)
}

/// Puts the lines of a system that was booted. It takes the system, which so is dropped in one place alone.
pub(crate) fn put_lines<S: Sink>(
    mut system: System,
    events: &[Event],
    sink: &mut S,
) -> Result<(), RunFault>
    ensures ok { OnOk result (Grows (S.contents sink.old) (S.contents sink.new) (lines_of (trace (state_in system) events.now))) }
    ensures err { OnErr result (GrowsByBeginning (S.contents sink.old) (S.contents sink.new) (lines_of (trace (state_in system) events.now))) }
    ensures failed { OnErr result (Failed (S.failures sink.old) (S.failures sink.new)) }
    // There is no other fault than that of the sink.
    ensures only { IfErr result (λ fault. fault ≡ Output) }
{
    match put_trace(&mut system, events, sink) {
        Ok(()) => Ok(()),
        Err(fault) => Err(RunFault::from(fault)),
    }
}
