//! What becomes of images.

use loader::boot;
use model::{Event, Label, Outcome};
use std::alloc::Global;
use std::test::Fail;
use verify::{Accepted, verify};

/// How many images were accepted, and how many were refused, by the number of the refusal.
#[derive(Debug, PartialEq, Drop)]
pub(crate) struct Outcomes {
    accepted: u32,
    refused: [u32; 27],
}

/// A refusal's number, and for how many images it was given.
pub(crate) type Row = (usize, u32);

impl Outcomes {
    /// So many accepted images, and so many refused ones by the rows; of all other refusals none.
    pub(crate) fn of(accepted: u32, rows: &[Row]) -> Self {
        let mut refused = [0; 27];
        for (number, count) in rows {
            if let Some(place) = refused.get_mut(*number) {
                *place = *count;
            }
        }
        Outcomes { accepted, refused }
    }

    /// Counts what becomes of an image.
    ///
    /// # Errors
    ///
    /// The image is accepted, and an event of its run is a fault or an error; or memory was refused.
    pub(crate) fn note(&mut self, alloc: Global, bytes: &[u8]) -> Result<(), Fail> {
        match verify(alloc, bytes) {
            Ok(accepted) => {
                self.accepted = self.accepted.saturating_add(1);
                runs_well(alloc, &accepted)
            }
            Err(refusal) => {
                if let Some(count) = self.refused.get_mut(usize::from(refusal.number())) {
                    *count = count.saturating_add(1);
                }
                Ok(())
            }
        }
    }
}

/// Runs an accepted image for 300 events, of which none may be a fault or an error.
fn runs_well(alloc: Global, accepted: &Accepted) -> Result<(), Fail> {
    let mut system = boot(alloc, accepted)?;
    for _ in 0..100 {
        for event in [Event::Step, Event::Tick, Event::Irq(3)] {
            if is_failure(system.step(event)) {
                return Err("an accepted image has a fault or an error".into());
            }
        }
    }
    Ok(())
}

/// Whether an event was a fault or an error.
fn is_failure(label: Label) -> bool {
    match label {
        Label::Ran { outcome, .. } => {
            matches!(outcome, Outcome::Faulted(_) | Outcome::Refused(_))
        }
        _ => false,
    }
}
