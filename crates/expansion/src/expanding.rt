//! A description, read and expanded.

use crate::faults::{ExpansionFault, Fault};
use crate::notes::notes_of;
use crate::plans::plan_of;
use crate::texts::text_of;
use described_systems::{DescriptionFault, Joined, Place, System, push_fault, read};
use std::alloc::{AllocError, Global};

/// What a description is expanded to.
#[derive(Drop)]
pub struct Expansion {
    /// The text of an image, without certificates.
    pub text: String,
    /// What is no fault, but seldom meant, a line for each.
    pub notes: String,
    /// The place of the first program from C, `FILE:LINE`, if there is one.
    pub from_c: Option<String>,
}

/// A description that is refused for what it says by itself.
fn unread(alloc: Global, joined: &Joined, fault: &DescriptionFault<'_>) -> ExpansionFault {
    let mut said = String::new(alloc);
    match push_fault(alloc, &mut said, joined, fault) {
        Ok(()) => ExpansionFault::Refused(said),
        Err(_) => ExpansionFault::OutOfMemory,
    }
}

/// A description that is refused for what would have to be decided.
fn unexpanded(alloc: Global, joined: &Joined, fault: Fault) -> ExpansionFault {
    match fault {
        Fault::Line { line, said } => {
            let said = said.as_str();
            let Place { file, line } = joined.place(line);
            match format!(in alloc; "{file}:{line}: {said}\n") {
                Ok(said) => ExpansionFault::Refused(said),
                Err(_) => ExpansionFault::OutOfMemory,
            }
        }
        Fault::OutOfMemory => ExpansionFault::OutOfMemory,
    }
}

/// The line of the first program from C.
fn first_from_c(system: &System<'_>) -> Option<u64> {
    for part in &system.parts {
        if let Some(sources) = &part.sources {
            return Some(sources.line);
        }
    }
    None
}

/// The text of a system and the notes on it.
fn expanded(alloc: Global, joined: &Joined, system: &System<'_>) -> Result<Expansion, Fault> {
    let plan = plan_of(alloc, system)?;
    Ok(Expansion {
        text: text_of(alloc, joined, system, &plan)?,
        notes: notes_of(alloc, joined, system, &plan)?,
        from_c: match first_from_c(system) {
            Some(line) => Some(place_of(alloc, joined, line)?),
            None => None,
        },
    })
}

/// The place of a line, `FILE:LINE`.
fn place_of(alloc: Global, joined: &Joined, line: u64) -> Result<String, AllocError> {
    let mut place = String::new(alloc);
    joined.push_place(&mut place, line)?;
    Ok(place)
}

/// What a description is expanded to, with the files that it includes in their places.
///
/// # Errors
///
/// The description is refused, with the line that says why, or memory is.
pub fn expand(alloc: Global, joined: &Joined) -> Result<Expansion, ExpansionFault> {
    let system = match read(alloc, joined) {
        Ok(system) => system,
        Err(fault) => return Err(unread(alloc, joined, &fault)),
    };
    match expanded(alloc, joined, &system) {
        Ok(expansion) => Ok(expansion),
        Err(fault) => Err(unexpanded(alloc, joined, fault)),
    }
}
