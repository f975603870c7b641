//! What a part takes, and who may change it.

ghost use Rattle.std.specs.Prelude.{◌≡◌, ◌++◌, IfOk, OnOk, [], ◌∷◌, flat_map, if◌then◌else◌};
ghost use Rattle.parts.specs.Taken.{taken_between, taken_inside, taken_outside};

use crate::image_parts::{is_apart, is_in, is_taken};
use crate::uses::Uses;
use std::alloc::{AllocError, Global};

/// An object that a thread takes and another may change. Threads are the image's, from 0 on.
#[derive(Clone, Copy, Debug, PartialEq, Eq)]
pub struct Taken {
    /// The thread that takes it.
    pub taker: usize,
    pub object: u32,
    /// The thread that may change it.
    pub other: usize,
}

/// Puts one thing more after what was found, if a test was passed.
fn note_if(found: &mut Vec<Taken>, passed: bool, taken: Taken) -> Result<(), AllocError>
    ensures { OnOk result (found.new.items ≡ found.old.items ++ (if passed then taken ∷ [] else [])) }
{
    if !passed {
        return Ok(());
    }
    found.push(taken)?;
    Ok(())
}

/// Puts what one thread takes and another may change after what was found.
fn note_between(
    objects: u32,
    taker: &Uses,
    other: &Uses,
    found: &mut Vec<Taken>,
) -> Result<(), AllocError>
    ensures { OnOk result (found.new.items ≡ found.old.items ++ taken_between objects taker.now other.now) }
{
    if is_apart(objects, taker, other) {
        return Ok(());
    }
    for object in 0..objects {
        let passed = is_taken(taker, other, object);
        note_if(
            found,
            passed,
            Taken {
                taker: taker.number,
                object,
                other: other.number,
            },
        )?;
    }
    Ok(())
}

/// The same, if the other is not of the part.
fn note_outside(
    objects: u32,
    is_outside: bool,
    taker: &Uses,
    other: &Uses,
    found: &mut Vec<Taken>,
) -> Result<(), AllocError>
    ensures { OnOk result (found.new.items ≡ found.old.items ++ (if is_outside then taken_between objects taker.now other.now else [])) }
{
    if is_outside {
        note_between(objects, taker, other, found)
    } else {
        Ok(())
    }
}

/// Puts what a thread takes and those outside of the part may change after what was found.
fn note_taken_by(
    objects: u32,
    all: &[Uses],
    threads: u64,
    taker: &Uses,
    found: &mut Vec<Taken>,
) -> Result<(), AllocError>
    ensures { OnOk result (found.new.items ≡ found.old.items ++ flat_map (taken_outside objects threads all.now taker.now) all.now) }
{
    for other in all {
        let is_outside = !is_in(all, threads, other.tcb);
        note_outside(objects, is_outside, taker, other, found)?;
    }
    Ok(())
}

/// The same, if the thread is of the part.
fn note_inside(
    objects: u32,
    all: &[Uses],
    threads: u64,
    taker: &Uses,
    found: &mut Vec<Taken>,
) -> Result<(), AllocError>
    ensures { OnOk result (found.new.items ≡ found.old.items ++ taken_inside objects threads all.now taker.now) }
{
    if is_in(all, threads, taker.tcb) {
        note_taken_by(objects, all, threads, taker, found)
    } else {
        Ok(())
    }
}

/// What the threads of a part take and those outside may change.
pub(crate) fn all_taken(
    alloc: Global,
    objects: u32,
    all: &[Uses],
    threads: u64,
) -> Result<Vec<Taken>, AllocError>
    ensures { IfOk result (λ found. found.items ≡ flat_map (taken_inside objects threads all.now) all.now) }
{
    let mut found = Vec::new(alloc);
    for taker in all {
        note_inside(objects, all, threads, taker, &mut found)?;
    }
    Ok(found)
}
