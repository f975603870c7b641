//! An image as parts of its own.

ghost use Rattle.std.specs.Prelude.{◌≡◌, IfOk, All};
ghost use Rattle.image_copies.specs.Counts.{HasThreadCounts};

use crate::lists::{contents_of, entries_of, promises_of, records_of, words_of};
use image::{Parts, ThreadParts};
use image_reading::{ImageRef, ThreadRef, Threads};
use std::alloc::{AllocError, Global};

/// A thread with its program and the certificate of that.
fn thread_of(alloc: Global, thread: &ThreadRef<'_>) -> Result<ThreadParts, AllocError>
    ensures { IfOk result (λ made. HasThreadCounts thread.now → made ≡ thread.now) }
{
    let header = thread.header();
    let registers = entries_of(alloc, thread.registers())?;
    let words = words_of(alloc, thread)?;
    let records = records_of(alloc, thread.records())?;
    Ok(ThreadParts {
        tcb: header.tcb,
        cnode: header.cnode,
        guard: header.guard,
        root: header.root,
        priority: header.priority,
        budget: header.budget,
        fault: header.fault,
        buffer: header.buffer,
        entry: header.entry,
        base: header.base,
        registers,
        words,
        records,
    })
}

/// The threads.
fn threads_of(alloc: Global, threads: Threads<'_>) -> Result<Vec<ThreadParts>, AllocError>
    ensures { IfOk result (λ all. All HasThreadCounts threads.entry → all.items ≡ threads.entry) }
{
    let mut all = Vec::new(alloc);
    for thread in threads {
        all.push(thread_of(alloc, &thread)?)?;
    }
    Ok(all)
}

/// An image as parts of its own: all that it lists, in its order.
///
/// # Errors
///
/// Memory may be refused.
pub fn copied(alloc: Global, image: &ImageRef<'_>) -> Result<Parts, AllocError>
    ensures { IfOk result (λ parts. parts ≡ image.now) }
{
    let header = image.header();
    let untypeds = entries_of(alloc, image.untypeds())?;
    let objects = entries_of(alloc, image.objects())?;
    let capabilities = entries_of(alloc, image.capabilities())?;
    let interrupts = entries_of(alloc, image.interrupts())?;
    let tables = entries_of(alloc, image.tables())?;
    let frames = entries_of(alloc, image.frames())?;
    let contents = contents_of(alloc, image.contents())?;
    let promises = promises_of(alloc, image.promises())?;
    let threads = threads_of(alloc, image.threads())?;
    Ok(Parts {
        version: header.version,
        memory_bits: header.memory_bits,
        boot_radix: header.boot_radix,
        untypeds,
        objects,
        capabilities,
        interrupts,
        tables,
        frames,
        contents,
        promises,
        threads,
    })
}
