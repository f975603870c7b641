//! What the text of an image declares, without the text.

use image_reading::{ImageRef, ThreadRef};
use model::{CapabilityEntry, FrameEntry, ObjectEntry, ObjectKind, ObjectType};
use source_texts::{
    BufferLine, CapabilityLine, FrameLine, InterruptLine, ObjectLine, Source, SourceText,
    SourceThread, TextFault,
};
use std::alloc::{AllocError, Global};

/// The number for no object: no buffer.
const NO_OBJECT: u32 = u32::MAX;

/// The size of a frame that is a device page.
const DEVICE_SIZE: u32 = 1;

/// The names that the listing of an image has: `o` and a number for each object and then `i` and a number for each interrupt, with a space
/// after each.
///
/// # Errors
///
/// Memory may be refused.
pub fn image_names(alloc: Global, image: &ImageRef<'_>) -> Result<String, AllocError> {
    let header = image.header();
    let mut names = String::new(alloc);
    for number in 0..header.objects {
        write!(&mut names, "o{number} ")?;
    }
    for number in 0..header.interrupts {
        write!(&mut names, "i{number} ")?;
    }
    Ok(names)
}

/// A name by its number.
fn name_at<'n>(names: &[&'n str], number: usize) -> &'n str {
    match names.get(number) {
        Some(name) => name,
        None => "?",
    }
}

/// An object, if it is of a kind that there is.
fn object_line<'n>(name: &'n str, entry: &ObjectEntry) -> Result<ObjectLine<'n>, TextFault> {
    let Some(kind) = ObjectType::of(entry.kind, entry.size) else {
        return Err(TextFault::Line(0));
    };
    let is_frame = matches!(&kind, ObjectType::Object(ObjectKind::Frame));
    Ok(ObjectLine {
        line: 0,
        name,
        untyped: entry.untyped as usize,
        kind,
        is_device: is_frame && entry.size == DEVICE_SIZE,
    })
}

/// The objects.
fn objects_in<'n>(
    alloc: Global,
    image: &ImageRef<'_>,
    names: &[&'n str],
) -> Result<Vec<ObjectLine<'n>>, TextFault> {
    let mut objects = Vec::new(alloc);
    for entry in image.objects() {
        let line = object_line(name_at(names, objects.len()), &entry)?;
        objects.push(line)?;
    }
    Ok(objects)
}

/// The interrupts, whose names follow those of so many objects.
fn interrupts_in<'n>(
    alloc: Global,
    image: &ImageRef<'_>,
    names: &[&'n str],
    objects: usize,
) -> Result<Vec<InterruptLine<'n>>, TextFault> {
    let mut interrupts = Vec::new(alloc);
    for entry in image.interrupts() {
        let name = name_at(names, objects.saturating_add(interrupts.len()));
        interrupts.push(InterruptLine {
            line: 0,
            name,
            number: entry.line,
            notification: entry.notification as usize,
            badge: entry.badge,
        })?;
    }
    Ok(interrupts)
}

/// A capability in an image with so many objects.
fn capability_line(entry: &CapabilityEntry, objects: u32) -> CapabilityLine {
    let source = match entry.source.checked_sub(objects) {
        Some(interrupt) => Source::Interrupt(interrupt as usize),
        None => Source::Object(entry.source as usize),
    };
    CapabilityLine {
        line: 0,
        cnode: entry.cnode as usize,
        index: entry.index,
        source,
        rights: entry.rights,
        payload: entry.payload,
    }
}

/// The capabilities.
fn capabilities_in(alloc: Global, image: &ImageRef<'_>) -> Result<Vec<CapabilityLine>, TextFault> {
    let objects = image.header().objects;
    let mut capabilities = Vec::new(alloc);
    for entry in image.capabilities() {
        capabilities.push(capability_line(&entry, objects))?;
    }
    Ok(capabilities)
}

/// A mapping.
fn frame_line(entry: &FrameEntry) -> FrameLine {
    FrameLine {
        line: 0,
        root: entry.root as usize,
        address: entry.address,
        frame: entry.frame as usize,
        rights: entry.rights,
    }
}

/// The mappings.
fn frames_in(alloc: Global, image: &ImageRef<'_>) -> Result<Vec<FrameLine>, TextFault> {
    let mut frames = Vec::new(alloc);
    for entry in image.frames() {
        frames.push(frame_line(&entry))?;
    }
    Ok(frames)
}

/// A thread without its program.
fn thread_line(alloc: Global, thread: &ThreadRef<'_>) -> SourceThread<'static> {
    let header = thread.header();
    let buffer = if header.buffer == NO_OBJECT {
        None
    } else {
        Some(BufferLine {
            line: 0,
            frame: header.buffer as usize,
        })
    };
    SourceThread {
        line: 0,
        tcb: header.tcb as usize,
        cnode: header.cnode as usize,
        root: header.root as usize,
        guard: header.guard,
        priority: header.priority,
        budget: header.budget,
        fault: header.fault,
        buffer,
        entry: "",
        base: header.base,
        points: Vec::new(alloc),
        records: Vec::new(alloc),
    }
}

/// The threads.
fn threads_in<'n>(alloc: Global, image: &ImageRef<'_>) -> Result<Vec<SourceThread<'n>>, TextFault> {
    let mut threads = Vec::new(alloc);
    for thread in image.threads() {
        threads.push(thread_line(alloc, &thread))?;
    }
    Ok(threads)
}

/// What the listing of an accepted image declares, by its names ([`image_names`]), as far as [`parts_report`](crate::parts_report) asks:
/// objects, interrupts, capabilities, mappings and threads without their programs. All lines are 0.
///
/// # Errors
///
/// Memory may be refused; or an object is of no kind that there is, which no accepted image has.
pub fn declared_in<'n>(
    alloc: Global,
    image: &ImageRef<'_>,
    names: &'n str,
) -> Result<SourceText<'n>, TextFault> {
    let names: Vec<&'n str> = names.split(' ').collect(alloc)?;
    let objects = objects_in(alloc, image, names.as_slice())?;
    let interrupts = interrupts_in(alloc, image, names.as_slice(), objects.len())?;
    Ok(SourceText {
        untypeds: Vec::new(alloc),
        objects,
        interrupts,
        capabilities: capabilities_in(alloc, image)?,
        tables: Vec::new(alloc),
        frames: frames_in(alloc, image)?,
        contents: Vec::new(alloc),
        promises: Vec::new(alloc),
        threads: threads_in(alloc, image)?,
    })
}
