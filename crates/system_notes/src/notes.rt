//! What is odd about what the threads of a system do, a line for each.

use crate::calls::Deed;
use crate::faults::NotesFault;
use crate::meetings::{Meetings, Scene, only};
use crate::rings::Rings;
use crate::thread_calls::ThreadCalls;
use asm::assemble;
use certified_texts::bare_text;
use certifying::{ThreadFindings, findings_in};
use image::{Image, write};
use model::{ObjectKind, ObjectType};
use source_gaps::{Text, push_place};
use source_texts::{InterruptLine, SourceText, read};
use std::alloc::{AllocError, Global};

/// Notes that are being written.
#[derive(Drop)]
struct Notes<'f, 't> {
    alloc: Global,
    to: String,
    text: Text<'f, 't>,
}

impl Notes<'_, '_> {
    /// The beginning of a note on a line.
    fn begin(&mut self, line: u64) -> Result<(), AllocError> {
        push_place(&mut self.to, &self.text, line)?;
        self.to.push_str("note: ")
    }

    /// Puts the names of the threads of a set.
    fn push_set(&mut self, scene: Scene<'_, '_>, set: u64) -> Result<(), AllocError> {
        let mut before = "";
        for number in 0..scene.threads.len() {
            if set & only(number) != 0 {
                let name = scene.name(number);
                write!(&mut self.to, "{before}{name}")?;
                before = ", ";
            }
        }
        Ok(())
    }

    /// An interrupt that a thread waits for and that nobody acknowledges after a wait.
    fn note_interrupt(
        &mut self,
        scene: Scene<'_, '_>,
        number: usize,
        interrupt: &InterruptLine<'_>,
    ) -> Result<(), AllocError> {
        let waiting = scene.meetings.waiting(interrupt.notification);
        if waiting == 0 || scene.meetings.is_acknowledged(number) {
            return Ok(());
        }
        self.begin(interrupt.line)?;
        let (line, bell) = (
            interrupt.number,
            scene.text.object_name(interrupt.notification),
        );
        write!(
            &mut self.to,
            "interrupt line {line} rings {bell} once: no way of "
        )?;
        self.push_set(scene, waiting)?;
        self.to
            .push_str(" from a wait to the next one acknowledges it\n")
    }

    /// More threads than one that wait for a notification.
    fn note_bell(&mut self, scene: Scene<'_, '_>, bell: usize) -> Result<(), AllocError> {
        let waiting = scene.meetings.waiting(bell);
        if waiting.count_ones() < 2 {
            return Ok(());
        }
        let line = match scene.text.objects.get(bell) {
            Some(object) => object.line,
            None => 1,
        };
        self.begin(line)?;
        self.push_set(scene, waiting)?;
        let name = scene.text.object_name(bell);
        write!(
            &mut self.to,
            " wait for the bell {name}, and each signal comes to one of them\n"
        )
    }

    /// Threads that wait for one another in a ring, at the first of them.
    fn note_ring(
        &mut self,
        scene: Scene<'_, '_>,
        rings: &Rings,
        number: usize,
        thread: &ThreadCalls,
    ) -> Result<(), AllocError> {
        let ring = rings.ring(number);
        if ring == 0 || ring.trailing_zeros() as usize != number {
            return Ok(());
        }
        let line = match first_into(scene, thread, ring) {
            Some(point) => scene.line(number, point),
            None => 1,
        };
        self.begin(line)?;
        self.push_set(scene, ring)?;
        self.to.push_str(if ring.count_ones() == 1 {
            " calls or sends where it receives itself, and waits for ever\n"
        } else {
            " call or send to one another in a ring, and each can wait for the next for ever\n"
        })
    }

    /// A thread that receives calls and goes on to its next receive without an answer.
    fn note_unanswered(
        &mut self,
        scene: Scene<'_, '_>,
        number: usize,
        thread: &ThreadCalls,
    ) -> Result<(), AllocError> {
        match thread.program().unanswered(self.alloc, scene.meetings)? {
            Some(call) => {
                self.begin(scene.line(number, call.point))?;
                let name = scene.name(number);
                write!(
                    &mut self.to,
                    "{name} receives calls, and a way leads here from one of them without an answer: who called waits for ever\n"
                )
            }
            None => Ok(()),
        }
    }
}

/// The first call of a thread at an endpoint where one of a ring receives.
fn first_into(scene: Scene<'_, '_>, thread: &ThreadCalls, ring: u64) -> Option<u32> {
    for call in &thread.calls {
        if let Deed::Enter { endpoint, .. } = call.deed {
            if scene.meetings.receiving(endpoint) & ring != 0 {
                return Some(call.point);
            }
        }
    }
    None
}

/// What the threads of an image do.
fn calls_of(
    alloc: Global,
    text: &SourceText<'_>,
    image: &Image,
    findings: &[ThreadFindings],
) -> Result<Vec<ThreadCalls>, AllocError> {
    let mut all = Vec::new(alloc);
    for ((parts, thread), found) in image
        .parts()
        .threads
        .iter()
        .zip(&text.threads)
        .zip(findings)
    {
        let mut words = Vec::new(alloc);
        words.extend_from_slice(parts.words.as_slice())?;
        all.push(ThreadCalls::of(alloc, text, thread, words, found)?)?;
    }
    Ok(all)
}

/// Puts all that is odd about a system.
fn put_all(notes: &mut Notes<'_, '_>, scene: Scene<'_, '_>) -> Result<(), AllocError> {
    for (number, interrupt) in scene.text.interrupts.iter().enumerate() {
        notes.note_interrupt(scene, number, interrupt)?;
    }
    for (number, object) in scene.text.objects.iter().enumerate() {
        if let ObjectType::Object(ObjectKind::Notification) = object.kind {
            notes.note_bell(scene, number)?;
        }
    }
    let rings = Rings::of(notes.alloc, scene)?;
    for (number, thread) in scene.threads.iter().enumerate() {
        notes.note_ring(scene, &rings, number, thread)?;
        notes.note_unanswered(scene, number, thread)?;
    }
    Ok(())
}

/// What is odd about what the threads of a system do, by its text, with certificates or without: a line for each.
///
/// # Errors
///
/// The text is none, its image is refused for more than its programs, or memory is refused.
pub fn notes_on_threads(alloc: Global, text: &Text<'_, '_>) -> Result<String, NotesFault> {
    let bytes = bare_text(alloc, text.content)?;
    let Ok(bare) = std::str::from_utf8(bytes.as_slice()) else {
        return Err(NotesFault::Refused);
    };
    let image = assemble(alloc, bare)?;
    let written = write(alloc, &image)?;
    let findings = findings_in(alloc, written.as_slice())?;
    let source = read(alloc, bare)?;
    let threads = calls_of(alloc, &source, &image, findings.as_slice())?;
    let mut notes = Notes {
        alloc,
        to: String::new(alloc),
        text: *text,
    };
    let meetings = Meetings::of(alloc, threads.as_slice())?;
    let scene = Scene {
        text: &source,
        threads: threads.as_slice(),
        meetings: &meetings,
    };
    put_all(&mut notes, scene)?;
    Ok(notes.to)
}
