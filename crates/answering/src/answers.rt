//! Which threads of an image answer which badges.

ghost use Rattle.std.specs.Prelude.{◌≡◌, ◌==◌, IfErr, IfOk};
ghost use Rattle.std.specs.List.{list_any};
ghost use Rattle.model.specs.declared.refusals.Refusal.TheVariants.{OutOfMemory};
ghost use Rattle.program_rules.specs.OfPrograms.{thread_placed};
ghost use Rattle.answering.specs.Answers.{AreAnswered, AreAnswers, AreShown, answers_at};
ghost use Rattle.typestate.specs.Promises.{AreOfImage};

use crate::tests::answers;
use format_laws::images_that_fit_keep_their_limits;
use image_reading::ThreadRef;
use model::Refusal;
use program_rules::{ProgramView, view_of};
use std::alloc::{AllocError, Global};
use thread_spaces::{PlacedImage, PlacedThread, offsets_of, promises_of};
use typestate::PlacedPromises;
use verify::Accepted;

/// The badges that a thread answers, among those that were asked for.
#[derive(Drop)]
pub struct Answered {
    pub badges: Vec<u32>,
}

/// The badges that a thread answers among these. Memory may be refused.
fn answered_by(
    alloc: Global,
    thread: &ThreadRef<'_>,
    program: &ProgramView,
    badges: &[u32],
) -> Result<Answered, AllocError>
    ensures { IfOk result (λ found. AreAnswered thread.now program.now found.badges.items) }
{
    let mut answered = Vec::new(alloc);
    'badges: for badge in badges {
        if answers(alloc, thread, program, *badge)? {
            answered.push(*badge)?;
        }
    }
    Ok(Answered { badges: answered })
}

/// The badges that a thread of a well-formed image answers among these: it is looked at only if there are some.
fn answered_of<'a>(
    alloc: Global,
    promises: &PlacedPromises<'a>,
    owner: PlacedThread<'_, '_, '_, 'a>,
    badges: &[u32],
) -> Result<Answered, Refusal>
    requires { AreOfImage owner.placed.now.image.now promises.now }
    ensures answered { IfOk result (λ found. AreShown owner.entry.placed.now.image.now (thread_placed owner.entry) found.badges.items) }
    ensures memory { IfErr result (λ refusal. refusal ≡ OutOfMemory) }
{
    if badges.is_empty() {
        return Ok(Answered {
            badges: Vec::new(alloc),
        });
    }
    let thread = owner.thread;
    let view = view_of(alloc, promises, owner)?;
    Ok(answered_by(alloc, thread, &view, badges)?)
}

/// The badges that are asked for of a thread.
fn badges_at(badges: &[Vec<u32>], thread: u32) -> &[u32] {
    match badges.get(thread as usize) {
        Some(badges) => badges.as_slice(),
        None => &[],
    }
}

/// Of each thread of an accepted image, by its number, which of these badges it answers. A thread with none is not looked at.
///
/// # Errors
///
/// Memory may be refused.
pub fn answers_of(
    alloc: Global,
    accepted: &Accepted<'_>,
    badges: &[Vec<u32>],
) -> Result<Vec<Answered>, Refusal>
    ensures answers { IfOk result (λ found. AreAnswers accepted.now found.items) }
    ensures memory { IfErr result (λ refusal. refusal ≡ OutOfMemory) }
{
    let image = accepted.image();
    let _ = image.header();
    images_that_fit_keep_their_limits();
    let offsets = offsets_of(alloc, image)?;
    let placed = PlacedImage {
        image,
        offsets: &offsets,
    };
    let promises = promises_of(alloc, &placed)?;
    let mut number = 0;
    let mut found = Vec::new(alloc);
    'threads: for thread in image.threads() {
        let owner = PlacedThread {
            placed: &placed,
            number,
            thread: &thread,
        };
        found.push(answered_of(alloc, &promises, owner, badges_at(badges, number))?)?;
        number += 1;
    }
    Ok(found)
}

/// Whether a badge is one of these.
fn is_among(badges: &[u32], badge: u32) -> bool
    ensures { result ≡ list_any (λ other. other == badge) badges.now }
{
    badges.iter().any(|other| *other == badge)
}

/// Whether a thread, by its number, answers a badge, by what was found.
pub fn answers_at(found: &[Answered], thread: u32, badge: u32) -> bool
    ensures { result ≡ answers_at found.now thread badge }
{
    match found.get(thread as usize) {
        Some(answered) => is_among(answered.badges.as_slice(), badge),
        None => false,
    }
}
