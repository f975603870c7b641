//! Refusals at points of programs.

use crate::explained_images::ExplainedImage;
use crate::faults::ExplainFault;
use crate::scenes::Scene;
use crate::states::State;
use certifying::{Record, ThreadFindings};
use model::{Instr, Point, Refusal};
use program_rules::AtPoint;
use rv32_isa::decode;
use std::alloc::AllocError;
use thread_spaces::{PlacedImage, PlacedThread, ThreadParts, offsets_of, promises_of};

/// The point that a refusal names, if it is one of programs.
pub fn point_of(refusal: Refusal) -> Option<Point> {
    match refusal {
        Refusal::IllegalInstruction(at)
        | Refusal::ComputedJump(at)
        | Refusal::BadTarget(at)
        | Refusal::RangeNotKept(at)
        | Refusal::NotMapped(at)
        | Refusal::MeasureNotFalling(at)
        | Refusal::OverBudget(at)
        | Refusal::CallNotConstant(at)
        | Refusal::CapNotThere(at)
        | Refusal::CallRefused(at, _)
        | Refusal::PoolLost(at)
        | Refusal::PromiseNotKept(at) => Some(at),
        _ => None,
    }
}

/// What is reported of a thread.
#[derive(Clone, Copy)]
pub(crate) enum Subject<'k> {
    /// That a point is refused, with the certificate in the image.
    Refused { point: u32, refusal: Refusal },
    /// What was found of it without a certificate.
    Found(&'k ThreadFindings),
}

impl<'k> Subject<'k> {
    /// What was found at the points of the thread.
    fn known(&self) -> Option<&'k [Record]> {
        match self {
            Subject::Refused { .. } => None,
            Subject::Found(findings) => Some(&findings.known),
        }
    }
}

/// What is wrong on the ways on from a point of a thread without a certificate.
fn found_words(refusal: Refusal) -> &'static str {
    match refusal {
        Refusal::CapNotThere(_) => "two ways leave different slots where they meet\n",
        _ => "a way on leads out of the program\n",
    }
}

/// What is missed on the ways on from a point.
fn onward_words(refusal: Refusal) -> &'static str {
    match refusal {
        Refusal::RangeNotKept(_) => "a register can leave its range on a way on\n",
        Refusal::MeasureNotFalling(_) => "the measure does not fall\n",
        Refusal::OverBudget(_) => "the measure after the wait can be above the budget\n",
        Refusal::CapNotThere(_) => "the slots after it are not those that are noted there\n",
        _ => "a way on leads to where nothing is known\n",
    }
}

/// What is wrong with an instruction, whatever is known at its point.
fn plain_words(refusal: Refusal) -> Option<&'static str> {
    match refusal {
        Refusal::IllegalInstruction(_) => Some(
            "no instruction that a program may have: take it out of the thread's way\n",
        ),
        Refusal::ComputedJump(_) => Some(
            "a jump to an address in a register: only `jal` and branches may jump\n",
        ),
        Refusal::PoolLost(_) => Some(
            "it would lose the thread's untyped memory for ever: Revoke gives that back whole\n",
        ),
        _ => None,
    }
}

/// Whether a thread may be refused for this at its entry.
fn may_be_of_entry(refusal: Refusal) -> bool {
    matches!(
        refusal,
        Refusal::RangeNotKept(_) | Refusal::CapNotThere(_) | Refusal::OverBudget(_)
    )
}

impl Scene<'_, '_, '_, '_, '_, '_, '_> {
    /// Whether the instruction at a point is a system call.
    fn is_call(&self, point: u32) -> bool {
        point < self.given.space.thread.word_count()
            && matches!(
                decode(self.given.space.thread.word(point)),
                Some(Instr::Ecall)
            )
    }

    /// Reports what is refused at a point in a state.
    fn report_state(
        &self,
        to: &mut String,
        point: u32,
        refusal: Refusal,
        state: &State,
    ) -> Result<(), AllocError> {
        match refusal {
            Refusal::NotMapped(_) => {
                self.report_page(to, point, state)?;
                if let Some(base) = self.base_at(point) {
                    self.push_cause(to, point, base)?;
                }
                self.push_state(to, state)
            }
            Refusal::CallNotConstant(_) => self.report_not_constant(to, point, state),
            Refusal::CallRefused(_, error) => self.report_refused(to, point, state, error),
            Refusal::CapNotThere(_) => self.report_missing_slot(to, point, refusal, state),
            Refusal::PromiseNotKept(_) => self.report_promise(to, point, state),
            _ => self.report_onward(to, point, refusal, state),
        }
    }

    /// Reports which slot is not there, or is one that the thread may not have.
    fn report_missing_slot(
        &self,
        to: &mut String,
        point: u32,
        refusal: Refusal,
        state: &State,
    ) -> Result<(), AllocError> {
        if self.has_stray_slots(point, state)? {
            return self.report_stray(to, point, state);
        }
        if self.is_call(point) && self.refusal_of_call(point, state)?.is_some() {
            return self.report_not_there(to, point, state);
        }
        self.report_onward(to, point, refusal, state)
    }

    /// Reports what is missed on the ways on from a point.
    fn report_onward(
        &self,
        to: &mut String,
        point: u32,
        refusal: Refusal,
        state: &State,
    ) -> Result<(), AllocError> {
        let words = if self.known.is_some() {
            found_words(refusal)
        } else {
            onward_words(refusal)
        };
        self.report_plain(to, point, words)?;
        if let Refusal::MeasureNotFalling(_) = refusal {
            self.report_least(to, state)?;
        }
        self.report_ways(to, point, state)
    }

    /// Reports what is refused at a point, whatever is known there.
    fn report_plain(&self, to: &mut String, point: u32, reason: &str) -> Result<(), AllocError> {
        self.push_head(to, point)?;
        to.push_str(reason)
    }

    /// Reports what is refused at a point.
    pub(crate) fn report_point(
        &self,
        to: &mut String,
        point: u32,
        refusal: Refusal,
    ) -> Result<(), AllocError> {
        self.report_named(to, point, refusal, refusal.name())
    }

    /// Reports what is refused at a point, by the name of a rule.
    pub(crate) fn report_named(
        &self,
        to: &mut String,
        point: u32,
        refusal: Refusal,
        rule: &str,
    ) -> Result<(), AllocError> {
        self.push_rule(to, point, rule)?;
        if may_be_of_entry(refusal) && self.report_entry(to, point)? {
            return Ok(());
        }
        match plain_words(refusal) {
            Some(words) => self.report_plain(to, point, words),
            None => self.report_found(to, point, refusal),
        }
    }

    /// Reports what is wrong with the thread.
    fn report_subject(&self, to: &mut String, subject: Subject<'_>) -> Result<(), AllocError> {
        match subject {
            Subject::Refused { point, refusal } => self.report_point(to, point, refusal),
            Subject::Found(findings) => self.report_findings(to, findings),
        }
    }

    /// Reports what is refused at a point, by what is known there.
    fn report_found(
        &self,
        to: &mut String,
        point: u32,
        refusal: Refusal,
    ) -> Result<(), AllocError> {
        match self.state_at(point)? {
            AtPoint::Known(state) => self.report_state(to, point, refusal, &state),
            AtPoint::Unmeasured | AtPoint::Missing => self.report_plain(
                to,
                point,
                "nothing is known here: put a record before it\n",
            ),
        }
    }
}

impl ExplainedImage<'_, '_, '_, '_, '_, '_> {
    /// Reports what is wrong with a thread of the image, by its number.
    ///
    /// # Errors
    ///
    /// The image or the text has no such thread, or out of memory.
    pub(crate) fn report_thread(
        &self,
        to: &mut String,
        number: u32,
        subject: Subject<'_>,
    ) -> Result<(), ExplainFault> {
        let image = self.image;
        let Some(thread_text) = self.source.threads.get(number as usize) else {
            return Err(ExplainFault::Disagreement);
        };
        if number >= image.header().threads {
            return Err(ExplainFault::Disagreement);
        }
        let offsets = offsets_of(self.alloc, image)?;
        let thread = image.thread(number);
        let placed = PlacedImage {
            image,
            offsets: &offsets,
        };
        let promises = promises_of(self.alloc, &placed)?;
        let owner = PlacedThread {
            placed: &placed,
            number,
            thread: &thread,
        };
        let parts = ThreadParts::of(self.alloc, owner)?;
        let scene = Scene {
            given: parts.given(&promises),
            offsets: &offsets,
            alloc: self.alloc,
            text: self.text,
            source: self.source,
            thread: thread_text,
            known: subject.known(),
        };
        Ok(scene.report_subject(to, subject)?)
    }
}
