//! Lines on what a bound is made of, by names.

use responses::{Cause, How, PlacedPoint, Rate, Reason, Responses, Share, Stretch};
use source_texts::{SourceText, source_place};
use std::alloc::{AllocError, Global};

/// A text, and how often interrupts come.
#[derive(Clone, Copy)]
pub(crate) struct Scene<'s, 't> {
    pub(crate) alloc: Global,
    /// The name of its file.
    pub(crate) file: &'s str,
    /// What it declares.
    pub(crate) text: &'s SourceText<'t>,
    pub(crate) content: &'s str,
    pub(crate) rates: &'s [Rate],
}

/// Lines that are being written.
#[derive(Drop)]
pub(crate) struct Report<'r, 't> {
    pub(crate) scene: Scene<'r, 't>,
    /// The offsets of its objects, by their numbers.
    pub(crate) offsets: &'r [u32],
    /// The responses to one interrupt of each line, where some rates ask for too much.
    pub(crate) costs: Option<&'r Responses>,
    pub(crate) to: String,
}

/// How a thread is set going, in words.
fn words_of(how: How) -> &'static str {
    match how {
        How::Rung => "rung",
        How::Sent => "sent to",
        How::Called => "called",
    }
}

/// The call in which a thread waited, in words.
fn call_of(how: How) -> &'static str {
    match how {
        How::Rung => "ring",
        How::Sent => "Send",
        How::Called => "Call",
    }
}

impl<'t> Report<'_, 't> {
    /// The name of a thread.
    pub(crate) fn thread(&self, number: u32) -> &'t str {
        match self.scene.text.threads.get(number as usize) {
            Some(thread) => self.scene.text.object_name(thread.tcb),
            None => "?",
        }
    }

    /// Puts the number of a line, and its name if it has one.
    pub(crate) fn push_line(&mut self, line: u32) -> Result<(), AllocError> {
        write!(&mut self.to, "line {line}")?;
        for interrupt in &self.scene.text.interrupts {
            if interrupt.number == line {
                let name = interrupt.name;
                return write!(&mut self.to, " ({name})");
            }
        }
        Ok(())
    }

    /// Puts the name of the object at an offset: what is made of a pool has none.
    fn push_object(&mut self, offset: u32) -> Result<(), AllocError> {
        match self.offsets.iter().position(|other| *other == offset) {
            Some(number) => self.to.push_str(self.scene.text.object_name(number)),
            None => self.to.push_str("what is made of a pool"),
        }
    }

    /// Puts the line of a point: that of the text, or of the file that it comes from.
    pub(crate) fn push_place(&mut self, at: PlacedPoint) -> Result<(), AllocError> {
        let line = match self.scene.text.threads.get(at.thread as usize) {
            Some(thread) => thread.point_line(at.point as usize),
            None => 0,
        };
        let before = usize::try_from(line.saturating_sub(1)).unwrap_or(0);
        if let Some(text) = self.scene.content.lines().nth(before) {
            if let Some(place) = source_place(text) {
                return self.to.push_str(place);
            }
        }
        write!(&mut self.to, "line {line}")
    }

    /// Puts how often.
    fn push_times(&mut self, times: u64) -> Result<(), AllocError> {
        match times {
            1 => self.to.push_str("once"),
            2 => self.to.push_str("twice"),
            times => write!(&mut self.to, "{times} times"),
        }
    }

    /// A stretch of a thread.
    pub(crate) fn say_stretch(&mut self, stretch: &Stretch) -> Result<(), AllocError> {
        let (steps, name) = (stretch.steps, self.thread(stretch.thread));
        match stretch.cause {
            Cause::Taken { .. } => write!(&mut self.to, "{steps:>10}  {name}, from the bell on\n"),
            Cause::SetGoing { by, how } => {
                let (other, words) = (self.thread(by.thread), words_of(how));
                write!(&mut self.to, "{steps:>10}  {name}, {words} by {other} at ")?;
                self.push_place(by)?;
                self.to.push_str("\n")
            }
            Cause::GoesOn { from, how } => {
                let call = call_of(how);
                write!(&mut self.to, "{steps:>10}  {name}, on from its {call} at ")?;
                self.push_place(from)?;
                self.to.push_str("\n")
            }
            Cause::Further => write!(&mut self.to, "{steps:>10}  what that sets going further\n"),
        }
    }

    /// Puts what a share of a bound is for.
    fn push_reason(&mut self, reason: Reason) -> Result<(), AllocError> {
        match reason {
            Reason::LeftAt { object } => {
                self.to.push_str("what may be left at ")?;
                self.push_object(object)
            }
            Reason::Pending { line } => write!(&mut self.to, "line {line}, pending"),
            Reason::WaitsWith { thread } => {
                let name = self.thread(thread);
                write!(&mut self.to, "what {name} may wait with")
            }
            Reason::FromBelow => self.to.push_str("what parts below may have left"),
            Reason::Comes { line, times } => {
                write!(&mut self.to, "line {line}, ")?;
                self.push_times(times)
            }
        }
    }

    /// A share of a bound.
    pub(crate) fn say_share(&mut self, share: &Share) -> Result<(), AllocError> {
        let steps = share.steps;
        write!(&mut self.to, "{steps:>10}  ")?;
        self.push_reason(share.reason)?;
        self.to.push_str("\n")
    }
}
