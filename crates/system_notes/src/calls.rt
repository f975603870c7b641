//! System calls, by what they do to what others do.

use crate::meetings::Meetings;
use source_texts::Source;

/// What a thread's system call does. Objects and interrupts have their numbers in the text.
#[derive(Clone, Copy, Debug, PartialEq, Eq)]
pub(crate) enum Deed {
    /// It waits for a notification.
    Wait(usize),
    /// It waits for a message at an endpoint.
    Receive(usize),
    /// It waits at an endpoint until a message is received there, or answered.
    Enter { endpoint: usize, is_call: bool },
    /// It may acknowledge an interrupt.
    Acknowledge(usize),
    /// Nothing of these.
    Other,
}

/// What the capability is that a system call names.
#[derive(Clone, Copy, Debug, PartialEq, Eq)]
pub(crate) enum Target {
    Notification(usize),
    Endpoint(usize),
    Handler(usize),
    Other,
}

/// A system call of a thread, at a point of its program.
#[derive(Clone, Copy, Debug, PartialEq, Eq)]
pub(crate) struct Call {
    pub(crate) point: u32,
    pub(crate) deed: Deed,
    /// Whether it answers who called last.
    pub(crate) answers: bool,
    /// Whether it takes the right to answer who called last: it receives, found or not.
    pub(crate) forgets: bool,
}

impl Target {
    /// What a capability is, by what its object is.
    pub(crate) fn of(source: Source, is_endpoint: bool, is_notification: bool) -> Self {
        match source {
            Source::Interrupt(number) => Target::Handler(number),
            Source::Object(number) if is_endpoint => Target::Endpoint(number),
            Source::Object(number) if is_notification => Target::Notification(number),
            Source::Object(_) => Target::Other,
        }
    }

    /// What a wait for it is.
    fn awaited(self) -> Deed {
        match self {
            Target::Notification(number) => Deed::Wait(number),
            Target::Endpoint(number) => Deed::Receive(number),
            Target::Handler(_) | Target::Other => Deed::Other,
        }
    }

    /// What a message to it is.
    fn entered(self, is_call: bool) -> Deed {
        match self {
            Target::Endpoint(endpoint) => Deed::Enter { endpoint, is_call },
            Target::Handler(number) => Deed::Acknowledge(number),
            Target::Notification(_) | Target::Other => Deed::Other,
        }
    }

    /// What a message that does not wait is.
    fn told(self) -> Deed {
        match self {
            Target::Handler(number) => Deed::Acknowledge(number),
            _ => Deed::Other,
        }
    }
}

impl Call {
    /// A call by its number in a7 and by what a0 names.
    pub(crate) fn of(point: u32, number: u32, target: Target) -> Self {
        let deed = match number {
            1 => target.entered(true),
            3 => target.entered(false),
            4 => target.told(),
            2 | 5 => target.awaited(),
            _ => Deed::Other,
        };
        Call {
            point,
            deed,
            answers: number == 2 || number == 6,
            forgets: matches!(number, 5 | 8) && matches!(target, Target::Endpoint(_)),
        }
    }

    /// Whether each message that comes by it is a call.
    pub(crate) fn receives_calls(&self, meetings: &Meetings) -> bool {
        match self.deed {
            Deed::Receive(endpoint) => meetings.is_for_calls(endpoint),
            _ => false,
        }
    }

    /// Whether the thread waits there.
    pub(crate) fn waits(&self) -> bool {
        matches!(
            self.deed,
            Deed::Wait(_) | Deed::Receive(_) | Deed::Enter { .. }
        )
    }
}
