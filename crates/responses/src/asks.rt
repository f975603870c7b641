//! What a point of a program asks of other threads, and the tests of that.

ghost use Rattle.std.specs.Prelude.{◌≡◌};
ghost use Rattle.model.specs.Acceptance.Authority.{badge_of};
ghost use Rattle.response.specs.Asking.{asked_known, asked_by, asked_to_receive, asked_to_send};
ghost use Rattle.response.specs.Responding.{leaves, takes_only};
ghost use Rattle.responses.specs.Asks.{asked, test_of};
ghost use Rattle.responses.specs.Seen.{asks_all, run_passes};

use crate::doors::{Door, receives_so};
use crate::outlines::{Outline, Run};
use model::{Cap, ReceiveCall, SendCall, SystemCall};
use program_rules::SeenPoint;

/// What a point asks, of the notification or endpoint at an offset, or of a line.
#[derive(Clone, Copy, Debug, PartialEq, Eq)]
pub(crate) enum Ask {
    /// Waits for the notification.
    Takes(u32),
    /// Takes its word, if there is one.
    Polls(u32),
    /// Signals it.
    Rings(u32),
    Acknowledges(u32),
    /// Receives from the endpoint, and whether it answers before.
    Accepts { endpoint: u32, replies: bool },
    /// Receives what waits there, if anything does.
    Looks(u32),
    SendsTo(u32),
    Calls(u32),
    /// Sends if somebody receives.
    Tries(u32),
    Answers,
    Nothing,
}

/// What a send by this capability asks.
fn asked_to_send(kind: SendCall, capability: Cap) -> Ask
    ensures { asked result ≡ asked_to_send kind capability }
{
    match capability {
        Cap::Notification { offset, .. } => Ask::Rings(offset),
        Cap::InterruptHandler { line } => Ask::Acknowledges(u32::from(line)),
        Cap::Endpoint { offset, .. } => match kind {
            SendCall::Calling => Ask::Calls(offset),
            SendCall::Sending => Ask::SendsTo(offset),
            SendCall::Trying => Ask::Tries(offset),
        },
        _ => Ask::Nothing,
    }
}

/// What a receive by this capability asks, which may answer before.
fn asked_to_receive(replies: bool, kind: ReceiveCall, capability: Cap) -> Ask
    ensures { asked result ≡ asked_to_receive replies kind capability }
{
    match capability {
        Cap::Notification { offset, .. } => match kind {
            ReceiveCall::Receiving => Ask::Takes(offset),
            ReceiveCall::Polling => Ask::Polls(offset),
        },
        Cap::Endpoint { offset, .. } => match kind {
            ReceiveCall::Receiving => Ask::Accepts {
                endpoint: offset,
                replies,
            },
            ReceiveCall::Polling => Ask::Looks(offset),
        },
        _ => Ask::Nothing,
    }
}

/// What a system call with this capability asks.
fn asked_by(call: SystemCall, capability: Cap) -> Ask
    ensures { asked result ≡ asked_by call capability }
{
    match call {
        SystemCall::Sends(kind) => asked_to_send(kind, capability),
        SystemCall::Receives(kind) => asked_to_receive(false, kind, capability),
        SystemCall::RepliesAndReceives => {
            asked_to_receive(true, ReceiveCall::Receiving, capability)
        }
        SystemCall::Replies => Ask::Answers,
        SystemCall::Yields | SystemCall::PutsCharacter => Ask::Nothing,
    }
}

/// What a point asks.
pub(crate) fn ask_of(point: &SeenPoint) -> Ask
    ensures { asked result ≡ asked_known point.now.call point.now.capability }
{
    match point.call {
        Some(call) => asked_by(call, point.capability),
        None => Ask::Nothing,
    }
}

/// The badge of a capability, if it has one.
pub(crate) fn badge_of(capability: Cap) -> u32
    ensures { result ≡ badge_of capability }
{
    match capability {
        Cap::Endpoint { badge, .. } => badge,
        Cap::Notification { badge, .. } => badge,
        _ => 0,
    }
}

/// A test of what a point asks.
#[derive(Clone, Copy)]
pub(crate) enum AskTest<'t> {
    /// It waits for no message, and takes from this notification if from any.
    TakesOnly(u32),
    /// It does not poll this notification, and takes from it only if that is said.
    Leaves {
        queue: u32,
        takes: bool,
    },
    /// It receives from doors that answer as a thread of this rank and input may, and polls none.
    KeepsDoors {
        doors: &'t [Door],
        rank: u32,
        input: Option<u32>,
    },
}

/// Whether it waits for no message, and takes from this notification if from any.
fn takes_only(queue: u32, ask: Ask) -> bool
    ensures { result ≡ takes_only queue (asked ask) }
{
    match ask {
        Ask::Takes(other) => other == queue,
        Ask::Accepts { .. } => false,
        Ask::SendsTo(_) => false,
        Ask::Calls(_) => false,
        Ask::Polls(_) => true,
        Ask::Rings(_) => true,
        Ask::Acknowledges(_) => true,
        Ask::Looks(_) => true,
        Ask::Tries(_) => true,
        Ask::Answers => true,
        Ask::Nothing => true,
    }
}

/// Whether it does not poll this notification, and takes from it only if that is said.
fn leaves(queue: u32, takes: bool, ask: Ask) -> bool
    ensures { result ≡ leaves queue takes (asked ask) }
{
    match ask {
        Ask::Takes(other) => takes || other != queue,
        Ask::Polls(other) => other != queue,
        Ask::Accepts { .. } => true,
        Ask::SendsTo(_) => true,
        Ask::Calls(_) => true,
        Ask::Rings(_) => true,
        Ask::Acknowledges(_) => true,
        Ask::Looks(_) => true,
        Ask::Tries(_) => true,
        Ask::Answers => true,
        Ask::Nothing => true,
    }
}

impl AskTest<'_> {
    /// Whether what a point asks passes.
    fn passes(&self, ask: Ask) -> bool
        ensures { result ≡ test_of self.now (asked ask) }
    {
        match *self {
            AskTest::TakesOnly(queue) => takes_only(queue, ask),
            AskTest::Leaves { queue, takes } => leaves(queue, takes, ask),
            AskTest::KeepsDoors { doors, rank, input } => receives_so(doors, rank, input, ask),
        }
    }

    /// Whether what a run asks passes, if that is clear.
    fn holds_at(&self, run: &Run) -> bool
        ensures { result ≡ run_passes (test_of self.now) run.now }
    {
        run.is_clear && self.passes(run.ask)
    }

    /// Whether what all runs of a program ask passes.
    pub(crate) fn holds_for(&self, program: &Outline) -> bool
        ensures { result ≡ asks_all (test_of self.now) program.now }
    {
        program.runs.iter().all(|run| self.holds_at(run))
    }
}
