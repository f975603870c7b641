//! Endpoints to which settled threads send, and what such threads ask.

ghost use Rattle.std.specs.Prelude.{◌≡◌, ◌&&◌};
ghost use Rattle.std.specs.List.{list_all, list_any};
ghost use Rattle.settled_threads.specs.Tested.{asks_settled, is_input, receives_so};
ghost use Rattle.responses.specs.Doors.{are_before, are_no_door, is_no_door, leads_in, may_call, may_send, receives_before};
ghost use Rattle.responses.specs.Asks.{asked};

use crate::asks::Ask;
use crate::outlines::Run;

/// An endpoint to which settled threads of this rank or above send: a settled thread receives there that comes before. One that answers a badge may be
/// called with it too: nobody polls it, and each thread that receives there is settled, comes before, and answers on each way that a message with this
/// badge can take.
#[derive(Clone, Copy)]
pub(crate) struct Door {
    pub(crate) endpoint: u32,
    pub(crate) rank: u32,
    pub(crate) answers: Option<u32>,
}

/// Whether an input, if there is one, is this object.
pub(crate) fn is_input(object: u32, input: Option<u32>) -> bool
    ensures { result ≡ is_input object input }
{
    match input {
        Some(other) => other == object,
        None => false,
    }
}

impl Door {
    /// Whether it is that of the endpoint, and open to this rank.
    fn leads_in(&self, endpoint: u32, rank: u32) -> bool
        ensures { result ≡ leads_in endpoint rank self.now }
    {
        self.endpoint == endpoint && self.rank <= rank
    }

    /// Whether it answers this badge, too.
    fn answers_in(&self, endpoint: u32, rank: u32, badge: u32) -> bool
        ensures { result ≡ (is_input badge self.now.answers && leads_in endpoint rank self.now) }
    {
        is_input(badge, self.answers) && self.leads_in(endpoint, rank)
    }

    /// Whether it is not one that answers at this endpoint.
    fn is_no_door(&self, endpoint: u32) -> bool
        ensures { result ≡ is_no_door endpoint self.now }
    {
        !(self.answers.is_some() && self.endpoint == endpoint)
    }

    /// Whether a thread of this input and rank receives from it so, if it does from the endpoint.
    fn is_before(&self, input: Option<u32>, rank: u32, endpoint: u32) -> bool
        ensures { result ≡ receives_before input rank endpoint self.now }
    {
        self.is_no_door(endpoint) || (is_input(endpoint, input) && rank < self.rank)
    }
}

/// Whether a thread of this rank may send to the endpoint.
fn may_send(doors: &[Door], rank: u32, endpoint: u32) -> bool
    ensures { result ≡ may_send doors.now rank endpoint }
{
    doors.iter().any(|door| door.leads_in(endpoint, rank))
}

/// Whether it may call it with a badge.
fn may_call(doors: &[Door], rank: u32, badge: u32, endpoint: u32) -> bool
    ensures { result ≡ may_call doors.now rank badge endpoint }
{
    doors
        .iter()
        .any(|door| door.answers_in(endpoint, rank, badge))
}

/// Whether a thread of this input and rank may receive from the endpoint.
fn are_before(doors: &[Door], input: Option<u32>, rank: u32, endpoint: u32) -> bool
    ensures { result ≡ are_before doors.now input rank endpoint }
{
    doors
        .iter()
        .all(|door| door.is_before(input, rank, endpoint))
}

/// Whether no door that answers is at the endpoint.
fn are_no_door(doors: &[Door], endpoint: u32) -> bool
    ensures { result ≡ are_no_door doors.now endpoint }
{
    doors.iter().all(|door| door.is_no_door(endpoint))
}

/// Whether a settled thread of this rank and input may ask what a run asks.
pub(crate) fn asks_settled(doors: &[Door], rank: u32, input: u32, run: &Run) -> bool
    ensures { result ≡ asks_settled (may_send doors.now rank) (may_call doors.now rank run.now.badge) input (asked run.now.ask) }
{
    match run.ask {
        Ask::Takes(object) => object == input,
        Ask::Accepts { endpoint, .. } => endpoint == input,
        Ask::SendsTo(endpoint) => may_send(doors, rank, endpoint),
        Ask::Calls(endpoint) => may_call(doors, rank, run.badge, endpoint),
        Ask::Polls(_) => true,
        Ask::Rings(_) => true,
        Ask::Acknowledges(_) => true,
        Ask::Looks(_) => true,
        Ask::Tries(_) => true,
        Ask::Answers => true,
        Ask::Nothing => true,
    }
}

/// Whether a thread of this rank and input, if it has one, receives from doors that answer as it may, and polls none.
pub(crate) fn receives_so(doors: &[Door], rank: u32, input: Option<u32>, ask: Ask) -> bool
    ensures { result ≡ receives_so (are_before doors.now input rank) (are_no_door doors.now) (asked ask) }
{
    match ask {
        Ask::Accepts { endpoint, .. } => are_before(doors, input, rank, endpoint),
        Ask::Looks(endpoint) => are_no_door(doors, endpoint),
        Ask::Takes(_) => true,
        Ask::Polls(_) => true,
        Ask::Rings(_) => true,
        Ask::Acknowledges(_) => true,
        Ask::SendsTo(_) => true,
        Ask::Calls(_) => true,
        Ask::Tries(_) => true,
        Ask::Answers => true,
        Ask::Nothing => true,
    }
}
