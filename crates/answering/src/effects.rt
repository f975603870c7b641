//! What a point of a program makes of an answer that is owed.

ghost use Rattle.std.specs.Prelude.{ℕ, ◌≡◌, Bool, List, Option, is_some};
ghost use Rattle.model.specs.declared.ranges.Range.{Range};
ghost use Rattle.response.specs.Asking.{asked_by, asked_known, asked_to_receive};
ghost use Rattle.settled_threads.specs.Answering.{are_known, owing_for, ranges_received};
ghost use Rattle.answering.specs.Effects.{owes_as};

use model::{Cap, ReceiveCall, SystemCall};
use program_rules::SeenPoint;

/// What a point makes of an answer that is owed.
#[derive(Clone, Copy, Debug, PartialEq, Eq)]
pub(crate) enum Effect {
    /// A message is received there, and whether an answer is given before.
    Receives { replies: bool },
    /// Something is taken, or looked for, that gives no right to reply, and the right that was there is lost.
    Drops,
    Answers,
    /// It is owed as before.
    Passes,
}

/// What a receive by this capability makes of it, which may answer before.
fn of_receive(replies: bool, kind: ReceiveCall, capability: Cap) -> Effect
    ensures { (badge : ℕ) (here next : Option (List Range)) (leads : Bool)
        → owing_for badge here next leads (asked_to_receive replies kind capability)
        ≡ owes_as result (is_some here) (are_known next (ranges_received badge)) leads }
{
    match capability {
        Cap::Endpoint { .. } => match kind {
            ReceiveCall::Receiving => Effect::Receives { replies },
            ReceiveCall::Polling => Effect::Drops,
        },
        Cap::Notification { .. } => match kind {
            ReceiveCall::Receiving => Effect::Drops,
            ReceiveCall::Polling => Effect::Passes,
        },
        _ => Effect::Passes,
    }
}

/// What a system call with this capability makes of it.
fn of_call(call: SystemCall, capability: Cap) -> Effect
    ensures { (badge : ℕ) (here next : Option (List Range)) (leads : Bool)
        → owing_for badge here next leads (asked_by call capability)
        ≡ owes_as result (is_some here) (are_known next (ranges_received badge)) leads }
{
    match call {
        SystemCall::Sends(_) => Effect::Passes,
        SystemCall::Receives(kind) => of_receive(false, kind, capability),
        SystemCall::RepliesAndReceives => of_receive(true, ReceiveCall::Receiving, capability),
        SystemCall::Replies => Effect::Answers,
        SystemCall::Yields => Effect::Passes,
        SystemCall::PutsCharacter => Effect::Passes,
    }
}

/// What a point makes of it.
pub(crate) fn effect_of(point: &SeenPoint) -> Effect
    ensures { (badge : ℕ) (here next : Option (List Range)) (leads : Bool)
        → owing_for badge here next leads (asked_known point.now.call point.now.capability)
        ≡ owes_as result (is_some here) (are_known next (ranges_received badge)) leads }
{
    match point.call {
        Some(call) => of_call(call, point.capability),
        None => Effect::Passes,
    }
}
