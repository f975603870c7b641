//! Messages and signals: what each asks of the capability, and what is known after it.

ghost use Rattle.std.specs.Prelude.{◌≡◌, List};
ghost use Rattle.model.specs.Acceptance.CallRules.{after_message, may_send, promise_received, promise_rule};
ghost use Rattle.model.specs.Acceptance.CallRules.{receive_rule, sends_message, sends_signal, with_received};
ghost use Rattle.model.specs.Acceptance.Measures.{Measure};
ghost use Rattle.model.specs.Acceptance.NotedStates.{NotedSlot};
ghost use Rattle.model.specs.Acceptance.Promises.{keep_words, keeps_promise, keeps_word, promise_at};
ghost use Rattle.model.specs.Kernel.Messages.{word_registers};
ghost use Rattle.typestate.specs.Calls.{behind_with, known_with, told};

use crate::behind::{BADGES, Behind, Written, with_answer, with_message, with_promise};
use crate::messages::word_register;
use crate::system_calls::known;
use crate::{MessagePromise, Space};
use model::{Cap, Point, PromisedWord, Range, Refusal, Register, Rights, SendCall};
use ranges::Bounds;

/// The registers after a message that is received at an endpoint.
fn with_received(space: &Space<'_, '_>, bounds: &Bounds, is_wait: bool, endpoint: u32) -> Bounds
    ensures { result ≡ with_received bounds.now (promise_received space.now.image.now is_wait endpoint) }
{
    if is_wait {
        match space.promise_at(endpoint) {
            Some(promise) => with_promise(bounds, promise),
            None => with_message(bounds, BADGES),
        }
    } else {
        with_message(bounds, BADGES)
    }
}

/// What a receive leaves, or that the capability is none to receive by.
pub(crate) fn receive_rule(
    space: &Space<'_, '_>,
    at: Point,
    bounds: &Bounds,
    is_wait: bool,
    capability: Cap,
) -> Result<Behind, Refusal>
    ensures { (slots : List NotedSlot) (measure : Measure)
        → told slots result ≡ receive_rule space.now.image.now at (known_with bounds.now slots measure) is_wait capability }
{
    match capability {
        Cap::Endpoint { offset, rights, .. } if rights.may_read() => Ok(Behind {
            bounds: with_received(space, bounds, is_wait, offset),
            is_wait,
            written: Written::Message,
            is_tidy: true,
        }),
        Cap::Notification { rights, .. } if rights.may_read() => {
            let mut bounds = *bounds;
            bounds.set(Register::A0, BADGES);
            Ok(Behind {
                bounds,
                is_wait,
                written: Written::Badge,
                is_tidy: true,
            })
        }
        _ => Err(Refusal::CapNotThere(at)),
    }
}

/// Whether each value of a range is one that is promised.
fn keeps_word(range: Range, word: PromisedWord) -> bool
    ensures { result ≡ keeps_word range word }
{
    word.low <= range.low && range.high <= word.high
}

/// Whether each promised word is known to lie in its range.
fn keep_words(bounds: &Bounds, promise: &MessagePromise<'_>) -> bool
    ensures { result ≡ keep_words bounds.now word_registers promise.now.words }
{
    let mut index = 0;
    'words: for word in promise.words() {
        if !keeps_word(bounds.get(word_register(index)), word) {
            return false;
        }
        index += 1;
    }
    true
}

/// Whether a message of this badge and info word, and of the words in the registers, keeps a promise.
fn keeps_promise(bounds: &Bounds, info: u32, badge: u32, promise: &MessagePromise<'_>) -> bool
    ensures { result ≡ keeps_promise bounds.now info badge promise.now }
{
    let badges = promise.badges();
    let words = (info % 0x80).min(8);
    badges.low <= badge
        && badge <= badges.high
        && promise.count() <= words
        && keep_words(bounds, promise)
}

/// Whether a message keeps what is promised at its endpoint, and if not, why.
fn promise_rule(
    space: &Space<'_, '_>,
    at: Point,
    bounds: &Bounds,
    endpoint: u32,
    badge: u32,
) -> Result<(), Refusal>
    ensures { (slots : List NotedSlot) (measure : Measure)
        → result ≡ promise_rule at (known_with bounds.now slots measure) badge (promise_at space.now.image.now endpoint) }
{
    let Some(promise) = space.promise_at(endpoint) else {
        return Ok(());
    };
    let info = match known(at, bounds, Register::A1) {
        Ok(info) => info,
        Err(refusal) => return Err(refusal),
    };
    if keeps_promise(bounds, info, badge, promise) {
        Ok(())
    } else {
        Err(Refusal::PromiseNotKept(at))
    }
}

/// Whether the rights allow to send a message so.
fn may_send(kind: SendCall, rights: Rights) -> bool
    ensures { result ≡ may_send kind rights }
{
    match kind {
        SendCall::Calling => rights.may_write() && rights.may_grant_reply(),
        SendCall::Sending => rights.may_write(),
        SendCall::Trying => rights.may_write(),
    }
}

/// What a message leaves that was sent so.
fn after_message(bounds: &Bounds, kind: SendCall) -> Behind
    ensures { (slots : List NotedSlot) (measure : Measure) → behind_with slots result ≡ after_message (known_with bounds.now slots measure) kind }
{
    match kind {
        SendCall::Calling => Behind {
            bounds: with_message(bounds, Range::single(0)),
            is_wait: true,
            written: Written::Message,
            is_tidy: true,
        },
        SendCall::Sending => Behind::unchanged(bounds, true),
        SendCall::Trying => Behind::unchanged(bounds, false),
    }
}

/// A capability to the endpoint at an offset.
#[derive(Clone, Copy)]
pub(crate) struct EndpointCap {
    pub(crate) offset: u32,
    pub(crate) rights: Rights,
    pub(crate) badge: u32,
}

/// What sending a message leaves, or that the rights do not allow it, or that it does not keep what is promised at the endpoint.
pub(crate) fn sends_message(
    space: &Space<'_, '_>,
    at: Point,
    bounds: &Bounds,
    kind: SendCall,
    endpoint: EndpointCap,
) -> Result<Behind, Refusal>
    ensures { (slots : List NotedSlot) (measure : Measure)
        → told slots result ≡ sends_message at (known_with bounds.now slots measure) kind endpoint.rights endpoint.badge
        (promise_at space.now.image.now endpoint.offset) }
{
    if !may_send(kind, endpoint.rights) {
        return Err(Refusal::CapNotThere(at));
    }
    match promise_rule(space, at, bounds, endpoint.offset, endpoint.badge) {
        Ok(()) => Ok(after_message(bounds, kind)),
        Err(refusal) => Err(refusal),
    }
}

/// What a signal leaves, or that the rights do not allow it.
pub(crate) fn sends_signal(
    at: Point,
    bounds: &Bounds,
    kind: SendCall,
    rights: Rights,
) -> Result<Behind, Refusal>
    ensures { (slots : List NotedSlot) (measure : Measure) → told slots result ≡ sends_signal at (known_with bounds.now slots measure) kind rights }
{
    if !rights.may_write() {
        return Err(Refusal::CapNotThere(at));
    }
    if matches!(kind, SendCall::Calling) {
        Ok(Behind {
            bounds: with_answer(bounds),
            is_wait: false,
            written: Written::Answer,
            is_tidy: true,
        })
    } else {
        Ok(Behind::unchanged(bounds, false))
    }
}
