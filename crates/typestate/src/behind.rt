//! What is known of the registers after a system call.

ghost use Rattle.std.specs.Prelude.{◌≡◌, [], List, Some, true};
ghost use Rattle.model.specs.Acceptance.Measures.{Measure};
ghost use Rattle.model.specs.Acceptance.NotedStates.{NotedSlot};
ghost use Rattle.model.specs.Acceptance.CallRules.{with_answer, with_message, with_received};
ghost use Rattle.model.specs.Acceptance.RangeRules.{range};
ghost use Rattle.model.specs.Acceptance.Ranges.{full, with_range};
ghost use Rattle.model.specs.Kernel.Messages.{a0, a1, word_registers};
ghost use Rattle.ranges.specs.Orders.{IsOrdered};
ghost use Rattle.typestate.specs.Calls.{behind_with, known_with};
ghost use Rattle.typestate.specs.Promises.{range_at, with_each};
ghost use Rattle.typestate.specs.SlotChanges.{behind_call};
ghost use Rattle.typestate.specs.declared.behind.Written.TheVariants.{Nothing};

use crate::MessagePromise;
use model::{Range, Register};
use ranges::Bounds;

/// Any badge, or any word of a notification.
pub(crate) const BADGES: Range = Range {
    low: 0,
    high: 0x0fff_ffff,
};

/// Which registers a system call writes.
#[derive(Clone, Copy)]
pub enum Written {
    /// None.
    Nothing,
    /// `a0`: the badge of a signal.
    Badge,
    /// `a0` and `a1`: that a call succeeded.
    Answer,
    /// `a0`, `a1` and the registers of the words: a message.
    Message,
}

/// What is known of the registers after a system call, and whether instructions are counted anew from it.
#[derive(Clone, Copy)]
pub struct Behind {
    pub bounds: Bounds,
    pub is_wait: bool,
    pub written: Written,
    /// Whether it is known that the call leaves no slot that the thread may not have, where there was none before.
    pub is_tidy: bool,
}

/// Registers after a message: this badge, and any info and words.
#[tactic(auto, unfolding(model::specs::Kernel::Messages::word_registers))]
pub(crate) fn with_message(bounds: &Bounds, badge: Range) -> Bounds
    requires { IsOrdered badge }
    ensures { result ≡ with_message bounds.now badge [] }
{
    let mut bounds = *bounds;
    bounds.set(Register::A0, badge);
    bounds.set(Register::A1, Range::FULL);
    bounds.set(Register(12), Range::FULL);
    bounds.set(Register(13), Range::FULL);
    bounds.set(Register(14), Range::FULL);
    bounds.set(Register(15), Range::FULL);
    bounds.set(Register(18), Range::FULL);
    bounds.set(Register(19), Range::FULL);
    bounds.set(Register(20), Range::FULL);
    bounds.set(Register(21), Range::FULL);
    bounds
}

/// Registers after a message of which this is promised.
#[tactic(auto, unfolding(model::specs::Kernel::Messages::word_registers))]
fn with_promised_words(bounds: &Bounds, promise: &MessagePromise<'_>) -> Bounds
    ensures { result ≡ with_each (with_range (with_range bounds.now a0 (range promise.now.header.badge_low promise.now.header.badge_high)) a1 full)
        word_registers (range_at promise.now.words) }
{
    let mut bounds = *bounds;
    bounds.set(Register::A0, promise.badges());
    bounds.set(Register::A1, Range::FULL);
    bounds.set(Register(12), promise.word_range(0));
    bounds.set(Register(13), promise.word_range(1));
    bounds.set(Register(14), promise.word_range(2));
    bounds.set(Register(15), promise.word_range(3));
    bounds.set(Register(18), promise.word_range(4));
    bounds.set(Register(19), promise.word_range(5));
    bounds.set(Register(20), promise.word_range(6));
    bounds.set(Register(21), promise.word_range(7));
    bounds
}

/// The same, as the definition says it.
pub(crate) fn with_promise(bounds: &Bounds, promise: &MessagePromise<'_>) -> Bounds
    ensures { result ≡ with_received bounds.now (Some promise.now) }
{
    with_promised_words(bounds, promise)
}

/// Registers after a call that succeeded.
pub(crate) fn with_answer(bounds: &Bounds) -> Bounds
    ensures { result ≡ with_answer bounds.now }
{
    let mut bounds = *bounds;
    bounds.set(Register::A0, Range::single(0));
    bounds.set(Register::A1, Range::single(0));
    bounds
}

impl Behind {
    /// Nothing changes.
    pub(crate) fn unchanged(bounds: &Bounds, is_wait: bool) -> Self
        ensures { result ≡ record { bounds = bounds.now; is_wait = is_wait; written = Nothing; is_tidy = true } }
    {
        Behind {
            bounds: *bounds,
            is_wait,
            written: Written::Nothing,
            is_tidy: true,
        }
    }

    /// A call on a capability, with or without an answer, that makes tidy changes of the slots or others.
    pub(crate) fn called(bounds: &Bounds, answers: bool, is_tidy: bool) -> Self
        ensures tidy { result.is_tidy ≡ is_tidy }
        ensures same { (before slots : List NotedSlot) (measure : Measure)
            → behind_with slots result ≡ behind_call (known_with bounds.now before measure) answers slots }
    {
        if answers {
            Behind {
                bounds: with_answer(bounds),
                is_wait: false,
                written: Written::Answer,
                is_tidy,
            }
        } else {
            Behind {
                bounds: *bounds,
                is_wait: false,
                written: Written::Nothing,
                is_tidy,
            }
        }
    }
}
