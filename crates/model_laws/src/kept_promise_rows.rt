//! Rows on messages that keep the promise of an endpoint. It is of the endpoint at 0xE000: a badge from 3 to 5, a first word from 1 to 9,
//! and 7 as the second.

ghost use Rattle.std.specs.Prelude.{[], ◌∷◌};
ghost use Rattle.model.specs.Acceptance.Promises.{KeepsPromise};
ghost use Rattle.model.specs.Acceptance.ThreadInvariants.{KeepsPromises};
ghost use Rattle.model.specs.Kernel.State.{ByCall, BySend};
ghost use Rattle.model_laws.specs.KeptPromises.{breaker, by, free, image, keeper, message_with, promised, waiting_at};
ghost use Rattle.model_laws.specs.Promised.{port};

/// A message keeps a promise with a badge of the range, both ends among it, and words of theirs; words more may be anything.
pub fn a_message_keeps_a_promise()
    ensures low { KeepsPromise port 3 (message_with (1 ∷ 7 ∷ [])) }
    ensures high { KeepsPromise port 5 (message_with (9 ∷ 7 ∷ 100 ∷ [])) }
    ensures badge_low { KeepsPromise port 2 (message_with (1 ∷ 7 ∷ [])) → ⊥ }
    ensures badge_high { KeepsPromise port 6 (message_with (1 ∷ 7 ∷ [])) → ⊥ }
    ensures word { KeepsPromise port 3 (message_with (0 ∷ 7 ∷ [])) → ⊥ }
    ensures second { KeepsPromise port 3 (message_with (1 ∷ 8 ∷ [])) → ⊥ }
    ensures short { KeepsPromise port 3 (message_with (1 ∷ [])) → ⊥ }
{}

/// Promises are kept where each message that waits at the endpoint keeps its promise, whoever of the queue sends it and by what call; of
/// another endpoint nothing is asked.
#[tactic(auto, unfolding(crate::proofs::Opened::opened))]
pub fn promises_are_kept_by_all_that_wait()
    ensures kept { KeepsPromises image (waiting_at promised (by keeper BySend 3 ∷ [])) }
    ensures elsewhere { KeepsPromises image (waiting_at free (by breaker BySend 2 ∷ [])) }
    ensures badge { KeepsPromises image (waiting_at promised (by keeper BySend 2 ∷ [])) → ⊥ }
    ensures word { KeepsPromises image (waiting_at promised (by breaker BySend 3 ∷ [])) → ⊥ }
    ensures called { KeepsPromises image (waiting_at promised (by breaker ByCall 3 ∷ [])) → ⊥ }
    ensures second { KeepsPromises image (waiting_at promised (by keeper BySend 3 ∷ by breaker BySend 3 ∷ [])) → ⊥ }
    ensures second_badge { KeepsPromises image (waiting_at promised (by keeper BySend 3 ∷ by keeper BySend 6 ∷ [])) → ⊥ }
{}
