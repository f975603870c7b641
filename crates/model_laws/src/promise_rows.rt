//! Rows on promises of endpoints.

ghost use Rattle.std.specs.Prelude.{ℕ, ◌≡◌, [], ◌∷◌, None, Some};
ghost use Rattle.model.specs.Acceptance.Rules.{first_broken};
ghost use Rattle.model.specs.Acceptance.Promises.{KeepWords, promise_at};
ghost use Rattle.model.specs.Acceptance.RangeRules.{range};
ghost use Rattle.model.specs.Acceptance.Ranges.{full, single};
ghost use Rattle.model.specs.Acceptance.WellFormed.{mapping_rules};
ghost use Rattle.model.specs.declared.refusals.Refusal.TheVariants.{BadPromise, CallNotConstant, CapNotThere, PromiseNotKept};
ghost use Rattle.model_laws.specs.Promised.{any_message, calls, from_to, holds, holds_other, known_of, leaves, message, port, promise_of, promising};
ghost use Rattle.model_laws.specs.Solo.{at_point};
ghost use Rattle.model_laws.specs.Worker.{refused_as};

/// Each sender keeps what is promised: the badge, the number of words, and each word.
#[tactic(auto, unfolding(crate::proofs::Opened::opened))]
pub fn senders_keep_promises()
    ensures kept { refused_as (leaves (port ∷ []) (calls 3 (message 2 1 7)) (holds 1 3)) ≡ None }
    ensures most { refused_as (leaves (port ∷ []) (calls 3 (message 2 9 7)) (holds 1 5)) ≡ None }
    ensures low { refused_as (leaves (port ∷ []) (calls 3 (message 2 0 7)) (holds 1 3)) ≡ Some (PromiseNotKept (at_point 0 0)) }
    ensures high { refused_as (leaves (port ∷ []) (calls 3 (message 2 10 7)) (holds 1 3)) ≡ Some (PromiseNotKept (at_point 0 0)) }
    ensures second { refused_as (leaves (port ∷ []) (calls 3 (message 2 1 8)) (holds 1 3)) ≡ Some (PromiseNotKept (at_point 0 0)) }
    ensures unknown { refused_as (leaves (port ∷ []) (calls 3 ((11, 2) ∷ (13, 7) ∷ [])) (holds 1 3)) ≡ Some (PromiseNotKept (at_point 0 0)) }
    ensures short { refused_as (leaves (port ∷ []) (calls 3 (message 1 1 7)) (holds 1 3)) ≡ Some (PromiseNotKept (at_point 0 0)) }
    ensures long { refused_as (leaves (port ∷ []) (calls 3 (message 0x507F 1 7)) (holds 1 3)) ≡ None }
    ensures badge_low { refused_as (leaves (port ∷ []) (calls 3 (message 2 1 7)) (holds 1 2)) ≡ Some (PromiseNotKept (at_point 0 0)) }
    ensures badge_high { refused_as (leaves (port ∷ []) (calls 3 (message 2 1 7)) (holds 1 6)) ≡ Some (PromiseNotKept (at_point 0 0)) }
    ensures tried { refused_as (leaves (port ∷ []) (calls 4 (message 2 0 7)) (holds 1 3)) ≡ Some (PromiseNotKept (at_point 0 0)) }
    ensures called { refused_as (leaves (port ∷ []) (calls 1 (message 2 0 7)) (holds 9 3)) ≡ Some (PromiseNotKept (at_point 0 0)) }
    ensures other { refused_as (leaves (port ∷ []) (calls 3 []) holds_other) ≡ None }
{}

/// The right comes first, then the info word, which has to be known even where nothing is asked of the message.
#[tactic(auto, unfolding(crate::proofs::Opened::opened))]
pub fn promises_are_checked_in_order()
    ensures right { refused_as (leaves (port ∷ []) (calls 3 []) (holds 2 0)) ≡ Some (CapNotThere (at_point 0 0)) }
    ensures info { refused_as (leaves (port ∷ []) (calls 3 []) (holds 1 0)) ≡ Some (CallNotConstant (at_point 0 0)) }
    ensures any { refused_as (leaves (any_message ∷ []) (calls 3 []) (holds 1 3)) ≡ Some (CallNotConstant (at_point 0 0)) }
    ensures any_known { refused_as (leaves (any_message ∷ []) (calls 3 ((11, 0) ∷ [])) (holds 1 3)) ≡ None }
{}

/// Recv and ReplyRecv know the badge and the words that are promised. A poll that may find no message does not, and neither
/// does who gets a reply.
#[tactic(auto, unfolding(crate::proofs::Opened::opened))]
pub fn receivers_know_what_is_promised()
    ensures badge { known_of (leaves (port ∷ []) (calls 5 []) (holds 2 0)) 10 ≡ Some (range 3 5) }
    ensures info { known_of (leaves (port ∷ []) (calls 5 []) (holds 2 0)) 11 ≡ Some full }
    ensures first { known_of (leaves (port ∷ []) (calls 5 []) (holds 2 0)) 12 ≡ Some (range 1 9) }
    ensures second { known_of (leaves (port ∷ []) (calls 5 []) (holds 2 0)) 13 ≡ Some (single 7) }
    ensures third { known_of (leaves (port ∷ []) (calls 5 ((14, 1) ∷ [])) (holds 2 0)) 14 ≡ Some full }
    ensures replied { known_of (leaves (port ∷ []) (calls 2 []) (holds 2 0)) 12 ≡ Some (range 1 9) }
    ensures polled { known_of (leaves (port ∷ []) (calls 8 ((12, 1) ∷ [])) (holds 2 0)) 12 ≡ Some full }
    ensures polled_badge { known_of (leaves (port ∷ []) (calls 8 []) (holds 2 0)) 10 ≡ Some (range 0 0xFFFFFFF) }
    ensures answer { known_of (leaves (port ∷ []) (calls 1 (message 2 1 7)) (holds 9 3)) 12 ≡ Some full }
    ensures other { known_of (leaves (port ∷ []) (calls 5 []) holds_other) 12 ≡ Some full }
{}

/// A word that is not there keeps no promise, and one more than is promised may be anything.
#[tactic(auto)]
pub fn words_keep_promises()
    ensures kept { KeepWords (9 ∷ 7 ∷ 100 ∷ []) port.words }
    ensures missing { KeepWords (9 ∷ []) port.words → ⊥ }
    ensures low { KeepWords (0 ∷ 7 ∷ []) port.words → ⊥ }
    ensures high { KeepWords (10 ∷ 7 ∷ []) port.words → ⊥ }
{}

/// A promise is of an endpoint. Promises are numbered on after tables, frames and contents.
#[tactic(auto, unfolding(crate::proofs::Opened::opened))]
pub fn promises_are_of_endpoints()
    ensures endpoint { first_broken (mapping_rules (promising (port ∷ []))) ≡ None }
    ensures frame { first_broken (mapping_rules (promising (promise_of 0 0 0 [] ∷ port ∷ []))) ≡ Some (BadPromise 2) }
    ensures pool { first_broken (mapping_rules (promising (promise_of 5 0 0 [] ∷ []))) ≡ Some (BadPromise 2) }
    ensures second { first_broken (mapping_rules (promising (port ∷ promise_of 7 0 0 [] ∷ []))) ≡ Some (BadPromise 3) }
    ensures found { promise_at (promising (port ∷ [])) 0xE000 ≡ Some port }
    ensures nothing { promise_at (promising (port ∷ [])) 0xC000 ≡ None }
{}
