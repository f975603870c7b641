//! Rows on reading the slots that a record notes: each field of the worker's second record, and one byte changed.

ghost use Rattle.std.specs.Prelude.{◌≡◌, Err};
ghost use Rattle.model.specs.declared.refusals.Refusal.TheVariants.{Limit};
ghost use Rattle.model_laws.specs.Worker.{reading_with};

/// The count, the CNode and the index, which rise together.
#[tactic(auto, unfolding(crate::proofs::Opened::opened))]
pub fn noted_slots_rise()
    ensures count { reading_with 461 1 ≡ Err (Limit 460) }
    ensures cnode { reading_with 500 7 ≡ Err (Limit 500) }
    ensures index { reading_with 480 5 ≡ Err (Limit 504) }
    ensures high { reading_with 481 0x40 ≡ Err (Limit 480) }
{}

/// The words, reported at the second of them.
#[tactic(auto, unfolding(crate::proofs::Opened::opened))]
pub fn noted_words_stand_for_a_capability()
    ensures kind { reading_with 484 0xDB ≡ Err (Limit 488) }
    ensures watermark { reading_with 489 0x21 ≡ Err (Limit 488) }
{}

/// The parent: a slot, or none.
#[tactic(auto, unfolding(crate::proofs::Opened::opened))]
pub fn noted_parents_are_slots()
    ensures cnode { reading_with 492 0xFE ≡ Err (Limit 492) }
    ensures half { reading_with 496 0xFE ≡ Err (Limit 496) }
    ensures index { reading_with 521 0x40 ≡ Err (Limit 520) }
{}
