//! Laws of instruction words.

ghost use Rattle.std.specs.Prelude.{◌≡◌, ℕ, Some};
ghost use Rattle.model.specs.declared.instructions.Instr.{Instr};
ghost use Rattle.model.specs.Machine.Instructions.{Spells};
ghost use Rattle.model.specs.Machine.Decoding.{decoded};

/// A word spells at most one instruction.
pub fn a_word_spells_one_instruction()
    ensures one { (word : ℕ) (i j : Instr) → Spells word i → Spells word j → i ≡ j }
    ensures decoded { (word : ℕ) (i : Instr) → Spells word i → decoded word ≡ Some i }
{}
