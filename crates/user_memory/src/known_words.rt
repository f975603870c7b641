//! What words of code spell, kept by the place of each in its page, so that the words of a loop are decoded once.

ghost use Rattle.std.proofs.Props.{props};
ghost use Rattle.std.specs.Prelude.{◌≡◌, option_map};
ghost use Rattle.model.specs.Machine.Decoding.{decoded};
ghost use Rattle.model.specs.Machine.Instructions.{IsInstr};
ghost use Rattle.user_memory.specs.Propositions.{IsInstr-prop};

use model::Instr;
use rv32_isa::decode;

/// How many words are kept.
const KEPT_WORDS: usize = 256;

/// An instruction whose fields are in range.
#[derive(Clone, Copy)]
pub(crate) struct ValidInstr {
    pub(crate) instruction: Instr,
    ghost valid: { IsInstr instruction } by { Prim.hlevel (props, IsInstr-prop) },
}

/// A word, and the instruction that it spells, if it spells one.
#[derive(Clone, Copy)]
struct KnownWord {
    word: u32,
    spelled: Option<ValidInstr>,
    ghost value: { option_map (λ known. known.instruction) spelled ≡ decoded word },
}

impl KnownWord {
    /// What a word spells.
    fn of(word: u32) -> Self
        ensures { result.word ≡ word }
    {
        let spelled = match decode(word) {
            Some(instruction) => Some(ValidInstr { instruction }),
            None => None,
        };
        KnownWord { word, spelled }
    }
}

/// The words that were decoded last, one for each place in a page, counted in words modulo 256.
#[derive(Drop)]
pub struct KnownWords {
    words: [KnownWord; KEPT_WORDS],
}

impl KnownWords {
    /// Nothing is known yet but what the word 0 spells.
    pub fn new() -> Self {
        KnownWords {
            words: [KnownWord::of(0); KEPT_WORDS],
        }
    }

    /// The instruction that a word at an address spells, or `None` where it spells none of RV32I.
    #[inline]
    pub(crate) fn decode(&mut self, address: u32, word: u32) -> Option<ValidInstr>
        ensures { option_map (λ known. known.instruction) result ≡ decoded word }
    {
        let place = (address / 4) as usize % KEPT_WORDS;
        if self.words[place].word != word {
            self.words[place] = KnownWord::of(word);
        }
        self.words[place].spelled
    }
}
