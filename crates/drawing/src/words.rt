//! What a trace says of a word of a device page.

use std::alloc::{AllocError, Global};

/// From this number on words are shown in hexadecimal.
const HEXADECIMAL_FROM: u32 = 1024;

/// What a trace says of a word that the world writes or reads.
#[derive(Clone, Copy, Debug)]
pub(crate) struct WordRun {
    /// The word where the chart begins, if an event said it before.
    pub(crate) first: Option<u32>,
    /// The least and the greatest value in the whole trace.
    pub(crate) low: u32,
    pub(crate) high: u32,
}

impl WordRun {
    /// A word that has this value in its first event.
    pub(crate) fn new(word: u32) -> Self {
        WordRun {
            first: None,
            low: word,
            high: word,
        }
    }

    /// One event more, in which it has this value.
    pub(crate) fn note(&mut self, word: u32) {
        self.low = self.low.min(word);
        self.high = self.high.max(word);
    }

    /// How far a value is above the least, where the greatest is so far above it. The only value is in the middle.
    pub(crate) fn height(&self, word: u32, whole: u32) -> u32 {
        let (whole, range) = (
            u64::from(whole),
            u64::from(self.high.saturating_sub(self.low)),
        );
        let above = u64::from(word.saturating_sub(self.low));
        match above.saturating_mul(whole).checked_div(range) {
            Some(height) => height.min(whole) as u32,
            None => (whole / 2) as u32,
        }
    }
}

/// A word as it is shown: decimal if it is small, and else hexadecimal.
pub(crate) fn shown_word(alloc: Global, word: u32) -> Result<String, AllocError> {
    if word < HEXADECIMAL_FROM {
        format!(in alloc; "{word}")
    } else {
        format!(in alloc; "{word:#x}")
    }
}

/// How many characters a word has as it is shown.
pub(crate) fn shown_length(word: u32) -> u32 {
    match word {
        0..=9 => 1,
        10..=99 => 2,
        100..=999 => 3,
        1000..=1023 => 4,
        _ => (35 - word.leading_zeros()) / 4 + 2,
    }
}
