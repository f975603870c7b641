//! The forms of lines.

use source_words::declares;

pub(crate) const PAGE: &str = "page NAME [pages N] [from FILE | WORD ..]";

pub(crate) const DEVICE: &str = "device NAME [pages N] [from FILE | WORD ..]";

pub(crate) const BELL: &str = "bell NAME";

pub(crate) const DOOR: &str = "door NAME";

pub(crate) const PROMISE: &str = "promise DOOR LOW HIGH [LOW HIGH] ..";

pub(crate) const LET: &str = "let NAME NUMBER";

pub(crate) const INCLUDE: &str = "include FILE";

pub(crate) const PART: &str = "part NAME PRIORITY";

pub(crate) const WAITS: &str = "waits BELL [line N [every P] [burst B]] ..";

pub(crate) const RINGS: &str = "rings BELL [as BADGE]";

pub(crate) const SERVES: &str = "serves DOOR";

pub(crate) const CALLS: &str = "calls DOOR [as BADGE]";

pub(crate) const SENDS: &str = "sends DOOR [as BADGE]";

pub(crate) const FAULTS: &str = "faults DOOR [as BADGE]";

pub(crate) const SEES: &str = "sees PAGE [ADDRESS]";

pub(crate) const WRITES: &str = "writes PAGE [ADDRESS]";

pub(crate) const BUFFER: &str = "buffer PAGE";

pub(crate) const POOL: &str = "pool BITS SLOTS [REGION]";

pub(crate) const REG: &str = "reg xN VALUE";

pub(crate) const BUDGET: &str = "budget N";

pub(crate) const WITHIN: &str = "within N";

pub(crate) const CODE: &str = "code";

pub(crate) const PROGRAM: &str = "program FILE.c .. [pages N] [data N] [stack N]";

/// The words that begin lines: those outside of parts, and then those of parts.
pub(crate) const WORDS: [&str; 24] = [
    "page", "device", "bell", "door", "promise", "let", "include", "part", "waits", "rings",
    "serves", "calls", "sends", "faults", "sees", "writes", "buffer", "pool", "reg", "budget",
    "within", "code", "program", "end",
];

/// Whether a word begins a line of a part.
pub(crate) fn is_of_part(word: &str) -> bool {
    WORDS.contains(&word) && !declares(word)
}

/// The words that mean something where a number can be.
pub(crate) fn is_said_beside_numbers(word: &str) -> bool {
    matches!(
        word,
        "line" | "every" | "burst" | "as" | "pages" | "data" | "stack" | "from" | "auto"
    )
}
