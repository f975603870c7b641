//! The words with which lines begin, and those that name the kinds of objects.

ghost use Rattle.std.specs.Prelude.{◌≡◌, map};
ghost use Rattle.std.specs.Str.{bytes_eq};
ghost use Rattle.asm_line.specs.Lines.{beside_name, keyword_of, kind_of};

use crate::faults::LineFault;

/// The word with which a line begins, where it is no label and no instruction.
#[derive(Clone, Copy)]
pub(crate) enum Keyword {
    Memory,
    Untyped,
    Object,
    Interrupt,
    Capability,
    Table,
    Frame,
    Content,
    Promise,
    Thread,
    Buffer,
    Register,
    Measure,
    Range,
    Slot,
    Word,
    End,
}

/// Whether a word is this text.
pub(crate) fn is(word: &[u8], text: &str) -> bool
    ensures { result ≡ bytes_eq word.now text.now }
{
    word == text.as_bytes()
}

/// What is beside the first of these names that a word is.
pub(crate) fn beside_name<T: Copy>(word: &[u8], names: &[(&str, T)]) -> Option<T>
    ensures { result ≡ beside_name word.now (map (λ e. (e.0.now, e.1)) names.now) }
{
    'names: for entry in names {
        if is(word, entry.0) {
            return Some(entry.1);
        }
    }
    None
}

/// The keyword that a word is, if it is one.
#[tactic(auto, unfolding(crate::specs::Lines::keyword_of, crate::specs::Lines::thread_keyword_of))]
pub(crate) fn keyword_in(word: &[u8]) -> Option<Keyword>
    ensures { result ≡ keyword_of word.now }
{
    beside_name(
        word,
        &[
            ("memory", Keyword::Memory),
            ("untyped", Keyword::Untyped),
            ("object", Keyword::Object),
            ("irq", Keyword::Interrupt),
            ("cap", Keyword::Capability),
            ("table", Keyword::Table),
            ("map", Keyword::Frame),
            ("data", Keyword::Content),
            ("promise", Keyword::Promise),
            ("thread", Keyword::Thread),
            ("buffer", Keyword::Buffer),
            ("reg", Keyword::Register),
            ("measure", Keyword::Measure),
            ("range", Keyword::Range),
            ("slot", Keyword::Slot),
            ("word", Keyword::Word),
            ("end", Keyword::End),
        ],
    )
}

/// The number of a kind of objects, by its name.
#[tactic(auto, unfolding(crate::specs::Lines::kind_of))]
pub(crate) fn kind_in(word: &[u8]) -> Result<u32, LineFault>
    ensures { result ≡ kind_of word.now }
{
    if is(word, "untyped") {
        Ok(1)
    } else if is(word, "tcb") {
        Ok(2)
    } else if is(word, "endpoint") {
        Ok(3)
    } else if is(word, "notification") {
        Ok(4)
    } else if is(word, "cnode") {
        Ok(5)
    } else if is(word, "frame") {
        Ok(6)
    } else if is(word, "table") {
        Ok(7)
    } else if is(word, "root") {
        Ok(8)
    } else {
        Err(LineFault::Syntax)
    }
}
