//! Why a line has no event, in words.

use named_traces::TextNames;
use std::alloc::AllocError;

/// How many bytes of a line are shown at most.
const MOST_SHOWN: usize = 80;

/// Why a line has no event.
#[derive(Clone, Copy, Debug, PartialEq, Eq)]
pub(crate) enum Unread<'l> {
    /// It is not UTF-8.
    NotText,
    /// It is longer than a line may be.
    TooLong,
    /// Its words are those of no event.
    NoEvent(&'l str),
    /// This is no number of steps.
    Count(&'l str),
    /// This is no interrupt line.
    Interrupt(&'l str),
    /// This is no device page.
    Page(&'l str),
    /// This is no number of a word in a page.
    Index(&'l str),
    /// This is no word.
    Word(&'l str),
    /// This is no address of a word.
    Address(&'l str),
    /// It ends a list, which holds no such line.
    Settle,
    /// It passes the limit of events.
    TooMany,
}

/// The front of a line that is too long to be shown, or the line.
fn shown(line: &str) -> &str {
    match line.get(..MOST_SHOWN) {
        Some(front) => front,
        None => line,
    }
}

/// Puts that a word is no interrupt line, and which there are.
fn push_interrupt(to: &mut String, names: &TextNames<'_>, word: &str) -> Result<(), AllocError> {
    let word = shown(word);
    write!(to, "`{word}` is no interrupt line: a number from 0 to 63")?;
    if names.has_interrupts() {
        to.push_str(", or one of ")?;
        names.push_interrupts(to)
    } else {
        to.push_str("; none has a name")
    }
}

/// Puts that a word is no device page, and which there are.
fn push_page(to: &mut String, names: &TextNames<'_>, word: &str) -> Result<(), AllocError> {
    let word = shown(word);
    write!(to, "`{word}` is no device page: ")?;
    if names.has_device_pages() {
        to.push_str("there are ")?;
        names.push_device_pages(to)
    } else {
        to.push_str("the system has none")
    }
}

impl Unread<'_> {
    /// Puts why the line has no event.
    ///
    /// # Errors
    ///
    /// Memory is refused.
    pub(crate) fn push(self, to: &mut String, names: &TextNames<'_>) -> Result<(), AllocError> {
        match self {
            Unread::NotText => to.push_str("not UTF-8"),
            Unread::TooLong => to.push_str("a line of a live run has at most 1024 bytes"),
            Unread::Settle => to.push_str("`settle` is for live runs alone"),
            Unread::TooMany => to.push_str("more than 1000000 events"),
            Unread::Interrupt(word) => push_interrupt(to, names, word),
            Unread::Page(word) => push_page(to, names, word),
            other => other.push_word(to),
        }
    }

    /// Puts that a word is not what is wanted in its place.
    fn push_word(self, to: &mut String) -> Result<(), AllocError> {
        let (word, wanted) = match self {
            Unread::NoEvent(line) => (
                line,
                "no event: `step [N]`, `tick`, `irq LINE`, `write PAGE INDEX WORD` or `write ADDRESS WORD`, `read PAGE INDEX` or `read ADDRESS`, with one \
                 blank between words",
            ),
            Unread::Count(word) => (word, "no number of steps: 1 to 1000000"),
            Unread::Index(word) => (word, "no word of a page: a number from 0 to 1023"),
            Unread::Word(word) => (
                word,
                "no word: a number from 0 to 4294967295, decimal or after `0x`",
            ),
            Unread::Address(word) => (
                word,
                "no address of a word: a multiple of 4 below 4294967296, decimal or after `0x`",
            ),
            _ => return Ok(()),
        };
        let word = shown(word);
        write!(to, "`{word}` is {wanted}")
    }
}
