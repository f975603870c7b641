//! Lines as bytes, and the words in them.

ghost use Rattle.std.specs.Prelude.{◌≡◌, ◌==◌, ◌∷◌, ◌++◌, [], codes, not, position, length, IfSome, MatchOption};
ghost use Rattle.std.specs.Bool.{OnTrue};
ghost use Rattle.std.specs.List.{list_any};
ghost use Rattle.std.specs.Str.{bytes_eq};
ghost use Rattle.asm_line.specs.Parsing.{before_comment};
ghost use Rattle.certified_texts.specs.Lines.{EndsApart, begins_apart, has_hash, begins_certificate, is_certificate, is_thread, parts_words, words_of};
ghost use Rattle.certified_texts.specs.SameTexts.{AreAroundBudget, IsOpenAround};

/// Which word of a `thread` line is the budget, from 0.
const BUDGET_WORD: usize = 6;

/// A line around its budget.
#[derive(Clone, Copy)]
pub(crate) struct Around<'a> {
    pub(crate) before: &'a [u8],
    pub(crate) behind: &'a [u8],
}

/// Whether a byte parts words, or ends a line.
fn parts_words(byte: u8) -> bool
    ensures { result ≡ parts_words byte }
{
    byte == b' ' || byte == b'\t' || byte == b',' || byte == b'\r' || byte == b'\n'
}

/// Where a comment begins, if there is one.
fn comment_start(line: &[u8]) -> Option<usize>
    ensures { result ≡ position (λ byte. byte == 35) line.now }
{
    line.iter().position(|byte| *byte == b'#')
}

/// What is before a comment.
fn without_comment(line: &[u8]) -> &[u8]
    ensures { result.now ≡ before_comment line.now }
{
    match comment_start(line) {
        Some(end) => line.split_at(end).0,
        None => line,
    }
}

/// Whether a byte begins a comment.
fn has_hash(bytes: &[u8]) -> bool
    ensures { result ≡ has_hash bytes.now }
{
    bytes.iter().any(|byte| *byte == b'#')
}

/// Where the first byte that parts no words is, if there is one.
fn word_start(text: &[u8]) -> Option<usize>
    ensures { result ≡ position (λ byte. not (parts_words byte)) text.now }
{
    text.iter().position(|byte| !parts_words(*byte))
}

/// Where the first byte that parts words is, if there is one.
fn word_end(text: &[u8]) -> Option<usize>
    ensures { result ≡ position parts_words text.now }
{
    text.iter().position(|byte| parts_words(*byte))
}

/// The first word of a text, and what is after it.
fn first_word(text: &[u8]) -> Option<(&[u8], &[u8])>
    ensures { MatchOption result (words_of text.now ≡ []) (λ p. words_of text.now ≡ p.0.now ∷ words_of p.1.now) }
{
    let Some(start) = word_start(text) else {
        return None;
    };
    let (_, text) = text.split_at(start);
    let end = word_end(text).unwrap_or(text.len());
    Some(text.split_at(end))
}

/// Whether a word is this text.
fn is(word: &[u8], text: &str) -> bool
    ensures { result ≡ bytes_eq word.now text.now }
{
    word == text.as_bytes()
}

/// Whether a text has so many words.
fn has_words(text: &[u8], count: usize) -> bool
    ensures { OnTrue result (length (words_of text.now) ≡ count) }
{
    let mut left = text;
    let mut missing = count;
    'words: while let Some((_, behind)) = first_word(left) {
        if missing == 0 {
            return false;
        }
        missing -= 1;
        left = behind;
    }
    missing == 0
}

/// Whether no word goes on from before these bytes into them.
fn begins_apart(bytes: &[u8]) -> bool
    ensures { result ≡ begins_apart bytes.now }
{
    match bytes.split_first() {
        Some((first, _)) => parts_words(*first),
        None => true,
    }
}

/// Whether the last byte parts words.
fn ends_apart(bytes: &[u8]) -> bool
    ensures { OnTrue result (EndsApart bytes.now) }
{
    match bytes.split_last() {
        Some((last, _)) => parts_words(*last),
        None => false,
    }
}

/// Whether a line begins a thread.
#[tactic(auto, unfolding(crate::specs::Lines::is_thread))]
pub(crate) fn is_thread(line: &[u8]) -> bool
    ensures { result ≡ is_thread line.now }
{
    match first_word(without_comment(line)) {
        Some((keyword, _)) => is(keyword, "thread"),
        None => false,
    }
}

/// Whether a word is the first one of a line of a certificate.
fn begins_certificate(word: &[u8]) -> bool
    ensures { result ≡ begins_certificate word.now }
{
    is(word, "measure") || is(word, "range") || is(word, "slot")
}

/// Whether a line is one of a certificate.
#[tactic(auto, unfolding(crate::specs::Lines::is_certificate))]
pub(crate) fn is_certificate(line: &[u8]) -> bool
    ensures { result ≡ is_certificate line.now }
{
    match first_word(without_comment(line)) {
        Some((keyword, _)) => begins_certificate(keyword),
        None => false,
    }
}

/// Where the budget of a thread begins, if its line has one.
fn budget_start(said: &[u8]) -> Option<usize> {
    let mut rest = said;
    'words: for _ in 0..BUDGET_WORD {
        rest = first_word(rest)?.1;
    }
    let (budget, behind) = first_word(rest)?;
    said.len()
        .checked_sub(behind.len())?
        .checked_sub(budget.len())
}

/// What is after the word `auto`, if a text begins with it.
fn behind_auto(text: &[u8]) -> Option<&[u8]>
    ensures { IfSome result (λ behind. text.now ≡ codes "auto" ++ behind.now) }
{
    text.strip_prefix("auto".as_bytes())
}

/// Whether what is between these is the budget of a thread that begins with the first of them.
fn are_around_budget(before: &[u8], behind: &[u8]) -> bool
    ensures { OnTrue result (AreAroundBudget before.now (before_comment behind.now)) }
{
    if has_hash(before) || !ends_apart(before) {
        return false;
    }
    if !begins_apart(without_comment(behind)) {
        return false;
    }
    has_words(before, BUDGET_WORD)
}

/// A line of a thread whose budget is to be found, around the word that says so. Where that word begins is looked for first, and
/// then it is looked at what is there.
pub(crate) fn around_auto(line: &[u8]) -> Option<Around<'_>>
    ensures { IfSome result (λ around. IsOpenAround line.now around.before.now around.behind.now) }
{
    if !is_thread(line) {
        return None;
    }
    let start = budget_start(without_comment(line))?;
    let (before, rest) = line.split_at(start.min(line.len()));
    let behind = behind_auto(rest)?;
    if are_around_budget(before, behind) {
        Some(Around { before, behind })
    } else {
        None
    }
}
