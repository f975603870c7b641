//! Whole lines.

ghost use Rattle.std.specs.Prelude.{◌≡◌, ◌==◌, ◌∷◌, Ok, nat_lt, option_map, position, ◌⊎◌, IfErr};
ghost use Rattle.std.specs.List.{list_all};
ghost use Rattle.asm_line.specs.Words.{words_of};
ghost use Rattle.asm_line.specs.Listed.{Lists};
ghost use Rattle.asm_line.specs.declared.lines.Line.{Line};
ghost use Rattle.asm_line.specs.Meaning.{code_of, labelled_line, line_read, line_said, line_with, numbered, other_line_of, said_by};
ghost use Rattle.asm_line.specs.Parsing.{before_comment, label_declared, label_of, plain_word_of};

use crate::faults::LineFault;
use crate::instructions::instruction;
use crate::keywords::{Keyword, is, keyword_in};
use crate::lines::{Code, Line};
use crate::names::{Name, name_in};
use crate::numbers::word;
use crate::words::Words;
use crate::{sections, thread_lines};

/// What is before the colon with which a label ends, if a word is one.
fn label_in(word: &[u8]) -> Option<&[u8]>
    ensures { option_map (λ name. name.now) result ≡ label_of word.now }
{
    match word {
        [name @ .., b':'] => Some(name),
        _ => None,
    }
}

/// `word N`, after its first word.
#[tactic(auto, unfolding(crate::specs::Parsing::plain_word_of))]
fn plain_word(words: Words<'_>) -> Result<Code<'_>, LineFault>
    ensures { result ≡ plain_word_of words.entry }
{
    Ok(Code::Word(word(words.last_number()?)?))
}

/// What a line says that begins with a keyword.
#[tactic(auto, unfolding(crate::specs::Parsing::line_for, crate::specs::Meaning::line_with))]
fn declared(keyword: Keyword, words: Words<'_>) -> Result<Line<'_>, LineFault>
    ensures { result ≡ line_with keyword words.entry }
{
    match keyword {
        Keyword::Memory => sections::memory(words),
        Keyword::Untyped => sections::untyped(words),
        Keyword::Object => sections::object(words),
        Keyword::Interrupt => sections::interrupt(words),
        Keyword::Capability => sections::capability(words),
        Keyword::Table => sections::table(words),
        Keyword::Frame => sections::frame(words),
        Keyword::Content => sections::content(words),
        Keyword::Promise => sections::promise(words),
        Keyword::Thread => thread_lines::thread(words),
        Keyword::Buffer => thread_lines::buffer(words),
        Keyword::Register => thread_lines::register(words),
        Keyword::Measure => thread_lines::measure(words),
        Keyword::Range => thread_lines::range(words),
        Keyword::Slot => thread_lines::slot(words),
        Keyword::Word => Ok(Line::Code {
            label: None,
            code: plain_word(words)?,
        }),
        Keyword::End => {
            words.end()?;
            Ok(Line::End)
        }
    }
}

/// What makes a word of a program.
#[tactic(auto, unfolding(crate::specs::Meaning::code_of))]
fn code<'a>(word: &[u8], words: Words<'a>) -> Result<Code<'a>, LineFault>
    ensures { result ≡ code_of word.now words.entry }
{
    if is(word, "word") {
        plain_word(words)
    } else {
        instruction(word, words)
    }
}

/// What a line says that begins with a label, with what follows it.
fn labelled<'a>(name: &'a [u8], words: Words<'a>) -> Result<Line<'a>, LineFault>
    ensures { result ≡ labelled_line name.now words.entry }
{
    let label = name_in(name)?;
    match words.first() {
        Some((word, words)) => Ok(Line::Code {
            label: Some(label),
            code: code(word, words)?,
        }),
        None => Ok(Line::Label(label)),
    }
}

/// What a line says that begins with no keyword: a label, or an instruction.
#[tactic(auto, unfolding(crate::specs::Meaning::other_line_of))]
fn other_line<'a>(word: &'a [u8], words: Words<'a>) -> Result<Line<'a>, LineFault>
    ensures { result ≡ other_line_of word.now words.entry }
{
    match label_in(word) {
        Some(name) => labelled(name, words),
        None => Ok(Line::Code {
            label: None,
            code: instruction(word, words)?,
        }),
    }
}

/// What a line says that begins with this word.
#[tactic(auto, unfolding(crate::specs::Meaning::said_by))]
fn line_from<'a>(word: &'a [u8], words: Words<'a>) -> Result<Line<'a>, LineFault>
    ensures { result ≡ said_by (word.now ∷ words.entry) }
{
    match keyword_in(word) {
        Some(keyword) => declared(keyword, words),
        None => other_line(word, words),
    }
}

/// What the words of a line say.
#[tactic(auto, unfolding(crate::specs::Meaning::said_by))]
fn line_in(words: Words<'_>) -> Result<Line<'_>, LineFault>
    ensures { result ≡ said_by words.entry }
{
    match words.first() {
        Some((word, words)) => line_from(word, words),
        None => Ok(Line::Blank),
    }
}

/// Where a comment begins, if there is one.
fn comment_start(text: &[u8]) -> Option<usize>
    ensures { result ≡ position (λ byte. byte == 35) text.now }
{
    text.iter().position(|byte| *byte == b'#')
}

/// Whether a text is ASCII.
fn is_ascii(text: &[u8]) -> bool
    ensures { result ≡ list_all (λ byte. nat_lt byte 128) text.now }
{
    text.iter().all(|byte| *byte < 128)
}

/// The text before a comment.
fn without_comment(text: &[u8]) -> &[u8]
    ensures { result.now ≡ before_comment text.now }
{
    match comment_start(text) {
        Some(end) => text.split_at(end).0,
        None => text,
    }
}

/// What a text says, with a comment after its words or none.
#[tactic(auto, unfolding(crate::specs::Meaning::line_read))]
fn read(text: &[u8]) -> Result<Line<'_>, LineFault>
    ensures { result ≡ line_read text.now }
{
    if is_ascii(text) {
        line_in(Words::of(without_comment(text)))
    } else {
        Err(LineFault::Syntax)
    }
}

/// The line, or the number of its fault.
fn numbered(read: Result<Line<'_>, LineFault>) -> Result<Line<'_>, u8>
    ensures value { result ≡ numbered read.entry }
    ensures kind { IfErr result (λ kind. (kind ≡ 1) ⊎ (kind ≡ 4)) }
{
    match read {
        Ok(line) => Ok(line),
        Err(fault) => Err(fault.number()),
    }
}

/// What one line of an image's text says: the text without the end of its line.
///
/// # Errors
///
/// `SYNTAX` if the line is none of the text form, and else `RANGE` if a number of it is out of the
/// range that can be checked on the line by itself.
#[tactic(auto, unfolding(crate::specs::Meaning::line_said))]
pub fn parse_line(text: &str) -> Result<Line<'_>, u8>
    ensures said { result ≡ line_said text.now }
    ensures listed { (line : Line) → Lists line text.now → result ≡ Ok line }
    ensures kind { IfErr result (λ kind. (kind ≡ 1) ⊎ (kind ≡ 4)) }
{
    numbered(read(text.as_bytes()))
}

/// The label with which a line of an image's text begins, a name and a colon, whatever is after it: a line that is at
/// fault declares its label too.
#[tactic(auto, unfolding(crate::specs::Parsing::label_declared))]
pub fn declared_label(text: &str) -> Option<Name<'_>>
    ensures { result ≡ label_declared (words_of (before_comment text.now)) }
{
    let (word, _) = Words::of(without_comment(text.as_bytes())).first()?;
    name_in(label_in(word)?).ok()
}
