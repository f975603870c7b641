//! What is wrong with a word of a line, by what is wanted in its place.

use crate::forms::register_name;
use source_words::Nearest;
use std::alloc::AllocError;

/// The words of the kinds of objects.
const KINDS: [&str; 8] = [
    "untyped",
    "tcb",
    "endpoint",
    "notification",
    "cnode",
    "frame",
    "table",
    "root",
];

/// What is wanted in a place of a line.
#[derive(Clone, Copy, PartialEq, Eq)]
pub(crate) enum Wanted {
    Register,
    /// An offset and a register in brackets.
    Place,
    Name,
    Kind,
    Number,
    /// More than one word, or any.
    Rest,
}

/// What a word of a line's form is.
pub(crate) fn wanted_by(token: &str) -> Wanted {
    match token {
        "xD" | "xS" | "xT" | "xN" => Wanted::Register,
        "OFFSET(xS)" => Wanted::Place,
        "NAME"
        | "UNTYPED"
        | "NOTIFICATION"
        | "CNODE"
        | "SOURCE"
        | "ROOT"
        | "TABLE"
        | "FRAME"
        | "TCB"
        | "LABEL"
        | "PARENT" => Wanted::Name,
        "KIND" => Wanted::Kind,
        ".." | "[SIZE]" | "[xN" | "COEFFICIENT]" => Wanted::Rest,
        _ => Wanted::Number,
    }
}

/// Whether all bytes are digits, of which there is one at least.
fn are_digits(word: &str) -> bool {
    !word.is_empty() && word.as_bytes().iter().all(|byte| byte.is_ascii_digit())
}

/// Whether all bytes are hexadecimal digits, of which there is one at least.
fn are_hexadecimal(word: &str) -> bool {
    !word.is_empty() && word.as_bytes().iter().all(|byte| byte.is_ascii_hexdigit())
}

/// Whether a word is a number.
fn is_number(word: &str) -> bool {
    if let Some(digits) = word.strip_prefix("0x") {
        return are_hexadecimal(digits);
    }
    are_digits(word.strip_prefix("-").unwrap_or(word))
}

/// Whether a byte may be in a name.
fn is_of_name(byte: u8) -> bool {
    byte.is_ascii_lowercase() || byte.is_ascii_digit() || byte == b'_'
}

/// Whether a word is a name.
fn is_name(word: &str) -> bool {
    match word.as_bytes().first() {
        Some(first) if !first.is_ascii_digit() => {
            word.as_bytes().iter().all(|byte| is_of_name(*byte))
        }
        _ => false,
    }
}

/// Whether a word has upper-case letters.
pub(crate) fn has_upper_case(word: &str) -> bool {
    word.as_bytes().iter().any(|byte| byte.is_ascii_uppercase())
}

/// Puts a word with lower-case letters.
fn push_lower_case(to: &mut String, word: &str) -> Result<(), AllocError> {
    for character in word.chars() {
        to.push(character.to_ascii_lowercase())?;
    }
    Ok(())
}

/// Puts that a word is written in lower case.
pub(crate) fn push_upper_case(to: &mut String, word: &str) -> Result<(), AllocError> {
    to.push_str("all words are lower case: write `")?;
    push_lower_case(to, word)?;
    to.push_str("`\n")
}

/// The number of a register as it is written.
fn register_number(word: &str) -> Option<u32> {
    let digits = word.strip_prefix("x")?;
    if !are_digits(digits) {
        return None;
    }
    digits.parse::<u32>().ok()
}

/// Puts what is wrong with a word where a register is wanted, and answers whether something is.
fn push_register_fault(to: &mut String, word: &str) -> Result<bool, AllocError> {
    match register_number(word) {
        Some(number) if number < 32 => return Ok(false),
        Some(number) => write!(to, "there is no register x{number}: they are x0 to x31\n")?,
        None => match register_name(word) {
            Some(number) => write!(
                to,
                "registers are written x0 to x31: `{word}` is `x{number}`\n"
            )?,
            None if has_upper_case(word) => push_upper_case(to, word)?,
            None => write!(to, "`{word}` is no register, x0 to x31\n")?,
        },
    }
    Ok(true)
}

/// Puts what is wrong with a word where an offset and a register are wanted, and answers whether something is.
fn push_place_fault(to: &mut String, word: &str) -> Result<bool, AllocError> {
    let Some((offset, rest)) = word.split_once('(') else {
        write!(
            to,
            "`{word}` is no OFFSET(xS): the offset is always written, as 0(x5)\n"
        )?;
        return Ok(true);
    };
    if !is_number(offset) {
        write!(
            to,
            "`{offset}` is no offset: it is a number, and always written, as 0(x5)\n"
        )?;
        return Ok(true);
    }
    match rest.strip_suffix(")") {
        Some(register) => push_register_fault(to, register),
        None => {
            write!(to, "`{word}` has no bracket at its end\n")?;
            Ok(true)
        }
    }
}

/// Puts what is wrong with a word where a name is wanted, and answers whether something is.
fn push_name_fault(to: &mut String, token: &str, word: &str) -> Result<bool, AllocError> {
    if is_name(word) {
        return Ok(false);
    }
    if has_upper_case(word) {
        push_upper_case(to, word)?;
    } else if is_number(word) {
        write!(
            to,
            "`{word}` is a number where a name, {token}, is wanted\n"
        )?;
    } else {
        write!(
            to,
            "`{word}` is no name for {token}: a letter or `_`, and then those and digits\n"
        )?;
    }
    Ok(true)
}

/// Puts what is wrong with a word where a kind of objects is wanted, and answers whether something is.
fn push_kind_fault(to: &mut String, word: &str) -> Result<bool, AllocError> {
    let mut nearest = Nearest::to(word);
    for kind in &KINDS {
        if *kind == word {
            return Ok(false);
        }
        nearest.consider(word, *kind);
    }
    write!(to, "`{word}` is no kind of objects")?;
    match nearest.name {
        Some(name) => write!(to, "; did you mean `{name}`?\n")?,
        None => to.push_str("\n")?,
    }
    Ok(true)
}

/// The number that binary digits are.
fn binary(word: &str) -> Option<u32> {
    let digits = word.strip_prefix("0b")?;
    u32::from_str_radix(digits, 2).ok()
}

/// Puts what is wrong with a word where a number is wanted, and answers whether something is.
fn push_number_fault(to: &mut String, token: &str, word: &str) -> Result<bool, AllocError> {
    if is_number(word) || (token == "BUDGET" && word == "auto") {
        return Ok(false);
    }
    if let Some(number) = binary(word) {
        write!(
            to,
            "numbers are decimal, or hexadecimal after `0x`: `{word}` is {number}\n"
        )?;
    } else if is_name(word) {
        write!(
            to,
            "`{word}` is a name where a number, {token}, is wanted\n"
        )?;
    } else {
        write!(
            to,
            "`{word}` is no number for {token}: numbers are decimal, with `-` before them where they may be negative, or hexadecimal after `0x`\n"
        )?;
    }
    Ok(true)
}

/// Puts what is wrong with a word of a line, by what its form has there, and answers whether something is.
pub(crate) fn push_word_fault(
    to: &mut String,
    token: &str,
    word: &str,
) -> Result<bool, AllocError> {
    match wanted_by(token) {
        Wanted::Register => push_register_fault(to, word),
        Wanted::Place => push_place_fault(to, word),
        Wanted::Name => push_name_fault(to, token, word),
        Wanted::Kind => push_kind_fault(to, word),
        Wanted::Number => push_number_fault(to, token, word),
        Wanted::Rest => Ok(false),
    }
}

/// Puts whether the size of an object is missing or one too many, and answers whether that is so.
pub(crate) fn push_size_fault(
    to: &mut String,
    kind: &str,
    size: Option<&str>,
) -> Result<bool, AllocError> {
    match (kind, size) {
        ("cnode", None) => {
            to.push_str("SIZE is missing: a `cnode` of 2^SIZE slots, 1 to 14\n")?;
            Ok(true)
        }
        ("untyped", None) => {
            to.push_str("SIZE is missing: an `untyped` of 2^SIZE bytes, 4 to 24\n")?;
            Ok(true)
        }
        ("cnode" | "untyped", Some(size)) => push_number_fault(to, "SIZE", size),
        (_, Some(_)) => {
            write!(to, "a `{kind}` has no SIZE\n")?;
            Ok(true)
        }
        (_, None) => Ok(false),
    }
}
