//! Whether a text is another one but for its certificates.

ghost use Rattle.std.specs.Prelude.{◌≡◌, ◌==◌, ◌∷◌, ◌<◌, [], position, length, IfSome, MatchOption};
ghost use Rattle.std.specs.Bool.{OnTrue};
ghost use Rattle.std.specs.Char.{is_ascii_digit};
ghost use Rattle.std.specs.List.{list_all};
ghost use Rattle.certified_texts.specs.Lines.{kept_lines, lines_of};
ghost use Rattle.certified_texts.specs.SameTexts.{IsNumberBetween, IsSameLine, SameButCertificates, is_number};

use crate::pieces::{around_auto, is_certificate};

/// Where the first line feed is, if there is one.
fn line_feed(text: &[u8]) -> Option<usize>
    ensures place { result ≡ position (λ byte. byte == 10) text.now }
    ensures within { IfSome result (λ at. at < length text.now) }
{
    text.iter().position(|byte| *byte == b'\n')
}

/// The first line of a text, with the line feed that ends it, and what is after it.
fn first_line(text: &[u8]) -> Option<(&[u8], &[u8])>
    ensures { MatchOption result (lines_of text.now ≡ []) (λ p. lines_of text.now ≡ p.0.now ∷ lines_of p.1.now) }
{
    if text.is_empty() {
        return None;
    }
    match line_feed(text) {
        Some(at) => Some(text.split_at(at + 1)),
        None => Some(text.split_at(text.len())),
    }
}

/// The first line of a text that is none of a certificate, and what is after it.
fn first_kept(text: &[u8]) -> Option<(&[u8], &[u8])>
    ensures { MatchOption result (kept_lines text.now ≡ []) (λ p. kept_lines text.now ≡ p.0.now ∷ kept_lines p.1.now) }
{
    let mut left = text;
    'lines: while let Some((line, behind)) = first_line(left) {
        if !is_certificate(line) {
            return Some((line, behind));
        }
        left = behind;
    }
    None
}

/// Whether all bytes are decimal digits.
fn are_digits(bytes: &[u8]) -> bool
    ensures { result ≡ list_all is_ascii_digit bytes.now }
{
    bytes.iter().all(|byte| byte.is_ascii_digit())
}

/// Whether a text is a number of decimal digits.
fn is_number(bytes: &[u8]) -> bool
    ensures { result ≡ is_number bytes.now }
{
    if bytes.is_empty() {
        return false;
    }
    are_digits(bytes)
}

/// Whether a line is a number of decimal digits between these.
fn is_number_between(before: &[u8], behind: &[u8], line: &[u8]) -> bool
    ensures { OnTrue result (IsNumberBetween before.now behind.now line.now) }
{
    let Some(rest) = line.strip_prefix(before) else {
        return false;
    };
    let Some(number) = rest.strip_suffix(behind) else {
        return false;
    };
    is_number(number)
}

/// Whether a line is the one that was given, but for a budget that was to be found.
fn is_same_line(given: &[u8], made: &[u8]) -> bool
    ensures { OnTrue result (IsSameLine given.now made.now) }
{
    if given == made {
        return true;
    }
    match around_auto(given) {
        Some(around) => is_number_between(around.before, around.behind, made),
        None => false,
    }
}

/// Whether a text is the one that was given but for its certificates: lines that begin with `measure`, `range` or `slot`, and
/// budgets that were to be found.
pub fn is_same_but_certificates(given: &[u8], made: &[u8]) -> bool
    ensures { OnTrue result (SameButCertificates given.now made.now) }
{
    let mut left = given;
    let mut others = made;
    'lines: while let Some((line, behind)) = first_kept(left) {
        let Some((other, after)) = first_kept(others) else {
            return false;
        };
        if !is_same_line(line, other) {
            return false;
        }
        left = behind;
        others = after;
    }
    first_kept(others).is_none()
}
