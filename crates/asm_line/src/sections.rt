//! The lines of the sections before the threads.

ghost use Rattle.std.specs.Prelude.{◌≡◌};
ghost use Rattle.asm_line.specs.Lines.{all_numbers, all_promised, all_words, some_numbers, capability_of, content_of, frame_of};
ghost use Rattle.asm_line.specs.Lines.{interrupt_of, kind_first, last_kind, memory_of, number_pairs, object_of, promise_of};
ghost use Rattle.asm_line.specs.Lines.{promised_first, promised_of, size_first, some_pairs, table_of, untyped_of, word_first};

use crate::faults::LineFault;
use crate::keywords::kind_in;
use crate::lines::Line;
use crate::numbers::{between, number_in, word};
use crate::words::Words;
use model::{ObjectType, PromisedWord, UntypedEntry};

/// `memory BITS RADIX`
#[tactic(auto, unfolding(crate::specs::Lines::memory_of))]
pub(crate) fn memory(words: Words<'_>) -> Result<Line<'_>, LineFault>
    ensures { result ≡ memory_of words.entry }
{
    let (memory_bits, boot_radix) = words.last_numbers()?;
    let memory_bits = between(memory_bits, 16, 24)?;
    let boot_radix = between(boot_radix, 1, 14.min(memory_bits - 5))?;
    Ok(Line::Memory {
        memory_bits,
        boot_radix,
    })
}

/// `untyped NAME OFFSET BITS`
#[tactic(auto, unfolding(crate::specs::Lines::untyped_of))]
pub(crate) fn untyped(words: Words<'_>) -> Result<Line<'_>, LineFault>
    ensures { result ≡ untyped_of words.entry }
{
    let (name, words) = words.object()?;
    let (offset, bits) = words.last_numbers()?;
    let offset = word(offset)?;
    let bits = between(bits, 4, 24)?;
    Ok(Line::Untyped {
        name,
        entry: UntypedEntry { offset, bits },
    })
}

/// The first word, which is to be a kind of objects, and those after it.
fn kind_and_rest(words: Words<'_>) -> Result<(u32, Words<'_>), LineFault>
    ensures { result ≡ kind_first words.entry }
{
    match words.first() {
        Some((word, words)) => Ok((kind_in(word)?, words)),
        None => Err(LineFault::Syntax),
    }
}

/// The first word, which is to be a number, and those after it; 0 if no word is left.
#[tactic(auto, unfolding(crate::specs::Words::words_of))]
fn size_and_rest(words: Words<'_>) -> Result<(i64, Words<'_>), LineFault>
    ensures { result ≡ size_first words.entry }
{
    match words.first() {
        Some((word, words)) => Ok((number_in(word)?, words)),
        None => Ok((0, Words::of(&[]))),
    }
}

/// A kind of objects and a size, which may be left out, and no more.
#[tactic(auto, unfolding(crate::specs::Lines::last_kind))]
fn kind_and_size(words: Words<'_>) -> Result<(u32, i64), LineFault>
    ensures { result ≡ last_kind words.entry }
{
    let (kind, words) = kind_and_rest(words)?;
    let (size, words) = size_and_rest(words)?;
    words.end()?;
    Ok((kind, size))
}

/// `object NAME UNTYPED KIND [SIZE]`
#[tactic(auto, unfolding(crate::specs::Lines::object_of))]
pub(crate) fn object(words: Words<'_>) -> Result<Line<'_>, LineFault>
    ensures { result ≡ object_of words.entry }
{
    let (name, words) = words.object()?;
    let (untyped, words) = words.object()?;
    let (kind, size) = kind_and_size(words)?;
    let size = word(size)?;
    if !ObjectType::size_fits(kind, size) {
        return Err(LineFault::Range);
    }
    Ok(Line::Object {
        name,
        untyped,
        kind,
        size,
    })
}

/// `irq NAME LINE NOTIFICATION BADGE`
#[tactic(auto, unfolding(crate::specs::Lines::interrupt_of))]
pub(crate) fn interrupt(words: Words<'_>) -> Result<Line<'_>, LineFault>
    ensures { result ≡ interrupt_of words.entry }
{
    let (name, line, notification, words) = words.place()?;
    let badge = words.last_number()?;
    Ok(Line::Interrupt {
        name,
        line: between(line, 0, 63)?,
        notification,
        badge: between(badge, 0, (1 << 28) - 1)?,
    })
}

/// `cap CNODE INDEX SOURCE RIGHTS DATA`
#[tactic(auto, unfolding(crate::specs::Lines::capability_of))]
pub(crate) fn capability(words: Words<'_>) -> Result<Line<'_>, LineFault>
    ensures { result ≡ capability_of words.entry }
{
    let (cnode, index, source, words) = words.place()?;
    let (rights, payload) = words.last_numbers()?;
    Ok(Line::Capability {
        cnode,
        index: word(index)?,
        source,
        rights: word(rights)?,
        payload: word(payload)?,
    })
}

/// `table ROOT ADDRESS TABLE`
#[tactic(auto, unfolding(crate::specs::Lines::table_of))]
pub(crate) fn table(words: Words<'_>) -> Result<Line<'_>, LineFault>
    ensures { result ≡ table_of words.entry }
{
    let (root, address, table, words) = words.place()?;
    words.end()?;
    let address = word(address)?;
    Ok(Line::Table {
        root,
        address,
        table,
    })
}

/// `map ROOT ADDRESS FRAME RIGHTS`
#[tactic(auto, unfolding(crate::specs::Lines::frame_of))]
pub(crate) fn frame(words: Words<'_>) -> Result<Line<'_>, LineFault>
    ensures { result ≡ frame_of words.entry }
{
    let (root, address, frame, words) = words.place()?;
    let rights = words.last_number()?;
    Ok(Line::Frame {
        root,
        address: word(address)?,
        frame,
        rights: between(rights, 0, 7)?,
    })
}

/// Some words are to be left, and all of them numbers.
fn check_numbers(words: Words<'_>) -> Result<(), LineFault>
    ensures { result ≡ some_numbers words.entry }
{
    let Some((first, mut rest)) = words.first() else {
        return Err(LineFault::Syntax);
    };
    number_in(first)?;
    'numbers: while let Some((word, words)) = rest.first() {
        number_in(word)?;
        rest = words;
    }
    Ok(())
}

/// The words are to be numbers of 32 bits.
fn check_words(words: Words<'_>) -> Result<(), LineFault>
    ensures { result ≡ all_words words.entry }
{
    let mut rest = words;
    'words: while let Some((text, words)) = rest.first() {
        word(number_in(text)?)?;
        rest = words;
    }
    Ok(())
}

/// The first word, which is to be a number of 32 bits, and those after it.
pub(crate) fn word_and_rest(words: Words<'_>) -> Result<(u32, Words<'_>), LineFault>
    ensures { result ≡ word_first words.entry }
{
    match words.first() {
        Some((text, words)) => Ok((word(number_in(text)?)?, words)),
        None => Err(LineFault::Syntax),
    }
}

/// `data FRAME WORD ..`
#[tactic(auto, unfolding(crate::specs::Lines::content_of))]
pub(crate) fn content(words: Words<'_>) -> Result<Line<'_>, LineFault>
    ensures { result ≡ content_of words.entry }
{
    let (frame, words) = words.object()?;
    check_numbers(words.copied())?;
    check_words(words.copied())?;
    Ok(Line::Content { frame, words })
}

/// Some words are to be left, and all of them numbers, two and two.
fn check_pairs(words: Words<'_>) -> Result<(), LineFault>
    ensures { result ≡ number_pairs words.entry }
{
    let mut rest = words;
    'pairs: while let Some((low, words)) = rest.first() {
        let Some((high, words)) = words.first() else {
            return Err(LineFault::Syntax);
        };
        number_in(low)?;
        number_in(high)?;
        rest = words;
    }
    Ok(())
}

/// The same, and some words are to be left.
fn check_some_pairs(words: Words<'_>) -> Result<(), LineFault>
    ensures { result ≡ some_pairs words.entry }
{
    if words.copied().first().is_none() {
        return Err(LineFault::Syntax);
    }
    check_pairs(words)
}

/// A lowest and a highest value.
#[tactic(auto, unfolding(crate::specs::Lines::promised_of))]
fn promised_in(low: &[u8], high: &[u8]) -> Result<PromisedWord, LineFault>
    ensures { result ≡ promised_of low.now high.now }
{
    let low = number_in(low)?;
    let high = number_in(high)?;
    let low = word(low)?;
    let high = word(high)?;
    if low > high {
        return Err(LineFault::Range);
    }
    Ok(PromisedWord { low, high })
}

/// The first two words, which are to be a lowest and a highest value, and those after them.
pub(crate) fn promised_and_rest(words: Words<'_>) -> Result<(PromisedWord, Words<'_>), LineFault>
    ensures { result ≡ promised_first words.entry }
{
    let Some((low, words)) = words.first() else {
        return Err(LineFault::Syntax);
    };
    let Some((high, words)) = words.first() else {
        return Err(LineFault::Syntax);
    };
    Ok((promised_in(low, high)?, words))
}

/// The words are to be lowest and highest values. How many there are is looked at later.
fn check_promised(words: Words<'_>) -> Result<(), LineFault>
    ensures { result ≡ all_promised words.entry }
{
    let mut rest = words;
    'words: while let Some((low, words)) = rest.first() {
        let Some((high, words)) = words.first() else {
            return Err(LineFault::Syntax);
        };
        promised_in(low, high)?;
        rest = words;
    }
    Ok(())
}

/// `promise ENDPOINT LOW HIGH [LOW HIGH] ..`
#[tactic(auto, unfolding(crate::specs::Lines::promise_of))]
pub(crate) fn promise(words: Words<'_>) -> Result<Line<'_>, LineFault>
    ensures { result ≡ promise_of words.entry }
{
    let (endpoint, words) = words.object()?;
    check_some_pairs(words.copied())?;
    let (badges, words) = promised_and_rest(words)?;
    if badges.high >= 1 << 28 {
        return Err(LineFault::Range);
    }
    check_promised(words.copied())?;
    Ok(Line::Promise {
        endpoint,
        badge_low: badges.low,
        badge_high: badges.high,
        words,
    })
}
