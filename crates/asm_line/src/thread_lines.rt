//! The lines with which threads begin, and those of their registers and certificates.

ghost use Rattle.std.specs.Prelude.{◌≡◌, ◌==◌, ◌&&◌};
ghost use Rattle.asm_line.specs.Meaning.{known, known_slot_of};
ghost use Rattle.asm_line.specs.Lines.{buffer_of, budget_of, all_pairs, all_terms, coefficient_of, constant_of, measure_of};
ghost use Rattle.asm_line.specs.Lines.{named_register, parent_first, parent_with, range_of, register_line_of, slot_of, slot_said};
ghost use Rattle.asm_line.specs.Lines.{slot_words_of, term_first, term_of, thread_of, thread_said, thread_words_of};

use crate::faults::LineFault;
use crate::keywords::is;
use crate::lines::{Line, Parent, ThreadLine};
use crate::names::{Name, name_in};
use crate::numbers::{between, number_in, word};
use crate::registers::register_in;
use crate::words::Words;
use image_reading::unpacks;
use model::{RangeEntry, RegisterEntry, TermEntry};

/// A number of instructions from one wait to the next.
#[tactic(auto, unfolding(crate::specs::Lines::budget_of))]
fn budget_in(number: i64) -> Result<u64, LineFault>
    ensures { result ≡ budget_of number }
{
    if 1 <= number && number <= 1 << 62 {
        Ok(number as u64)
    } else {
        Err(LineFault::Range)
    }
}

/// The words of a line `thread`.
#[derive(Drop)]
struct ThreadWords<'a> {
    tcb: Name<'a>,
    cnode: Name<'a>,
    guard: i64,
    root: Name<'a>,
    priority: i64,
    budget: i64,
    fault: i64,
    entry: Name<'a>,
    base: i64,
}

/// `thread TCB CNODE GUARD ROOT PRIORITY BUDGET FAULT LABEL BASE`, whatever its numbers.
#[tactic(auto, unfolding(crate::specs::Lines::thread_words_of))]
fn thread_words(words: Words<'_>) -> Result<ThreadWords<'_>, LineFault>
    ensures { result ≡ thread_words_of words.entry }
{
    let (tcb, words) = words.object()?;
    let (cnode, guard, root, words) = words.place()?;
    let (priority, words) = words.number()?;
    let (budget, words) = words.number()?;
    let (fault, words) = words.number()?;
    let (entry, words) = words.name()?;
    let base = words.last_number()?;
    Ok(ThreadWords {
        tcb,
        cnode,
        guard,
        root,
        priority,
        budget,
        fault,
        entry,
        base,
    })
}

/// What the words of a line `thread` say, if its numbers are in their ranges.
#[tactic(auto, unfolding(crate::specs::Lines::thread_said))]
fn thread_in_ranges(words: ThreadWords<'_>) -> Result<Line<'_>, LineFault>
    ensures { result ≡ thread_said words.entry }
{
    let guard = word(words.guard)?;
    let priority = between(words.priority, 0, 255)?;
    let budget = budget_in(words.budget)?;
    let fault = word(words.fault)?;
    let base = word(words.base)?;
    Ok(Line::Thread(ThreadLine {
        tcb: words.tcb,
        cnode: words.cnode,
        guard,
        root: words.root,
        priority,
        budget,
        fault,
        entry: words.entry,
        base,
    }))
}

/// `thread TCB CNODE GUARD ROOT PRIORITY BUDGET FAULT LABEL BASE`
#[tactic(auto, unfolding(crate::specs::Lines::thread_of))]
pub(crate) fn thread(words: Words<'_>) -> Result<Line<'_>, LineFault>
    ensures { result ≡ thread_of words.entry }
{
    thread_in_ranges(thread_words(words)?)
}

/// `buffer FRAME`
#[tactic(auto, unfolding(crate::specs::Lines::buffer_of))]
pub(crate) fn buffer(words: Words<'_>) -> Result<Line<'_>, LineFault>
    ensures { result ≡ buffer_of words.entry }
{
    let (frame, words) = words.object()?;
    words.end()?;
    Ok(Line::Buffer(frame))
}

/// A register that is not x0.
fn named(register: u8) -> Result<u32, LineFault>
    ensures { result ≡ named_register register }
{
    if register > 0 {
        Ok(register as u32)
    } else {
        Err(LineFault::Range)
    }
}

/// `reg xN VALUE`
#[tactic(auto, unfolding(crate::specs::Lines::register_line_of))]
pub(crate) fn register(words: Words<'_>) -> Result<Line<'_>, LineFault>
    ensures { result ≡ register_line_of words.entry }
{
    let (register, words) = words.register()?;
    let value = words.last_number()?;
    Ok(Line::Register(RegisterEntry {
        register: named(register)?,
        value: between(value, 1, u32::MAX)?,
    }))
}

/// `range xN LOW HIGH`
#[tactic(auto, unfolding(crate::specs::Lines::range_of))]
pub(crate) fn range(words: Words<'_>) -> Result<Line<'_>, LineFault>
    ensures { result ≡ range_of words.entry }
{
    let (register, words) = words.register()?;
    let (low, high) = words.last_numbers()?;
    let register = named(register)?;
    let low = word(low)?;
    let high = word(high)?;
    if high < low || (low == 0 && high == u32::MAX) {
        return Err(LineFault::Range);
    }
    Ok(Line::Range(RangeEntry {
        register,
        low,
        high,
    }))
}

/// The first word, which is to be `boot` or the name of a CNode, and those after it.
fn parent_and_rest(words: Words<'_>) -> Result<(Parent<'_>, Words<'_>), LineFault>
    ensures { result ≡ parent_first words.entry }
{
    match words.first() {
        Some((word, words)) => {
            if is(word, "boot") {
                return Ok((Parent::Boot, words));
            }
            let cnode = name_in(word)?;
            Ok((Parent::Slot { cnode, index: 0 }, words))
        }
        None => Err(LineFault::Syntax),
    }
}

/// The parent with its index, which is 0 for one in the boot CNode. An empty slot has no other.
fn whole_parent(is_empty: bool, parent: Parent<'_>, index: i64) -> Result<Parent<'_>, LineFault>
    ensures { result ≡ parent_with is_empty parent.entry index }
{
    match parent {
        Parent::Boot => {
            between(index, 0, 0)?;
            Ok(Parent::Boot)
        }
        Parent::Slot { cnode, .. } => {
            if is_empty {
                return Err(LineFault::Range);
            }
            let index = between(index, 0, (1 << 14) - 1)?;
            Ok(Parent::Slot { cnode, index })
        }
    }
}

/// Whether two words are those of an empty slot.
fn is_empty(word0: u32, word1: u32) -> bool
    ensures { result ≡ (word0 == 0) && (word1 == 0) }
{
    word0 == 0 && word1 == 0
}

/// The words of a line `slot`.
#[derive(Drop)]
struct SlotWords<'a> {
    cnode: Name<'a>,
    index: i64,
    word0: i64,
    word1: i64,
    parent: Parent<'a>,
    parent_index: i64,
}

/// `slot CNODE INDEX WORD0 WORD1 PARENT INDEX`, whatever its numbers.
#[tactic(auto, unfolding(crate::specs::Lines::slot_words_of))]
fn slot_words(words: Words<'_>) -> Result<SlotWords<'_>, LineFault>
    ensures { result ≡ slot_words_of words.entry }
{
    let (cnode, words) = words.object()?;
    let (index, words) = words.number()?;
    let (word0, words) = words.number()?;
    let (word1, words) = words.number()?;
    let (parent, words) = parent_and_rest(words)?;
    let parent_index = words.last_number()?;
    Ok(SlotWords {
        cnode,
        index,
        word0,
        word1,
        parent,
        parent_index,
    })
}

/// What the words of a line `slot` say, if its numbers are in their ranges.
#[tactic(auto, unfolding(crate::specs::Lines::slot_said))]
fn slot_in_ranges(words: SlotWords<'_>) -> Result<Line<'_>, LineFault>
    ensures { result ≡ slot_said words.entry }
{
    let index = between(words.index, 0, (1 << 14) - 1)?;
    let word0 = word(words.word0)?;
    let word1 = word(words.word1)?;
    let parent = whole_parent(is_empty(word0, word1), words.parent, words.parent_index)?;
    Ok(Line::Slot {
        cnode: words.cnode,
        index,
        word0,
        word1,
        parent,
    })
}

/// What a line `slot` says, by whatever words of a capability.
#[tactic(auto, unfolding(crate::specs::Lines::slot_of))]
fn slot_fields(words: Words<'_>) -> Result<Line<'_>, LineFault>
    ensures { result ≡ slot_of words.entry }
{
    slot_in_ranges(slot_words(words)?)
}

/// A line, of which the words of a slot are to be those of a capability.
#[tactic(auto, unfolding(crate::specs::Meaning::known))]
fn known(line: Line<'_>) -> Result<Line<'_>, LineFault>
    ensures { result ≡ known line.entry }
{
    match line {
        Line::Slot {
            cnode,
            index,
            word0,
            word1,
            parent,
        } => {
            if !unpacks(word0, word1) {
                return Err(LineFault::Range);
            }
            Ok(Line::Slot {
                cnode,
                index,
                word0,
                word1,
                parent,
            })
        }
        line => Ok(line),
    }
}

/// `slot CNODE INDEX WORD0 WORD1 PARENT INDEX`
#[tactic(auto, unfolding(crate::specs::Meaning::known_slot_of))]
pub(crate) fn slot(words: Words<'_>) -> Result<Line<'_>, LineFault>
    ensures { result ≡ known_slot_of words.entry }
{
    known(slot_fields(words)?)
}

/// A constant of a measure.
#[tactic(auto, unfolding(crate::specs::Lines::constant_of))]
pub(crate) fn constant_in(number: i64) -> Result<i64, LineFault>
    ensures { result ≡ constant_of number }
{
    if -(1 << 62) <= number && number <= 1 << 62 {
        Ok(number)
    } else {
        Err(LineFault::Range)
    }
}

/// A coefficient of a measure.
#[tactic(auto, unfolding(crate::specs::Lines::coefficient_of))]
fn coefficient_in(number: i64) -> Result<i32, LineFault>
    ensures { result ≡ coefficient_of number }
{
    if i32::MIN as i64 <= number && number <= i32::MAX as i64 && number != 0 {
        Ok(number as i32)
    } else {
        Err(LineFault::Range)
    }
}

/// The term that two words are.
#[tactic(auto, unfolding(crate::specs::Lines::term_of))]
fn term_in(name: &[u8], factor: &[u8]) -> Result<TermEntry, LineFault>
    ensures { result ≡ term_of name.now factor.now }
{
    let register = register_in(name)?;
    let coefficient = number_in(factor)?;
    Ok(TermEntry {
        register: named(register)?,
        coefficient: coefficient_in(coefficient)?,
    })
}

/// The first term of a measure and the words after it.
pub(crate) fn term_and_rest(words: Words<'_>) -> Result<(TermEntry, Words<'_>), LineFault>
    ensures { result ≡ term_first words.entry }
{
    let Some((name, words)) = words.first() else {
        return Err(LineFault::Syntax);
    };
    let Some((factor, words)) = words.first() else {
        return Err(LineFault::Syntax);
    };
    Ok((term_in(name, factor)?, words))
}

/// The words are to be registers, each with a number after it.
fn check_pairs(words: Words<'_>) -> Result<(), LineFault>
    ensures { result ≡ all_pairs words.entry }
{
    let mut rest = words;
    'pairs: while let Some((name, words)) = rest.first() {
        let Some((factor, words)) = words.first() else {
            return Err(LineFault::Syntax);
        };
        register_in(name)?;
        number_in(factor)?;
        rest = words;
    }
    Ok(())
}

/// The words are to be terms of a measure.
fn check_terms(words: Words<'_>) -> Result<(), LineFault>
    ensures { result ≡ all_terms words.entry }
{
    let mut rest = words;
    'terms: while let Some((name, words)) = rest.first() {
        let Some((factor, words)) = words.first() else {
            return Err(LineFault::Syntax);
        };
        term_in(name, factor)?;
        rest = words;
    }
    Ok(())
}

/// `measure CONSTANT [xN COEFFICIENT] ..`
#[tactic(auto, unfolding(crate::specs::Lines::measure_of))]
pub(crate) fn measure(words: Words<'_>) -> Result<Line<'_>, LineFault>
    ensures { result ≡ measure_of words.entry }
{
    let (constant, terms) = words.number()?;
    check_pairs(terms.copied())?;
    let constant = constant_in(constant)?;
    check_terms(terms.copied())?;
    Ok(Line::Measure { constant, terms })
}
