//! Parts by the names of their threads.

use source_texts::SourceText;
use std::alloc::{AllocError, Global};

/// Why words name no part of a system.
#[derive(Drop)]
pub enum NoPart {
    /// This line says what is wrong with them.
    Wrong(String),
    /// Memory was refused.
    OutOfMemory,
}

impl From<AllocError> for NoPart {
    fn from(_refused: AllocError) -> NoPart {
        NoPart::OutOfMemory
    }
}

/// The set of one thread.
pub(crate) fn only(thread: usize) -> u64 {
    match u32::try_from(thread) {
        Ok(number) if number < 64 => 1u64 << number,
        _ => 0,
    }
}

/// Whether a thread is in a set.
pub(crate) fn is_of(threads: u64, thread: usize) -> bool {
    threads & only(thread) != 0
}

/// The set of all threads of a text.
pub(crate) fn all_of(text: &SourceText<'_>) -> u64 {
    let mut all = 0;
    for number in 0..text.threads.len() {
        all |= only(number);
    }
    all
}

/// The name of a thread, by its number.
pub(crate) fn name_of<'n>(text: &SourceText<'n>, thread: usize) -> &'n str {
    match text.threads.get(thread) {
        Some(thread) => text.object_name(thread.tcb),
        None => "?",
    }
}

/// The names of the threads of a set, with `, ` between them.
pub(crate) fn names_of(
    alloc: Global,
    text: &SourceText<'_>,
    threads: u64,
) -> Result<String, AllocError> {
    let mut names = String::new(alloc);
    for number in 0..text.threads.len() {
        if is_of(threads, number) {
            if !names.is_empty() {
                names.push_str(", ")?;
            }
            names.push_str(name_of(text, number))?;
        }
    }
    Ok(names)
}

/// What is said of words that name no part, with the names that there are.
fn wrong(alloc: Global, text: &SourceText<'_>, said: &str) -> Result<NoPart, AllocError> {
    let names = names_of(alloc, text, all_of(text))?;
    Ok(NoPart::Wrong(format!(in alloc; "error: {said}: the parts are {names}\n")?))
}

/// The thread of this name.
fn thread_named(text: &SourceText<'_>, name: &str) -> Option<usize> {
    (0..text.threads.len()).find(|number| name_of(text, *number) == name)
}

/// The part whose threads have these names: bit N is thread N of the text, from 0 on.
///
/// # Errors
///
/// No name is given, one is that of no thread, or they are those of all threads; or memory is refused.
pub fn part_named(alloc: Global, text: &SourceText<'_>, names: &[&str]) -> Result<u64, NoPart> {
    let mut threads = 0;
    for name in names {
        match thread_named(text, name) {
            Some(number) => threads |= only(number),
            None => {
                let said = format!(in alloc; "there is no part `{name}`")?;
                return Err(wrong(alloc, text, said.as_str())?);
            }
        }
    }
    if threads == 0 {
        return Err(wrong(alloc, text, "no part is named")?);
    }
    if threads == all_of(text) {
        return Err(wrong(
            alloc,
            text,
            "all parts are named, and the system alone is the system",
        )?);
    }
    Ok(threads)
}
