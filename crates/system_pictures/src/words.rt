//! What is written in a picture: names as they are, kinds of objects, and words that fit their boxes.

use model::{ObjectKind, ObjectType};
use source_texts::{PromiseLine, SourceText};
use std::alloc::{AllocError, Global};

/// Puts what a text says, so that a picture or a page has it as it is, and never as a sign of its own.
///
/// # Errors
///
/// Memory may be refused.
pub fn push_said(to: &mut String, said: &str) -> Result<(), AllocError> {
    for character in said.chars() {
        match character {
            '<' => to.push_str("&lt;")?,
            '>' => to.push_str("&gt;")?,
            '&' => to.push_str("&amp;")?,
            '"' => to.push_str("&quot;")?,
            '\'' => to.push_str("&#39;")?,
            shown if shown.is_control() => to.push_str("?")?,
            shown => to.push(shown)?,
        }
    }
    Ok(())
}

/// What a text says, at most so many characters of it: `..` stands for the rest.
pub(crate) fn shortened(alloc: Global, said: &str, most: usize) -> Result<String, AllocError> {
    let mut short = String::new(alloc);
    let count = said.chars().count();
    let kept = if count <= most {
        count
    } else {
        most.saturating_sub(2)
    };
    for character in said.chars().take(kept) {
        short.push(character)?;
    }
    if kept < count {
        short.push_str("..")?;
    }
    Ok(short)
}

/// An amount of memory of 2 to the power of so many bytes.
///
/// # Errors
///
/// Memory may be refused.
pub fn push_size(to: &mut String, bits: u32) -> Result<(), AllocError> {
    let number = 1u64 << (bits % 10);
    let unit = match bits / 10 {
        0 => "bytes",
        1 => "KiB",
        2 => "MiB",
        _ => "GiB",
    };
    write!(to, "{number} {unit}")
}

/// Puts what is promised of the badges of messages.
fn push_promise(to: &mut String, promise: &PromiseLine) -> Result<(), AllocError> {
    let (low, high) = (promise.badge_low, promise.badge_high);
    write!(to, ", promise: badge {low} to {high}")
}

/// Puts what an object is.
///
/// # Errors
///
/// Memory may be refused.
pub fn push_kind(to: &mut String, text: &SourceText<'_>, object: usize) -> Result<(), AllocError> {
    match text.kind(object) {
        Some(ObjectType::Untyped { bits }) => {
            to.push_str("memory, ")?;
            push_size(to, u32::from(bits))
        }
        Some(ObjectType::Object(ObjectKind::Endpoint)) => {
            to.push_str("door")?;
            match text.promise(object) {
                Some(promise) => push_promise(to, promise),
                None => Ok(()),
            }
        }
        Some(ObjectType::Object(ObjectKind::Frame)) if text.is_device(object) => {
            to.push_str("device page")
        }
        kind => to.push_str(kind_word(kind)),
    }
}

/// What an object of a kind is called.
fn kind_word(kind: Option<ObjectType>) -> &'static str {
    match kind {
        Some(ObjectType::Object(ObjectKind::Thread)) => "thread",
        Some(ObjectType::Object(ObjectKind::Endpoint)) => "door",
        Some(ObjectType::Object(ObjectKind::Notification)) => "bell",
        Some(ObjectType::Object(ObjectKind::CNode { .. })) => "slots",
        Some(ObjectType::Object(ObjectKind::Frame)) => "page",
        Some(ObjectType::Object(ObjectKind::PageTable)) => "page table",
        Some(ObjectType::Object(ObjectKind::RootTable)) => "root table",
        Some(ObjectType::Untyped { .. }) => "memory",
        None => "?",
    }
}
