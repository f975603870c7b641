//! System calls, what their labels ask for and the checks that they fail, in words. seL4 Reference Manual, "System Calls" and
//! "API Reference"; the labels are this kernel's.

use invoke::{Method, listed_words};
use model::{Cap, KError};
use std::alloc::AllocError;

/// The name of a system call by its number.
pub(crate) fn call_name(number: u32) -> Option<&'static str> {
    Some(match number {
        1 => "Call",
        2 => "ReplyRecv",
        3 => "Send",
        4 => "NBSend",
        5 => "Recv",
        6 => "Reply",
        7 => "Yield",
        8 => "NBRecv",
        9 => "PutChar",
        _ => return None,
    })
}

/// The name of what a label asks for. Page tables have calls of the same names as frames.
pub(crate) fn push_method(to: &mut String, method: Method) -> Result<(), AllocError> {
    to.push_str(method.name())?;
    match method {
        Method::MapTable | Method::UnmapTable => to.push_str(" (of a page table)"),
        _ => Ok(()),
    }
}

/// What is checked of Retype.
fn retype_check(error: KError) -> &'static str {
    match error {
        KError::InvalidArgument =>
            "the type (word 0) is none of 1 to 8, or the size (word 1) too small",
        KError::IllegalOperation =>
            "accepted programs make endpoints (type 3), notifications (4) and frames (6) alone",
        KError::RangeError =>
            "the size (word 1) is too large, the count (word 5) is not 1 to 256, or the slots from the first index (word 4) on pass the CNode's end",
        KError::FailedLookup => "words 2 and 3 name no CNode (0 0 names the thread's own)",
        KError::DeleteFirst => "a slot from the first index (word 4) on is full",
        _ => "the untyped memory has no room for as many: Revoke gives it back whole",
    }
}

/// What is checked of calls on CNodes.
fn cnode_check(method: Method, error: KError) -> &'static str {
    match (method, error) {
        (Method::Copy | Method::Mint, KError::IllegalOperation) =>
            "the source cannot be copied, is badged already, or the guard word does not suit; accepted programs copy endpoints, notifications and frames alone",
        (Method::Move, KError::IllegalOperation) =>
            "accepted programs move endpoints, notifications and frames alone",
        (Method::Mutate, KError::IllegalOperation) => "no accepted program may make this call",
        (Method::Mint, KError::RangeError) =>
            "the badge (word 5) is 2^28 or more, or a bit count is not 1 to 32",
        (_, KError::RangeError) => "a bit count (the second word of a slot's name) is not 1 to 32",
        (Method::Delete | Method::Revoke, KError::FailedLookup) => "words 0 and 1 name no slot",
        (_, KError::FailedLookup) =>
            "words 0 and 1 or words 2 and 3 name no slot, or the source is empty",
        (_, KError::DeleteFirst) => "the slot that words 0 and 1 name is full",
        _ => "it holds the last capability to a CNode or a thread that is not empty",
    }
}

/// What is checked of calls on frames.
fn frame_check(method: Method, error: KError) -> &'static str {
    match (method, error) {
        (Method::MapFrame, KError::InvalidArgument) =>
            "the address (word 2) is 0x80000000 or more, or neither read nor execute is left of the rights (word 3) that the capability has",
        (Method::MapFrame, KError::InvalidCapability) =>
            "the frame is mapped already (Unmap it first), or words 0 and 1 name no root table",
        (Method::MapFrame, KError::IllegalOperation) =>
            "accepted programs map without execute: take 4 off the rights (word 3)",
        (Method::MapFrame, KError::RangeError) => "the bit count (word 1) is not 1 to 32",
        (Method::MapFrame, KError::AlignmentError) => "the address (word 2) is no multiple of 4096",
        (Method::MapFrame, KError::FailedLookup) =>
            "words 0 and 1 name no slot, or no page table covers the address (word 2)",
        (Method::MapFrame, KError::DeleteFirst) =>
            "the page at the address (word 2) is mapped already",
        _ => "the frame's mapping does not let it",
    }
}

/// What is checked of a call that the capability has.
fn method_check(method: Method, error: KError) -> &'static str {
    match (method, error) {
        (_, KError::TruncatedMessage) =>
            "the info word says fewer words than the call wants, or capabilities",
        (Method::Retype, _) => retype_check(error),
        (
            Method::Copy
            | Method::Mint
            | Method::Move
            | Method::Mutate
            | Method::Delete
            | Method::Revoke,
            _,
        ) => cnode_check(method, error),
        (Method::MapFrame | Method::UnmapFrame, _) => frame_check(method, error),
        _ => "no accepted program may make this call",
    }
}

/// Which check fails with an error.
pub(crate) fn check_words(capability: Cap, label: u32, error: KError) -> &'static str {
    match Method::of_label(label) {
        Some(method) if listed_words(capability, label).is_some() => method_check(method, error),
        _ =>
            "the capability has no call with this label (the label is the info word, x11, by 4096: `lui x11 LABEL` and `addi x11 x11 WORDS` make it)",
    }
}
