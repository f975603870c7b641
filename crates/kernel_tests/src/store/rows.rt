//! Rows of text: what is asked of a store, ` = `, and what it answers: a number, `none`, or an error's name, where 1
//! says that something is so or was done, and 0 that it is not. All numbers are hexadecimal.

use crate::store::asking::{NONE, ask, slot};
use crate::store::changes::put;
use model::{Cap, FrameMapping, KError, Rights};
use slots::{PlainSlots, SlotMap};
use std::alloc::Global;
use std::process::Abort;
use std::test::Fail;

/// The number in front of a text, or 0 where none is left, and what is after it.
fn number<'a>(rt: &impl Abort, text: &'a str) -> (u32, &'a str) {
    if text.is_empty() {
        return (0, text);
    }
    let (word, behind) = text.split_once(' ').unwrap_or((text, ""));
    let number = u32::from_str_radix(word, 16);
    assert!(rt; number.is_ok(), "no number: {text}");
    (number.unwrap_or(0), behind)
}

/// The first word of a text, and the numbers after it.
pub(crate) fn words<'a>(rt: &impl Abort, text: &'a str) -> (&'a str, [u32; 6]) {
    let (word, behind) = text.split_once(' ').unwrap_or((text, ""));
    let (first, behind) = number(rt, behind);
    let (second, behind) = number(rt, behind);
    let (third, behind) = number(rt, behind);
    let (fourth, behind) = number(rt, behind);
    let (fifth, behind) = number(rt, behind);
    let (sixth, behind) = number(rt, behind);
    assert!(rt; behind.is_empty(), "{text}");
    (word, [first, second, third, fourth, fifth, sixth])
}

/// The capability of this kind with these fields, in the order in which they are declared.
pub(crate) fn capability(rt: &impl Abort, kind: &str, fields: [u32; 6]) -> Cap {
    let [offset, second, third, root, page, allowed] = fields;
    assert!(rt; second < 0x100 && allowed < 0x100, "{kind}");
    let small = (second % 0x100) as u8;
    let rights = Rights(small);
    match kind {
        "empty" => Cap::Empty,
        "untyped" => Cap::Untyped {
            offset,
            bits: small,
            watermark: third,
        },
        "endpoint" => Cap::Endpoint {
            offset,
            rights,
            badge: third,
        },
        "notification" => Cap::Notification {
            offset,
            rights,
            badge: third,
        },
        "cnode" => Cap::CNode {
            offset,
            radix: small,
            guard: third,
        },
        "frame" => Cap::Frame {
            offset,
            rights,
            mapping: mapping(root, page, allowed),
        },
        "table" => Cap::PageTable {
            offset,
            mapping: None,
        },
        "root" => Cap::RootTable { offset },
        "thread" => Cap::Tcb { offset },
        "control" => Cap::InterruptControl,
        "handler" => Cap::InterruptHandler {
            line: (offset % 0x100) as u8,
        },
        _ => panic!(rt; "no kind of capability: {kind}"),
    }
}

/// A frame's mapping under a root table, if there is one.
fn mapping(root: u32, page: u32, allowed: u32) -> Option<FrameMapping> {
    if root == 0 {
        return None;
    }
    Some(FrameMapping {
        root,
        page,
        rights: Rights((allowed % 0x100) as u8),
    })
}

/// An answer as rows have it.
pub(crate) fn told(alloc: Global, answer: Result<u32, KError>) -> Result<String, Fail> {
    Ok(match answer {
        Ok(NONE) => format!(in alloc; "none")?,
        Ok(number) => format!(in alloc; "{number:x}")?,
        Err(error) => format!(in alloc; "{error:?}")?,
    })
}

/// A row: `put SLOT = KIND ..` puts a capability into an empty slot, and `held SLOT = KIND ..` looks at it.
fn check(rt: &(impl AllocGlobal + Abort), store: &mut PlainSlots, row: &str) -> Result<(), Fail> {
    let (asked, wanted) = row.split_once(" = ").unwrap_or((row, "?"));
    let (verb, numbers) = words(rt, asked);
    if verb == "put" || verb == "held" {
        let (kind, fields) = words(rt, wanted);
        let wanted = capability(rt, kind, fields);
        let at = slot(rt, numbers[0]);
        if verb == "put" {
            assert!(rt; put(store, at, wanted), "{row}");
        }
        assert_eq!(rt; store.capability(at), wanted, "{row}");
    } else {
        let answer = told(rt.alloc(), ask(rt, store, verb, numbers))?;
        assert_eq!(rt; answer.as_str(), wanted, "{row}");
    }
    Ok(())
}

/// Goes through rows, one a line, on a store.
pub(crate) fn check_rows(
    rt: &(impl AllocGlobal + Abort),
    store: &mut PlainSlots,
    rows: &str,
) -> Result<(), Fail> {
    for row in rows.lines() {
        check(rt, store, row)?;
    }
    Ok(())
}

/// Goes through the rows of each table on a new store of 2^16 bytes.
pub(crate) fn check_tables(
    rt: &(impl AllocGlobal + Abort),
    front: &str,
    tables: &[&str],
) -> Result<(), Fail> {
    for rows in tables {
        let mut store = PlainSlots::new(rt.alloc(), 16)?;
        check_rows(rt, &mut store, front)?;
        check_rows(rt, &mut store, rows)?;
    }
    Ok(())
}
