//! What is asked of a store by a word and numbers, and what it answers by a number: 1 says that something is so or was
//! done, and 0 that it is not.

ghost use Rattle.std.specs.Prelude.{IsTrue};
ghost use Rattle.model.specs.Capabilities.Slots.{is_descendant};

use crate::store::changes::{
    close, cut, move_to, open, put, put_child, recap, splice, wipe, write, write_byte,
};
use crate::store::cnode_calls::{call, line_of_copies};
use derivation::next_descendant;
use model::{Cap, KError, Slot};
use slots::{SlotStore, is_free, is_taken};
use std::process::Abort;

/// No slot.
pub(crate) const NONE: u32 = 0xffff_ffff;

/// The slot of a number.
pub(crate) fn slot(rt: &impl Abort, number: u32) -> Slot {
    assert!(rt; number < 0x10_0000, "{number}");
    Slot::new(number)
}

/// A slot as an answer.
fn number_of(found: Option<Slot>) -> u32 {
    match found {
        Some(at) => at.number(),
        None => NONE,
    }
}

/// A slot after which another is asked for, if this number is one.
fn behind(number: u32) -> Option<Slot> {
    if number < 0x10_0000 {
        Some(Slot::new(number))
    } else {
        None
    }
}

/// A capability by which slots are distinguished where they hold another.
pub(crate) fn handler(line: u32) -> Cap {
    Cap::InterruptHandler {
        line: (line % 64) as u8,
    }
}

/// The slot that another was derived from.
pub(crate) fn parent<S: SlotStore>(store: &S, at: Slot) -> Option<Slot> {
    if store.is_open(at) {
        store.get(at).1
    } else {
        None
    }
}

/// How many slots lead up from a slot.
pub(crate) fn depth<S: SlotStore>(store: &S, at: Slot) -> u32 {
    if store.is_open(at) {
        store.depth(at)
    } else {
        NONE
    }
}

/// The full slot after another, or the first one.
pub(crate) fn next<S: SlotStore>(store: &S, last: Option<Slot>) -> Option<Slot> {
    match last {
        None => store.next_full(None),
        Some(slot) if is_taken(store, slot) => store.next_full(Some(slot)),
        Some(_) => None,
    }
}

/// Whether an open slot descends from a root.
pub(crate) fn descends<S: SlotStore>(store: &S, root: Slot, at: Slot) -> bool
    ensures { IsTrue result → IsTrue (is_descendant (S.slots store.now) root at) }
{
    store.is_open(at) && store.descends(root, at)
}

/// The descendant of a root after another, or the first one.
pub(crate) fn below<S: SlotStore>(store: &S, root: Slot, last: Option<Slot>) -> Option<Slot> {
    match last {
        None => next_descendant(store, root, None),
        Some(slot) if is_taken(store, slot) && descends(store, root, slot) => {
            next_descendant(store, root, Some(slot))
        }
        Some(_) => None,
    }
}

/// The word at a place in memory.
pub(crate) fn word<S: SlotStore>(store: &S, place: u32) -> u32 {
    let memory = store.mem();
    if memory.len() >= 4 && place <= memory.len() - 4 {
        memory.read32(place)
    } else {
        NONE
    }
}

/// Looks at a store.
fn look<S: SlotStore>(rt: &impl Abort, store: &S, verb: &str, first: u32, second: u32) -> u32 {
    match verb {
        "free" => u32::from(is_free(store, slot(rt, first))),
        "full" => u32::from(is_taken(store, slot(rt, first))),
        "is_open" => u32::from(store.is_open(slot(rt, first))),
        "parent" => number_of(parent(store, slot(rt, first))),
        "depth" => depth(store, slot(rt, first)),
        "next" => number_of(next(store, behind(first))),
        "descends" => u32::from(descends(store, slot(rt, first), slot(rt, second))),
        "below" => number_of(below(store, slot(rt, first), behind(second))),
        "word" => word(store, first),
        "size" => store.mem().len(),
        "count" => store.count(),
        _ => panic!(rt; "no such question: {verb}"),
    }
}

/// Opens or closes slots, or writes beside them.
fn settle<S: SlotStore>(
    rt: &impl Abort,
    store: &mut S,
    verb: &str,
    first: u32,
    second: u32,
) -> u32 {
    match verb {
        "open" => u32::from(open(store, first, second)),
        "close" => u32::from(close(store, first, second)),
        "write" => u32::from(write(store, first, second)),
        "write_byte" => u32::from(write_byte(store, first, second)),
        "zero" => u32::from(wipe(store, first, second)),
        _ => look(rt, store, verb, first, second),
    }
}

/// Each of so many slots after the first one gets a child of the slot before it.
fn line_of_children<S: SlotStore>(
    rt: &impl Abort,
    store: &mut S,
    first: u32,
    count: u32,
) -> Result<u32, KError> {
    for index in first..first.saturating_add(count) {
        put_child(
            store,
            slot(rt, index.saturating_add(1)),
            slot(rt, index),
            handler(0),
        )?;
    }
    Ok(1)
}

/// Changes what slots hold.
fn change<S: SlotStore>(
    rt: &impl Abort,
    store: &mut S,
    verb: &str,
    numbers: [u32; 6],
) -> Result<u32, KError> {
    let [first, second, third, ..] = numbers;
    Ok(match verb {
        "root" => u32::from(put(store, slot(rt, first), handler(second))),
        "child" => put_child(store, slot(rt, first), slot(rt, second), handler(third))?,
        "children" => line_of_children(rt, store, first, second)?,
        "splice" => u32::from(splice(store, slot(rt, first))),
        "relocate" => u32::from(move_to(store, slot(rt, first), slot(rt, second))),
        "recap" => u32::from(recap(store, slot(rt, first), handler(second))),
        "cut" => u32::from(cut(store, slot(rt, first))),
        _ => settle(rt, store, verb, first, second),
    })
}

/// What a store answers.
pub(crate) fn ask<S: SlotStore>(
    rt: &impl Abort,
    store: &mut S,
    verb: &str,
    numbers: [u32; 6],
) -> Result<u32, KError> {
    match verb {
        "copy" => call(rt, store, 7, numbers),
        "mint" => call(rt, store, 8, numbers),
        "move" => call(rt, store, 9, numbers),
        "mutate" => call(rt, store, 10, numbers),
        "copies" => line_of_copies(rt, store, numbers[0], numbers[1]),
        _ => change(rt, store, verb, numbers),
    }
}
