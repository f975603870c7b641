//! A thread's CNodes, found by their numbers and by the slots that stand in them.

ghost use Rattle.std.specs.Prelude.{◌≡◌, ◌/◌, ◌^◌, ◌≤◌, IfOk, IfSome};
ghost use Rattle.std.specs.List.{find, list_any};
ghost use Rattle.typestate.specs.GivenSpaces.{AreApart, IsThere, stands_within};
ghost use Rattle.typestate.specs.Spaces.{key_in, key_within};
ghost use Rattle.typestate.specs.Strays.{has_key, is_at};

use crate::{SlotKey, Window};
use std::alloc::{AllocError, Global};
use std::marker::Model;

/// The place of a CNode among the thread's, beside a number that it is found by.
#[derive(Clone, Copy)]
struct Place {
    number: u32,
    place: usize,
}

/// A thread's CNodes in the order in which they were found. No slot is in two of them. A clause sees their list.
///
/// The places in rising order of their numbers only propose a CNode: it is looked at, and where it is not the one, all of them
/// are. No program that is accepted asks for a CNode that is not there.
#[derive(Drop)]
pub struct Windows {
    list: Vec<Window>,
    /// By the numbers of the CNodes.
    by_cnode: Vec<Place>,
    /// By the first slots of the CNodes.
    by_slot: Vec<Place>,
}

impl Model for Windows {
    ghost use Rattle.std.specs.Prelude.{List};
    ghost use Rattle.typestate.specs.GivenSpaces.{AreApart};
    ghost use Rattle.typestate.specs.declared.window.Window.{Window};

    ghost Value = { List Window };

    ghost view = { λ windows. windows.list.items };

    ghost invariant = { λ windows. AreApart windows.list.items };
}

impl Window {
    /// How many slots the CNode has.
    pub(crate) fn slot_count(&self) -> u32
        ensures value { result ≡ 2 ^ self.now.radix }
        ensures few { result ≤ 2 ^ 14 }
    {
        1 << self.radix
    }

    /// The first slot of the CNode.
    fn first(&self) -> u32
        ensures { result ≡ self.now.offset / 16 }
    {
        self.offset / 16
    }

    /// Whether a slot is in the CNode.
    fn has(&self, slot: u32) -> bool
        ensures { result ≡ stands_within slot self.now }
    {
        let first = self.first();
        first <= slot && slot < first + self.slot_count()
    }

    /// The key of a slot that is in the CNode.
    fn key(&self, slot: u32) -> SlotKey
        ensures { result ≡ key_within slot self.now }
    {
        SlotKey {
            cnode: self.cnode,
            index: slot.saturating_sub(self.first()),
        }
    }

    /// Whether a slot of this key is in the CNode.
    fn has_key(&self, key: SlotKey) -> bool
        ensures { result ≡ has_key key self.now }
    {
        key.cnode == self.cnode && key.index < self.slot_count()
    }

    /// Whether this is the CNode of an offset and a radix.
    fn is_at(&self, offset: u32, radix: u8) -> bool
        ensures { result ≡ is_at offset radix self.now }
    {
        self.offset == offset && self.radix == radix
    }
}

/// Whether a slot of this key is in one of these CNodes.
fn have_key(windows: &[Window], key: SlotKey) -> bool
    ensures { result ≡ list_any (has_key key) windows.now }
{
    windows.iter().any(|window| window.has_key(key))
}

/// The CNode of an offset and a radix.
fn window_at(windows: &[Window], offset: u32, radix: u8) -> Option<Window>
    ensures { result ≡ find (is_at offset radix) windows.now }
{
    for window in windows {
        if window.is_at(offset, radix) {
            return Some(*window);
        }
    }
    None
}

/// The CNode and the index of a slot, if it is in one of these.
fn key_in(windows: &[Window], slot: u32) -> Option<SlotKey>
    ensures { result ≡ key_in windows.now slot }
{
    for window in windows {
        if window.has(slot) {
            return Some(window.key(slot));
        }
    }
    None
}

impl Windows {
    /// These CNodes, with their places in order.
    ///
    /// # Errors
    ///
    /// Memory may be refused.
    pub fn new(alloc: Global, list: Vec<Window>) -> Result<Self, AllocError>
        requires { AreApart list.items }
        ensures { IfOk result (λ windows. windows ≡ list.items) }
    {
        let mut by_cnode = Vec::new(alloc);
        let mut by_slot = Vec::new(alloc);
        for place in 0..list.len() {
            let window = list[place];
            by_cnode.push(Place {
                number: window.cnode,
                place,
            })?;
            by_slot.push(Place {
                number: window.first(),
                place,
            })?;
        }
        by_cnode.sort_unstable_by_key(|place| place.number);
        by_slot.sort_unstable_by_key(|place| place.number);
        Ok(Windows {
            list,
            by_cnode,
            by_slot,
        })
    }

    /// The CNode at a place of the list, if there is one.
    fn at_place(&self, place: usize) -> Option<Window>
        ensures { IfSome result (IsThere self.now) }
    {
        self.list.get(place).copied()
    }

    /// A CNode that may be the one of this number.
    fn numbered(&self, cnode: u32) -> Option<Window>
        ensures { IfSome result (IsThere self.now) }
    {
        let found = self
            .by_cnode
            .binary_search_by_key(&cnode, |place| place.number)
            .ok()?;
        self.at_place(self.by_cnode[found].place)
    }

    /// A CNode that may be the one of this slot: the last one that does not begin after it.
    fn near(&self, slot: u32) -> Option<Window>
        ensures { IfSome result (IsThere self.now) }
    {
        let behind = self.by_slot.partition_point(|place| place.number <= slot);
        let last = self.by_slot.get(behind.checked_sub(1)?)?;
        self.at_place(last.place)
    }

    /// Whether a slot of this key is in one of the CNodes.
    pub(crate) fn have_key(&self, key: SlotKey) -> bool
        ensures { result ≡ list_any (has_key key) self.now }
    {
        let all = &self.list;
        if let Some(window) = self.numbered(key.cnode) {
            if window.has_key(key) {
                return true;
            }
        }
        have_key(all, key)
    }

    /// The CNode of an offset and a radix.
    pub(crate) fn at(&self, offset: u32, radix: u8) -> Option<Window>
        ensures { result ≡ find (is_at offset radix) self.now }
    {
        let all = &self.list;
        if let Some(window) = self.near(offset / 16) {
            if window.is_at(offset, radix) {
                return Some(window);
            }
        }
        window_at(all, offset, radix)
    }

    /// The CNode and the index of a slot, if it is in one of the CNodes.
    pub fn key(&self, slot: u32) -> Option<SlotKey>
        ensures { result ≡ key_in self.now slot }
    {
        let all = &self.list;
        if let Some(window) = self.near(slot) {
            if window.has(slot) {
                return Some(window.key(slot));
            }
        }
        key_in(all, slot)
    }
}
