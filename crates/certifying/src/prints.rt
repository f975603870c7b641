//! The slots that differ from the image's, along the points of a program, and a print by which two such sets are told apart: a word,
//! which may be the same for two sets that differ, though hardly by chance. The verifier judges what is made of that.

use crate::Fault;
use crate::bare_threads::BareThread;
use crate::looked::Looked;
use crate::stretches::{Stretch, StretchLog};
use capwords::pack;
use model::Cap;
use std::collections::btree_map::BTreeMap;
use typestate::{LogEntry, NotedSlot, SlotKey};

/// The slots that a stretch leaves otherwise than the image lists them. A change costs a few look-ups, and what follows goes on from
/// what was made.
#[derive(Drop)]
pub(crate) struct Differing<'a, 's> {
    thread: BareThread<'a, 's>,
    looked: Looked<'a, 's>,
    stretch: Stretch,
    /// The slots that differ, by their numbers.
    slots: BTreeMap<u64, SlotKey>,
    /// The sum of the prints of the slots that were derived from each slot, by its number.
    families: BTreeMap<u64, u64>,
    /// The sum of the prints of the capabilities that differ, and of all families.
    print: u64,
}

/// What is in a slot, with its print.
#[derive(Clone, Copy)]
struct Content {
    capability: Cap,
    /// What it was derived from, if it is full and not in the boot CNode.
    parent: Option<SlotKey>,
    print: u64,
}

/// A word that tells nothing of the one that it is made of, and is another one for each: the mixing of the generator SplitMix64.
fn mixed(word: u64) -> u64 {
    let next = word.wrapping_add(0x9E37_79B9_7F4A_7C15);
    let first = (next ^ (next >> 30)).wrapping_mul(0xBF58_476D_1CE4_E5B9);
    let second = (first ^ (first >> 27)).wrapping_mul(0x94D0_49BB_1331_11EB);
    second ^ (second >> 31)
}

/// The print of two words, of which the second is 0 where there is nothing.
fn print_of(first: u64, second: u64) -> u64 {
    if second == 0 {
        0
    } else {
        mixed(mixed(first).wrapping_add(second))
    }
}

/// The print of the capability in a slot.
fn capability_print(slot: NotedSlot) -> u64 {
    let [head, word] = pack(slot.capability);
    mixed(mixed(u64::from(head)).wrapping_add(u64::from(word)))
}

/// The capability that an image lists in a slot. The keys of what it lists rise.
fn listed_in(listed: &[NotedSlot], key: SlotKey) -> Cap {
    match listed.binary_search_by_key(&key.number(), |slot| slot.key.number()) {
        Ok(place) => match listed.get(place) {
            Some(slot) => slot.capability,
            None => Cap::Empty,
        },
        Err(_) => Cap::Empty,
    }
}

/// What is noted of a slot, be it full or empty.
fn noted_in(key: SlotKey, slot: Option<NotedSlot>) -> NotedSlot {
    match slot {
        Some(slot) => slot,
        None => NotedSlot {
            key,
            capability: Cap::Empty,
            parent: None,
        },
    }
}

impl Content {
    /// What is in a slot, if it is full.
    fn of(key: SlotKey, slot: Option<NotedSlot>) -> Self {
        let noted = noted_in(key, slot);
        Content {
            capability: noted.capability,
            parent: noted.parent,
            print: print_of(key.number(), capability_print(noted) | 1),
        }
    }
}

impl<'a, 's> Differing<'a, 's> {
    /// No slot differs.
    pub(crate) fn none(thread: BareThread<'a, 's>) -> Result<Self, Fault> {
        Ok(Differing {
            thread,
            looked: Looked::before(thread, Stretch::NONE)?,
            stretch: Stretch::NONE,
            slots: BTreeMap::new(thread.alloc),
            families: BTreeMap::new(thread.alloc),
            print: 0,
        })
    }

    /// Goes on to what a stretch of a log leaves, and answers its print.
    pub(crate) fn go_on(&mut self, log: &StretchLog, stretch: Stretch) -> Result<u64, Fault> {
        'steps: for _ in 0..u64::MAX {
            if !self.takes_step(log, stretch)? {
                break;
            }
        }
        Ok(self.print)
    }

    /// Goes one change on to what a stretch of a log leaves, and answers whether something was left to be done.
    fn takes_step(&mut self, log: &StretchLog, to: Stretch) -> Result<bool, Fault> {
        if !self.stretch.begins(to) {
            self.begin(to)?;
            return Ok(true);
        }
        let Some(entry) = log.between(self.stretch, to).first() else {
            return Ok(false);
        };
        let next = to.up_to(self.stretch.end().saturating_add(1));
        self.make(log, next, entry)?;
        self.stretch = next;
        Ok(true)
    }

    /// No slot differs again, where a stretch begins.
    fn begin(&mut self, stretch: Stretch) -> Result<(), Fault> {
        self.looked = Looked::before(self.thread, stretch)?;
        self.stretch = stretch.none_of();
        self.slots = BTreeMap::new(self.thread.alloc);
        self.families = BTreeMap::new(self.thread.alloc);
        self.print = 0;
        Ok(())
    }

    /// Makes the entry that is the last of a stretch.
    fn make(&mut self, log: &StretchLog, next: Stretch, entry: &LogEntry) -> Result<(), Fault> {
        match entry {
            LogEntry::Sets(change) => {
                let key = change.unpacked().key;
                self.set(log, next, key)
            }
            LogEntry::Swaps { one, other } => {
                self.looked.go_on(log, next)?;
                self.exchange(*one, *other)
            }
        }
    }

    /// Makes the change to a slot that is the last of a stretch.
    fn set(&mut self, log: &StretchLog, next: Stretch, key: SlotKey) -> Result<(), Fault> {
        let before = self.looked.at(log, self.stretch, key)?;
        let after = self.looked.at(log, next, key)?;
        let held = Content::of(key, before);
        let holds = Content::of(key, after);
        self.replace(key, &held, &holds)
    }

    /// A slot holds something else than before: the prints of what differs from what the image lists there.
    fn replace_print(&mut self, listed: Cap, held: &Content, holds: &Content) {
        if held.capability != listed {
            self.print = self.print.wrapping_sub(held.print);
        }
        if holds.capability != listed {
            self.print = self.print.wrapping_add(holds.print);
        }
    }

    /// A slot holds something else than before.
    fn replace(&mut self, key: SlotKey, held: &Content, holds: &Content) -> Result<(), Fault> {
        let listed = listed_in(self.thread.given.slots, key);
        self.replace_print(listed, held, holds);
        let child = mixed(key.number());
        self.derive(held.parent, child.wrapping_neg())?;
        self.derive(holds.parent, child)?;
        if holds.capability != listed || holds.parent.is_some() {
            self.slots.insert(key.number(), key)?;
        } else {
            self.slots.remove(&key.number());
        }
        Ok(())
    }

    /// The sum of the prints of the slots that were derived from one.
    fn family(&self, parent: SlotKey) -> u64 {
        match self.families.get(&parent.number()) {
            Some(sum) => *sum,
            None => 0,
        }
    }

    /// Sets that sum.
    fn set_family(&mut self, parent: SlotKey, sum: u64) -> Result<(), Fault> {
        let number = parent.number();
        let before = print_of(number, self.family(parent));
        self.print = self.print.wrapping_sub(before);
        self.print = self.print.wrapping_add(print_of(number, sum));
        if sum == 0 {
            self.families.remove(&number);
        } else {
            self.families.insert(number, sum)?;
        }
        Ok(())
    }

    /// Adds to the sum of the slots that were derived from one, if that is known.
    fn derive(&mut self, parent: Option<SlotKey>, by: u64) -> Result<(), Fault> {
        match parent {
            Some(parent) => self.set_family(parent, self.family(parent).wrapping_add(by)),
            None => Ok(()),
        }
    }

    /// What was derived from the one slot is derived from the other one, and the other way round.
    fn exchange(&mut self, one: SlotKey, other: SlotKey) -> Result<(), Fault> {
        let (first, second) = (self.family(one), self.family(other));
        self.set_family(one, second)?;
        self.set_family(other, first)
    }

    /// How many slots differ.
    pub(crate) fn count(&self) -> usize {
        self.slots.len()
    }

    /// The slots that differ, in the order of their keys.
    pub(crate) fn listed(&mut self, log: &StretchLog) -> Result<Vec<NotedSlot>, Fault> {
        let mut all = Vec::new(self.thread.alloc);
        for (_, key) in self.slots.iter() {
            let slot = self.looked.at(log, self.stretch, *key)?;
            all.push(noted_in(*key, slot))?;
        }
        Ok(all)
    }
}
