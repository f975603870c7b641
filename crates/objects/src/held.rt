//! What is where in memory: existence and kind are in no byte, since a new object is all zero.

ghost use Rattle.std.specs.Prelude.{ℕ, ◌≡◌, ◌^◌, ◌/◌, ◌≤◌, IfOk, length, replicate};
ghost use Rattle.model.specs.Kernel.State.{put};
ghost use Rattle.objects.specs.Tables.{HasEntry, entry_in, entry_of, kinds_by};
ghost use Rattle.objects.specs.Contents.{is_thread_kind, places_by};
ghost use Rattle.objects.specs.declared.records.Entry.{Entry};
ghost use Rattle.objects.specs.declared.records.Entry.TheVariants.{Nothing};

use crate::records::Entry;
use model::ObjectKind;
use queues::Layout;
use std::alloc::{AllocError, Global};
use std::marker::Model;

/// Objects start at multiples of so many bytes.
const LEAST_SIZE: u32 = 16;

/// How many bytes of memory a thread has.
pub(crate) const THREAD_SIZE: u32 = 512;

/// What starts at each 16 bytes of memory. Clauses see the list of its entries.
#[derive(Drop)]
pub(crate) struct Held {
    entries: Vec<Entry>,
}

impl Model for Held {
    ghost use Rattle.std.specs.Prelude.{List};
    ghost use Rattle.objects.specs.declared.records.Entry.{Entry};

    ghost Value = { List Entry };

    ghost view = { λ held. held.entries.items };
}

impl Held {
    /// Nothing is in so many bytes of memory.
    pub(crate) fn new(alloc: Global, size: u32) -> Result<Self, AllocError>
        ensures { IfOk result (λ held. held ≡ replicate (size / 16) Nothing) }
    {
        let mut entries = Vec::new(alloc);
        entries.resize((size / LEAST_SIZE) as usize, Entry::Nothing)?;
        Ok(Held { entries })
    }

    /// What starts at an offset in memory.
    pub(crate) fn get(&self, offset: u32) -> Entry
        ensures { result ≡ entry_in self.now offset }
    {
        entry_at(&self.entries, offset)
    }

    /// Something starts at an offset that the table has an entry for.
    pub(crate) fn put(&mut self, offset: u32, entry: Entry)
        requires { HasEntry self.old offset }
        ensures entries { (other : ℕ) → entry_in self.new other ≡ put (entry_in self.old) offset entry other }
        ensures long { length self.new ≡ length self.old }
    {
        put_entry(&mut self.entries, offset, entry);
    }

    /// Nothing starts at an offset any more.
    pub(crate) fn clear(&mut self, offset: u32)
        ensures entries { (other : ℕ) → entry_in self.new other ≡ put (entry_in self.old) offset Nothing other }
        ensures long { length self.new ≡ length self.old }
    {
        clear_entry(&mut self.entries, offset);
    }
}

impl Held {
    /// Whether a thread starts at an offset.
    pub(crate) fn has_thread(&self, offset: u32) -> bool
        ensures { result ≡ is_thread_kind (kinds_by self.now offset) }
    {
        matches!(self.get(offset), Entry::Thread)
    }

    /// How many places there are where a thread may start.
    pub(crate) fn count_threads(&self) -> u32
        requires { length self.now ≤ 2 ^ 20 }
        ensures { result ≡ length self.now / 32 }
    {
        (self.entries.len() / 32) as u32
    }
}

impl Layout for Held {
    ghost places = { λ held. places_by (kinds_by held) };

    fn is_thread(&self, offset: u32) -> bool {
        self.has_thread(offset)
    }

    /// An object keeps the first and the last thread that wait at it in its first two words.
    fn head(&self, offset: u32) -> Option<u32> {
        match self.get(offset) {
            Entry::Endpoint | Entry::Notification => Some(offset),
            Entry::Nothing
            | Entry::Thread
            | Entry::CNode { .. }
            | Entry::Frame
            | Entry::PageTable
            | Entry::RootTable => None,
        }
    }
}

/// What starts at an offset in memory.
fn entry_at(entries: &[Entry], offset: u32) -> Entry
    ensures { result ≡ entry_in entries.now offset }
{
    let index = (offset / LEAST_SIZE) as usize;
    if offset % LEAST_SIZE == 0 && index < entries.len() {
        entries[index]
    } else {
        Entry::Nothing
    }
}

/// Something starts at an offset that the table has an entry for.
fn put_entry(entries: &mut [Entry], offset: u32, entry: Entry)
    requires { HasEntry entries.old offset }
    ensures entries { (other : ℕ) → entry_in entries.new other ≡ put (entry_in entries.old) offset entry other }
    ensures long { length entries.new ≡ length entries.old }
{
    entries[(offset / LEAST_SIZE) as usize] = entry;
}

/// Nothing starts at an offset any more.
fn clear_entry(entries: &mut [Entry], offset: u32)
    ensures entries { (other : ℕ) → entry_in entries.new other ≡ put (entry_in entries.old) offset Nothing other }
    ensures long { length entries.new ≡ length entries.old }
{
    let index = (offset / LEAST_SIZE) as usize;
    if offset % LEAST_SIZE == 0 && index < entries.len() {
        entries[index] = Entry::Nothing;
    }
}

/// The entry of a new object.
pub(crate) fn entry_of(kind: ObjectKind) -> Entry
    ensures { result ≡ entry_of kind }
{
    match kind {
        ObjectKind::Thread => Entry::Thread,
        ObjectKind::Endpoint => Entry::Endpoint,
        ObjectKind::Notification => Entry::Notification,
        ObjectKind::CNode { radix } => Entry::CNode { radix },
        ObjectKind::Frame => Entry::Frame,
        ObjectKind::PageTable => Entry::PageTable,
        ObjectKind::RootTable => Entry::RootTable,
    }
}
