//! A table with a record for each slot: nothing where the slot is not open.

ghost use Rattle.std.specs.Prelude.{ℕ, ◌≡◌, ◌+◌, ◌-◌, ◌^◌, ◌<◌, ◌≤◌, None, IfOk, length, replicate, if◌then◌else◌};
ghost use Rattle.std.specs.Option.{ForSome, option_map};
ghost use Rattle.model.specs.Capabilities.Slots.{IsFull, adopted, capability_at, depth_of, empty_entry, is_empty, is_full, is_within};
ghost use Rattle.model.specs.Capabilities.Slots.{parent_at, recapped, relocated, spliced, with_entry, with_parent};
ghost use Rattle.model.specs.Capabilities.Orders.{next_in, first_of};
ghost use Rattle.slots.specs.Table.{full_from, table_slots};

use model::{Cap, Entry, Slot};
use std::alloc::{AllocError, Global};

/// A table of so many slots, none of them open.
pub(crate) fn closed_records(alloc: Global, count: u32) -> Result<Vec<Option<Entry>>, AllocError>
    ensures { IfOk result (λ records. records.items ≡ replicate count None) }
{
    let mut records = Vec::new(alloc);
    records.resize(count as usize, None)?;
    Ok(records)
}

/// What a slot holds, if it is open.
pub(crate) fn entry_at(records: &[Option<Entry>], slot: u32) -> Option<Entry>
    ensures { result ≡ table_slots records.now slot }
{
    if (slot as usize) < records.len() {
        records[slot as usize]
    } else {
        None
    }
}

/// The capability in a slot: an empty one where the slot is not open.
pub(crate) fn capability_at(records: &[Option<Entry>], slot: u32) -> Cap
    ensures { result ≡ capability_at (table_slots records.now) slot }
{
    match entry_at(records, slot) {
        Some(entry) => entry.capability,
        None => Cap::Empty,
    }
}

/// Whether a capability is none.
fn is_empty(capability: Cap) -> bool
    ensures { result ≡ is_empty capability }
{
    matches!(capability, Cap::Empty)
}

/// Whether a slot is open and holds a capability.
pub(crate) fn is_full(records: &[Option<Entry>], slot: u32) -> bool
    ensures { result ≡ is_full (table_slots records.now) slot }
{
    !is_empty(capability_at(records, slot))
}

/// The parent of a slot.
pub(crate) fn parent_at(records: &[Option<Entry>], slot: u32) -> Option<Slot>
    ensures { result ≡ parent_at (table_slots records.now) slot }
{
    match entry_at(records, slot) {
        Some(entry) => entry.parent,
        None => None,
    }
}

/// How many slots lead up from a slot.
pub(crate) fn depth_at(records: &[Option<Entry>], slot: u32) -> u32
    ensures { result ≡ depth_of (table_slots records.now) slot }
{
    let mut here = slot;
    'up: for depth in 0..256 {
        match parent_at(records, here) {
            Some(parent) => here = parent.number(),
            None => return depth,
        }
    }
    256
}

/// The first full slot of those from `first` on.
fn first_full(records: &[Option<Entry>], first: u32) -> Option<Slot>
    requires { length records.now ≤ 2 ^ 20 }
    ensures { result ≡ first_of (full_from (table_slots records.now) first (length records.now - first)) }
{
    'slots: for slot in first..records.len() as u32 {
        if is_full(records, slot) {
            return Some(Slot::new(slot));
        }
    }
    None
}

/// The full slot after `previous`, or the first one.
pub(crate) fn next_full(records: &[Option<Entry>], previous: Option<Slot>) -> Option<Slot>
    requires few { length records.now ≤ 2 ^ 20 }
    requires full { ForSome previous (IsFull (table_slots records.now)) }
    ensures { result ≡ next_in (full_from (table_slots records.now) 0 (length records.now)) previous }
{
    match previous {
        Some(slot) => first_full(records, slot.number() + 1),
        None => first_full(records, 0),
    }
}

/// Puts the same record into a range of the table.
pub(crate) fn put_range(records: &mut [Option<Entry>], first: u32, count: u32, held: &Option<Entry>)
    requires within { first + count ≤ length records.old }
    requires few { length records.old ≤ 2 ^ 20 }
    ensures { (s : ℕ) → table_slots records.new s
        ≡ (if is_within first count s then held.now else table_slots records.old s) }
{
    'range: for slot in first..first + count {
        records[slot as usize] = *held;
    }
}

/// Puts a record into the table, as it is.
fn put_record(records: &mut [Option<Entry>], slot: u32, held: &Option<Entry>)
    requires { slot < length records.old }
    ensures { (s : ℕ) → table_slots records.new s
        ≡ with_entry (table_slots records.old) slot held.now s }
{
    records[slot as usize] = *held;
}

/// Puts an entry into a slot.
pub(crate) fn put(records: &mut [Option<Entry>], slot: u32, held: Entry)
    requires { slot < length records.old }
    ensures { (s : ℕ) → table_slots records.new s
        ≡ with_entry (table_slots records.old) slot (Some held) s }
{
    records[slot as usize] = Some(held);
}

/// A record whose entry has another parent, if its parent was the slot that is gone.
fn adopted_record(gone: u32, parent: &Option<Slot>, held: &Option<Entry>) -> Option<Entry>
    ensures { result ≡ option_map (adopted gone parent.now) held.now }
{
    match held {
        Some(entry) => match entry.parent {
            Some(slot) if slot.number() == gone => Some(Entry {
                capability: entry.capability,
                parent: *parent,
            }),
            _ => *held,
        },
        None => None,
    }
}

/// Gives each child of a slot another parent.
pub(crate) fn adopt_children(records: &mut [Option<Entry>], gone: u32, parent: &Option<Slot>)
    ensures { (s : ℕ) → table_slots records.new s
        ≡ with_parent (table_slots records.old) gone parent.now s }
{
    'children: for slot in 0..records.len() {
        records[slot] = adopted_record(gone, parent, &records[slot]);
    }
}

/// What an open slot holds that is empty.
pub(crate) fn nothing() -> Entry
    ensures { result ≡ empty_entry }
{
    Entry {
        capability: Cap::Empty,
        parent: None,
    }
}

/// Changes the capability in a slot.
pub(crate) fn recap(records: &mut [Option<Entry>], slot: u32, capability: Cap)
    requires { slot < length records.old }
    ensures { (s : ℕ) → table_slots records.new s ≡ recapped (table_slots records.old) slot capability s }
{
    let parent = parent_at(records, slot);
    put(records, slot, Entry { capability, parent });
}

/// Empties a slot, and gives its children its parent.
pub(crate) fn splice(records: &mut [Option<Entry>], slot: u32)
    requires { slot < length records.old }
    ensures { (s : ℕ) → table_slots records.new s ≡ spliced (table_slots records.old) slot s }
{
    let parent = parent_at(records, slot);
    adopt_children(records, slot, &parent);
    put(records, slot, nothing());
}

/// Moves what a slot holds to another, with its parent and its children.
pub(crate) fn move_entry(records: &mut [Option<Entry>], from: u32, to: Slot)
    requires from_within { from < length records.old }
    requires to_within { to < length records.old }
    ensures { (s : ℕ) → table_slots records.new s ≡ relocated (table_slots records.old) from to s }
{
    let held = entry_at(records, from);
    adopt_children(records, from, &Some(to));
    put_record(records, to.number(), &held);
    put(records, from, nothing());
}
