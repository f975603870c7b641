//! A log of changes to slots. The slots at each point of a program are the image's with a part of it made.

ghost use Rattle.std.specs.Prelude.{◌≡◌, [], ◌++◌, IfErr, IfOk, IfSome, List, length, map, true};
ghost use Rattle.model.specs.Acceptance.NotedStates.{NotedSlot, entry_slot};
ghost use Rattle.typestate.specs.Differences.{changed, slots_of};
ghost use Rattle.typestate.specs.Logs.{Holds, IsNext, KeepsParts, Shows, ShowsSome, part_of};
ghost use Rattle.typestate.specs.Orders.{Rise};
ghost use Rattle.typestate.specs.Replays.{replayed};
ghost use Rattle.typestate.specs.Unlinked.{AreUnlinked};
ghost use Rattle.typestate.specs.declared.log_entries.LogEntry.{LogEntry};

use crate::log_entries::note_sets;
use crate::records::note_record;
use crate::shown::ShownChanges;
use crate::{LogEntry, NotedSlot, NotedSlots};
use image_reading::RecordRef;
use std::alloc::{AllocError, Global};
use std::marker::Model;

/// Entries from one place of a log to another.
#[derive(Clone, Copy)]
pub struct Part {
    pub first: usize,
    pub end: usize,
}

/// What was made of slots, in the order in which it was made, part after part. A clause sees the list of entries.
#[derive(Drop)]
pub struct SlotLog {
    alloc: Global,
    entries: Vec<LogEntry>,
}

/// What a part of a log changes, by the slots: their keys rise, and of the changes to one slot only the last is there.
#[derive(Drop)]
pub struct ShownPart {
    part: Part,
    changes: ShownChanges,
}

impl Part {
    /// Whether both are the same part of a log.
    pub fn is_same(&self, other: Part) -> bool
        ensures { result ≡ true → self.now ≡ other }
    {
        self.first == other.first && self.end == other.end
    }
}

impl ShownPart {
    /// Of a log without parts: no changes.
    pub fn new(alloc: Global) -> Self
        ensures shown { (log : List LogEntry) → ShowsSome log result }
        ensures none { result.changes ≡ [] }
    {
        ShownPart {
            part: Part { first: 0, end: 0 },
            changes: ShownChanges::new(alloc),
        }
    }

    /// Whether another part begins with this one.
    fn begins(&self, part: Part) -> bool
        ensures { result ≡ true → IsNext self.now.part part }
    {
        self.part.first == part.first && self.part.end <= part.end
    }

    /// Whether a part begins with this one, and this one has more of it than another one has.
    pub fn has_more_of(&self, part: Part, other: &ShownPart) -> bool {
        self.begins(part) && (!other.begins(part) || other.part.end < self.part.end)
    }

    /// The slots with the changes made to those of the image.
    pub fn slots<'s>(&'s self, image: &'s [NotedSlot]) -> NotedSlots<'s>
        requires shown { Rise self.now.changes }
        requires rising { Rise image.now }
        requires unlinked { AreUnlinked image.now }
        ensures slots { slots_of result ≡ changed image.now self.now.changes }
        ensures image { result.image.now ≡ image.now }
    {
        self.changes.slots(image)
    }
}

impl Model for SlotLog {
    ghost use Rattle.std.specs.Prelude.{List};
    ghost use Rattle.typestate.specs.declared.log_entries.LogEntry.{LogEntry};

    ghost Value = { List LogEntry };

    ghost view = { λ log. log.entries.items };
}

impl SlotLog {
    /// A log without entries.
    pub fn new(alloc: Global) -> Self
        ensures { result ≡ [] }
    {
        SlotLog {
            alloc,
            entries: Vec::new(alloc),
        }
    }

    /// The entries of a part, if the log has it.
    pub fn entries(&self, part: Part) -> Option<&[LogEntry]>
        ensures held { IfSome result (λ _. Holds self.now part) }
        ensures same { IfSome result (λ entries. entries.now ≡ part_of self.now part) }
    {
        if part.end < part.first {
            return None;
        }
        if self.entries.len() < part.end {
            return None;
        }
        Some(&self.entries[part.first..part.end])
    }

    /// Appends entries as a part of their own. Where memory is refused the log stays as it was.
    fn append(&mut self, made: &[LogEntry]) -> Result<Part, AllocError>
        ensures held { IfOk result (Holds self.new) }
        ensures part { IfOk result (λ part. part_of self.new part ≡ made.now) }
        ensures others { IfOk result (λ _. KeepsParts self.old self.new) }
        ensures refused { IfErr result (λ _. self.new ≡ self.old) }
    {
        let first = self.entries.len();
        self.entries.extend_from_slice(made)?;
        let end = self.entries.len();
        Ok(Part { first, end })
    }

    /// Appends entries to the last part, which holds them then. Where memory is refused the log stays as it was.
    fn grow(&mut self, part: Part, made: &[LogEntry]) -> Result<Part, AllocError>
        requires held { Holds self.old part }
        requires last { part.end ≡ length self.old }
        ensures held { IfOk result (Holds self.new) }
        ensures part { IfOk result (λ longer. part_of self.new longer ≡ part_of self.old part ++ made.now) }
        ensures others { IfOk result (λ _. KeepsParts self.old self.new) }
        ensures refused { IfErr result (λ _. self.new ≡ self.old) }
    {
        self.entries.extend_from_slice(made)?;
        let end = self.entries.len();
        Ok(Part {
            first: part.first,
            end,
        })
    }

    /// Appends the entries of a part with others after them, as a part of their own. Where memory is refused the log stays as it was.
    fn repeat(&mut self, part: Part, made: &[LogEntry]) -> Result<Part, AllocError>
        requires { Holds self.old part }
        ensures held { IfOk result (Holds self.new) }
        ensures part { IfOk result (λ longer. part_of self.new longer ≡ part_of self.old part ++ made.now) }
        ensures others { IfOk result (λ _. KeepsParts self.old self.new) }
        ensures refused { IfErr result (λ _. self.new ≡ self.old) }
    {
        let mut both = Vec::new(self.alloc);
        both.extend_from_slice(&self.entries[part.first..part.end])?;
        both.extend_from_slice(made)?;
        self.append(&both)
    }

    /// Notes changes as a part of their own.
    ///
    /// # Errors
    ///
    /// Memory may be refused.
    pub fn note_changes(&mut self, changes: &[NotedSlot]) -> Result<Part, AllocError>
        ensures held { IfOk result (Holds self.new) }
        ensures same { IfOk result (λ part. (slots : List NotedSlot) → Rise slots → replayed slots (part_of self.new part) ≡ changed slots changes.now) }
        ensures others { IfOk result (λ _. KeepsParts self.old self.new) }
    {
        let mut made = Vec::new(self.alloc);
        note_sets(changes, &mut made)?;
        self.append(&made)
    }

    /// Notes the slots of a record: its part leaves what they leave.
    ///
    /// # Errors
    ///
    /// Memory may be refused.
    pub fn note(&mut self, noted: &RecordRef<'_>) -> Result<Part, AllocError>
        ensures held { IfOk result (Holds self.new) }
        ensures same { IfOk result (λ part. (slots : List NotedSlot) → Rise slots
            → replayed slots (part_of self.new part) ≡ changed slots (map entry_slot noted.now.slots)) }
        ensures others { IfOk result (λ _. KeepsParts self.old self.new) }
    {
        let mut changes = Vec::new(self.alloc);
        note_record(&mut changes, noted)?;
        self.note_changes(&changes)
    }

    /// Notes entries that follow those of a part: the new part leaves what both leave. Where nothing follows it is that part
    /// itself, and the last part grows in place.
    ///
    /// # Errors
    ///
    /// Memory may be refused: then the log stays as it was.
    pub fn follow(&mut self, part: Part, made: &[LogEntry]) -> Result<Part, AllocError>
        requires { Holds self.old part }
        ensures held { IfOk result (Holds self.new) }
        ensures same { IfOk result (λ both. (slots : List NotedSlot) → Rise slots
            → replayed slots (part_of self.new both) ≡ replayed (replayed slots (part_of self.old part)) made.now) }
        ensures others { IfOk result (λ _. KeepsParts self.old self.new) }
        ensures refused { IfErr result (λ _. self.new ≡ self.old) }
    {
        if made.is_empty() {
            return Ok(part);
        }
        if part.end == self.entries.len() {
            self.grow(part, made)
        } else {
            self.repeat(part, made)
        }
    }

    /// Goes on from a part that is shown to one that begins with it. Memory may be refused.
    fn show_more(&self, shown: &mut ShownPart, part: Part) -> Result<(), AllocError>
        requires old { ShowsSome self.now shown.old }
        requires held { Holds self.now part }
        requires next { IsNext shown.old.part part }
        ensures { IfOk result (λ _. Shows self.now part shown.new) }
    {
        shown
            .changes
            .make_all(&self.entries[shown.part.end..part.end])?;
        shown.part = part;
        Ok(())
    }

    /// Shows a part in place of another one. What it begins with is not gone through again.
    ///
    /// # Errors
    ///
    /// Memory may be refused.
    pub fn show(&self, shown: &mut ShownPart, part: Part) -> Result<(), AllocError>
        requires old { ShowsSome self.now shown.old }
        requires held { Holds self.now part }
        ensures { IfOk result (λ _. Shows self.now part shown.new) }
    {
        if !shown.begins(part) {
            *shown = ShownPart {
                part: Part {
                    first: part.first,
                    end: part.first,
                },
                changes: ShownChanges::new(self.alloc),
            };
        }
        self.show_more(shown, part)
    }

    /// A part by its slots.
    ///
    /// # Errors
    ///
    /// Memory may be refused.
    pub fn shown(&self, part: Part) -> Result<ShownPart, AllocError>
        requires { Holds self.now part }
        ensures { IfOk result (Shows self.now part) }
    {
        let mut shown = ShownPart::new(self.alloc);
        self.show(&mut shown, part)?;
        Ok(shown)
    }
}
