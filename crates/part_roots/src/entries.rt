//! Entries of a log, made in a draft.

ghost use Rattle.std.specs.Prelude.{◌≡◌, ◌==◌, IfOk, List, map, true, ℕ};
ghost use Rattle.std.specs.Option.{option_map_or};
ghost use Rattle.model.specs.Acceptance.NotedStates.{NotedSlot as ListedSlot, SlotKey as Key, number_of, with_noted};
ghost use Rattle.part_roots.specs.Held.{SaysIn, names_in};
ghost use Rattle.part_roots.specs.Looks.{name_of};
ghost use Rattle.typestate.specs.Differences.{slots_of};
ghost use Rattle.typestate.specs.Replays.{exchanged, replayed, with_entry};
ghost use Rattle.typestate.specs.Unlinked.{AreUnlinked};

use crate::{Base, Draft, SlotNumber, note_parent, put};
use std::alloc::AllocError;
use typestate::{LogEntry, NotedSlots, PackedSlot, SlotKey};

/// A number where it is not another one.
fn unless_same(number: u64, same: u64) -> Option<u64>
    ensures { option_map_or (λ m. m) result same ≡ number }
{
    if number == same { None } else { Some(number) }
}

impl Base<'_> {
    /// Makes the change of a slot: `false` where the states have no place for it. Memory may be refused.
    fn set(
        &self,
        draft: &mut Draft,
        image: &NotedSlots<'_>,
        change: PackedSlot,
    ) -> Result<bool, AllocError>
        ensures { IfOk result (λ is. is ≡ true → (slots : List ListedSlot) → SaysIn self.now draft.old (slots_of image.now) slots
            → SaysIn self.now draft.new (slots_of image.now) (with_noted slots change)) }
    {
        let Some(slot) = SlotNumber::of(change.key()) else {
            return Ok(false);
        };
        let Some(leaves) = self.leaves(draft, image, change) else {
            return Ok(false);
        };
        put(&mut draft.slots, slot.first_place(), leaves.words)?;
        put(&mut draft.slots, slot.second_place(), leaves.parent)?;
        note_parent(&mut draft.parents, leaves.parent)?;
        Ok(true)
    }

    /// What was derived from the one slot is derived from the other one, and the other way round, by their names.
    fn swap_named(
        &self,
        draft: &mut Draft,
        one: SlotNumber,
        other: SlotNumber,
        first: SlotNumber,
        second: SlotNumber,
    ) -> Result<(), AllocError>
        ensures { IfOk result (λ _. (image slots : List ListedSlot) (from to : Key) → AreUnlinked image
            → number_of from ≡ one.number → number_of to ≡ other.number
            → first.number ≡ name_of (names_in self.now draft.old) one.number → second.number ≡ name_of (names_in self.now draft.old) other.number
            → SaysIn self.now draft.old image slots → SaysIn self.now draft.new image (map (exchanged from to) slots)) }
    {
        let names = &mut draft.names;
        put(
            names,
            first.first_place(),
            unless_same(other.number, first.number),
        )?;
        put(
            names,
            second.first_place(),
            unless_same(one.number, second.number),
        )?;
        put(
            names,
            one.second_place(),
            unless_same(second.number, one.number),
        )?;
        put(
            names,
            other.second_place(),
            unless_same(first.number, other.number),
        )?;
        Ok(())
    }

    /// What was derived from the one slot is derived from the other one, and the other way round: `false` where the states have no place
    /// for that. Memory may be refused.
    fn swap(&self, draft: &mut Draft, one: SlotKey, other: SlotKey) -> Result<bool, AllocError>
        ensures { IfOk result (λ is. is ≡ true → (image slots : List ListedSlot) → AreUnlinked image → SaysIn self.now draft.old image slots
            → SaysIn self.now draft.new image (map (exchanged one other) slots)) }
    {
        let Some(one) = SlotNumber::of(one) else {
            return Ok(false);
        };
        let Some(other) = SlotNumber::of(other) else {
            return Ok(false);
        };
        let Some(first) = SlotNumber::new(self.name(draft, one)) else {
            return Ok(false);
        };
        let Some(second) = SlotNumber::new(self.name(draft, other)) else {
            return Ok(false);
        };
        self.swap_named(draft, one, other, first, second)?;
        Ok(true)
    }

    /// Makes an entry: `false` where the states have no place for it. Memory may be refused.
    fn make(
        &self,
        draft: &mut Draft,
        image: &NotedSlots<'_>,
        entry: LogEntry,
    ) -> Result<bool, AllocError>
        ensures { IfOk result (λ is. is ≡ true → (slots : List ListedSlot) → AreUnlinked (slots_of image.now)
            → SaysIn self.now draft.old (slots_of image.now) slots → SaysIn self.now draft.new (slots_of image.now) (with_entry slots entry)) }
    {
        match entry {
            LogEntry::Sets(change) => self.set(draft, image, change),
            LogEntry::Swaps { one, other } => self.swap(draft, one, other),
        }
    }

    /// Makes entries one after another: `false` where the states have no place for one. Memory may be refused.
    pub(crate) fn make_all(
        &self,
        draft: &mut Draft,
        image: &NotedSlots<'_>,
        entries: &[LogEntry],
    ) -> Result<bool, AllocError>
        ensures { IfOk result (λ is. is ≡ true → (slots : List ListedSlot) → AreUnlinked (slots_of image.now)
            → SaysIn self.now draft.old (slots_of image.now) slots → SaysIn self.now draft.new (slots_of image.now)
            (replayed slots entries.now)) }
    {
        for entry in entries {
            if !self.make(draft, image, *entry)? {
                return Ok(false);
            }
        }
        Ok(true)
    }
}
