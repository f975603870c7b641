//! Slots that differ, and slots that a thread may not have.

use crate::scenes::{Scene, is_same_slot};
use crate::states::State;
use model::Cap;
use std::alloc::AllocError;
use typestate::{NotedSlot, SlotKey};

/// Whether a slot is among changes.
fn is_among(changes: &[NotedSlot], key: SlotKey) -> bool {
    for change in changes {
        if change.key.is_same(key) {
            return true;
        }
    }
    false
}

/// How the slots differ of two states.
#[derive(Clone, Copy, Drop)]
pub(crate) struct Difference<'c> {
    pub(crate) here: &'c [NotedSlot],
    pub(crate) there: &'c [NotedSlot],
    /// The line of the record that says what is there, if it has one.
    pub(crate) record: Option<u64>,
    /// The point that is led to, or none at the entry.
    pub(crate) target: Option<u32>,
}

impl Scene<'_, '_, '_, '_, '_, '_, '_> {
    /// Puts what a slot holds.
    fn push_held(&self, to: &mut String, slot: &NotedSlot) -> Result<(), AllocError> {
        match slot.capability {
            Cap::Empty => to.push_str("nothing"),
            capability => {
                self.push_cap(to, capability)?;
                to.push_str(", made from ")?;
                match slot.parent {
                    Some(parent) => {
                        to.push_str("slot ")?;
                        self.push_key(to, parent)
                    }
                    None => to.push_str("the boot CNode"),
                }
            }
        }
    }

    /// Puts how a slot differs, if it does.
    fn push_difference(
        &self,
        to: &mut String,
        difference: &Difference<'_>,
        key: SlotKey,
    ) -> Result<(), AllocError> {
        let here = self.slot_with(difference.here, key);
        let there = self.slot_with(difference.there, key);
        if is_same_slot(&here, &there) {
            return Ok(());
        }
        to.push_str("  slot ")?;
        self.push_key(to, key)?;
        to.push_str(" holds ")?;
        self.push_held(to, &here)?;
        self.push_where(to, difference.target)?;
        self.push_held(to, &there)?;
        self.push_cure(to, difference, &here)
    }

    /// Puts where a slot holds something, and where it is noted with something else.
    fn push_where(&self, to: &mut String, target: Option<u32>) -> Result<(), AllocError> {
        match target {
            Some(target) => {
                to.push_str(" on the way to ")?;
                self.push_point(to, target)?;
                to.push_str(if self.known.is_some() {
                    ", where another way leaves "
                } else {
                    ", where it is noted with "
                })
            }
            None => to.push_str(" at the start; noted is "),
        }
    }

    /// Puts what has to be written where a slot differs that holds this.
    fn push_cure(
        &self,
        to: &mut String,
        difference: &Difference<'_>,
        here: &NotedSlot,
    ) -> Result<(), AllocError> {
        if self.known.is_some() {
            return to.push_str("; make the slots equal before the ways meet\n");
        }
        match difference.record {
            Some(line) if is_among(difference.here, here.key) => {
                self.push_missing_line(to, here, line)
            }
            Some(line) => write!(to, "; take away the line of this slot after line {line}\n"),
            None => to.push_str("; put a record there\n"),
        }
    }

    /// Puts the line of a slot that has to come after another line.
    fn push_missing_line(
        &self,
        to: &mut String,
        slot: &NotedSlot,
        line: u64,
    ) -> Result<(), AllocError> {
        to.push_str("; write ")?;
        self.push_slot_line(to, slot)?;
        write!(to, " after line {line}\n")
    }

    /// Puts all slots that differ.
    pub(crate) fn push_differences(
        &self,
        to: &mut String,
        difference: &Difference<'_>,
    ) -> Result<(), AllocError> {
        for change in difference.here {
            self.push_difference(to, difference, change.key)?;
        }
        for change in difference.there {
            if !is_among(difference.here, change.key) {
                self.push_difference(to, difference, change.key)?;
            }
        }
        Ok(())
    }

    /// Puts why a slot is one that the thread may not have.
    fn push_stray(&self, to: &mut String, slot: &NotedSlot) -> Result<(), AllocError> {
        let is_own = self.given.space.is_own(slot.key);
        let reason = match slot.capability {
            _ if !is_own => "no such slot is in the thread's CNodes",
            Cap::Tcb { .. } => "a thread may not hold threads",
            Cap::PageTable { .. } => "a thread may not hold page tables",
            Cap::InterruptControl => "a thread may not hold interrupt control",
            Cap::CNode { .. } => "a CNode is to be one that the image gives the thread",
            Cap::RootTable { .. } => "a root table is to be the thread's own",
            _ => "what it was made from is to be a full slot, up to the boot CNode",
        };
        to.push_str("  slot ")?;
        self.push_key(to, slot.key)?;
        to.push_str(", noted as ")?;
        self.push_held(to, slot)?;
        write!(to, ": {reason}\n")
    }

    /// Reports which noted slots may be those that the thread may not have.
    pub(crate) fn report_stray(
        &self,
        to: &mut String,
        point: u32,
        state: &State,
    ) -> Result<(), AllocError> {
        self.push_head(to, point)?;
        to.push_str("a slot is noted here that the thread may not have\n")?;
        let changes = &state.changes;
        for change in changes {
            let is_own = self.given.space.is_own(change.key);
            let is_plain = matches!(
                change.capability,
                Cap::Untyped { .. }
                    | Cap::Endpoint { .. }
                    | Cap::Notification { .. }
                    | Cap::Frame { .. }
                    | Cap::InterruptHandler { .. }
            );
            if !is_own || !is_plain || change.parent.is_some() {
                self.push_stray(to, change)?;
            }
        }
        Ok(())
    }
}
