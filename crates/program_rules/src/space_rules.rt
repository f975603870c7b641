//! The rules on slots and system calls, over the CNodes that a well-formed image gives a thread.

ghost use Rattle.std.specs.Prelude.{◌≡◌, IfOk, List};
ghost use Rattle.model.specs.Acceptance.Measures.{Measure};
ghost use Rattle.model.specs.declared.ranges.Range.{Range};
ghost use Rattle.program_rules.specs.Kept.{call_of};
ghost use Rattle.program_rules.specs.Visits.{IsCleanBehindHere, call_here, has_stray_here, state_with};
ghost use Rattle.typestate.specs.Differences.{slots_of};

use crate::notes::record_in;
use crate::visits::VisitedSlots;
use model::Refusal;
use ranges::Bounds;
use std::alloc::AllocError;
use typestate::{
    Behind, LogEntry, ThreadSlots, ToldSlots, no_stray_slot_leads_outside,
    points_without_stray_slots_have_none,
};

/// What the system call at a point leaves.
#[derive(Drop)]
pub(crate) enum Called {
    /// It is not looked at: some slot is one that the thread may not have.
    Stray,
    Refused(Refusal),
    /// What is known after it, and the changes of slots that it makes.
    Leaves(Behind, Vec<LogEntry>),
}

impl VisitedSlots<'_, '_, '_, '_, '_> {
    /// Whether some slot is one that the thread may not have, or the point's record notes one outside of the thread's CNodes. Where
    /// it is known that no slot is, only the record is looked at.
    pub(crate) fn has_stray_slots(&self) -> bool
        ensures { (ranges : List Range) (measure : Measure) → result ≡ has_stray_here self.now.visit (state_with self.now ranges measure) }
    {
        let program = self.visit.program;
        let told = ToldSlots {
            space: program.given.space,
            slots: self.slots,
            lists_stray: program.given.lists_stray,
            is_clean: self.is_clean,
        };
        told.has_stray_slots(record_in(self.visit.noted))
    }

    /// What the system call at the point leaves. Memory may be refused.
    pub(crate) fn called(&self, bounds: &Bounds) -> Result<Called, AllocError>
        ensures clean { IfOk result (IsCleanBehindHere self.now) }
        ensures left { IfOk result (λ called. (measure : Measure)
            → call_here self.now.visit (state_with self.now bounds.now measure) ≡ call_of (slots_of self.now.slots) called) }
    {
        points_without_stray_slots_have_none();
        no_stray_slot_leads_outside();
        if self.has_stray_slots() {
            return Ok(Called::Stray);
        }
        let program = self.visit.program;
        program.given.slots_are_own(&self.slots);
        let own = ThreadSlots {
            space: program.given.space,
            slots: self.slots,
        };
        let mut made = Vec::new(program.alloc);
        match own.after_call(program.at(self.visit.point), bounds, &mut made)? {
            Ok(behind) => Ok(Called::Leaves(behind, made)),
            Err(refusal) => Ok(Called::Refused(refusal)),
        }
    }
}
