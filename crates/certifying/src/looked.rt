//! The slots that were looked at last, along a straight run of a program.

ghost use Rattle.std.specs.Prelude.{◌≡◌, [], IfOk, List, true};
ghost use Rattle.model.specs.Acceptance.NotedStates.{NotedSlot};
ghost use Rattle.typestate.specs.Differences.{changed};
ghost use Rattle.typestate.specs.Logs.{Shows};
ghost use Rattle.typestate.specs.Orders.{Rise};
ghost use Rattle.typestate.specs.Replays.{replayed};
ghost use Rattle.typestate.specs.Unlinked.{AreUnlinked};

use crate::Fault;
use crate::bare_threads::BareThread;
use crate::stretches::{Stretch, StretchLog};
use model::{Point, Refusal};
use ranges::Bounds;
use std::alloc::AllocError;
use std::marker::Model;
use typestate::{
    Behind, LogEntry, NotedSlot, Part, ShownPart, SlotKey, SlotLog, ThreadSlots, ToldSlots,
    no_stray_slot_leads_outside, points_without_stray_slots_have_none,
};

/// The changes of a stretch, by their slots. Those that follow are put among them, so that along a straight run each change is gone
/// through once, and each slot is judged once. A clause sees whether what is shown is known.
#[derive(Drop)]
pub(crate) struct Looked<'a, 's> {
    thread: BareThread<'a, 's>,
    stretch: Stretch,
    log: SlotLog,
    part: Part,
    shown: ShownPart,
    /// Whether the part is shown: it is not, where memory ran out in between.
    is_known: bool,
    /// Whether it is known that no slot is one that the thread may not have.
    is_clean: bool,
}

impl<'a, 's> Model for Looked<'a, 's> {
    ghost use Rattle.std.specs.Prelude.{Bool};
    ghost use Rattle.certifying.specs.LookedAt.{IsLookedAt};

    ghost Value = { Bool };

    ghost view = { λ looked. looked.is_known };

    ghost invariant = { λ looked. IsLookedAt looked.thread looked.log looked.part looked.shown looked.is_known looked.is_clean };
}

/// Goes on from a part that is shown to one with changes that follow it. Fails if out of memory.
fn followed(
    log: &mut SlotLog,
    part: Part,
    shown: &mut ShownPart,
    made: &[LogEntry],
) -> Result<Part, AllocError>
    requires { Shows log.old part shown.old }
    ensures shows { IfOk result (λ longer. Shows log.new longer shown.new) }
    ensures same { IfOk result (λ _. (slots : List NotedSlot) → Rise slots → AreUnlinked slots
        → changed slots shown.new.changes ≡ replayed (changed slots shown.old.changes) made.now) }
{
    let longer = log.follow(part, made)?;
    log.show(shown, longer)?;
    Ok(longer)
}

impl<'a, 's> Looked<'a, 's> {
    /// No changes, where a stretch begins.
    pub(crate) fn before(thread: BareThread<'a, 's>, stretch: Stretch) -> Result<Self, Fault>
        ensures { IfOk result (λ looked. looked ≡ true) }
    {
        let log = SlotLog::new(thread.alloc);
        let part = Part { first: 0, end: 0 };
        let shown = log.shown(part)?;
        Ok(Looked {
            thread,
            stretch: stretch.none_of(),
            log,
            part,
            shown,
            is_known: true,
            is_clean: false,
        })
    }

    /// Puts changes that follow among those that are shown.
    fn grow(&mut self, more: &[LogEntry]) -> Result<(), Fault>
        requires { self.old ≡ true }
        ensures { IfOk result (λ _. self.new ≡ true) }
    {
        self.is_known = false;
        self.is_clean = false;
        self.part = followed(&mut self.log, self.part, &mut self.shown, more)?;
        self.is_known = true;
        Ok(())
    }

    /// Begins again, unless a stretch begins with what is shown.
    fn begin(&mut self, stretch: Stretch) -> Result<(), Fault>
        ensures { IfOk result (λ _. self.new ≡ true) }
    {
        if !self.is_known || !self.stretch.begins(stretch) {
            *self = Looked::before(self.thread, stretch)?;
        }
        Ok(())
    }

    /// Goes on to the changes of a stretch of a log. What it begins with is not gone through again.
    pub(crate) fn go_on(&mut self, log: &StretchLog, stretch: Stretch) -> Result<(), Fault>
        ensures { IfOk result (λ _. self.new ≡ true) }
    {
        self.begin(stretch)?;
        let more = log.between(self.stretch, stretch);
        self.stretch = stretch;
        if more.is_empty() {
            return Ok(());
        }
        self.grow(more)
    }

    /// What is in a slot after the changes of a stretch of a log, if it is full.
    pub(crate) fn at(
        &mut self,
        log: &StretchLog,
        stretch: Stretch,
        key: SlotKey,
    ) -> Result<Option<NotedSlot>, Fault> {
        self.go_on(log, stretch)?;
        Ok(self.shown.slots(self.thread.given.slots).at(key))
    }

    /// Notes where the changes are that are shown.
    pub(crate) fn stand(&mut self, stretch: Stretch) {
        self.stretch = stretch;
    }

    /// What the system call at a point leaves of the registers, and the slots that it changes. These are put among those that are shown.
    pub(crate) fn called(
        &mut self,
        at: Point,
        bounds: &Bounds,
    ) -> Result<(Behind, Vec<LogEntry>), Fault>
        requires { self.old ≡ true }
    {
        points_without_stray_slots_have_none();
        let given = self.thread.given;
        let slots = self.shown.slots(given.slots);
        let told = ToldSlots {
            space: given.space,
            slots,
            lists_stray: given.lists_stray,
            is_clean: self.is_clean,
        };
        if told.has_stray_slots(None) {
            return Err(Fault::refused(at.point, Refusal::CapNotThere(at)));
        }
        no_stray_slot_leads_outside();
        given.slots_are_own(&slots);
        let own = ThreadSlots {
            space: given.space,
            slots,
        };
        let mut made = Vec::new(self.thread.alloc);
        let behind = match own.after_call(at, bounds, &mut made)? {
            Ok(behind) => behind,
            Err(refusal) => return Err(Fault::refused(at.point, refusal)),
        };
        self.is_known = false;
        self.is_clean = false;
        self.part = followed(&mut self.log, self.part, &mut self.shown, &made)?;
        self.is_known = true;
        self.is_clean = behind.is_tidy;
        Ok((behind, made))
    }
}
