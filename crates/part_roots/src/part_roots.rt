//! The roots of parts of a log.

ghost use Rattle.std.specs.Prelude.{◌≡◌, ◌≤◌, IfOk, IfSome, List, true};
ghost use Rattle.model.specs.Acceptance.NotedStates.{NotedSlot as ListedSlot};
ghost use Rattle.part_roots.specs.Held.{SaysBy, SaysWith};
ghost use Rattle.part_roots.specs.Rooted.{AreIn, AreRooted, IsRooted, LeaveSame};
ghost use Rattle.part_roots.specs.declared.part_roots.RootedPart.{RootedPart as Rooted};
ghost use Rattle.shared_states.specs.States.{KeepsTrees};
ghost use Rattle.typestate.specs.Differences.{slots_of};
ghost use Rattle.typestate.specs.Logs.{Holds, IsNext};
ghost use Rattle.typestate.specs.Orders.{Rise};
ghost use Rattle.typestate.specs.Replays.{replayed};
ghost use Rattle.typestate.specs.Unlinked.{AreUnlinked};
ghost use Rattle.typestate.specs.declared.log_entries.LogEntry.{LogEntry as ListedEntry};

use crate::{Base, Draft, Root};
use shared_states::States;
use std::alloc::{AllocError, Global};
use typestate::{LogEntry, NotedSlot, NotedSlots, Part, ShownPart, SlotLog};

/// A part of a log with its root, which says what slots the part leaves of an image's.
#[derive(Clone, Copy)]
pub struct RootedPart {
    pub(crate) part: Part,
    pub(crate) root: Root,
}

impl RootedPart {
    /// Whether a part begins with this one.
    fn begins(&self, part: Part) -> bool
        ensures { result ≡ true → IsNext self.now.part part }
    {
        self.part.first == part.first && self.part.end <= part.end
    }
}

/// The roots of parts of a log, each noted after those that end before it. What two parts share is there once, so all comparisons
/// together cost no more than what was noted.
#[derive(Drop)]
pub struct PartRoots {
    alloc: Global,
    states: States,
    parts: Vec<RootedPart>,
    /// A part that has no root, and so none has that begins with it.
    lost: Option<Part>,
}

impl PartRoots {
    /// No part has a root so far.
    ///
    /// # Errors
    ///
    /// Memory may be refused.
    pub fn new(alloc: Global) -> Result<Self, AllocError>
        ensures { IfOk result (λ roots. (image : List ListedSlot) (log : List ListedEntry) → AreRooted image log roots) }
    {
        let states = States::new(alloc)?;
        Ok(PartRoots {
            alloc,
            states,
            parts: Vec::new(alloc),
            lost: None,
        })
    }

    /// Whether a part needs no look: it was noted last, or can have no root.
    fn is_done(&self, part: Part) -> bool {
        if let Some(lost) = &self.lost {
            if lost.first == part.first && lost.end <= part.end {
                return true;
            }
        }
        match self.parts.last() {
            Some(last) => last.part.is_same(part),
            None => false,
        }
    }

    /// The empty part where another one begins: it leaves the image's slots.
    fn empty_part(&self, part: Part) -> RootedPart
        ensures next { part.first ≤ part.end → IsNext result.part part }
        ensures rooted { (image : List ListedSlot) (log : List ListedEntry) → Holds log part → IsRooted self.now.states image log result }
    {
        RootedPart {
            part: Part {
                first: part.first,
                end: part.first,
            },
            root: Root {
                slots: self.states.empty(),
                names: self.states.empty(),
                parents: self.states.empty(),
            },
        }
    }

    /// The part that was noted last, if another one begins with it: else the empty one there.
    fn start(&self, part: Part) -> RootedPart
        ensures next { part.first ≤ part.end → IsNext result.part part }
        ensures rooted { (image : List ListedSlot) (log : List ListedEntry) → Holds log part → AreRooted image log self.now
            → IsRooted self.now.states image log result }
    {
        let Some(last) = self.parts.last() else {
            return self.empty_part(part);
        };
        if last.begins(part) {
            return *last;
        }
        self.empty_part(part)
    }

    /// What entries put after a root: nothing, where states have no place for one of them. Memory may be refused.
    fn draft_of(
        &self,
        root: Root,
        image: &NotedSlots<'_>,
        entries: &[LogEntry],
    ) -> Result<Option<Draft>, AllocError>
        ensures { IfOk result (λ made. IfSome made (λ draft. (slots : List ListedSlot) → AreUnlinked (slots_of image.now)
            → SaysBy self.now.states root (slots_of image.now) slots
            → SaysWith self.now.states root draft (slots_of image.now) (replayed slots entries.now))) }
    {
        let base = Base {
            states: &self.states,
            root,
        };
        let mut draft = Draft::new(self.alloc);
        if !base.make_all(&mut draft, image, entries)? {
            return Ok(None);
        }
        Ok(Some(draft))
    }

    /// Whether the states of a root are there.
    fn has(&self, root: Root) -> bool
        ensures { result ≡ true → AreIn self.now.states root }
    {
        if !self.states.has(root.slots) {
            return false;
        }
        if !self.states.has(root.names) {
            return false;
        }
        self.states.has(root.parents)
    }

    /// The root that a draft makes of one, if its states are there. Memory may be refused.
    fn made(&mut self, root: Root, draft: &Draft) -> Result<Option<Root>, AllocError>
        ensures within { IfOk result (λ made. IfSome made (AreIn self.new.states)) }
        ensures says { IfOk result (λ made. IfSome made (λ r. (image slots : List ListedSlot) → SaysWith self.old.states root draft.now image slots
            → SaysBy self.new.states r image slots)) }
        ensures kept { KeepsTrees self.old.states self.new.states }
        ensures all { self.new.parts.items ≡ self.old.parts.items }
    {
        if !self.has(root) {
            return Ok(None);
        }
        let slots = self.states.with(root.slots, &draft.slots)?;
        let names = self.states.with(root.names, &draft.names)?;
        let parents = self.states.with(root.parents, &draft.parents)?;
        Ok(Some(Root {
            slots,
            names,
            parents,
        }))
    }

    /// The root after entries that follow one: none, where states have no place for one of them. Memory may be refused.
    fn root_after(
        &mut self,
        root: Root,
        image: &NotedSlots<'_>,
        entries: &[LogEntry],
    ) -> Result<Option<Root>, AllocError>
        ensures within { IfOk result (λ made. IfSome made (AreIn self.new.states)) }
        ensures says { IfOk result (λ made. IfSome made (λ r. (slots : List ListedSlot) → AreUnlinked (slots_of image.now)
            → SaysBy self.old.states root (slots_of image.now) slots → SaysBy self.new.states r (slots_of image.now) (replayed slots entries.now))) }
        ensures kept { KeepsTrees self.old.states self.new.states }
        ensures all { self.new.parts.items ≡ self.old.parts.items }
    {
        let Some(draft) = self.draft_of(root, image, entries)? else {
            return Ok(None);
        };
        let made = self.made(root, &draft)?;
        Ok(made)
    }

    /// Notes the root of a part, which takes no look at what it has in common with the part that was noted last. A part that names slots
    /// of 2^61 and above has no root.
    ///
    /// # Errors
    ///
    /// Memory may be refused.
    pub fn note(&mut self, log: &SlotLog, image: &[NotedSlot], part: Part) -> Result<(), AllocError>
        requires rising { Rise image.now }
        requires unlinked { AreUnlinked image.now }
        ensures { IfOk result (λ _. AreRooted image.now log.now self.old → AreRooted image.now log.now self.new) }
    {
        if self.is_done(part) {
            return Ok(());
        }
        let start = self.start(part);
        let rest = Part {
            first: start.part.end,
            end: part.end,
        };
        let Some(_) = log.entries(part) else {
            return Ok(());
        };
        let Some(entries) = log.entries(rest) else {
            return Ok(());
        };
        let nothing = ShownPart::new(self.alloc);
        let listed = nothing.slots(image);
        let Some(root) = self.root_after(start.root, &listed, entries)? else {
            self.lost = Some(part);
            return Ok(());
        };
        self.parts.push(RootedPart { part, root })?;
        Ok(())
    }

    /// The root of a part, if it was noted.
    fn root_of(&self, part: Part) -> Option<Root>
        ensures { IfSome result (λ root. (image : List ListedSlot) (log : List ListedEntry) → AreRooted image log self.now
            → IsRooted self.now.states image log (let r : Rooted = record { part = part; root = root } in r)) }
    {
        let place = self
            .parts
            .binary_search_by_key(&(part.end, part.first), |rooted| {
                (rooted.part.end, rooted.part.first)
            })
            .ok()?;
        let found = self.parts.get(place)?;
        if found.part.is_same(part) {
            Some(found.root)
        } else {
            None
        }
    }

    /// Whether two parts leave the same slots, by their roots: `false` says nothing. Memory may be refused.
    pub fn is_same(&mut self, one: Part, other: Part) -> Result<bool, AllocError>
        ensures is { IfOk result (λ is. is ≡ true → (image : List ListedSlot) (log : List ListedEntry) → Rise image → AreRooted image log self.old
            → LeaveSame image log one other) }
        ensures kept { (image : List ListedSlot) (log : List ListedEntry) → AreRooted image log self.old → AreRooted image log self.new }
    {
        let Some(first) = self.root_of(one) else {
            return Ok(false);
        };
        let Some(second) = self.root_of(other) else {
            return Ok(false);
        };
        if !self.has(first) {
            return Ok(false);
        }
        if !self.has(second) {
            return Ok(false);
        }
        // What a name stands for matters only where something was a child by it.
        if !self.states.agree(first.names, second.names, first.parents) {
            return Ok(false);
        }
        let is = self.states.is_same(first.slots, second.slots)?;
        Ok(is)
    }
}
