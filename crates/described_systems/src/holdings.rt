//! What parts hold: bells, doors and pages by their names, each once.

use crate::faults::{DescriptionFault, Mistake, fault};
use crate::parts::{Held, Part, Slot, View};
use std::alloc::Global;

impl<'a> Part<'a> {
    /// A part of which nothing is said so far.
    pub(crate) fn new(alloc: Global, line: u64, name: &'a str, priority: u32) -> Self {
        Part {
            line,
            name,
            priority,
            slots: Vec::new(alloc),
            views: Vec::new(alloc),
            buffer: None,
            rates: Vec::new(alloc),
            pool: None,
            registers: Vec::new(alloc),
            budget: None,
            within: None,
            code: Vec::new(alloc),
            sources: None,
            next_slot: 1,
        }
    }

    /// The line on which the part has a bell or a door.
    fn slot_line(&self, name: &str) -> Option<u64> {
        for slot in &self.slots {
            if slot.held.name() == name {
                return Some(slot.line);
            }
        }
        None
    }

    /// The line on which it is said where the part's faults are reported.
    pub(crate) fn fault_line(&self) -> Option<u64> {
        for slot in &self.slots {
            if let Held::Faults { .. } = slot.held {
                return Some(slot.line);
            }
        }
        None
    }

    /// The line on which the part has a page.
    fn view_line(&self, page: &str) -> Option<u64> {
        for view in &self.views {
            if view.page == page {
                return Some(view.line);
            }
        }
        None
    }

    /// The fault of a line on what the part has a line on already.
    pub(crate) fn held_already(
        &self,
        line: u64,
        name: &'a str,
        other: u64,
    ) -> DescriptionFault<'a> {
        fault(
            line,
            Mistake::HeldAlready {
                part: self.name,
                name,
                line: other,
            },
        )
    }

    /// So many slots, after those that are in use: the first of them.
    pub(crate) fn take_slots(&mut self, count: u32) -> u32 {
        let first = self.next_slot;
        self.next_slot = first.saturating_add(count);
        first
    }

    /// One slot more.
    pub(crate) fn add_slot(
        &mut self,
        line: u64,
        held: Held<'a>,
    ) -> Result<(), DescriptionFault<'a>> {
        let number = self.take_slots(1);
        self.slots.push(Slot { line, number, held })?;
        Ok(())
    }

    /// A slot for a bell or a door of which the part has none so far.
    pub(crate) fn hold(&mut self, line: u64, held: Held<'a>) -> Result<(), DescriptionFault<'a>> {
        match self.slot_line(held.name()) {
            Some(other) => Err(self.held_already(line, held.name(), other)),
            None => self.add_slot(line, held),
        }
    }

    /// After how many instructions the last of its interrupts may come once more.
    pub(crate) fn set_every(&mut self, every: u32) {
        if let Some(rate) = self.rates.last_mut() {
            rate.every = Some(every);
        }
    }

    /// How many of its last interrupt may come at once.
    pub(crate) fn set_burst(&mut self, burst: u32) {
        if let Some(rate) = self.rates.last_mut() {
            rate.burst = Some(burst);
        }
    }

    /// Where it is said how soon the part deals with its interrupts it has one at least, and each has a rate.
    pub(crate) fn check_within(&self) -> Result<(), DescriptionFault<'a>> {
        let Some(within) = self.within else {
            return Ok(());
        };
        if self.rates.is_empty() {
            return Err(fault(within.line, Mistake::NoLine { part: self.name }));
        }
        for rate in &self.rates {
            if rate.every.is_none() {
                let number = rate.number;
                return Err(fault(within.line, Mistake::NoEvery { number }));
            }
        }
        Ok(())
    }

    /// A page that the part has not so far.
    pub(crate) fn add_view(&mut self, view: View<'a>) -> Result<(), DescriptionFault<'a>> {
        match self.view_line(view.page) {
            Some(other) => Err(self.held_already(view.line, view.page, other)),
            None => {
                self.views.push(view)?;
                Ok(())
            }
        }
    }
}
