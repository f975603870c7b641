//! The interrupt lines of a text, by their names.

use crate::names::push_next;
use indexmap::IndexMap;
use std::alloc::{AllocError, Global};

/// An interrupt line with its name.
#[derive(Clone, Copy, Debug)]
pub(crate) struct NamedInterrupt<'t> {
    /// Its own name.
    pub(crate) name: &'t str,
    /// The name of the notification that it signals.
    pub(crate) bell: &'t str,
    /// Its number on the machine.
    pub(crate) number: u8,
}

/// The interrupt lines of a text. One that alone signals its notification has the name of that, too.
#[derive(Drop)]
pub(crate) struct Interrupts<'t> {
    /// The numbers that names mean.
    numbers: IndexMap<&'t str, u8>,
    /// The names by which the numbers are shown.
    shown: IndexMap<u8, &'t str>,
}

/// How many interrupts signal each notification.
fn counts<'t>(
    alloc: Global,
    interrupts: &[NamedInterrupt<'t>],
) -> Result<IndexMap<&'t str, u32>, AllocError> {
    let mut counts = IndexMap::new(alloc);
    for interrupt in interrupts {
        let before = counts.get(interrupt.bell).copied().unwrap_or(0u32);
        counts.insert(interrupt.bell, before.saturating_add(1))?;
    }
    Ok(counts)
}

/// Whether an interrupt has the name that a description gives it, `BELL_lineN`.
fn is_of_bell(name: &str, bell: &str) -> bool {
    match name.strip_prefix(bell) {
        Some(rest) => rest.starts_with("_line"),
        None => false,
    }
}

impl<'t> Interrupts<'t> {
    /// These interrupt lines.
    pub(crate) fn of(alloc: Global, interrupts: &[NamedInterrupt<'t>]) -> Result<Self, AllocError> {
        let counts = counts(alloc, interrupts)?;
        let mut named = Interrupts {
            numbers: IndexMap::new(alloc),
            shown: IndexMap::new(alloc),
        };
        for interrupt in interrupts {
            let is_alone = counts.get(interrupt.bell).copied() == Some(1);
            named.add(*interrupt, is_alone)?;
        }
        Ok(named)
    }

    /// One more, which alone signals its notification or not.
    fn add(&mut self, interrupt: NamedInterrupt<'t>, is_alone: bool) -> Result<(), AllocError> {
        let NamedInterrupt { name, bell, number } = interrupt;
        self.numbers.insert(name, number)?;
        if is_alone {
            self.numbers.insert(bell, number)?;
        }
        let name = if is_alone && is_of_bell(name, bell) {
            bell
        } else {
            name
        };
        self.shown.insert(number, name)?;
        Ok(())
    }

    /// The number of the line of this name.
    pub(crate) fn number(&self, name: &str) -> Option<u8> {
        self.numbers.get(name).copied()
    }

    /// The name by which the line of this number is shown.
    pub(crate) fn name(&self, number: u8) -> Option<&'t str> {
        self.shown.get(&number).copied()
    }

    /// Whether there is one.
    pub(crate) fn are_any(&self) -> bool {
        !self.shown.is_empty()
    }

    /// Puts the names by which the lines are shown.
    pub(crate) fn push_names(&self, to: &mut String) -> Result<(), AllocError> {
        for (before, name) in self.shown.values().enumerate() {
            push_next(to, before, name)?;
        }
        Ok(())
    }
}
