//! The interrupts and capabilities of a system, with their badges.

use crate::faults::{Fault, refused};
use described_systems::{Held, Part, Slot};
use indexmap::IndexMap;
use std::alloc::{AllocError, Global};

/// How many badges of one bit there are.
const BADGE_BITS: u32 = 28;

/// The right to write, that to read, and those to write and to grant a reply.
const WRITE: u32 = 1;

const READ: u32 = 2;

const CALL: u32 = 9;

/// An interrupt that rings a bell.
#[derive(Clone, Copy)]
pub(crate) struct Interrupt<'a> {
    pub(crate) line: u64,
    pub(crate) bell: &'a str,
    pub(crate) number: u32,
    pub(crate) badge: u32,
}

/// What a capability is to.
#[derive(Clone, Copy)]
pub(crate) enum Source<'a> {
    Bell(&'a str),
    Door(&'a str),
    /// The handler of an interrupt.
    Handler { bell: &'a str, number: u32 },
}

/// A capability of a part to something that parts share.
#[derive(Clone, Copy)]
pub(crate) struct Capability<'a> {
    pub(crate) line: u64,
    pub(crate) part: &'a str,
    pub(crate) slot: u32,
    pub(crate) source: Source<'a>,
    pub(crate) rights: u32,
    pub(crate) badge: u32,
}

impl Capability<'_> {
    /// Whether messages to a door are sent by it.
    pub(crate) fn enters(&self) -> bool {
        self.rights & WRITE != 0
    }
}

/// The badges that are given so far, by the names of bells and doors.
#[derive(Drop)]
pub(crate) struct Badges<'a> {
    alloc: Global,
    given: IndexMap<&'a str, u32>,
}

impl<'a> Badges<'a> {
    /// No badges.
    pub(crate) fn new(alloc: Global) -> Self {
        Badges {
            alloc,
            given: IndexMap::new(alloc),
        }
    }

    /// How many badges were given for a name before this one.
    fn count(&mut self, name: &'a str) -> Result<u32, AllocError> {
        let count = match self.given.get(name) {
            Some(count) => *count,
            None => 0,
        };
        self.given.insert(name, count.saturating_add(1))?;
        Ok(count)
    }

    /// The next badge of one bit for a bell.
    fn bit(&mut self, line: u64, bell: &'a str) -> Result<u32, Fault> {
        let count = self.count(bell)?;
        if count < BADGE_BITS {
            Ok(1 << count)
        } else {
            let said = format!(in self.alloc;
                "the bell {bell} has more than 28 lines and parts that ring it, each with a bit of its own"
            );
            Err(refused(line, said))
        }
    }

    /// The badge with which a bell is rung.
    fn ringing(&mut self, line: u64, bell: &'a str, badge: Option<u32>) -> Result<u32, Fault> {
        match badge {
            Some(badge) => Ok(badge),
            None => self.bit(line, bell),
        }
    }

    /// The badge with which a door is entered: the first is 1.
    fn entering(&mut self, door: &'a str, badge: Option<u32>) -> Result<u32, AllocError> {
        match badge {
            Some(badge) => Ok(badge),
            None => Ok(self.count(door)?.saturating_add(1)),
        }
    }

    /// What a capability in a slot is to, its rights and its badge.
    fn capability(&mut self, part: &'a str, slot: &Slot<'a>) -> Result<Capability<'a>, Fault> {
        let line = slot.line;
        let (source, rights, badge) = match slot.held {
            Held::Waits { bell } => (Source::Bell(bell), READ, 0),
            Held::Line { bell, number } => (Source::Handler { bell, number }, 0, 0),
            Held::Rings { bell, badge } => {
                (Source::Bell(bell), WRITE, self.ringing(line, bell, badge)?)
            }
            Held::Serves { door } => (Source::Door(door), READ, 0),
            Held::Calls { door, badge } | Held::Faults { door, badge } => {
                (Source::Door(door), CALL, self.entering(door, badge)?)
            }
            Held::Sends { door, badge } => (Source::Door(door), WRITE, self.entering(door, badge)?),
        };
        Ok(Capability {
            line,
            part,
            slot: slot.number,
            source,
            rights,
            badge,
        })
    }

    /// The interrupts of all parts: their badges come before those of parts that ring.
    pub(crate) fn interrupts(&mut self, parts: &[Part<'a>]) -> Result<Vec<Interrupt<'a>>, Fault> {
        let mut interrupts = Vec::new(self.alloc);
        for part in parts {
            for slot in &part.slots {
                if let Held::Line { bell, number } = slot.held {
                    interrupts.push(Interrupt {
                        line: slot.line,
                        bell,
                        number,
                        badge: self.bit(slot.line, bell)?,
                    })?;
                }
            }
        }
        Ok(interrupts)
    }

    /// The capabilities of all parts to what they share.
    pub(crate) fn capabilities(
        &mut self,
        parts: &[Part<'a>],
    ) -> Result<Vec<Capability<'a>>, Fault> {
        let mut capabilities = Vec::new(self.alloc);
        for part in parts {
            for slot in &part.slots {
                capabilities.push(self.capability(part.name, slot)?)?;
            }
        }
        Ok(capabilities)
    }
}
