//! Who can tell whom something, and who has no way back.

use crate::sizes::power_of_two;
use described_systems::{Held, Part, System};
use indexmap::IndexMap;
use std::alloc::{AllocError, Global};

/// Between which parts something goes: bit N of a set is part N, of which there are at most 64.
#[derive(Clone, Copy)]
pub(crate) struct Way {
    /// The parts that it comes from.
    pub(crate) from: u64,
    /// The parts that it comes to.
    pub(crate) to: u64,
}

/// The set of one part.
pub(crate) fn only(part: usize) -> u64 {
    match u32::try_from(part) {
        Ok(number) if number < 64 => power_of_two(number),
        _ => 0,
    }
}

/// Whether who holds this can tell those who hear by it something, and whether it can hear something.
fn tells_and_hears(held: Held<'_>) -> (bool, bool) {
    match held {
        // Who acknowledges an interrupt lets the next one ring the bell.
        Held::Line { .. } => (true, false),
        // Who waits takes the signals from the others who wait.
        Held::Waits { .. } => (true, true),
        Held::Rings { .. } => (true, false),
        // Who sends waits until somebody receives.
        Held::Serves { .. } | Held::Calls { .. } | Held::Sends { .. } | Held::Faults { .. } => (
            true, true,
        ),
    }
}

/// The ways by bells, doors and pages, by their names.
#[derive(Drop)]
struct Ways<'a> {
    of: IndexMap<&'a str, Way>,
}

impl<'a> Ways<'a> {
    /// The way by something.
    fn way(&self, name: &str) -> Way {
        match self.of.get(name) {
            Some(way) => *way,
            None => Way { from: 0, to: 0 },
        }
    }

    /// A part tells something by this, or hears something, or both.
    fn note(
        &mut self,
        name: &'a str,
        part: u64,
        (tells, hears): (bool, bool),
    ) -> Result<(), AllocError> {
        let mut way = self.way(name);
        if tells {
            way.from |= part;
        }
        if hears {
            way.to |= part;
        }
        self.of.insert(name, way)?;
        Ok(())
    }

    /// What a part tells and hears.
    fn note_part(&mut self, part: &Part<'a>, number: u64) -> Result<(), AllocError> {
        for slot in &part.slots {
            self.note(slot.held.name(), number, tells_and_hears(slot.held))?;
        }
        for view in &part.views {
            self.note(view.page, number, (view.writes, true))?;
        }
        Ok(())
    }

    /// The parts that are told something by this one.
    fn told_by(&self, part: u64) -> u64 {
        let mut told = part;
        for way in self.of.values() {
            if way.from & part != 0 {
                told |= way.to;
            }
        }
        told
    }
}

/// The parts that are told something by each part, by others too.
fn told_parts(alloc: Global, ways: &Ways<'_>, count: usize) -> Result<Vec<u64>, AllocError> {
    let mut all = Vec::new(alloc);
    for number in 0..count {
        all.push(ways.told_by(only(number)))?;
    }
    for number in 0..count {
        let further = match all.get(number) {
            Some(told) => *told,
            None => 0,
        };
        for told in all.iter_mut() {
            if *told & only(number) != 0 {
                *told |= further;
            }
        }
    }
    Ok(all)
}

/// The parts that a part is told something by, each by these lists.
fn tellers(told: &[u64], part: u64) -> u64 {
    let mut tellers = 0;
    for (number, told) in told.iter().enumerate() {
        if *told & part != 0 {
            tellers |= only(number);
        }
    }
    tellers
}

/// Which ways of a system go one way alone.
#[derive(Drop)]
pub(crate) struct Arrows<'a> {
    ways: Ways<'a>,
    /// The parts that each part is told something by, by others too.
    tellers: Vec<u64>,
}

impl Arrows<'_> {
    /// What of the way by something has no way back: those who tell others that cannot tell them anything, and these others.
    pub(crate) fn one_way(&self, name: &str) -> Way {
        let way = self.ways.way(name);
        let mut found = Way { from: 0, to: 0 };
        for (number, tellers) in self.tellers.iter().enumerate() {
            let part = only(number);
            let others = way.to & !part & !*tellers;
            if way.from & part != 0 && others != 0 {
                found.from |= part;
                found.to |= others;
            }
        }
        found
    }
}

/// Which ways of a system go one way alone.
pub(crate) fn arrows_of<'a>(alloc: Global, system: &System<'a>) -> Result<Arrows<'a>, AllocError> {
    let mut ways = Ways {
        of: IndexMap::new(alloc),
    };
    for (number, part) in system.parts.iter().enumerate() {
        ways.note_part(part, only(number))?;
    }
    let told = told_parts(alloc, &ways, system.parts.len())?;
    let mut all = Vec::new(alloc);
    for number in 0..system.parts.len() {
        all.push(tellers(told.as_slice(), only(number)))?;
    }
    Ok(Arrows { ways, tellers: all })
}
