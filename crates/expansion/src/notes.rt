//! What is no fault of a description, but seldom meant.

use crate::arrows::{Arrows, arrows_of, only};
use crate::capabilities::{Capability, Source};
use crate::groups::{Groups, groups_of};
use crate::plans::Plan;
use described_systems::{Declaration, Held, Joined, Kind, Part, System};
use indexmap::IndexMap;
use std::alloc::{AllocError, Global};

/// Notes that are being written.
#[derive(Drop)]
struct Notes<'j> {
    alloc: Global,
    text: String,
    /// Where the lines of the description come from.
    joined: &'j Joined,
}

/// Whether a part receives at a door.
fn serves(part: &Part<'_>, name: &str) -> bool {
    for slot in &part.slots {
        if let Held::Serves { door } = slot.held {
            if door == name {
                return true;
            }
        }
    }
    false
}

/// Whether a part waits for a bell.
fn waits(part: &Part<'_>, name: &str) -> bool {
    for slot in &part.slots {
        if let Held::Waits { bell } = slot.held {
            if bell == name {
                return true;
            }
        }
    }
    false
}

/// The parts that wait for a bell, as a set.
fn waiting_for(system: &System<'_>, bell: &str) -> u64 {
    let mut waiting = 0;
    for (number, part) in system.parts.iter().enumerate() {
        if waits(part, bell) {
            waiting |= only(number);
        }
    }
    waiting
}

/// The line on which a part may call or send to a door.
fn entering_line(part: &Part<'_>, name: &str) -> Option<u64> {
    for slot in &part.slots {
        match slot.held {
            Held::Calls { door, .. } | Held::Sends { door, .. } if door == name => {
                return Some(slot.line);
            }
            _ => {}
        }
    }
    None
}

/// What parts may do with a page.
#[derive(Clone, Copy)]
struct PageUse {
    is_seen: bool,
    is_written: bool,
}

/// What parts may do with a page. Messages write a message buffer.
fn use_of(system: &System<'_>, page: &str) -> PageUse {
    let mut found = PageUse {
        is_seen: false,
        is_written: false,
    };
    for part in &system.parts {
        if let Some(buffer) = part.buffer {
            found.is_written = found.is_written || buffer.page == page;
        }
        for view in &part.views {
            if view.page == page {
                found.is_seen = true;
                found.is_written = found.is_written || view.writes;
            }
        }
    }
    found
}

/// The line of a part's first record of slots that is written by hand.
fn record_line(part: &Part<'_>) -> Option<u64> {
    for line in &part.code {
        if let Some(word) = line.words.first() {
            if *word == "slot" {
                return Some(line.line);
            }
        }
    }
    None
}

impl Notes<'_> {
    /// The beginning of a note on a line.
    fn begin(&mut self, line: u64) -> Result<(), AllocError> {
        self.joined.push_place(&mut self.text, line)?;
        self.text.push_str(": note: ")
    }

    /// A note that names one thing.
    fn say(&mut self, line: u64, before: &str, name: &str, after: &str) -> Result<(), AllocError> {
        self.begin(line)?;
        write!(&mut self.text, "{before}{name}{after}\n")
    }

    /// A part that waits for one of lower priority.
    fn note_priorities(
        &mut self,
        line: u64,
        caller: &Part<'_>,
        server: &Part<'_>,
    ) -> Result<(), AllocError> {
        if server.priority >= caller.priority {
            return Ok(());
        }
        let (one, high) = (caller.name, caller.priority);
        let (other, low) = (server.name, server.priority);
        self.begin(line)?;
        write!(
            &mut self.text,
            "{one} ({high}) waits for {other} ({low}), which others between can hold up\n"
        )
    }

    /// The parts that call or send to a door at which this one receives.
    fn note_callers(
        &mut self,
        system: &System<'_>,
        door: &str,
        server: &Part<'_>,
    ) -> Result<(), AllocError> {
        for caller in &system.parts {
            if let Some(line) = entering_line(caller, door) {
                self.note_priorities(line, caller, server)?;
            }
        }
        Ok(())
    }

    /// Who serves a door.
    fn note_door(&mut self, system: &System<'_>, door: &Declaration<'_>) -> Result<(), AllocError> {
        let mut count = 0u64;
        for part in &system.parts {
            if serves(part, door.name) {
                count = count.saturating_add(1);
                self.note_callers(system, door.name, part)?;
            }
        }
        match count {
            0 => self.say(door.line, "nobody serves the door ", door.name, ""),
            1 => Ok(()),
            _ => self.say(
                door.line,
                "more than one part serves the door ",
                door.name,
                ", and each message comes to one of them",
            ),
        }
    }

    /// Who waits for a bell. Of several each takes signals from the others.
    fn note_bell(&mut self, system: &System<'_>, bell: &Declaration<'_>) -> Result<(), AllocError> {
        let waiting = waiting_for(system, bell.name);
        if waiting == 0 {
            return self.say(bell.line, "nobody waits for the bell ", bell.name, "");
        }
        if waiting & waiting.wrapping_sub(1) == 0 {
            return Ok(());
        }
        self.begin(bell.line)?;
        self.push_set(system, waiting, " <-> ")?;
        let name = bell.name;
        write!(
            &mut self.text,
            " by {name}: each takes signals from the others\n"
        )
    }

    /// Who sees and writes a page. A device page is written by the world, too.
    fn note_page(&mut self, system: &System<'_>, page: &Declaration<'_>) -> Result<(), AllocError> {
        let found = use_of(system, page.name);
        let is_page = page.kind == Kind::Page;
        if !found.is_seen {
            self.say(
                page.line,
                if is_page {
                    "nobody sees the page "
                } else {
                    "nobody sees the device page "
                },
                page.name,
                "",
            )
        } else if is_page && !found.is_written && page.words.is_empty() && page.bytes.is_none() {
            self.say(
                page.line,
                "nobody writes the page ",
                page.name,
                ", and it has no first words: all that is seen there is 0",
            )
        } else {
            Ok(())
        }
    }

    /// What is odd about something that parts share.
    fn note_declared(
        &mut self,
        system: &System<'_>,
        declared: &Declaration<'_>,
    ) -> Result<(), AllocError> {
        match declared.kind {
            Kind::Page | Kind::Device => self.note_page(system, declared),
            Kind::Bell => self.note_bell(system, declared),
            Kind::Door => self.note_door(system, declared),
            Kind::Part | Kind::Number => Ok(()),
        }
    }

    /// What is odd about a part.
    fn note_part(&mut self, part: &Part<'_>) -> Result<(), AllocError> {
        if let Some(line) = record_line(part) {
            self.say(
                line,
                "the records of part ",
                part.name,
                " name slots by numbers, which change with the description: `certify` finds them",
            )?;
        }
        Ok(())
    }

    /// Parts with equal badges at one door.
    fn note_badges(
        &mut self,
        door: &str,
        capabilities: &[Capability<'_>],
    ) -> Result<(), AllocError> {
        let mut owners = IndexMap::new(self.alloc);
        for capability in capabilities {
            match capability.source {
                Source::Door(name) if name == door && capability.enters() => {
                    if let Some(other) = owners.insert(capability.badge, capability.part)? {
                        let (part, badge) = (capability.part, capability.badge);
                        self.begin(capability.line)?;
                        write!(
                            &mut self.text,
                            "{other} and {part} have the same badge at the door {door}, {badge}\n"
                        )?;
                    }
                }
                _ => {}
            }
        }
        Ok(())
    }

    /// Puts the names of the parts that are in a group, or of those that are not.
    fn push_parts(
        &mut self,
        system: &System<'_>,
        groups: &Groups,
        group: usize,
        are_in: bool,
    ) -> Result<(), AllocError> {
        let mut before = "";
        for (number, part) in system.parts.iter().enumerate() {
            if (groups.group(number) == group) == are_in {
                let name = part.name;
                write!(&mut self.text, "{before}{name}")?;
                before = ", ";
            }
        }
        Ok(())
    }

    /// Puts the names of the parts of a set, with a sign between them.
    fn push_set(&mut self, system: &System<'_>, set: u64, between: &str) -> Result<(), AllocError> {
        let mut is_first = true;
        for (number, part) in system.parts.iter().enumerate() {
            if set & only(number) != 0 {
                if !is_first {
                    self.text.push_str(between)?;
                }
                self.text.push_str(part.name)?;
                is_first = false;
            }
        }
        Ok(())
    }

    /// Who can tell others something by this that cannot tell them anything.
    fn note_arrow(
        &mut self,
        system: &System<'_>,
        arrows: &Arrows<'_>,
        declared: &Declaration<'_>,
    ) -> Result<(), AllocError> {
        let way = arrows.one_way(declared.name);
        if way.from == 0 {
            return Ok(());
        }
        self.begin(declared.line)?;
        self.push_set(system, way.from, ", ")?;
        let name = declared.name;
        self.text.push_str(" -> ")?;
        self.push_set(system, way.to, ", ")?;
        write!(&mut self.text, " by {name}, and nothing comes back\n")
    }

    /// Groups of parts that have nothing in common.
    fn note_groups(&mut self, system: &System<'_>) -> Result<(), AllocError> {
        let groups = groups_of(self.alloc, system)?;
        for (number, part) in system.parts.iter().enumerate() {
            let group = groups.group(number);
            if group != groups.group(0) && groups.is_first(number) {
                self.begin(part.line)?;
                self.text.push_str("parts ")?;
                self.push_parts(system, &groups, group, true)?;
                self.text.push_str(": nothing in common with ")?;
                self.push_parts(system, &groups, group, false)?;
                self.text.push_str("\n")?;
            }
        }
        Ok(())
    }
}

/// What is odd about a system, a line for each.
pub(crate) fn notes_of(
    alloc: Global,
    joined: &Joined,
    system: &System<'_>,
    plan: &Plan<'_>,
) -> Result<String, AllocError> {
    let mut notes = Notes {
        alloc,
        text: String::new(alloc),
        joined,
    };
    for declared in &system.declared {
        notes.note_declared(system, declared)?;
        if declared.kind == Kind::Door {
            notes.note_badges(declared.name, plan.capabilities.as_slice())?;
        }
    }
    for part in &system.parts {
        notes.note_part(part)?;
    }
    let arrows = arrows_of(alloc, system)?;
    for declared in &system.declared {
        notes.note_arrow(system, &arrows, declared)?;
    }
    notes.note_groups(system)?;
    Ok(notes.text)
}
