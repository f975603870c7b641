//! What is known of a part: what it waits for, what its certificate knows, what its slots hold.

use crate::debuggers::Debugger;
use crate::parts::{MEMORY_BASE, Part};
use debugging::status;
use model::{Cap, Rights};
use named_traces::SourcePlace;
use objects::Status;
use source_texts::word_at;
use std::alloc::AllocError;

/// The most slots that are shown of a part.
const MOST_SLOTS: u32 = 1024;

/// How many lines of a record are looked at before an instruction.
const MOST_LINES: usize = 64;

/// Whether a line of a text is one of a record.
fn is_of_record(line: &str) -> bool {
    matches!(
        word_at(line, 0),
        Some("measure" | "range" | "slot" | "term")
    )
}

/// The number of a register by its name in a text, `xN`.
fn register_number(word: &str) -> Option<u32> {
    word.strip_prefix("x")?.parse::<u32>().ok()
}

impl Debugger<'_, '_, '_, '_> {
    /// The name of the object at an offset.
    fn object_name(&self, offset: u32) -> &str {
        match self.objects.iter().find(|object| object.offset == offset) {
            Some(object) => object.name,
            None => "?",
        }
    }

    /// Where a part is in its source.
    fn place_of_part(&self, part: &Part<'_>) -> Option<SourcePlace<'_>> {
        let pc = self.run.system().reg(part.thread, 0)?;
        let named = self
            .scene
            .names
            .thread(MEMORY_BASE.wrapping_add(part.thread))?;
        self.scene.names.place(named, pc)
    }

    /// Puts what a part waits for.
    fn push_status(&self, part: &Part<'_>, to: &mut String) -> Result<(), AllocError> {
        match status(self.run.system(), part.thread) {
            Status::Inactive => to.push_str("is not started"),
            Status::Runnable => to.push_str("runs"),
            Status::Blocked { queue } => {
                let name = self.object_name(queue);
                write!(to, "waits for {name}")
            }
            Status::AwaitsReply => to.push_str("waits for an answer"),
            Status::AwaitsHandler => to.push_str("has faulted"),
        }
    }

    /// Puts a part by its name, what it waits for, where, and how much of its budget it has used since its last wait.
    pub(crate) fn push_part(&self, number: usize, to: &mut String) -> Result<(), AllocError> {
        let Some(part) = self.scene.parts.get(number) else {
            return Ok(());
        };
        let name = part.name;
        write!(to, "{name}: ")?;
        self.push_status(part, to)?;
        if let Some(place) = self.place_of_part(part) {
            to.push_str(" at ")?;
            place.push_line(to)?;
        }
        let used = self.used.get(number).copied().unwrap_or(0);
        match part.budget {
            Some(budget) => write!(to, ", {used} of {budget} instructions since its wait"),
            None => write!(to, ", {used} instructions since its wait"),
        }
    }

    /// Puts what all parts wait for.
    pub(crate) fn push_waits(&self, to: &mut String) -> Result<(), AllocError> {
        for number in 0..self.scene.parts.len() {
            self.push_part(number, to)?;
            to.push_str("\n")?;
        }
        Ok(())
    }

    /// Puts one line of a record, and beside a range the register's value.
    fn push_known_line(&self, line: &str, to: &mut String) -> Result<(), AllocError> {
        to.push_str(line.trim_ascii())?;
        if word_at(line, 0) == Some("range") {
            let register = word_at(line, 1).and_then(|word| register_number(word));
            if let Some(value) = register.and_then(|number| self.register(number)) {
                write!(to, "    # is {value}")?;
            }
        }
        to.push_str("\n")
    }

    /// Puts the record that the part that is shown has where it is: what is known of registers, slots, and of how many instructions are
    /// left to its wait.
    pub(crate) fn push_known(&self, to: &mut String) -> Result<(), AllocError> {
        let place = match self.scene.parts.get(self.selected) {
            Some(part) => self.place_of_part(part),
            None => None,
        };
        let Some(place) = place else {
            return to.push_str("no instruction of the system is here\n");
        };
        let before = place.line.saturating_sub(1) as usize;
        let first = before.saturating_sub(MOST_LINES);
        let mut any = false;
        let mut record = String::new(self.alloc);
        for line in self.scene.text.lines().take(before).skip(first) {
            if is_of_record(line) {
                self.push_known_line(line, &mut record)?;
                any = true;
            } else if word_at(line, 0).is_some() {
                record.clear();
                any = false;
            }
        }
        if any {
            to.push_str(record.as_str())
        } else {
            to.push_str(
                "the certificate has no record here: what is known follows from the last one before\n",
            )
        }
    }

    /// Puts the rights of a capability.
    fn push_rights(&self, rights: Rights, to: &mut String) -> Result<(), AllocError> {
        if rights.may_read() {
            to.push_str(" read")?;
        }
        if rights.may_write() {
            to.push_str(" write")?;
        }
        if rights.may_grant_reply() {
            to.push_str(" grant-reply")?;
        }
        Ok(())
    }

    /// Puts what a slot holds.
    fn push_capability(&self, capability: Cap, to: &mut String) -> Result<(), AllocError> {
        match capability {
            Cap::Empty => to.push_str("empty"),
            Cap::Untyped { offset, bits, .. } => write!(to, "untyped {offset:#x} of {bits} bits"),
            Cap::Endpoint {
                offset,
                rights,
                badge,
            } => {
                let name = self.object_name(offset);
                write!(to, "endpoint {name} badge {badge}")?;
                self.push_rights(rights, to)
            }
            Cap::Notification {
                offset,
                rights,
                badge,
            } => {
                let name = self.object_name(offset);
                write!(to, "notification {name} badge {badge}")?;
                self.push_rights(rights, to)
            }
            Cap::CNode { offset, radix, .. } => {
                let name = self.object_name(offset);
                write!(to, "CNode {name} of {radix} bits")
            }
            Cap::Frame { offset, rights, .. } => {
                let name = self.object_name(offset);
                write!(to, "frame {name}")?;
                self.push_rights(rights, to)
            }
            Cap::PageTable { offset, .. } => {
                let name = self.object_name(offset);
                write!(to, "page table {name}")
            }
            Cap::Tcb { offset } => {
                let name = self.object_name(offset);
                write!(to, "TCB {name}")
            }
            Cap::RootTable { offset } => {
                let name = self.object_name(offset);
                write!(to, "root table {name}")
            }
            Cap::InterruptControl => to.push_str("interrupt control"),
            Cap::InterruptHandler { line } => write!(to, "handler of interrupt {line}"),
        }
    }

    /// Puts what the slots of the part that is shown hold, but for empty ones.
    pub(crate) fn push_slots(&self, to: &mut String) -> Result<(), AllocError> {
        let Some(thread) = self.thread_of(self.selected) else {
            return Ok(());
        };
        let system = self.run.system();
        let Some((Cap::CNode { offset, radix, .. }, _)) = system.slot(thread, 0) else {
            return to.push_str("it has no CNode\n");
        };
        let count = match 1u32.checked_shl(u32::from(radix)) {
            Some(count) => count.min(MOST_SLOTS),
            None => MOST_SLOTS,
        };
        for index in 0..count {
            if let Some((capability, _)) = system.slot(offset, index) {
                if capability != Cap::Empty {
                    write!(to, "{index}: ")?;
                    self.push_capability(capability, to)?;
                    to.push_str("\n")?;
                }
            }
        }
        Ok(())
    }
}
