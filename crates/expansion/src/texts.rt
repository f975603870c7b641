//! The text of a system by what is decided of it.

use crate::capabilities::{Capability, Interrupt, Source};
use crate::faults::Fault;
use crate::memory::Memory;
use crate::objects::{Object, frame_name};
use crate::places::{CODE_PAGE, Places, Row, address_of};
use crate::plans::{PartPlan, Plan};
use crate::programs::{Entry, Program};
use crate::sizes::power_of_two;
use crate::writer::Writer;
use described_systems::{
    Buffer, Declaration, Held, Joined, Part, Pool, Promise, Rate, Sources, System,
};
use indexmap::IndexMap;
use std::alloc::{AllocError, Global};

/// The rights of mappings.
const EXECUTE: u32 = 4;

const READ: u32 = 2;

const READ_WRITE: u32 = 3;

/// The words of a frame, and its bytes.
const FRAME_WORDS: usize = 1024;

const FRAME_BYTES: usize = 4096;

/// The word that up to four bytes are, the lowest first.
fn word_of(bytes: &[u8]) -> u32 {
    let mut word = 0u32;
    for byte in bytes.iter().rev() {
        word = (word << 8) | u32::from(*byte);
    }
    word
}

/// The least and the greatest badge of those who may enter a door.
fn badges_at(door: &str, capabilities: &[Capability<'_>]) -> (u32, u32) {
    let mut found: Option<(u32, u32)> = None;
    for capability in capabilities {
        match capability.source {
            Source::Door(name) if name == door && capability.enters() => {
                let badge = capability.badge;
                found = match found {
                    Some((least, greatest)) => Some((least.min(badge), greatest.max(badge))),
                    None => Some((badge, badge)),
                };
            }
            _ => {}
        }
    }
    found.unwrap_or((0, 0))
}

/// The slot of the capability at which the faults of a part are reported, or 0.
fn handler_of(part: &Part<'_>) -> u32 {
    for slot in &part.slots {
        if let Held::Faults { .. } = slot.held {
            return slot.number;
        }
    }
    0
}

impl Writer<'_> {
    /// `memory` and `untyped`
    fn put_memory(&mut self, memory: Memory) -> Result<(), AllocError> {
        let (bits, radix) = (memory.bits, memory.radix);
        let half = bits.saturating_sub(1);
        let offset = power_of_two(half);
        write!(&mut self.text, "memory {bits} {radix}\n")?;
        write!(&mut self.text, "untyped memory {offset:#x} {half}\n")
    }

    /// `object`
    fn put_object(&mut self, object: &Object) -> Result<(), AllocError> {
        let (name, kind) = (object.name.as_str(), object.sort.word());
        write!(&mut self.text, "object {name} memory {kind}")?;
        if let Some(size) = object.sort.size() {
            write!(&mut self.text, " {size}")?;
        }
        self.end(object.line)
    }

    /// `irq`
    fn put_interrupt(&mut self, interrupt: &Interrupt<'_>) -> Result<(), AllocError> {
        let (bell, number, badge) = (interrupt.bell, interrupt.number, interrupt.badge);
        write!(
            &mut self.text,
            "irq {bell}_line{number} {number} {bell} {badge}"
        )?;
        self.end(interrupt.line)
    }

    /// `#rate` of an interrupt of which it is said how often it comes: without `every` no more often than its burst
    fn put_rate(&mut self, rate: &Rate) -> Result<(), AllocError> {
        if rate.every.is_none() && rate.burst.is_none() {
            return Ok(());
        }
        let (number, burst) = (rate.number, rate.burst.unwrap_or(1));
        write!(&mut self.text, "#rate {number} {burst}")?;
        if let Some(every) = rate.every {
            write!(&mut self.text, " {every}")?;
        }
        self.end(rate.line)
    }

    /// `#within`
    fn put_within(&mut self, part: &Part<'_>) -> Result<(), AllocError> {
        match part.within {
            Some(within) => {
                let steps = within.steps;
                write!(&mut self.text, "#within {steps}")?;
                self.end(within.line)
            }
            None => Ok(()),
        }
    }

    /// `cap` of what parts share
    fn put_capability(&mut self, capability: &Capability<'_>) -> Result<(), AllocError> {
        let (part, slot) = (capability.part, capability.slot);
        write!(&mut self.text, "cap {part}_slots {slot} ")?;
        match capability.source {
            Source::Bell(name) | Source::Door(name) => self.text.push_str(name)?,
            Source::Handler { bell, number } => write!(&mut self.text, "{bell}_line{number}")?,
        }
        let (rights, badge) = (capability.rights, capability.badge);
        write!(&mut self.text, " {rights} {badge}")?;
        self.end(capability.line)
    }

    /// `cap` of the memory of a part, its CNode and its root table
    fn put_pool(&mut self, name: &str, pool: &Pool, guard: u32) -> Result<(), AllocError> {
        let first = pool.slot;
        let second = first.saturating_add(1);
        let third = first.saturating_add(2);
        write!(&mut self.text, "cap {name}_slots {first} {name}_pool 0 0")?;
        self.end(pool.line)?;
        write!(
            &mut self.text,
            "cap {name}_slots {second} {name}_slots 0 {guard}"
        )?;
        self.end(pool.line)?;
        write!(&mut self.text, "cap {name}_slots {third} {name}_space 0 0")?;
        self.end(pool.line)
    }

    /// `table`
    fn put_tables(&mut self, part: &Part<'_>, regions: &[u32]) -> Result<(), AllocError> {
        let name = part.name;
        for region in regions {
            let address = address_of(region.saturating_mul(1024));
            write!(
                &mut self.text,
                "table {name}_space {address:#x} {name}_table{region}"
            )?;
            self.end(part.line)?;
        }
        Ok(())
    }

    /// `map` of frames in a row
    fn put_row(
        &mut self,
        part: &Part<'_>,
        stem: &str,
        row: Row,
        rights: u32,
    ) -> Result<(), AllocError> {
        let name = part.name;
        for number in 0..row.count {
            let address = address_of(row.first.saturating_add(number));
            write!(
                &mut self.text,
                "map {name}_space {address:#x} {name}_{stem}{number} {rights}"
            )?;
            self.end(part.line)?;
        }
        Ok(())
    }

    /// The name of a frame of a page.
    fn put_frame(&mut self, page: &str, frame: u32) -> Result<(), AllocError> {
        let name = frame_name(self.alloc, page, frame)?;
        self.text.push_str(name.as_str())
    }

    /// `map` of pages that parts may see
    fn put_pages(&mut self, part: &Part<'_>, places: &Places<'_>) -> Result<(), AllocError> {
        let owner = part.name;
        for page in &places.pages {
            let rights = if page.writes { READ_WRITE } else { READ };
            for frame in 0..page.frames {
                let address = address_of(page.page.saturating_add(frame));
                write!(&mut self.text, "map {owner}_space {address:#x} ")?;
                self.put_frame(page.name, frame)?;
                write!(&mut self.text, " {rights}")?;
                self.end(page.line)?;
            }
        }
        Ok(())
    }

    /// What a part has by itself.
    fn put_space(&mut self, part: &Part<'_>, plan: &PartPlan<'_>) -> Result<(), AllocError> {
        if let Some(pool) = &part.pool {
            self.put_pool(part.name, pool, plan.guard())?;
        }
        self.put_tables(part, plan.places.regions.as_slice())?;
        self.put_row(part, "code", plan.places.code, EXECUTE)?;
        self.put_row(part, "data", plan.places.data, READ_WRITE)?;
        self.put_row(part, "stack", plan.places.stack, READ_WRITE)?;
        self.put_pages(part, &plan.places)
    }

    /// `data` of each frame of a page for which there are words
    fn put_content(&mut self, declared: &Declaration<'_>) -> Result<(), AllocError> {
        let mut frame = 0u32;
        for words in declared.words.chunks(FRAME_WORDS) {
            self.text.push_str("data ")?;
            self.put_frame(declared.name, frame)?;
            for word in words {
                write!(&mut self.text, " {word}")?;
            }
            self.end(declared.line)?;
            frame = frame.saturating_add(1);
        }
        match declared.bytes {
            Some(bytes) => self.put_bytes(declared, bytes),
            None => Ok(()),
        }
    }

    /// `data` of each frame of a page for which there are bytes: words have the lowest byte first
    fn put_bytes(&mut self, declared: &Declaration<'_>, bytes: &[u8]) -> Result<(), AllocError> {
        let mut frame = 0u32;
        for content in bytes.chunks(FRAME_BYTES) {
            self.text.push_str("data ")?;
            self.put_frame(declared.name, frame)?;
            for word in content.chunks(4) {
                let word = word_of(word);
                write!(&mut self.text, " {word:#x}")?;
            }
            self.end(declared.line)?;
            frame = frame.saturating_add(1);
        }
        Ok(())
    }

    /// `promise`, with the least and the greatest badge of those who enter the door
    fn put_promise(
        &mut self,
        promise: &Promise<'_>,
        capabilities: &[Capability<'_>],
    ) -> Result<(), AllocError> {
        let door = promise.door;
        let (least, greatest) = badges_at(door, capabilities);
        write!(&mut self.text, "promise {door} {least} {greatest}")?;
        for bound in &promise.bounds {
            write!(&mut self.text, " {bound}")?;
        }
        self.end(promise.line)
    }

    /// `thread`
    fn put_thread(
        &mut self,
        part: &Part<'_>,
        plan: &PartPlan<'_>,
        entry: &Entry,
    ) -> Result<(), AllocError> {
        let (name, priority, guard) = (part.name, part.priority, plan.guard());
        let budget = match part.budget {
            Some(budget) => budget.number,
            None => "auto",
        };
        let (label, base) = (entry.label.as_str(), address_of(CODE_PAGE));
        let handler = handler_of(part);
        write!(
            &mut self.text,
            "\nthread {name} {name}_slots {guard} {name}_space {priority} {budget} {handler} {label} {base:#x}"
        )?;
        self.end(part.line)?;
        match part.buffer {
            Some(Buffer { line, page }) => {
                write!(&mut self.text, "buffer {page}")?;
                self.end(line)
            }
            None => Ok(()),
        }
    }

    /// `reg`
    fn put_registers(&mut self, part: &Part<'_>) -> Result<(), AllocError> {
        for register in &part.registers {
            let (name, value) = (register.register, register.value);
            write!(&mut self.text, "reg {name} {value}")?;
            self.end(register.line)?;
        }
        Ok(())
    }

    /// `program`, for the way from C
    fn put_sources(
        &mut self,
        sources: &Sources<'_>,
        places: &Places<'_>,
    ) -> Result<(), AllocError> {
        self.text.push_str("program")?;
        for file in &sources.files {
            write!(&mut self.text, " {file}")?;
        }
        if places.data.count > 0 {
            let address = address_of(places.data.first);
            write!(&mut self.text, " data {address:#x}")?;
        }
        if places.stack.count > 0 {
            let end = places.stack.first.saturating_add(places.stack.count);
            let address = address_of(end);
            write!(&mut self.text, " stack {address:#x}")?;
        }
        self.end(sources.line)
    }

    /// A part as a thread.
    fn put_part(
        &mut self,
        alloc: Global,
        part: &Part<'_>,
        plan: &PartPlan<'_>,
        numbers: &IndexMap<&str, &str>,
    ) -> Result<(), Fault> {
        let program = Program {
            alloc,
            part,
            plan,
            numbers,
        };
        let entry = program.entry()?;
        self.put_thread(part, plan, &entry)?;
        self.put_within(part)?;
        self.put_registers(part)?;
        match &part.sources {
            Some(sources) => self.put_sources(sources, &plan.places)?,
            None => program.put(self, &entry)?,
        }
        self.text.push_str("end\n")?;
        Ok(())
    }

    /// All that is declared before the threads.
    fn put_declarations(&mut self, system: &System<'_>, plan: &Plan<'_>) -> Result<(), AllocError> {
        self.put_memory(plan.memory)?;
        for object in &plan.objects.list {
            self.put_object(object)?;
        }
        for interrupt in &plan.interrupts {
            self.put_interrupt(interrupt)?;
        }
        for part in &system.parts {
            for rate in &part.rates {
                self.put_rate(rate)?;
            }
        }
        for capability in &plan.capabilities {
            self.put_capability(capability)?;
        }
        for (part, plan) in system.parts.iter().zip(plan.parts.as_slice()) {
            self.put_space(part, plan)?;
        }
        for declared in &system.declared {
            self.put_content(declared)?;
        }
        for promise in &system.promises {
            self.put_promise(promise, plan.capabilities.as_slice())?;
        }
        Ok(())
    }
}

/// The text of a system.
pub(crate) fn text_of(
    alloc: Global,
    joined: &Joined,
    system: &System<'_>,
    plan: &Plan<'_>,
) -> Result<String, Fault> {
    let mut writer = Writer::new(alloc, joined);
    writer.put_declarations(system, plan)?;
    for (part, plan) in system.parts.iter().zip(plan.parts.as_slice()) {
        writer.put_part(alloc, part, plan, &system.numbers)?;
    }
    Ok(writer.text)
}
