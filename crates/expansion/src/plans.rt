//! All that is decided of a system.

use crate::capabilities::{Badges, Capability, Interrupt};
use crate::faults::{Fault, refused};
use crate::memory::{Bindings, Memory, memory_of};
use crate::objects::{Objects, radix_of};
use crate::places::{Habits, Places, places_of};
use crate::sizes::count_of;
use described_systems::{Part, System};
use std::alloc::Global;

/// What is decided of a part.
#[derive(Drop)]
pub(crate) struct PartPlan<'a> {
    pub(crate) places: Places<'a>,
    /// The radix of its CNode.
    pub(crate) radix: u32,
}

impl PartPlan<'_> {
    /// The guard word of its CNode: the bits of an address before those of a slot's number are 0.
    pub(crate) fn guard(&self) -> u32 {
        32u32.saturating_sub(self.radix)
    }

    /// How many frames are mapped.
    fn frames(&self) -> u64 {
        let mut pages = 0u64;
        for page in &self.places.pages {
            pages = pages.saturating_add(u64::from(page.frames));
        }
        pages
            .saturating_add(u64::from(self.places.code.count))
            .saturating_add(u64::from(self.places.data.count))
            .saturating_add(u64::from(self.places.stack.count))
    }
}

/// All that is decided of a system.
#[derive(Drop)]
pub(crate) struct Plan<'a> {
    /// What is decided of its parts, in their order.
    pub(crate) parts: Vec<PartPlan<'a>>,
    pub(crate) interrupts: Vec<Interrupt<'a>>,
    pub(crate) capabilities: Vec<Capability<'a>>,
    pub(crate) objects: Objects,
    pub(crate) memory: Memory,
}

/// There are not to be more of something than an image can have. Where there are, that is reported at this line.
fn check_count(alloc: Global, line: u64, what: &str, count: u64, most: u64) -> Result<(), Fault> {
    if count <= most {
        return Ok(());
    }
    Err(refused(
        line,
        format!(in alloc; "there are {count} {what}, and {most} are the most of an image"),
    ))
}

/// The line of the last part.
fn last_line(parts: &[Part<'_>]) -> u64 {
    match parts.last() {
        Some(part) => part.line,
        None => 1,
    }
}

/// What is decided of each part.
fn part_plans<'a>(alloc: Global, parts: &[Part<'a>]) -> Result<Vec<PartPlan<'a>>, Fault> {
    let mut habits = Habits::of(alloc, parts)?;
    let mut plans = Vec::new(alloc);
    for part in parts {
        let radix = radix_of(alloc, part)?;
        let places = places_of(alloc, part, &mut habits)?;
        plans.push(PartPlan { places, radix })?;
    }
    Ok(plans)
}

/// All objects of a system, in their order.
fn objects_of<'a>(
    alloc: Global,
    system: &System<'a>,
    plans: &[PartPlan<'a>],
) -> Result<Objects, Fault> {
    let mut objects = Objects::new(alloc);
    for declared in &system.declared {
        objects.add_declared(declared)?;
    }
    for (part, plan) in system.parts.iter().zip(plans) {
        objects.add_part(part, &plan.places, plan.radix)?;
    }
    objects.arrange()?;
    Ok(objects)
}

/// How many frames all parts have mapped.
fn frame_count(plans: &[PartPlan<'_>]) -> u64 {
    let mut count = 0u64;
    for plan in plans {
        count = count.saturating_add(plan.frames());
    }
    count
}

/// How many page tables all parts have.
fn table_count(plans: &[PartPlan<'_>]) -> u64 {
    let mut count = 0u64;
    for plan in plans {
        count = count.saturating_add(count_of(plan.places.regions.len()));
    }
    count
}

/// No page is to have more words than it has room for.
fn check_contents(alloc: Global, system: &System<'_>) -> Result<(), Fault> {
    for declared in &system.declared {
        let frames = u64::from(declared.frames);
        let (what, count, of_a_frame) = match declared.bytes {
            Some(bytes) => ("bytes of this page", count_of(bytes.len()), 4096u64),
            None => (
                "words of this page",
                count_of(declared.words.len()),
                1024u64,
            ),
        };
        let most = of_a_frame.saturating_mul(frames);
        check_count(alloc, declared.line, what, count, most)?;
    }
    Ok(())
}

/// All that is decided of a system.
pub(crate) fn plan_of<'a>(alloc: Global, system: &System<'a>) -> Result<Plan<'a>, Fault> {
    let all = system.parts.as_slice();
    let line = last_line(all);
    check_count(alloc, line, "parts", count_of(all.len()), 64)?;
    check_contents(alloc, system)?;
    let parts = part_plans(alloc, all)?;
    let frames = frame_count(parts.as_slice());
    check_count(alloc, line, "mapped pages", frames, 4096)?;
    check_count(
        alloc,
        line,
        "page tables",
        table_count(parts.as_slice()),
        1024,
    )?;
    let mut badges = Badges::new(alloc);
    let interrupts = badges.interrupts(all)?;
    let capabilities = badges.capabilities(all)?;
    let objects = objects_of(alloc, system, parts.as_slice())?;
    let bindings = Bindings {
        interrupts: count_of(interrupts.len()),
        frames,
    };
    let memory = memory_of(alloc, &objects, bindings)?;
    check_count(alloc, line, "objects", count_of(objects.list.len()), 4096)?;
    Ok(Plan {
        parts,
        interrupts,
        capabilities,
        objects,
        memory,
    })
}
