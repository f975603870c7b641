//! The system calls of a thread, by what is known of its registers at each.

use crate::calls::{Call, Target};
use crate::ways::Program;
use certifying::ThreadFindings;
use indexmap::IndexMap;
use model::{Instr, ObjectKind, ObjectType, Range, Register};
use ranges::Bounds;
use rv32_isa::decode;
use source_texts::{Source, SourceText, SourceThread};
use std::alloc::{AllocError, Global};

/// The register of what a system call names, and that of its number.
const CAPABILITY: Register = Register(10);

const NUMBER: Register = Register(17);

/// What a thread does.
#[derive(Drop)]
pub(crate) struct ThreadCalls {
    words: Vec<u32>,
    reached: Vec<u32>,
    pub(crate) calls: Vec<Call>,
}

/// What the slots of a thread's CNode hold, where an address of 32 bits is the number of a slot.
#[derive(Drop)]
struct Slots {
    radix: u32,
    held: IndexMap<u32, Target>,
}

/// The value of a register with this range, if it is known.
fn known(range: Range) -> Option<u32> {
    if range.low == range.high {
        Some(range.low)
    } else {
        None
    }
}

/// What a capability is.
fn target_of(text: &SourceText<'_>, source: Source) -> Target {
    let kind = match source {
        Source::Object(number) => text.kind(number),
        Source::Interrupt(_) => None,
    };
    match kind {
        Some(ObjectType::Object(ObjectKind::Endpoint)) => Target::of(source, true, false),
        Some(ObjectType::Object(ObjectKind::Notification)) => Target::of(source, false, true),
        _ => Target::of(source, false, false),
    }
}

impl Slots {
    /// What a thread's CNode holds. Nothing is known where its guard word leaves bits for further CNodes.
    fn of(
        alloc: Global,
        text: &SourceText<'_>,
        thread: &SourceThread<'_>,
    ) -> Result<Self, AllocError> {
        let radix = u32::from(text.radix(thread.cnode));
        let mut slots = Slots {
            radix,
            held: IndexMap::new(alloc),
        };
        if (thread.guard & 31).saturating_add(radix) == 32 {
            for capability in &text.capabilities {
                if capability.cnode == thread.cnode {
                    let target = target_of(text, capability.source);
                    slots.held.insert(capability.index, target)?;
                }
            }
        }
        Ok(slots)
    }

    /// What an address names.
    fn named(&self, address: Option<u32>) -> Target {
        let Some(address) = address else {
            return Target::Other;
        };
        let index = match 1u32.checked_shl(self.radix) {
            Some(count) => address & count.wrapping_sub(1),
            None => address,
        };
        match self.held.get(&index) {
            Some(target) => *target,
            None => Target::Other,
        }
    }
}

impl ThreadCalls {
    /// What a thread does, by what is found of it.
    pub(crate) fn of(
        alloc: Global,
        text: &SourceText<'_>,
        thread: &SourceThread<'_>,
        words: Vec<u32>,
        findings: &ThreadFindings,
    ) -> Result<Self, AllocError> {
        let slots = Slots::of(alloc, text, thread)?;
        let mut found = ThreadCalls {
            words,
            reached: Vec::new(alloc),
            calls: Vec::new(alloc),
        };
        for record in &findings.known {
            found.add(&slots, record.point, &record.bounds)?;
        }
        Ok(found)
    }

    /// Whether the instruction at a point is a system call.
    fn is_call(&self, point: u32) -> bool {
        match self.words.get(point as usize) {
            Some(word) => matches!(decode(*word), Some(Instr::Ecall)),
            None => false,
        }
    }

    /// A point more that is reached, after those before it.
    fn add(&mut self, slots: &Slots, point: u32, bounds: &Bounds) -> Result<(), AllocError> {
        self.reached.push(point)?;
        if self.is_call(point) {
            if let Some(number) = known(bounds.get(NUMBER)) {
                let target = slots.named(known(bounds.get(CAPABILITY)));
                self.calls.push(Call::of(point, number, target))?;
            }
        }
        Ok(())
    }

    /// The program with the points that are reached.
    pub(crate) fn program(&self) -> Program<'_> {
        Program {
            words: self.words.as_slice(),
            reached: self.reached.as_slice(),
            calls: self.calls.as_slice(),
        }
    }
}
