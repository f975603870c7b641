//! Of which registers the ranges are needed at each point: those that an address, a system call, a branch or a measure rests on.

use crate::Fault;
use crate::bare_threads::BareThread;
use crate::costs::cost_at;
use crate::forms::Form;
use crate::graph::{Graph, changes};
use crate::ways::Way;
use model::{Instr, Range, Register};
use ranges::Bounds;
use rv32_isa::decode;

/// How often all points are gone through at most.
const MOST_ROUNDS: u32 = 10_000;

/// The register that has a system call's number.
const NUMBER: Register = Register(17);

/// The register that names its capability.
const CAPABILITY: Register = Register(10);

/// The register that has its info word.
const INFO: Register = Register(11);

/// The registers that have the words of a message.
const WORDS: [Register; 8] = [
    Register(12),
    Register(13),
    Register(14),
    Register(15),
    Register(18),
    Register(19),
    Register(20),
    Register(21),
];

/// A set of registers.
#[derive(Clone, Copy, PartialEq, Eq)]
pub(crate) struct Registers {
    has: [bool; 32],
}

impl Registers {
    /// No register.
    pub(crate) fn none() -> Self {
        Registers { has: [false; 32] }
    }

    /// All registers.
    pub(crate) fn all() -> Self {
        Registers { has: [true; 32] }
    }

    /// Whether a register is one of them.
    pub(crate) fn contains(&self, register: u32) -> bool {
        match self.has.get(register as usize) {
            Some(has) => *has,
            None => false,
        }
    }

    /// Adds a register.
    fn add(&mut self, register: u32) {
        if let Some(has) = self.has.get_mut(register as usize) {
            *has = true;
        }
    }

    /// Adds these registers.
    fn add_all(&mut self, registers: &[Register]) {
        'registers: for register in registers {
            self.add(u32::from(register.0));
        }
    }

    /// Adds the registers of another set.
    fn add_set(&mut self, other: &Registers) {
        'registers: for register in 1..32u32 {
            if other.contains(register) {
                self.add(register);
            }
        }
    }
}

/// The range of a register, by its number.
fn range_of(bounds: &Bounds, register: Register) -> Range {
    if register.0 < 32 {
        bounds.get(register)
    } else {
        Range::FULL
    }
}

/// Adds what a register's instruction reads.
fn add_read(read: &mut Registers, instr: Instr) {
    match instr {
        Instr::Branch { rs1, rs2, .. } | Instr::Registers { rs1, rs2, .. } => {
            read.add_all(&[rs1, rs2]);
        }
        Instr::Immediate { rs1, .. } | Instr::Shift { rs1, .. } => read.add_all(&[rs1]),
        _ => {}
    }
}

/// The words of a message whose registers have single values, and where ranges are promised, those whose ranges are not full.
fn add_words(needed: &mut Registers, bounds: &Bounds, info: u32, promises: bool) {
    let count = (info % 128) as usize;
    'words: for (number, word) in WORDS.iter().enumerate() {
        let range = range_of(bounds, *word);
        if number < count && (range.value().is_some() || (promises && range != Range::FULL)) {
            needed.add(u32::from(word.0));
        }
    }
}

/// What a system call rests on: its number, its capability, the words of an invocation, and what is promised of a message.
fn add_call(needed: &mut Registers, bounds: &Bounds, promises: bool) {
    needed.add_all(&[NUMBER]);
    let number = range_of(bounds, NUMBER).value();
    if !matches!(number, Some(6 | 7 | 9)) {
        needed.add_all(&[CAPABILITY]);
    }
    if let (Some(1 | 3 | 4), Some(info)) = (number, range_of(bounds, INFO).value()) {
        needed.add_all(&[INFO]);
        add_words(needed, bounds, info, promises);
    }
}

/// What an instruction rests on, whatever is needed after it.
fn add_own(needed: &mut Registers, instr: Instr, bounds: &Bounds, promises: bool) {
    match instr {
        Instr::Load { rs1, .. } | Instr::Store { rs1, .. } => needed.add_all(&[rs1]),
        Instr::Ecall => add_call(needed, bounds, promises),
        _ => {}
    }
}

/// The registers of a measure.
fn add_measure(needed: &mut Registers, cost: &Form) {
    'registers: for register in 1..32u32 {
        if cost.coefficient(register) != 0 {
            needed.add(register);
        }
    }
}

/// Whether a branch narrows a register that is needed on a way from it.
fn narrows(way: &Way, bounds: &Bounds, needed: &Registers, register: Register) -> bool {
    needed.contains(u32::from(register.0))
        && range_of(&way.behind, register) != range_of(bounds, register)
}

/// Whether a branch decides something that is needed: there is one way only, or a way narrows what is needed there.
fn decides(ways: &[Way], needs: &[Registers], bounds: &Bounds, both: [Register; 2]) -> bool {
    if ways.len() < 2 {
        return true;
    }
    'ways: for way in ways {
        if let Some(needed) = needs.get(way.target as usize) {
            let [first, second] = both;
            if narrows(way, bounds, needed, first) || narrows(way, bounds, needed, second) {
                return true;
            }
        }
    }
    false
}

/// Adds what is needed before a way for what is needed after it.
fn add_behind(needed: &mut Registers, way: &Way, behind: &Registers, instr: Instr) {
    let mut writes = false;
    'registers: for register in 1..32u32 {
        if behind.contains(register) {
            if changes(way, register) {
                writes = true;
            } else {
                needed.add(register);
            }
        }
    }
    if writes {
        add_read(needed, instr);
    }
}

/// What a graph's points have to know, and the instruction of each.
#[derive(Drop)]
struct Needs<'g> {
    graph: &'g Graph,
    costs: &'g [Option<Form>],
    needs: Vec<Registers>,
    /// Whether the image has promises of messages.
    promises: bool,
}

impl Needs<'_> {
    /// What is needed at a point.
    fn needed_at(&self, point: u32, instr: Instr, bounds: &Bounds) -> Registers {
        let mut needed = Registers::none();
        add_own(&mut needed, instr, bounds, self.promises);
        if let Some(cost) = cost_at(self.costs, point) {
            add_measure(&mut needed, &cost);
        }
        let ways = self.graph.ways_from(point);
        'ways: for way in ways {
            if let Some(behind) = self.needs.get(way.target as usize) {
                add_behind(&mut needed, way, behind, instr);
            }
        }
        if let Instr::Branch { rs1, rs2, .. } = instr {
            if decides(ways, &self.needs, bounds, [rs1, rs2]) {
                needed.add_all(&[rs1, rs2]);
            }
        }
        needed
    }

    /// Notes what is needed at a point, and answers whether it is more than before.
    fn look_at(&mut self, point: u32, instr: Instr) -> bool {
        let Some(bounds) = self.graph.bounds_at(point) else {
            return false;
        };
        let needed = self.needed_at(point, instr, bounds);
        match self.needs.get_mut(point as usize) {
            Some(place) => {
                let before = *place;
                place.add_set(&needed);
                *place != before
            }
            None => false,
        }
    }
}

impl BareThread<'_, '_> {
    /// Goes through all points once, from the last to the first, and answers whether more is needed than before.
    fn look_at_all(&self, needs: &mut Needs<'_>) -> bool {
        let mut more = false;
        'points: for point in (0..self.given.space.thread.word_count()).rev() {
            if let Some(instr) = decode(self.given.space.thread.word(point)) {
                more |= needs.look_at(point, instr);
            }
        }
        more
    }

    /// Of which registers the ranges are needed at each point.
    pub(crate) fn needs(
        &self,
        graph: &Graph,
        costs: &[Option<Form>],
    ) -> Result<Vec<Registers>, Fault> {
        let mut none = Vec::new(self.alloc);
        'points: for _ in 0..graph.count {
            none.push(Registers::none())?;
        }
        let mut needs = Needs {
            graph,
            costs,
            needs: none,
            promises: self.given.space.image.header().promises > 0,
        };
        'rounds: for _ in 0..MOST_ROUNDS {
            if !self.look_at_all(&mut needs) {
                break;
            }
        }
        Ok(needs.needs)
    }
}

/// Ranges of these registers alone.
pub(crate) fn only(bounds: &Bounds, registers: &Registers) -> Bounds {
    let mut kept = *bounds;
    'registers: for register in 1..32u8 {
        if !registers.contains(u32::from(register)) {
            kept.set(Register(register), Range::FULL);
        }
    }
    kept
}
