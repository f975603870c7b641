//! A thread whose lines are being read.

ghost use Rattle.std.specs.Prelude.{◌≡◌, [], length, IfOk, MatchResult, slice_index};
ghost use Rattle.asm.specs.declared.faults.Fault.{Fault};
ghost use Rattle.asm.specs.Meaning.{branch_word, buffered_with, coded_with, inside, jump_word, labelled_with, may_end};
ghost use Rattle.asm.specs.Meaning.{measured_with, noting, offset_between, parent_known, ranges_with, record_said, slots_with};
ghost use Rattle.asm.specs.Meaning.{sorted_terms, terms_said, thread_begins, with_registers, word_added, word_at};
ghost use Rattle.asm.specs.Outcomes.{Means};

use crate::faults::Fault;
use crate::keys::insert;
use crate::labels::Labels;
use crate::names::Names;
use asm_line::{Code, Line, Name, Parent, ThreadLine, Words};
use image::{RecordParts, ThreadParts};
use model::{BranchOp, Instr, RangeEntry, Register, RegisterEntry, SlotEntry, TermEntry};
use rv32_isa::{encode, has_spelling};
use std::alloc::Global;
use std::marker::Model;

/// How many of each a thread or a record has at most.
const MOST_REGISTERS: usize = model::MOST_REGISTERS as usize;

const MOST_WORDS: usize = model::MOST_WORDS as usize;

const MOST_RANGES: usize = model::MOST_REGISTERS as usize;

const MOST_SLOTS: usize = model::MOST_SLOTS as usize;

const MOST_TERMS: usize = 4;

/// What says that there is no parent CNode and no index.
const NO_PARENT: u32 = u32::MAX;

/// The number for no message buffer.
pub(crate) const NO_BUFFER: u32 = u32::MAX;

/// A thread whose line `end` is still to come.
#[derive(Drop)]
pub(crate) struct OpenThread {
    parts: ThreadParts,
    /// What the certificate says of the next instruction.
    record: Option<RecordParts>,
}

impl Model for OpenThread {
    ghost use Rattle.asm.specs.Threads.{OpenDraft};

    ghost Value = { OpenDraft };

    ghost view = { λ o. record { thread = o.parts; next = o.record } };
}

/// How far it is from one point to another, in bytes, if an instruction may reach as far.
#[tactic(auto, unfolding(crate::specs::Meaning::offset_between))]
fn distance(from: u32, to: u32) -> Result<i32, Fault>
    ensures { Means result (λ bytes. bytes) (offset_between from to) }
{
    let bytes = (i64::from(to) - i64::from(from)) * 4;
    if -(1 << 20) <= bytes && bytes < 1 << 20 {
        Ok(bytes as i32)
    } else {
        Err(Fault::Range)
    }
}

/// The word of a jump, if it reaches as far.
fn jump_word(rd: Register, offset: i32) -> Result<u32, Fault>
    ensures { Means result (λ word. word) (jump_word rd offset) }
{
    let instr = Instr::Jal { rd, offset };
    if has_spelling(instr) {
        Ok(encode(instr))
    } else {
        Err(Fault::Range)
    }
}

/// The word of a branch, if it reaches as far.
fn branch_word(op: BranchOp, rs1: Register, rs2: Register, offset: i32) -> Result<u32, Fault>
    ensures { Means result (λ word. word) (branch_word op rs1 rs2 offset) }
{
    let instr = Instr::Branch {
        op,
        rs1,
        rs2,
        offset,
    };
    if has_spelling(instr) {
        Ok(encode(instr))
    } else {
        Err(Fault::Range)
    }
}

/// The word of a program at a point.
#[tactic(auto, unfolding(crate::specs::Meaning::word_at))]
fn word_at<'a>(point: u32, code: &Code<'a>, labels: &Labels<'a>) -> Result<u32, Fault>
    ensures { Means result (λ word. word) (word_at labels.now point code.now) }
{
    match code {
        Code::Word(word) => Ok(*word),
        Code::Jump { rd, target } => {
            let to = labels.point(target)?;
            jump_word(*rd, distance(point, to)?)
        }
        Code::Branch {
            op,
            rs1,
            rs2,
            target,
        } => {
            let to = labels.point(target)?;
            branch_word(*op, *rs1, *rs2, distance(point, to)?)
        }
    }
}

/// The CNode and the index of a parent, as an image has them.
#[tactic(auto, unfolding(crate::specs::Meaning::parent_known))]
fn parent_of<'a>(names: &Names<'a>, parent: &Parent<'a>) -> Result<(u32, u32), Fault>
    ensures { Means result (λ numbers. numbers) (parent_known names.now parent.now) }
{
    match parent {
        Parent::Boot => Ok((NO_PARENT, NO_PARENT)),
        Parent::Slot { cnode, index } => Ok((names.object(cnode)?, *index)),
    }
}

/// The terms of a `measure` line, whose registers rise.
fn terms_in(alloc: Global, words: Words<'_>) -> Result<Vec<TermEntry>, Fault>
    ensures { Means result (λ read. read.items) (sorted_terms [] (terms_said words.entry)) }
{
    let mut read = Vec::new(alloc);
    let mut rest = words;
    'terms: while let Some((term, words)) = rest.next_term() {
        insert(&mut read, MOST_TERMS, term)?;
        rest = words;
    }
    Ok(read)
}

/// A record of a point with no more than its measure.
#[tactic(auto, unfolding(crate::specs::Meaning::record_said))]
fn measured(
    alloc: Global,
    point: u32,
    constant: i64,
    terms: Words<'_>,
) -> Result<RecordParts, Fault>
    ensures { Means result (λ made. made) (record_said point constant terms.entry) }
{
    let terms = terms_in(alloc, terms)?;
    Ok(RecordParts {
        point,
        constant,
        ranges: Vec::new(alloc),
        slots: Vec::new(alloc),
        terms,
    })
}

/// Adds a range to a record.
#[tactic(auto, unfolding(crate::specs::Meaning::ranges_with))]
fn note_range(noted: &mut RecordParts, entry: RangeEntry) -> Result<(), Fault>
    ensures { Means result (λ _. noted.new) (ranges_with entry noted.old) }
{
    insert(&mut noted.ranges, MOST_RANGES, entry)
}

/// Adds a slot to a record.
#[tactic(auto, unfolding(crate::specs::Meaning::slots_with))]
fn note_slot<'a>(
    noted: &mut RecordParts,
    names: &Names<'a>,
    cnode: &Name<'a>,
    index: u32,
    words: [u32; 2],
    parent: &Parent<'a>,
) -> Result<(), Fault>
    ensures { Means result (λ _. noted.new) (slots_with names.now cnode.now index (slice_index words 0) (slice_index words 1) parent.now noted.old) }
{
    let cnode = names.object(cnode)?;
    let from = parent_of(names, parent)?;
    let [word0, word1] = words;
    let entry = SlotEntry {
        cnode,
        index,
        word0,
        word1,
        parent_cnode: from.0,
        parent_index: from.1,
    };
    insert(&mut noted.slots, MOST_SLOTS, entry)
}

impl OpenThread {
    /// A thread at its first line.
    #[tactic(auto, unfolding(crate::specs::Meaning::thread_begins))]
    pub(crate) fn begin<'a>(
        alloc: Global,
        line: &ThreadLine<'a>,
        names: &Names<'a>,
        labels: &Labels<'a>,
    ) -> Result<OpenThread, Fault>
        ensures { Means result (λ begun. begun) (thread_begins labels.now names.now line.now) }
    {
        let parts = ThreadParts {
            tcb: names.object(&line.tcb)?,
            cnode: names.object(&line.cnode)?,
            guard: line.guard,
            root: names.object(&line.root)?,
            priority: line.priority,
            budget: line.budget,
            fault: line.fault,
            buffer: NO_BUFFER,
            entry: labels.point(&line.entry)?,
            base: line.base,
            registers: Vec::new(alloc),
            words: Vec::new(alloc),
            records: Vec::new(alloc),
        };
        Ok(OpenThread {
            parts,
            record: None,
        })
    }

    /// The number of the next instruction, from 0.
    fn point(&self) -> Result<u32, Fault>
        ensures { MatchResult result (λ point. point ≡ length self.now.thread.words) (λ fault. fault ≡ Fault.Memory) }
    {
        let point = self.parts.words.len();
        if point <= u32::MAX as usize {
            Ok(point as u32)
        } else {
            Err(Fault::Memory)
        }
    }

    /// Gives the thread its message buffer, once.
    #[tactic(auto, unfolding(crate::specs::Meaning::buffered_with))]
    pub(crate) fn add_buffer<'a>(
        &mut self,
        names: &Names<'a>,
        frame: &Name<'a>,
    ) -> Result<(), Fault>
        ensures { Means result (λ _. self.new) (buffered_with names.now self.old frame.now) }
    {
        let frame = names.object(frame)?;
        if self.parts.buffer != NO_BUFFER {
            return Err(Fault::Range);
        }
        self.parts.buffer = frame;
        Ok(())
    }

    #[tactic(auto, unfolding(crate::specs::Meaning::with_registers))]
    pub(crate) fn add_register(&mut self, entry: RegisterEntry) -> Result<(), Fault>
        ensures { Means result (λ _. self.new) (with_registers self.old entry) }
    {
        insert(&mut self.parts.registers, MOST_REGISTERS, entry)
    }

    /// Begins the record of the next instruction.
    #[tactic(auto, unfolding(crate::specs::Meaning::measured_with))]
    pub(crate) fn add_measure(
        &mut self,
        alloc: Global,
        constant: i64,
        terms: Words<'_>,
    ) -> Result<(), Fault>
        ensures { Means result (λ _. self.new) (measured_with self.old constant terms.entry) }
    {
        if self.record.is_some() {
            return Err(Fault::Range);
        }
        let point = self.point()?;
        self.record = Some(measured(alloc, point, constant, terms)?);
        Ok(())
    }

    pub(crate) fn add_range(&mut self, entry: RangeEntry) -> Result<(), Fault>
        ensures { Means result (λ _. self.new) (noting (ranges_with entry) self.old) }
    {
        match &mut self.record {
            Some(record) => note_range(record, entry),
            None => Err(Fault::Syntax),
        }
    }

    pub(crate) fn add_slot<'a>(
        &mut self,
        names: &Names<'a>,
        cnode: &Name<'a>,
        index: u32,
        words: [u32; 2],
        parent: &Parent<'a>,
    ) -> Result<(), Fault>
        ensures { Means result (λ _. self.new) (noting (slots_with names.now cnode.now index (slice_index words 0) (slice_index words 1) parent.now) self.old) }
    {
        match &mut self.record {
            Some(record) => note_slot(record, names, cnode, index, words, parent),
            None => Err(Fault::Syntax),
        }
    }

    /// Puts a word after those of the program, with what the certificate says of it.
    #[tactic(auto, unfolding(crate::specs::Meaning::word_added))]
    fn push_word(&mut self, word: u32) -> Result<(), Fault>
        ensures { Means result (λ _. self.new) (word_added self.old word) }
    {
        if MOST_WORDS <= self.parts.words.len() {
            return Err(Fault::Range);
        }
        self.parts.words.push(word)?;
        if let Some(record) = self.record.take() {
            self.parts.records.push(record)?;
        }
        Ok(())
    }

    #[tactic(auto, unfolding(crate::specs::Meaning::coded_with))]
    pub(crate) fn add_code<'a>(&mut self, code: &Code<'a>, labels: &Labels<'a>) -> Result<(), Fault>
        ensures { Means result (λ _. self.new) (coded_with labels.now self.old code.now) }
    {
        let word = word_at(self.point()?, code, labels)?;
        self.push_word(word)
    }

    /// Adds a word of the program, with a label before it or none.
    fn add_labelled<'a>(
        &mut self,
        label: Option<Name<'a>>,
        code: &Code<'a>,
        number: u64,
        labels: &Labels<'a>,
    ) -> Result<(), Fault>
        ensures { Means result (λ _. self.new) (labelled_with labels.now number self.old label.entry code.now) }
    {
        if let Some(name) = label {
            labels.check_first(&name, number)?;
        }
        self.add_code(code, labels)
    }

    /// Adds what a line says that is not the thread's last one.
    #[tactic(auto, unfolding(crate::specs::Meaning::inside))]
    pub(crate) fn add<'a>(
        &mut self,
        alloc: Global,
        line: Line<'a>,
        number: u64,
        names: &Names<'a>,
        labels: &Labels<'a>,
    ) -> Result<(), Fault>
        ensures { Means result (λ _. self.new) (inside labels.now number names.now self.old line.entry) }
    {
        match line {
            Line::Buffer(frame) => self.add_buffer(names, &frame),
            Line::Register(entry) => self.add_register(entry),
            Line::Measure { constant, terms } => self.add_measure(alloc, constant, terms),
            Line::Range(entry) => self.add_range(entry),
            Line::Slot {
                cnode,
                index,
                word0,
                word1,
                parent,
            } => self.add_slot(names, &cnode, index, [word0, word1], &parent),
            Line::Label(name) => labels.check_first(&name, number),
            Line::Code { label, code } => self.add_labelled(label, &code, number, labels),
            _ => Err(Fault::Syntax),
        }
    }

    /// A thread may not end before its first instruction, nor after a measure without one.
    #[tactic(auto, unfolding(crate::specs::Meaning::may_end))]
    fn check_end(&self) -> Result<(), Fault>
        ensures { Means result (λ _. tt) (may_end self.now) }
    {
        if self.record.is_some() {
            return Err(Fault::Syntax);
        }
        if self.parts.words.is_empty() {
            return Err(Fault::Range);
        }
        Ok(())
    }

    /// The thread at its line `end`.
    pub(crate) fn end(self) -> Result<ThreadParts, Fault>
        ensures thread { IfOk result (λ thread. thread ≡ self.thread) }
        ensures meant { Means result (λ _. tt) (may_end self) }
    {
        match self.check_end() {
            Ok(()) => {
                drop(self.record);
                Ok(self.parts)
            }
            Err(fault) => {
                drop(self);
                Err(fault)
            }
        }
    }
}
