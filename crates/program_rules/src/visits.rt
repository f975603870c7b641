//! A point of a program, and what is known there.

ghost use Rattle.std.proofs.Props.{props};
ghost use Rattle.std.specs.Prelude.{◌≡◌, ◌≢◌, ◌+◌, ◌<◌, Some, is_some, option_map, true};
ghost use Rattle.model.specs.Acceptance.NotedStates.{record_of};
ghost use Rattle.model.specs.Acceptance.PointStates.{instruction_at, noted};
ghost use Rattle.model.specs.Acceptance.PointStates as states;
ghost use Rattle.model.specs.Machine.Instructions.{IsInstr};
ghost use Rattle.model.specs.declared.instructions.Instr.TheVariants.{Ecall};
ghost use Rattle.model.specs.declared.instructions.Instr.{Instr as RuleInstr};
ghost use Rattle.program_rules.specs.Propositions.{IsAt-prop, IsInstr-prop};
ghost use Rattle.program_rules.specs.Kept.{IsRead, state_by};
ghost use Rattle.program_rules.specs.Programs.{thread_of};
ghost use Rattle.typestate.specs.Differences.{slots_of};
ghost use Rattle.typestate.specs.Logs.{Shows};
ghost use Rattle.typestate.specs.Strays.{NoneStray};

use crate::kept::Known;
use crate::notes::PlacedRecord;
use crate::points::Points;
use crate::programs::Program;
use model::Instr;
use typestate::{NotedSlots, Part, ShownPart};

/// A point of a program, with what the certificate lists there.
#[derive(Clone, Copy)]
pub(crate) struct Visit<'p, 'n, 'a, 's> {
    pub(crate) program: &'p Program<'a, 's>,
    pub(crate) point: u32,
    /// The instruction there, if its word is one.
    pub(crate) instr: Option<Instr>,
    /// The record of the point, if it has one.
    pub(crate) noted: Option<&'n PlacedRecord<'a>>,
    /// Whether the next point has a record.
    pub(crate) is_next_noted: bool,
    ghost within: { point < program.now.given.space.thread.now.header.words },
    ghost is: { instruction_at program.now.given.space.thread.now point ≡ instr },
    ghost valid: { (i : RuleInstr) → instr ≡ Some i → IsInstr i } by { Prim.hlevel (props, IsInstr-prop) },
    ghost listed: { option_map (λ r. r.now) noted ≡ record_of program.now.given.space.thread.now point },
    ghost next: { is_next_noted ≡ is_some (record_of program.now.given.space.thread.now (point + 1)) },
}

/// The slots at a point.
#[derive(Clone, Copy)]
pub(crate) struct VisitedSlots<'p, 'n, 'h, 'a, 's> {
    pub(crate) visit: Visit<'p, 'n, 'a, 's>,
    pub(crate) slots: NotedSlots<'h>,
    /// Whether it is known that none is one that the thread may not have.
    pub(crate) is_clean: bool,
    ghost image: { slots.image.now ≡ visit.program.now.given.slots.now },
    ghost clean: { is_clean ≡ true → NoneStray visit.program.now.given.space.image.now visit.program.now.given.space.thread.now (slots_of slots) },
}

/// The slots of a part of the log, shown, in a program of which each point is read.
#[derive(Clone, Copy)]
pub(crate) struct Seen<'p, 'k, 'h, 'a, 's> {
    pub(crate) program: &'p Program<'a, 's>,
    pub(crate) points: &'k Points<'a>,
    pub(crate) part: Part,
    pub(crate) shown: &'h ShownPart,
    ghost read: { IsRead program.now.given.space.image.now (thread_of program.now)
        program.now.given.slots.now points.now.log points.now.kept } by { Prim.hlevel (props, IsAt-prop) },
    ghost shows: { Shows points.now.log part shown.now },
}

/// An instruction that is no system call, at a point with a state, whose slots are shown.
#[derive(Clone, Copy)]
pub(crate) struct PlainPoint<'p, 'n, 'k, 'h, 'c, 'a, 's> {
    pub(crate) visit: Visit<'p, 'n, 'a, 's>,
    pub(crate) points: &'k Points<'a>,
    pub(crate) shown: &'h ShownPart,
    pub(crate) known: &'c Known,
    pub(crate) instr: Instr,
    ghost read: { IsRead visit.program.now.given.space.image.now
        (thread_of visit.program.now) visit.program.now.given.slots.now points.now.log points.now.kept } by { Prim.hlevel (props, IsAt-prop) },
    ghost shows: { Shows points.now.log known.now.part shown.now },
    ghost kept: { states.Known (state_by visit.program.now.given.slots.now points.now.log known.now)
        ≡ noted visit.program.now.given.space.image.now (thread_of visit.program.now) visit.point },
    ghost valid: { IsInstr instr } by { Prim.hlevel (props, IsInstr-prop) },
    ghost is: { instruction_at visit.program.now.given.space.thread.now visit.point ≡ Some instr },
    ghost plain: { instr ≢ Ecall },
}
