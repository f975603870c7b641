//! The points of a program, each of which is read.

ghost use Rattle.std.proofs.Props.{props};
ghost use Rattle.std.specs.Prelude.{◌≡◌, ◌+◌, ◌<◌, Some};
ghost use Rattle.model.specs.Acceptance.PointStates.{instruction_at};
ghost use Rattle.model.specs.Machine.Instructions.{IsInstr};
ghost use Rattle.model.specs.declared.instructions.Instr.{Instr as RuleInstr};
ghost use Rattle.program_rules.specs.Kept.{IsRead};
ghost use Rattle.program_rules.specs.Programs.{thread_of};
ghost use Rattle.program_rules.specs.Propositions.{IsAt-prop, IsInstr-prop};

use crate::at_points::AtPoint;
use crate::kept::Known;
use crate::places::Place;
use crate::points::Points;
use crate::programs::Program;
use model::Instr;
use rv32_isa::decode;

/// A program of which each point is read.
#[derive(Clone, Copy)]
pub(crate) struct ReadPoints<'p, 'k, 'a, 's> {
    pub(crate) program: &'p Program<'a, 's>,
    pub(crate) points: &'k Points<'a>,
    ghost read: { IsRead program.now.given.space.image.now (thread_of program.now)
        program.now.given.slots.now points.now.log points.now.kept } by { Prim.hlevel (props, IsAt-prop) },
}

/// A point of such a program, with its instruction, if its word is one.
#[derive(Clone, Copy)]
pub(crate) struct ReadPoint<'p, 'k, 'a, 's> {
    pub(crate) read: ReadPoints<'p, 'k, 'a, 's>,
    pub(crate) point: u32,
    pub(crate) instr: Option<Instr>,
    ghost within: { point < read.program.now.given.space.thread.now.header.words },
    ghost is: { instruction_at read.program.now.given.space.thread.now point ≡ instr },
    ghost valid: { (i : RuleInstr) → instr ≡ Some i → IsInstr i } by { Prim.hlevel (props, IsInstr-prop) },
}

impl ReadPoint<'_, '_, '_, '_> {
    ghost use Rattle.program_rules.specs.OfPrograms.{words_of};
    ghost use Rattle.program_rules.specs.Reads.{IsKeptIn, IsKeptRead};

    /// Makes of what is kept of the point what is kept of the one after it, if the program has one.
    pub(crate) fn pass(&self, kept: &mut AtPoint<Known>)
        requires { IsKeptRead self.now kept.old }
        ensures { self.now.point + 1 < words_of self.now.read.program.now → IsKeptIn self.now.read (self.now.point + 1) kept.new }
    {
        let points = self.read.points;
        let program = self.read.program;
        let point = self.point;
        if points.kept.places.len() <= point as usize + 1 {
            return;
        }
        let place = points.kept.places[point as usize + 1];
        match place {
            Place::Plain => self.pass_plain(kept),
            Place::Called(at) => *kept = points.kept.after_call(program, at, kept),
            _ => *kept = points.kept.at_place(place),
        }
    }
}

impl ReadPoints<'_, '_, '_, '_> {
    ghost use Rattle.program_rules.specs.OfPrograms.{words_of};
    ghost use Rattle.program_rules.specs.Reads.{IsKeptIn};

    /// What is kept of a point.
    pub(crate) fn at(&self, point: u32) -> AtPoint<Known>
        requires { point < words_of self.now.program.now }
        ensures { IsKeptIn self.now point result }
    {
        let points = self.points;
        let program = self.program;
        let first = points.kept.first_of(point);
        let mut kept = points.kept.first(first);
        'steps: for before in first..point {
            let here = ReadPoint {
                read: *self,
                point: before,
                instr: decode(program.given.space.thread.word(before)),
            };
            here.pass(&mut kept);
        }
        kept
    }
}
