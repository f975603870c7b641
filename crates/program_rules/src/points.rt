//! What is noted of all points of a program.

ghost use Rattle.std.specs.Prelude.{ℕ, ◌≡◌, ◌+◌, IfOk, List, option_map};
ghost use Rattle.model.specs.Acceptance.NotedStates.{NotedSlot, image_slots, record_state};
ghost use Rattle.model.specs.Acceptance.PointStates as states;
ghost use Rattle.model.specs.Images.Image.{Image, Thread};
ghost use Rattle.program_rules.specs.Kept.{IsCleanIn, IsSound, noted_by};
ghost use Rattle.program_rules.specs.OfPrograms.{AreRead, IsReadFor};
ghost use Rattle.program_rules.specs.Visits.{IsLeftHere, IsReachedHere};
ghost use Rattle.typestate.specs.Logs.{KeepsParts, ShowsSome};
ghost use Rattle.typestate.specs.Orders.{Rise};

use crate::at_points::AtPoint;
use crate::kept::Known;
use crate::kept_points::KeptPoints;
use crate::notes::{PlacedRecord, RecordsLeft};
use crate::programs::Program;
use crate::records::{MeasuredRecord, bounds_of};
use crate::visits::Visit;
use rv32_isa::decode;
use std::alloc::AllocError;
use typestate::{ShownPart, SlotLog};

/// What is noted of each point of a program.
#[derive(Drop)]
pub(crate) struct Points<'a> {
    pub(crate) kept: KeptPoints<'a>,
    pub(crate) log: SlotLog,
}

/// What is kept of a point that has a record.
#[tactic(auto, unfolding(model::specs::Acceptance::NotedStates::record_state))]
fn recorded(log: &mut SlotLog, placed: &PlacedRecord<'_>) -> Result<AtPoint<Known>, AllocError>
    ensures same { IfOk result (λ k. (image : Image) (t : Thread) → Rise (image_slots image t)
        → noted_by (image_slots image t) log.new k ≡ states.Known (record_state image t placed.now)) }
    ensures sound { IfOk result (λ k. (point : ℕ) → IsSound log.new point k) }
    ensures clean { IfOk result (λ k. (image : Image) (t : Thread) (slots : List NotedSlot) → IsCleanIn image t slots log.new k) }
    ensures others { IfOk result (λ _. KeepsParts log.old log.new) }
{
    let noted = placed.record();
    let part = log.note(noted)?;
    let measured = MeasuredRecord { noted };
    Ok(AtPoint::Known(Known {
        bounds: bounds_of(noted),
        measure: measured.measure(),
        part,
        is_clean: false,
    }))
}

/// What is kept of a point: the state of its record, or what the point before leaves, which was kept in this place.
fn note_own(
    log: &mut SlotLog,
    noted: Option<&PlacedRecord<'_>>,
    derived: &mut AtPoint<Known>,
) -> Result<(), AllocError>
    ensures same { IfOk result (λ _. (image : Image) (t : Thread) → Rise (image_slots image t) → noted_by (image_slots image t) log.new derived.new
        ≡ states.noted_or image t (option_map (λ r. r.now) noted.entry) (noted_by (image_slots image t) log.old derived.old)) }
    ensures sound { IfOk result (λ _. (point : ℕ) → IsSound log.old point derived.old → IsSound log.new point derived.new) }
    ensures clean { IfOk result (λ _. (image : Image) (t : Thread) (slots : List NotedSlot) → IsCleanIn image t slots log.old derived.old
        → IsCleanIn image t slots log.new derived.new) }
    ensures others { IfOk result (λ _. KeepsParts log.old log.new) }
{
    match noted {
        Some(placed) => {
            *derived = recorded(log, placed)?;
            Ok(())
        }
        None => Ok(()),
    }
}

impl Visit<'_, '_, '_, '_> {
    /// Makes of what the point before leaves what is kept of this one: the state of its record, if it has one. Its slots are shown, in
    /// place of others, and looked at. Memory may be refused.
    pub(crate) fn reach(
        &self,
        kept: &mut AtPoint<Known>,
        log: &mut SlotLog,
        shown: &mut ShownPart,
    ) -> Result<(), AllocError>
        requires left { IsLeftHere self.now log.old kept.old }
        requires shown { ShowsSome log.old shown.old }
        ensures reached { IfOk result (λ _. IsReachedHere self.now log.new shown.new kept.new) }
        ensures shown { IfOk result (λ _. ShowsSome log.new shown.new) }
        ensures others { IfOk result (λ _. KeepsParts log.old log.new) }
    {
        note_own(log, self.noted, kept)?;
        kept.show(log, shown)?;
        self.look(kept, log, shown);
        Ok(())
    }
}

impl<'a> Points<'a> {
    /// Notes the next point by its record, or by what the point before leaves, which is kept in place of that one then; and what it
    /// leaves in turn, if no record notes the point after it. Memory may be refused.
    fn note(
        &mut self,
        visit: &Visit<'_, '_, 'a, '_>,
        last: &mut AtPoint<Known>,
        derived: &mut AtPoint<Known>,
        shown: &mut ShownPart,
    ) -> Result<(), AllocError>
        requires read { IsReadFor visit.now.program.now visit.now.point self.old last.old derived.old }
        requires shown { ShowsSome self.old.log shown.old }
        ensures read { IfOk result (λ _. IsReadFor visit.now.program.now (visit.now.point + 1) self.new last.new derived.new) }
        ensures shown { IfOk result (λ _. ShowsSome self.new.log shown.new) }
    {
        visit.reach(derived, &mut self.log, shown)?;
        self.kept.push(visit, last, derived)?;
        *last = *derived;
        visit.pass(derived, &mut self.log, shown)?;
        Ok(())
    }

    /// The points of a program: each has the state of its record, or what the point before leaves. With them comes what is shown of the
    /// slots in the end, for who goes over the points again. Memory may be refused.
    pub(crate) fn of(program: &Program<'a, '_>) -> Result<(Self, ShownPart), AllocError>
        ensures read { IfOk result (λ all. AreRead program.now all.0) }
        ensures shown { IfOk result (λ all. ShowsSome all.0.log all.1) }
    {
        let mut records = RecordsLeft::of(program);
        let mut points = Points {
            kept: KeptPoints::new(program.alloc),
            log: SlotLog::new(program.alloc),
        };
        let mut last = AtPoint::Missing;
        let mut derived = AtPoint::Missing;
        let mut shown = ShownPart::new(program.alloc);
        'notes: for point in 0..program.given.space.thread.word_count() {
            let noted = records.take(point);
            let is_next_noted = records.is_next(point + 1);
            let visit = Visit {
                program,
                point,
                instr: decode(program.given.space.thread.word(point)),
                noted: noted.as_ref(),
                is_next_noted,
            };
            points.note(&visit, &mut last, &mut derived, &mut shown)?;
        }
        Ok((points, shown))
    }
}
