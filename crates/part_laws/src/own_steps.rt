//! Steps of a thread of a part, in the whole and alone.

ghost use Rattle.part_laws.specs.own.Dispatch.{OwnInstructionsAgree};
ghost use Rattle.part_laws.specs.own.Read.{ThreadsMapAsTheyMayRead};
ghost use Rattle.part_laws.specs.own.Steps.{OwnStepsAgreeWith};

use crate::own_calls::laws_on_invocations;
use headline::authority::events_stay_within_authority;
use headline::invocations::{events_go_well, steps_go_well};
use headline::kept::stores_touch_no_thread;
use headline::moves::laws_below;
use headline::starts::slots_are_as_listed;
use headline::steps::{instructions_write_where_stores_may, plain_steps_keep_threads};

/// An instruction of a thread of a part does the same in the whole and alone: the same to registers and memory, and the same call.
pub fn own_instructions_agree()
    ensures { OwnInstructionsAgree }
{}

/// A step of a thread of a part is the same in the whole and alone, and keeps that they agree, where its rings and invocations do.
pub fn own_steps_agree_with()
    ensures { OwnStepsAgreeWith }
{
    laws_below();
    steps_go_well();
}

/// After any events no thread of an accepted image maps a frame for any access whose capability may not read it.
pub fn threads_map_as_they_may_read()
    ensures { ThreadsMapAsTheyMayRead }
{
    laws_on_invocations();
    plain_steps_keep_threads();
    instructions_write_where_stores_may();
    stores_touch_no_thread();
    slots_are_as_listed();
    events_go_well();
    events_stay_within_authority();
}
