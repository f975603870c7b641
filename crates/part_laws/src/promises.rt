//! Both promises: parts run as alone, and parts above all others are undisturbed.

ghost use Rattle.part_laws.specs.PromiseLaws.{OwnStepsMakeItRunAlone, OwnStepsMakeThemUndisturbed};

use crate::changes::{changes_of_a_part_agree, signals_of_a_part_agree};
use crate::outside::{others_have_nothing, others_keep_agreement, queues_are_used};
use crate::own_steps::threads_map_as_they_may_read;
use crate::starts::both_start_alike;
use headline::authority::{
    a_tick_stays_within_authority, an_interrupt_stays_within_authority,
    events_stay_within_authority, words_of_data_stay,
};
use headline::integrity::threads_map_as_they_hold;
use headline::invocations::events_go_well;
use headline::parts::threads_never_hold_more;
use response::levels_run;

/// Where each step in which a thread of the part runs is the same in the whole and alone, and leaves both alike, a part that takes nothing from the
/// others runs as if alone.
pub fn parts_run_as_alone()
    ensures { OwnStepsMakeItRunAlone }
{
    a_tick_stays_within_authority();
    an_interrupt_stays_within_authority();
    events_stay_within_authority();
    words_of_data_stay();
    threads_map_as_they_hold();
    threads_map_as_they_may_read();
    events_go_well();
    threads_never_hold_more();
    changes_of_a_part_agree();
    signals_of_a_part_agree();
    queues_are_used();
    others_have_nothing();
    others_keep_agreement();
    both_start_alike();
}

/// Where each step in which a thread of the part runs is the same on both sides, and leaves both alike, a part that takes nothing from the others, and
/// whose priorities are all above theirs, is undisturbed: over any events of the whole it does what it does alone over the same ones, but that it alone
/// is idle where the others run.
pub fn parts_above_are_undisturbed()
    ensures { OwnStepsMakeThemUndisturbed }
{
    a_tick_stays_within_authority();
    an_interrupt_stays_within_authority();
    events_stay_within_authority();
    words_of_data_stay();
    threads_map_as_they_hold();
    threads_map_as_they_may_read();
    events_go_well();
    threads_never_hold_more();
    changes_of_a_part_agree();
    signals_of_a_part_agree();
    queues_are_used();
    others_have_nothing();
    others_keep_agreement();
    both_start_alike();
    levels_run();
}
