//! What nobody outside of a part holds that takes nothing from the others.

ghost use Rattle.parts.specs.Outside.{NothingTakenIsHeldOutside};

use headline::parts::{held_queues_are_listed, threads_never_hold_more};

/// After any events no thread outside of a part that takes nothing has a capability by which one sends, signals, receives or waits at
/// what a thread of the part takes.
pub fn nothing_taken_is_held_outside()
    ensures { NothingTakenIsHeldOutside }
{
    held_queues_are_listed();
    threads_never_hold_more();
}
