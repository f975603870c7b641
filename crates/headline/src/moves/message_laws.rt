//! All threads, over a system call that invokes nothing.

ghost use Rattle.headline.specs.moves.Laws.{MessagesGoWell};

use crate::moves::below::laws_below;

/// A system call that sends, receives, replies, signals, waits for a signal, yields or puts a character has no fault and no error, and
/// keeps the threads' invariant.
pub fn calls_that_invoke_nothing_go_well()
    ensures { MessagesGoWell }
{
    laws_below();
}
