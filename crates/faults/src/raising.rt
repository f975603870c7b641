//! Faults that are raised.

ghost use Rattle.std.specs.Prelude.{◌≡◌, Some};
ghost use Rattle.faults.specs.Handlers.{handler_told};
ghost use Rattle.model.specs.Kernel.Faults.{fault as faulted, tell};
ghost use Rattle.model.specs.Kernel.Kinds.{kind_at};
ghost use Rattle.model.specs.Kernel.Retype.{NewEndpoint};
ghost use Rattle.model.specs.Kernel.Soundness.{IsSound};
ghost use Rattle.model.specs.Kernel.State.{Runnable, thread_at};
ghost use Rattle.objects.specs.Lives.{Beside, state};
ghost use Rattle.objects.specs.thread_records.Threads.{message_of};

use crate::handlers::{Handler, find_handler};
use ipc::send;
use objects::{Fault, Live, Sending, Sent, Status};
use slots::SlotStore;

/// A thread that runs reports a fault to its handler, as a call: it waits for the handler's reply.
fn tell<S: SlotStore>(live: &mut Live<S>, thread: u32, fault: Fault, to: Handler)
    requires sound { IsSound (state S.SlotStore live.old) }
    requires endpoint { kind_at (state S.SlotStore live.old) to.endpoint ≡ Some NewEndpoint }
    requires runs { (thread_at (state S.SlotStore live.old) thread).status ≡ Runnable }
    ensures state { state S.SlotStore live.new
        ≡ tell (state S.SlotStore live.old) thread (message_of fault) (handler_told to) }
    ensures beside { Beside S.SlotStore live.old live.new }
{
    let sending = Sending {
        sent: Sent::Fault(fault),
        badge: to.badge,
        grant_reply: true,
    };
    send(live, to.endpoint, thread, sending);
}

/// A thread that runs cannot go on: the fault is reported to its handler, and without a handler it stops.
pub fn raise_fault<S: SlotStore>(live: &mut Live<S>, thread: u32, fault: Fault)
    requires sound { IsSound (state S.SlotStore live.old) }
    requires runs { (thread_at (state S.SlotStore live.old) thread).status ≡ Runnable }
    ensures state { state S.SlotStore live.new
        ≡ faulted (state S.SlotStore live.old) thread (message_of fault) }
    ensures beside { Beside S.SlotStore live.old live.new }
{
    match find_handler(live, thread) {
        Some(to) => tell(live, thread, fault, to),
        None => live.block(thread, Status::Inactive),
    }
}
