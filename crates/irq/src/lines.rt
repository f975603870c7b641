//! Raising interrupt lines, and acknowledging them.

ghost use Rattle.std.specs.Prelude.{ℕ, ◌≡◌, ◌<◌, option_map};
ghost use Rattle.irq.specs.Signals.{as_signal};
ghost use Rattle.model.specs.Kernel.Interrupts.{acknowledge, binding, raise, signal_of};
ghost use Rattle.model.specs.Kernel.Soundness.{IsSound};
ghost use Rattle.objects.specs.Lives.{SameBeside, state_in};
ghost use Rattle.objects.specs.Tables.{state_of};

use cnode_ops::Kernel;
use model::Cap;
use notify::signal;
use objects::{Line, Live};
use slots::SlotStore;

/// What a line signals: a notification, by its offset in bytes, and with which badge.
#[derive(Clone, Copy)]
struct Signal {
    notification: u32,
    badge: u32,
}

/// What a capability in a line's slot makes it signal.
fn signal_of(capability: Cap) -> Option<Signal>
    ensures { option_map as_signal result ≡ signal_of capability }
{
    match capability {
        Cap::Notification { offset, badge, .. } => Some(Signal {
            notification: offset,
            badge,
        }),
        _ => None,
    }
}

/// What a line is bound to, if it is bound.
fn binding<S: SlotStore>(live: &Live<S>, line: Line) -> Option<Signal>
    ensures { option_map as_signal result ≡ binding (state_in S.slots S.memory live.now) line }
{
    let slot = live.binding(line);
    signal_of(live.store().capability(slot))
}

/// An interrupt comes on a line. It is delivered where the line is bound and not masked, and masks the line
/// then; else it is pending. Lines above 63 do nothing.
///
/// seL4 Reference Manual, "Interrupt Delivery".
pub fn raise<S: SlotStore>(kernel: &mut Kernel<S>, line: u8)
    ensures state { state_in S.slots S.memory kernel.new ≡ raise (state_in S.slots S.memory kernel.old) line }
    ensures beside { SameBeside S.slots S.memory S.order kernel.old kernel.new }
{
    if line > 63 {
        return;
    }
    let line = Line::new(line);
    if kernel.live.is_masked(line) {
        kernel.live.set_pending(line, true);
        return;
    }
    match binding(&kernel.live, line) {
        Some(bound) => {
            signal(&mut kernel.live, bound.notification, bound.badge);
            kernel.live.set_masked(line, true);
        }
        None => kernel.live.set_pending(line, true),
    }
}

/// Takes a line's mask away: the line is 0 to 63. An interrupt that is pending is delivered if the line
/// is bound, and masks it again.
///
/// seL4 Reference Manual, seL4_IRQHandler_Ack.
pub fn ack<S: SlotStore>(kernel: &mut Kernel<S>, line: u8)
    requires line { IsSound (state_in S.slots S.memory kernel.old) → line < 64 }
    ensures state { state_in S.slots S.memory kernel.new ≡ acknowledge (state_in S.slots S.memory kernel.old) line }
    ensures beside { SameBeside S.slots S.memory S.order kernel.old kernel.new }
{
    let live = &mut kernel.live;
    let line = Line::new(line);
    let pending = live.is_pending(line);
    live.set_masked(line, false);
    if !pending {
        return;
    }
    let Some(bound) = binding(live, line) else {
        return;
    };
    live.set_pending(line, false);
    signal(live, bound.notification, bound.badge);
    live.set_masked(line, true);
}
