//! Signals.

ghost use Rattle.std.specs.Prelude.{ℕ, ◌≡◌, Some, bit_or};
ghost use Rattle.model.specs.Kernel.Kinds.{kind_at};
ghost use Rattle.model.specs.Kernel.Messages.{deliver_word, signal};
ghost use Rattle.model.specs.Kernel.Retype.{NewNotification, NewThread};
ghost use Rattle.model.specs.Kernel.Scheduling.{wake};
ghost use Rattle.model.specs.Kernel.State.{notification_at};
ghost use Rattle.objects.specs.Lives.{Beside, state};
ghost use Rattle.objects.specs.Waiting.{with_word};

use ipc::deliver_word;
use objects::Live;
use slots::SlotStore;

/// A waiter gets the badge in a0 alone, and runs again.
fn wake_with<S: SlotStore>(live: &mut Live<S>, thread: u32, badge: u32)
    requires there { kind_at (state S.SlotStore live.old) thread ≡ Some NewThread }
    ensures state { state S.SlotStore live.new
        ≡ wake (deliver_word (state S.SlotStore live.old) thread badge) thread }
    ensures beside { Beside S.SlotStore live.old live.new }
{
    deliver_word(live, thread, badge);
    live.wake(thread);
}

/// A signal that nobody waits for joins the badge to the word.
fn join_word<S: SlotStore>(live: &mut Live<S>, notification: u32, badge: u32)
    requires there { kind_at (state S.SlotStore live.old) notification ≡ Some NewNotification }
    ensures state { state S.SlotStore live.new
        ≡ with_word (state S.SlotStore live.old) notification (bit_or (notification_at (state S.SlotStore live.old) notification).word badge) }
    ensures beside { Beside S.SlotStore live.old live.new }
{
    let word = live.word(notification);
    live.set_word(notification, word | badge);
}

/// A signal wakes the first waiter with the badge, or joins the badge to the word.
pub fn signal<S: SlotStore>(live: &mut Live<S>, notification: u32, badge: u32)
    requires there { kind_at (state S.SlotStore live.old) notification ≡ Some NewNotification }
    ensures state { state S.SlotStore live.new
        ≡ signal (state S.SlotStore live.old) notification badge }
    ensures beside { Beside S.SlotStore live.old live.new }
{
    match live.take_waiter(notification) {
        Some(waiter) => wake_with(live, waiter, badge),
        None => join_word(live, notification, badge),
    }
}
