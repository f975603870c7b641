//! Waiting for signals.

ghost use Rattle.std.specs.Prelude.{ℕ, ◌≡◌, Some};
ghost use Rattle.model.specs.Kernel.Kinds.{kind_at};
ghost use Rattle.model.specs.Kernel.Messages.{deliver_word, poll, wait, waits_for_signal};
ghost use Rattle.model.specs.Kernel.Retype.{NewNotification, NewThread};
ghost use Rattle.model.specs.Kernel.Soundness.{IsSound};
ghost use Rattle.model.specs.Kernel.State.{Runnable, thread_at};
ghost use Rattle.objects.specs.Lives.{Beside, state};
ghost use Rattle.objects.specs.Waiting.{StandsNowhere, with_word};

use ipc::deliver_word;
use objects::{Live, Status};
use slots::SlotStore;

/// A thread waits after the others at a notification.
fn wait_for_signal<S: SlotStore>(live: &mut Live<S>, notification: u32, thread: u32)
    requires notification { kind_at (state S.SlotStore live.old) notification ≡ Some NewNotification }
    requires there { kind_at (state S.SlotStore live.old) thread ≡ Some NewThread }
    requires apart { StandsNowhere (state S.SlotStore live.old).objects thread }
    ensures state { state S.SlotStore live.new
        ≡ waits_for_signal (state S.SlotStore live.old) notification thread }
    ensures beside { Beside S.SlotStore live.old live.new }
{
    live.push_waiter(notification, thread);
    live.block(
        thread,
        Status::Blocked {
            queue: notification,
        },
    );
}

/// A thread takes the word, which is 0 then.
fn take_word<S: SlotStore>(live: &mut Live<S>, notification: u32, thread: u32, word: u32)
    requires notification { kind_at (state S.SlotStore live.old) notification ≡ Some NewNotification }
    requires there { kind_at (state S.SlotStore live.old) thread ≡ Some NewThread }
    ensures state { state S.SlotStore live.new
        ≡ deliver_word (with_word (state S.SlotStore live.old) notification 0) thread word }
    ensures beside { Beside S.SlotStore live.old live.new }
{
    live.set_word(notification, 0);
    deliver_word(live, thread, word);
}

/// A thread that runs takes a word that is not 0, or waits. Its right to reply stays.
pub fn wait<S: SlotStore>(live: &mut Live<S>, notification: u32, thread: u32)
    requires sound { IsSound (state S.SlotStore live.old) }
    requires notification { kind_at (state S.SlotStore live.old) notification ≡ Some NewNotification }
    requires runs { (thread_at (state S.SlotStore live.old) thread).status ≡ Runnable }
    ensures state { state S.SlotStore live.new
        ≡ wait (state S.SlotStore live.old) notification thread }
    ensures beside { Beside S.SlotStore live.old live.new }
{
    let word = live.word(notification);
    if word == 0 {
        wait_for_signal(live, notification, thread);
    } else {
        take_word(live, notification, thread, word);
    }
}

/// The same without waiting: where the word is 0, so is a0.
pub fn poll<S: SlotStore>(live: &mut Live<S>, notification: u32, thread: u32)
    requires notification { kind_at (state S.SlotStore live.old) notification ≡ Some NewNotification }
    requires there { kind_at (state S.SlotStore live.old) thread ≡ Some NewThread }
    ensures state { state S.SlotStore live.new
        ≡ poll (state S.SlotStore live.old) notification thread }
    ensures beside { Beside S.SlotStore live.old live.new }
{
    let word = live.word(notification);
    if word == 0 {
        deliver_word(live, thread, 0);
    } else {
        take_word(live, notification, thread, word);
    }
}
