//! Messages, faults, replies, signals and interrupts keep soundness.

ghost use Rattle.soundness.specs.Laws.{AcknowledgementKeepsSoundness, FaultKeepsSoundness, InterruptKeepsSoundness, PollKeepsSoundness};
ghost use Rattle.soundness.specs.Laws.{ReceiveKeepsSoundness, ReplyKeepsSoundness, SendKeepsSoundness, SignalKeepsSoundness};
ghost use Rattle.soundness.specs.Laws.{TryToReceiveKeepsSoundness, TryToSendKeepsSoundness, WaitKeepsSoundness};

/// A thread that runs sends, or waits to.
pub fn send_keeps_soundness()
    ensures { SendKeepsSoundness }
{}

/// The same where nothing waits.
pub fn try_to_send_keeps_soundness()
    ensures { TryToSendKeepsSoundness }
{}

/// A thread that runs receives, or waits to.
pub fn receive_keeps_soundness()
    ensures { ReceiveKeepsSoundness }
{}

/// The same without waiting.
pub fn try_to_receive_keeps_soundness()
    ensures { TryToReceiveKeepsSoundness }
{}

/// A thread replies to its caller, if it has one.
pub fn reply_keeps_soundness()
    ensures { ReplyKeepsSoundness }
{}

/// A fault is reported to its handler, or stops its thread.
pub fn fault_keeps_soundness()
    ensures { FaultKeepsSoundness }
{}

/// A signal wakes a waiter, or joins the word.
pub fn signal_keeps_soundness()
    ensures { SignalKeepsSoundness }
{}

/// A thread that runs takes a notification's word, or waits for it.
pub fn wait_keeps_soundness()
    ensures { WaitKeepsSoundness }
{}

/// The same without waiting.
pub fn poll_keeps_soundness()
    ensures { PollKeepsSoundness }
{}

/// An interrupt.
pub fn an_interrupt_keeps_soundness()
    ensures { InterruptKeepsSoundness }
{}

/// The acknowledgement of one.
pub fn an_acknowledgement_keeps_soundness()
    ensures { AcknowledgementKeepsSoundness }
{}
