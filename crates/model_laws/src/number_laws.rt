//! What authority rules out by the number of the call: who waits for a notification, who signals one, who gives a right to reply, and
//! who acknowledges a line.

ghost use Rattle.std.specs.Prelude.{ℕ, ◌≡◌, ◌≢◌, Contains, Some, None};
ghost use Rattle.model.specs.declared.system_calls.ReceiveCall.{ReceiveCall};
ghost use Rattle.model.specs.declared.system_calls.SendCall.{SendCall};
ghost use Rattle.model.specs.declared.system_calls.SendCall.TheVariants.{Calling};
ghost use Rattle.model.specs.declared.system_calls.SystemCall.{SystemCall};
ghost use Rattle.model.specs.declared.system_calls.SystemCall.TheVariants.{Receives, Replies, RepliesAndReceives, Sends};
ghost use Rattle.model.specs.Acceptance.Authority.{WithinAuthority, self_of};
ghost use Rattle.model.specs.Images.Image.{Image, Thread};
ghost use Rattle.model.specs.Kernel.State.{State, Blocked, NotificationObject, NotificationState, ThreadObject, ThreadState};
ghost use Rattle.model_laws.specs.Scenarios.{Asks};

/// By a call that sends, or replies, nobody joins those that wait for a notification. It checks `WaitsFor.receives`.
pub fn a_notification_is_waited_for_by_receiving()
    ensures sends { (image : Image) (t : Thread) (s after : State) (notification other : ℕ) (kind : SendCall) (old new : NotificationState)
        → Asks image t s (Sends kind) → s.objects notification ≡ Some (NotificationObject old)
        → after.objects notification ≡ Some (NotificationObject new) → Contains new.waiters other → (Contains old.waiters other → ⊥)
        → WithinAuthority image t s after → ⊥ }
    ensures replies { (image : Image) (t : Thread) (s after : State) (notification other : ℕ) (old new : NotificationState)
        → Asks image t s Replies → s.objects notification ≡ Some (NotificationObject old)
        → after.objects notification ≡ Some (NotificationObject new) → Contains new.waiters other → (Contains old.waiters other → ⊥)
        → WithinAuthority image t s after → ⊥ }
{}

/// By a call that receives no badge joins a notification's word: it stays, or is taken. It checks `is_send` of `Signals`.
pub fn a_notification_is_signalled_by_sending()
    ensures receives { (image : Image) (t : Thread) (s after : State) (notification : ℕ) (kind : ReceiveCall) (old new : NotificationState)
        → Asks image t s (Receives kind) → s.objects notification ≡ Some (NotificationObject old)
        → after.objects notification ≡ Some (NotificationObject new) → old.word ≢ new.word → new.word ≢ 0
        → WithinAuthority image t s after → ⊥ }
    ensures replies { (image : Image) (t : Thread) (s after : State) (notification : ℕ) (old new : NotificationState)
        → Asks image t s RepliesAndReceives → s.objects notification ≡ Some (NotificationObject old)
        → after.objects notification ≡ Some (NotificationObject new) → old.word ≢ new.word → new.word ≢ 0
        → WithinAuthority image t s after → ⊥ }
{}

/// Who receives a message gets the right to reply to the thread only where that makes a Call. It checks `CallsTo.calls`.
pub fn a_right_to_reply_comes_with_call_alone()
    ensures { (image : Image) (t : Thread) (s after : State) (other endpoint : ℕ) (call : SystemCall) (old new : ThreadState)
        → other ≢ self_of image t → Asks image t s call → call ≢ Sends Calling → s.objects other ≡ Some (ThreadObject old)
        → old.status ≡ Blocked endpoint → old.caller ≡ None → after.objects other ≡ Some (ThreadObject new)
        → new.caller ≡ Some (self_of image t) → WithinAuthority image t s after → ⊥ }
{}

/// By a call that receives or replies no line opens, and no interrupt is taken. It checks `is_send` of `Acknowledges`.
pub fn a_line_is_acknowledged_by_sending()
    ensures masked { (image : Image) (t : Thread) (s after : State) (number : ℕ) (kind : ReceiveCall) → Asks image t s (Receives kind)
        → s.masked number ≢ after.masked number → WithinAuthority image t s after → ⊥ }
    ensures pending { (image : Image) (t : Thread) (s after : State) (number : ℕ) (kind : ReceiveCall) → Asks image t s (Receives kind)
        → s.pending number ≢ after.pending number → WithinAuthority image t s after → ⊥ }
    ensures replies { (image : Image) (t : Thread) (s after : State) (number : ℕ) → Asks image t s Replies
        → s.masked number ≢ after.masked number → WithinAuthority image t s after → ⊥ }
    ensures both { (image : Image) (t : Thread) (s after : State) (number : ℕ) → Asks image t s RepliesAndReceives
        → s.masked number ≢ after.masked number → WithinAuthority image t s after → ⊥ }
{}
