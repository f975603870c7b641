//! What authority rules out, case by case.

ghost use Rattle.std.specs.Prelude.{ℕ, ◌≡◌, ◌≢◌, ◌+◌, ◌*◌, ◌^◌, ◌<◌, ◌≤◌, ◌⊎◌, true, false, bit_or, [], ◌∷◌, Contains, List, Some, None, Ok, Err};
ghost use Rattle.model.specs.declared.capabilities.Cap.TheVariants.{CNode, Empty, Endpoint, Frame, InterruptControl};
ghost use Rattle.model.specs.declared.capabilities.Cap.TheVariants.{InterruptHandler, Notification, PageTable, Tcb, Untyped};
ghost use Rattle.model.specs.declared.rights.Rights.{Rights};
ghost use Rattle.model.specs.declared.lookup_failures.LookupFailure.{LookupFailure};
ghost use Rattle.model.specs.Acceptance.Authority.{IsOwnSlot, WithinAuthority, self_of};
ghost use Rattle.headline.specs.authority.Events.{WithinInterrupt, WithinTick};
ghost use Rattle.model.specs.Capabilities.Rights.{may_grant_reply, rights};
ghost use Rattle.model.specs.Capabilities.Slots.{IsFull, capability_at, parent_at};
ghost use Rattle.model.specs.Images.Image.{Image, Thread};
ghost use Rattle.model.specs.Images.Places.{offset_of};
ghost use Rattle.model.specs.Kernel.Deliveries.{woken};
ghost use Rattle.model.specs.Kernel.Interrupts.{binding};
ghost use Rattle.model.specs.Kernel.Kinds.{frame_around};
ghost use Rattle.model.specs.Kernel.Messages.{a0, buffer_of, delivered, length_between, message_between};
ghost use Rattle.model.specs.Kernel.Scheduling.{current, full_slice};
ghost use Rattle.model.specs.Kernel.Soundness.{IsSound};
ghost use Rattle.model.specs.Kernel.State.{State, Inactive, Blocked, AwaitsReply, Sender, BySend, ByCall, ByFault, FaultMessage};
ghost use Rattle.model.specs.Kernel.State.{CNodeObject, EndpointObject, EndpointState, FrameObject, NotificationObject};
ghost use Rattle.model.specs.Kernel.State.{NotificationState, ThreadObject, ThreadState, endpoint_at, thread_at};
ghost use Rattle.model.specs.Kernel.Steps.{named_slot};
ghost use Rattle.model.specs.Machine.Effects.{advanced};
ghost use Rattle.model.specs.Machine.ProgramMemory.{write};
ghost use Rattle.model_laws.specs.Scenarios.{ChangesUnwritten, HoldsOnly};

/// A thread that holds one endpoint gets no other capability into an empty slot: none to the boot CNode,
/// to all of memory, to a frame, to a line that it has no handler of, or to interrupt control.
pub fn no_capability_comes_from_nothing()
    ensures cnode { (image : Image) (t : Thread) (s after : State) (slot : ℕ) → HoldsOnly image t s (Endpoint 0x8000 (rights 11) 0)
        → capability_at s.slots slot ≡ Empty → capability_at after.slots slot ≡ CNode 0 4 28 → WithinAuthority image t s after → ⊥ }
    ensures untyped { (image : Image) (t : Thread) (s after : State) (slot : ℕ) → HoldsOnly image t s (Endpoint 0x8000 (rights 11) 0)
        → capability_at s.slots slot ≡ Empty → capability_at after.slots slot ≡ Untyped 0 24 0 → WithinAuthority image t s after → ⊥ }
    ensures frame { (image : Image) (t : Thread) (s after : State) (slot : ℕ) → HoldsOnly image t s (Endpoint 0x8000 (rights 11) 0)
        → capability_at s.slots slot ≡ Empty → capability_at after.slots slot ≡ Frame 0x9000 (rights 3) None → WithinAuthority image t s after → ⊥ }
    ensures handler { (image : Image) (t : Thread) (s after : State) (slot number : ℕ) → HoldsOnly image t s (Endpoint 0x8000 (rights 11) 0)
        → capability_at s.slots slot ≡ Empty → capability_at after.slots slot ≡ InterruptHandler number → WithinAuthority image t s after → ⊥ }
    ensures control { (image : Image) (t : Thread) (s after : State) (slot : ℕ) → HoldsOnly image t s (Endpoint 0x8000 (rights 11) 0)
        → capability_at s.slots slot ≡ Empty → capability_at after.slots slot ≡ InterruptControl → WithinAuthority image t s after → ⊥ }
{}

/// Nor does a capability to a thread, or one with more rights or another badge, take the endpoint's place.
pub fn a_capability_stays_what_it_is()
    ensures kind { (image : Image) (t : Thread) (s after : State) (slot : ℕ) → HoldsOnly image t s (Endpoint 0x8000 (rights 1) 7)
        → capability_at s.slots slot ≡ Endpoint 0x8000 (rights 1) 7 → capability_at after.slots slot ≡ Tcb 0x8000 → WithinAuthority image t s after → ⊥ }
    ensures rights { (image : Image) (t : Thread) (s after : State) (slot : ℕ) → HoldsOnly image t s (Endpoint 0x8000 (rights 1) 7)
        → capability_at s.slots slot ≡ Empty → capability_at after.slots slot ≡ Endpoint 0x8000 (rights 3) 7 → WithinAuthority image t s after → ⊥ }
    ensures badge { (image : Image) (t : Thread) (s after : State) (slot : ℕ) → HoldsOnly image t s (Endpoint 0x8000 (rights 1) 7)
        → capability_at s.slots slot ≡ Empty → capability_at after.slots slot ≡ Endpoint 0x8000 (rights 1) 8 → WithinAuthority image t s after → ⊥ }
{}

/// Only a thread that was woken enters the ready list: not what is no thread, nor one that is stopped, nor one twice,
/// and at the tail alone.
pub fn only_woken_threads_enter_the_ready_list()
    ensures nobody { (image : Image) (t : Thread) (s after : State) (priority other : ℕ) → other ≢ self_of image t
        → s.ready priority ≡ [] → after.ready priority ≡ other ∷ [] → after.objects other ≡ None → WithinAuthority image t s after → ⊥ }
    ensures still { (image : Image) (t : Thread) (s after : State) (priority other : ℕ) (changed : ThreadState) → other ≢ self_of image t
        → s.ready priority ≡ [] → after.ready priority ≡ other ∷ [] → after.objects other ≡ Some (ThreadObject changed)
        → changed.status ≡ Inactive → WithinAuthority image t s after → ⊥ }
    ensures twice { (image : Image) (t : Thread) (s after : State) (priority other : ℕ) → other ≢ self_of image t
        → s.ready priority ≡ [] → after.ready priority ≡ other ∷ other ∷ [] → WithinAuthority image t s after → ⊥ }
    ensures front { (image : Image) (t : Thread) (s after : State) (priority first second : ℕ) → first ≢ self_of image t → second ≢ self_of image t
        → first ≢ second → s.ready priority ≡ first ∷ [] → after.ready priority ≡ second ∷ first ∷ [] → WithinAuthority image t s after → ⊥ }
    ensures itself { (image : Image) (t : Thread) (s after : State) (priority : ℕ)
        → s.ready priority ≡ [] → after.ready priority ≡ self_of image t ∷ [] → WithinAuthority image t s after → ⊥ }
{}

/// A tick without a current thread changes no list, and none ends its thread.
pub fn a_tick_moves_its_thread_alone()
    ensures idle { (s after : State) (priority : ℕ) → current s ≡ None → s.ready priority ≢ after.ready priority → WithinTick s after → ⊥ }
    ensures ends { (s after : State) (thread : ℕ) (old : ThreadState) → current s ≡ Some thread → s.objects thread ≡ Some (ThreadObject old)
        → after.objects thread ≡ None → WithinTick s after → ⊥ }
    ensures other { (s after : State) (thread other : ℕ) → current s ≡ Some thread → other ≢ thread
        → s.objects other ≢ after.objects other → WithinTick s after → ⊥ }
{}

/// An interrupt wakes one thread, queues nobody where its line is not bound, and leaves the notification.
pub fn an_interrupt_reaches_one_waiter()
    ensures two { (number : ℕ) (s after : State) (first second : ℕ) (old other : ThreadState) → first ≢ second
        → s.objects first ≡ Some (ThreadObject old) → s.objects second ≡ Some (ThreadObject other)
        → s.objects first ≢ after.objects first → s.objects second ≢ after.objects second → WithinInterrupt number s after → ⊥ }
    ensures unbound { (number : ℕ) (s after : State) (priority : ℕ) → binding s number ≡ None → s.ready priority ≢ after.ready priority
        → WithinInterrupt number s after → ⊥ }
    ensures ends { (number : ℕ) (s after : State) (offset : ℕ) (old : NotificationState) → s.objects offset ≡ Some (NotificationObject old)
        → after.objects offset ≡ None → WithinInterrupt number s after → ⊥ }
{}

/// A receiver that waits is not stopped, one that waits for a reply gets no word, and a receiver gets no
/// right to reply to a third thread.
pub fn another_thread_changes_for_a_reason()
    ensures stopped { (image : Image) (t : Thread) (s after : State) (other endpoint : ℕ) (old : ThreadState) → other ≢ self_of image t
        → s.objects other ≡ Some (ThreadObject old) → old.status ≡ Blocked endpoint → (endpoint_at s endpoint).senders ≡ []
        → after.objects other ≡ Some (ThreadObject (record old { status = Inactive })) → WithinAuthority image t s after → ⊥ }
    ensures word { (image : Image) (t : Thread) (s after : State) (other : ℕ) (old new : ThreadState) → other ≢ self_of image t
        → s.objects other ≡ Some (ThreadObject old) → old.status ≡ AwaitsReply → (thread_at s (self_of image t)).caller ≡ None
        → after.objects other ≡ Some (ThreadObject new) → old ≢ new → WithinAuthority image t s after → ⊥ }
    ensures third { (image : Image) (t : Thread) (s after : State) (other third endpoint : ℕ) (old new : ThreadState) → other ≢ self_of image t
        → third ≢ self_of image t → s.objects other ≡ Some (ThreadObject old) → old.status ≡ Blocked endpoint → old.caller ≡ None
        → after.objects other ≡ Some (ThreadObject new) → new.caller ≡ Some third → WithinAuthority image t s after → ⊥ }
{}

/// A frame does not appear where the thread holds its first bytes alone; a CNode keeps its radix, a frame
/// that stays its bytes, another's page table its mapping, and the machine its shape.
pub fn objects_stay_what_they_are()
    ensures first_byte { (image : Image) (t : Thread) (s after : State) → HoldsOnly image t s (Untyped 0x8000 4 0)
        → s.objects 0x8000 ≡ None → after.objects 0x8000 ≡ Some FrameObject → WithinAuthority image t s after → ⊥ }
    ensures radix { (image : Image) (t : Thread) (s after : State) (offset : ℕ) → s.objects offset ≡ Some (CNodeObject 4)
        → after.objects offset ≡ Some (CNodeObject 5) → WithinAuthority image t s after → ⊥ }
    ensures bytes { (image : Image) (t : Thread) (s after : State) (place : ℕ) → s.objects (frame_around place) ≡ Some FrameObject
        → after.objects (frame_around place) ≡ Some FrameObject → s.bytes place ≡ Some 7 → after.bytes place ≡ None
        → WithinAuthority image t s after → ⊥ }
    ensures table { (image : Image) (t : Thread) (s after : State) (slot root : ℕ) → root ≢ offset_of image t.header.root
        → capability_at s.slots slot ≡ PageTable 0xA000 (Some (record { root = root; region = 1 }))
        → capability_at after.slots slot ≡ PageTable 0xA000 None → WithinAuthority image t s after → ⊥ }
    ensures memory { (image : Image) (t : Thread) (s after : State) → s.memory_bits ≢ after.memory_bits → WithinAuthority image t s after → ⊥ }
    ensures boot_area { (image : Image) (t : Thread) (s after : State) → s.boot_radix ≢ after.boot_radix → WithinAuthority image t s after → ⊥ }
{}

/// Where the thread may not write, a byte of a frame that stays changes by a message alone: it is in a thread's buffer, after the 32 bytes
/// of the words that registers hold and before the message's end, and becomes what is there in a sender's buffer; and none changes where
/// the call names nothing, or a fault is the first that is sent, and the thread may answer nobody. It checks what a message changes (`ByteChange.delivered`).
pub fn a_message_changes_its_words_in_a_buffer()
    ensures bystander { (image : Image) (t : Thread) (s after : State) (place : ℕ) → ChangesUnwritten image t s after place
        → ((thread frame : ℕ) → buffer_of s thread ≡ Some frame → (place < frame) ⊎ (frame + 2 ^ 12 ≤ place)) → WithinAuthority image t s after → ⊥ }
    ensures registers { (image : Image) (t : Thread) (s after : State) (place : ℕ) → ChangesUnwritten image t s after place
        → ((thread frame : ℕ) → buffer_of s thread ≡ Some frame → place < frame + 32) → WithinAuthority image t s after → ⊥ }
    ensures end { (image : Image) (t : Thread) (s after : State) (place : ℕ) → ChangesUnwritten image t s after place
        → ((from to frame : ℕ) → buffer_of s to ≡ Some frame → frame + 4 * length_between s from to ≤ place) → WithinAuthority image t s after → ⊥ }
    ensures value { (image : Image) (t : Thread) (s after : State) (place : ℕ) → ChangesUnwritten image t s after place
        → ((from to source target index : ℕ) → buffer_of s from ≡ Some source → buffer_of s to ≡ Some target → place ≡ target + index
        → s.bytes (source + index) ≢ after.bytes place) → WithinAuthority image t s after → ⊥ }
    ensures nobody { (image : Image) (t : Thread) (s after : State) (place : ℕ) (failure : LookupFailure) → ChangesUnwritten image t s after place
        → named_slot s (self_of image t) ≡ Err failure → (thread_at s (self_of image t)).caller ≡ None → WithinAuthority image t s after → ⊥ }
    ensures fault { (image : Image) (t : Thread) (s after : State) (place slot endpoint badge : ℕ) (r : Rights) (first : Sender) (others : List Sender)
        (fault : FaultMessage) → ChangesUnwritten image t s after place → named_slot s (self_of image t) ≡ Ok slot
        → capability_at s.slots slot ≡ Endpoint endpoint r badge → (thread_at s (self_of image t)).caller ≡ None
        → (endpoint_at s endpoint).receivers ≡ [] → (endpoint_at s endpoint).senders ≡ first ∷ others → first.sent ≡ ByFault fault
        → WithinAuthority image t s after → ⊥ }
{}

/// A thread gets the right to reply to the first sender of an endpoint that it may read, where that one called with
/// grant-reply: to nobody where no sender waits, to none after the first, and not to one that only sent, or called
/// without grant-reply, or by a capability that does not read.
pub fn a_right_to_reply_comes_with_a_call()
    ensures nobody { (image : Image) (t : Thread) (s after : State) (endpoint third : ℕ) (r : Rights) (badge : ℕ) (old new : ThreadState)
        → HoldsOnly image t s (Endpoint endpoint r badge) → s.objects (self_of image t) ≡ Some (ThreadObject old)
        → after.objects (self_of image t) ≡ Some (ThreadObject new) → old.caller ≡ None → new.caller ≡ Some third
        → (endpoint_at s endpoint).senders ≡ [] → WithinAuthority image t s after → ⊥ }
    ensures second { (image : Image) (t : Thread) (s after : State) (endpoint third : ℕ) (r : Rights) (badge : ℕ) (old new : ThreadState)
        (first : Sender) (others : List Sender)
        → HoldsOnly image t s (Endpoint endpoint r badge) → s.objects (self_of image t) ≡ Some (ThreadObject old)
        → after.objects (self_of image t) ≡ Some (ThreadObject new) → old.caller ≡ None → new.caller ≡ Some third
        → (endpoint_at s endpoint).senders ≡ first ∷ others → first.thread ≢ third → WithinAuthority image t s after → ⊥ }
    ensures sent { (image : Image) (t : Thread) (s after : State) (endpoint third : ℕ) (r : Rights) (badge : ℕ) (old new : ThreadState)
        (first : Sender) (others : List Sender)
        → HoldsOnly image t s (Endpoint endpoint r badge) → s.objects (self_of image t) ≡ Some (ThreadObject old)
        → after.objects (self_of image t) ≡ Some (ThreadObject new) → old.caller ≡ None → new.caller ≡ Some third
        → (endpoint_at s endpoint).senders ≡ first ∷ others → first.sent ≡ BySend → WithinAuthority image t s after → ⊥ }
    ensures ungranted { (image : Image) (t : Thread) (s after : State) (endpoint third : ℕ) (r : Rights) (badge : ℕ) (old new : ThreadState)
        (first : Sender) (others : List Sender)
        → HoldsOnly image t s (Endpoint endpoint r badge) → s.objects (self_of image t) ≡ Some (ThreadObject old)
        → after.objects (self_of image t) ≡ Some (ThreadObject new) → old.caller ≡ None → new.caller ≡ Some third
        → (endpoint_at s endpoint).senders ≡ first ∷ others → first.sent ≡ ByCall → first.grant_reply ≡ false
        → WithinAuthority image t s after → ⊥ }
    ensures unread { (image : Image) (t : Thread) (s after : State) (endpoint third : ℕ) (badge : ℕ) (old new : ThreadState)
        → HoldsOnly image t s (Endpoint endpoint (rights 9) badge) → s.objects (self_of image t) ≡ Some (ThreadObject old)
        → after.objects (self_of image t) ≡ Some (ThreadObject new) → old.caller ≡ None → new.caller ≡ Some third
        → WithinAuthority image t s after → ⊥ }
{}

/// An interrupt of a line above 63 changes no bit of a line, no object and no list.
pub fn an_interrupt_of_no_line_changes_nothing()
    ensures masked { (number line : ℕ) (s after : State) → 63 < number → s.masked line ≢ after.masked line → WithinInterrupt number s after → ⊥ }
    ensures pending { (number line : ℕ) (s after : State) → 63 < number → s.pending line ≢ after.pending line → WithinInterrupt number s after → ⊥ }
    ensures object { (number offset : ℕ) (s after : State) → 63 < number → s.objects offset ≢ after.objects offset → WithinInterrupt number s after → ⊥ }
    ensures list { (number priority : ℕ) (s after : State) → 63 < number → s.ready priority ≢ after.ready priority → WithinInterrupt number s after → ⊥ }
{}

/// A tick leaves the current thread in the list where it is, and puts it into no other.
pub fn a_tick_loses_nobody()
    ensures itself { (s after : State) (thread priority : ℕ) → current s ≡ Some thread → s.ready priority ≡ thread ∷ []
        → after.ready priority ≡ [] → WithinTick s after → ⊥ }
    ensures elsewhere { (s after : State) (thread priority : ℕ) → current s ≡ Some thread → s.ready priority ≡ []
        → after.ready priority ≡ thread ∷ [] → WithinTick s after → ⊥ }
{}

/// Who waits at a queue that stays, where nobody sends, gets the badge of the capability that the call names, and no other
/// that the thread may hold; and nothing where the call names none.
pub fn a_badge_is_that_of_the_named_capability()
    ensures endpoint { (image : Image) (t : Thread) (s after : State) (slot other endpoint badge : ℕ) (r : Rights) (old new : ThreadState)
        → other ≢ self_of image t → named_slot s (self_of image t) ≡ Ok slot → capability_at s.slots slot ≡ Endpoint endpoint r badge
        → s.objects other ≡ Some (ThreadObject old) → old.status ≡ Blocked endpoint → (endpoint_at s endpoint).senders ≡ []
        → after.objects other ≡ Some (ThreadObject new) → old ≢ new → after.objects endpoint ≢ None
        → new.registers ≢ advanced (delivered old.registers badge (message_between s (self_of image t) other)) → WithinAuthority image t s after → ⊥ }
    ensures notification { (image : Image) (t : Thread) (s after : State) (slot other notification badge : ℕ) (r : Rights) (old new : ThreadState)
        → other ≢ self_of image t → named_slot s (self_of image t) ≡ Ok slot → capability_at s.slots slot ≡ Notification notification r badge
        → s.objects other ≡ Some (ThreadObject old) → old.status ≡ Blocked notification
        → after.objects other ≡ Some (ThreadObject new) → old ≢ new → after.objects notification ≢ None
        → new.registers ≢ advanced (write old.registers a0 badge) → WithinAuthority image t s after → ⊥ }
    ensures nothing { (image : Image) (t : Thread) (s after : State) (other queue : ℕ) (failure : LookupFailure) (old new : ThreadState)
        → other ≢ self_of image t → named_slot s (self_of image t) ≡ Err failure
        → s.objects other ≡ Some (ThreadObject old) → old.status ≡ Blocked queue
        → after.objects other ≡ Some (ThreadObject new) → old ≢ new → after.objects queue ≢ None → WithinAuthority image t s after → ⊥ }
{}

/// A mapping does not write by a frame that may be read alone, or execute by one that may not be read.
pub fn a_mapping_has_rights_of_its_capability()
    ensures writes { (image : Image) (t : Thread) (s after : State) (slot root page : ℕ) → HoldsOnly image t s (Frame 0x9000 (rights 2) None)
        → capability_at s.slots slot ≡ Frame 0x9000 (rights 2) None
        → capability_at after.slots slot ≡ Frame 0x9000 (rights 2) (Some (record { root = root; page = page; rights = rights 3 }))
        → WithinAuthority image t s after → ⊥ }
    ensures executes { (image : Image) (t : Thread) (s after : State) (slot root page : ℕ) → HoldsOnly image t s (Frame 0x9000 (rights 1) None)
        → capability_at s.slots slot ≡ Frame 0x9000 (rights 1) None
        → capability_at after.slots slot ≡ Frame 0x9000 (rights 1) (Some (record { root = root; page = page; rights = rights 4 }))
        → WithinAuthority image t s after → ⊥ }
{}

/// Interrupt control makes handlers of the 64 lines alone.
pub fn a_handler_is_of_a_line()
    ensures { (image : Image) (t : Thread) (s after : State) (slot number : ℕ) → HoldsOnly image t s InterruptControl
        → capability_at s.slots slot ≡ Empty → capability_at after.slots slot ≡ InterruptHandler number → 63 < number
        → WithinAuthority image t s after → ⊥ }
{}

/// Who is new among the senders of an endpoint is the thread itself, with the badge of the capability that its call names, and with the
/// right to get a reply that this one gives, and reports no fault; who is new among the receivers is the thread itself; the second does not leave before
/// the first; and a call that names another capability, or none, changes no endpoint. It checks that an endpoint changes only by the
/// capability that the call names (`endpoints`).
pub fn a_sender_that_joins_is_the_caller()
    ensures thread { (image : Image) (t : Thread) (s after : State) (endpoint : ℕ) (old new : EndpointState) (x : Sender)
        → s.objects endpoint ≡ Some (EndpointObject old) → after.objects endpoint ≡ Some (EndpointObject new)
        → Contains new.senders x → (Contains old.senders x → ⊥) → x.thread ≢ self_of image t → WithinAuthority image t s after → ⊥ }
    ensures badge { (image : Image) (t : Thread) (s after : State) (slot endpoint badge : ℕ) (r : Rights) (old new : EndpointState) (x : Sender)
        → named_slot s (self_of image t) ≡ Ok slot → capability_at s.slots slot ≡ Endpoint endpoint r badge
        → s.objects endpoint ≡ Some (EndpointObject old) → after.objects endpoint ≡ Some (EndpointObject new)
        → Contains new.senders x → (Contains old.senders x → ⊥) → x.badge ≢ badge → WithinAuthority image t s after → ⊥ }
    ensures reply { (image : Image) (t : Thread) (s after : State) (slot endpoint badge : ℕ) (r : Rights) (old new : EndpointState) (x : Sender)
        → named_slot s (self_of image t) ≡ Ok slot → capability_at s.slots slot ≡ Endpoint endpoint r badge
        → s.objects endpoint ≡ Some (EndpointObject old) → after.objects endpoint ≡ Some (EndpointObject new)
        → Contains new.senders x → (Contains old.senders x → ⊥) → x.grant_reply ≢ may_grant_reply r → WithinAuthority image t s after → ⊥ }
    ensures fault { (image : Image) (t : Thread) (s after : State) (endpoint : ℕ) (old new : EndpointState) (x : Sender) (message : FaultMessage)
        → s.objects endpoint ≡ Some (EndpointObject old) → after.objects endpoint ≡ Some (EndpointObject new)
        → Contains new.senders x → (Contains old.senders x → ⊥) → x.sent ≡ ByFault message → WithinAuthority image t s after → ⊥ }
    ensures receiver { (image : Image) (t : Thread) (s after : State) (endpoint other : ℕ) (old new : EndpointState)
        → s.objects endpoint ≡ Some (EndpointObject old) → after.objects endpoint ≡ Some (EndpointObject new)
        → Contains new.receivers other → (Contains old.receivers other → ⊥) → other ≢ self_of image t → WithinAuthority image t s after → ⊥ }
    ensures order { (image : Image) (t : Thread) (s after : State) (endpoint : ℕ) (old new : EndpointState) (first second : Sender)
        → s.objects endpoint ≡ Some (EndpointObject old) → after.objects endpoint ≡ Some (EndpointObject new) → first ≢ second
        → old.senders ≡ first ∷ second ∷ [] → new.senders ≡ first ∷ [] → WithinAuthority image t s after → ⊥ }
    ensures another { (image : Image) (t : Thread) (s after : State) (slot endpoint : ℕ) (old new : EndpointState)
        → named_slot s (self_of image t) ≡ Ok slot → ((r : Rights) (badge : ℕ) → capability_at s.slots slot ≢ Endpoint endpoint r badge)
        → s.objects endpoint ≡ Some (EndpointObject old) → after.objects endpoint ≡ Some (EndpointObject new) → old ≢ new
        → WithinAuthority image t s after → ⊥ }
    ensures nothing { (image : Image) (t : Thread) (s after : State) (endpoint : ℕ) (failure : LookupFailure) (old new : EndpointState)
        → named_slot s (self_of image t) ≡ Err failure
        → s.objects endpoint ≡ Some (EndpointObject old) → after.objects endpoint ≡ Some (EndpointObject new) → old ≢ new
        → WithinAuthority image t s after → ⊥ }
{}

/// A notification's word is joined by no badge but that of the capability which the call names and may write by, or of the binding of the
/// line whose handler it names; else it stays, or becomes 0. Who is new among the waiters is the thread itself, and a call that names
/// nothing changes no notification. It checks that a notification changes only by the capability that the call names (`notifications`).
pub fn a_word_takes_the_named_badge()
    ensures badge { (image : Image) (t : Thread) (s after : State) (slot notification badge : ℕ) (r : Rights) (old new : NotificationState)
        → named_slot s (self_of image t) ≡ Ok slot → capability_at s.slots slot ≡ Notification notification r badge
        → s.objects notification ≡ Some (NotificationObject old) → after.objects notification ≡ Some (NotificationObject new)
        → new.word ≢ old.word → new.word ≢ 0 → new.word ≢ bit_or old.word badge → WithinAuthority image t s after → ⊥ }
    ensures unwritten { (image : Image) (t : Thread) (s after : State) (slot notification badge : ℕ) (old new : NotificationState)
        → named_slot s (self_of image t) ≡ Ok slot → capability_at s.slots slot ≡ Notification notification (rights 2) badge
        → s.objects notification ≡ Some (NotificationObject old) → after.objects notification ≡ Some (NotificationObject new)
        → new.word ≢ old.word → new.word ≢ 0 → WithinAuthority image t s after → ⊥ }
    ensures line { (image : Image) (t : Thread) (s after : State) (slot number notification badge : ℕ) (old new : NotificationState)
        → named_slot s (self_of image t) ≡ Ok slot → capability_at s.slots slot ≡ InterruptHandler number
        → binding s number ≡ Some (record { notification = notification; badge = badge })
        → s.objects notification ≡ Some (NotificationObject old) → after.objects notification ≡ Some (NotificationObject new)
        → new.word ≢ old.word → new.word ≢ bit_or old.word badge → WithinAuthority image t s after → ⊥ }
    ensures waiter { (image : Image) (t : Thread) (s after : State) (notification other : ℕ) (old new : NotificationState)
        → s.objects notification ≡ Some (NotificationObject old) → after.objects notification ≡ Some (NotificationObject new)
        → Contains new.waiters other → (Contains old.waiters other → ⊥) → other ≢ self_of image t → WithinAuthority image t s after → ⊥ }
    ensures nothing { (image : Image) (t : Thread) (s after : State) (notification : ℕ) (failure : LookupFailure) (old new : NotificationState)
        → named_slot s (self_of image t) ≡ Err failure
        → s.objects notification ≡ Some (NotificationObject old) → after.objects notification ≡ Some (NotificationObject new) → old ≢ new
        → WithinAuthority image t s after → ⊥ }
{}

/// A thread that answers its caller loses the right to reply to it. It checks that the right stays only where who waits for the answer waits
/// on (`right`, by `RightChange.kept`); in a sound state that one is no sender, so that the right to it does not come anew.
pub fn a_used_right_to_reply_goes()
    ensures { (image : Image) (t : Thread) (s after : State) (caller : ℕ) (old new : ThreadState) → IsSound s
        → s.objects (self_of image t) ≡ Some (ThreadObject old) → after.objects (self_of image t) ≡ Some (ThreadObject new)
        → old.caller ≡ Some caller → s.objects caller ≢ after.objects caller → new.caller ≡ Some caller → WithinAuthority image t s after → ⊥ }
{}

/// A thread does not raise or lower its own priority, and does not choose who takes its faults. It checks that both stay (`priority`,
/// `fault_address`).
pub fn a_thread_keeps_its_priority_and_its_handler()
    ensures priority { (image : Image) (t : Thread) (s after : State) (old new : ThreadState)
        → s.objects (self_of image t) ≡ Some (ThreadObject old) → after.objects (self_of image t) ≡ Some (ThreadObject new)
        → new.priority ≢ old.priority → WithinAuthority image t s after → ⊥ }
    ensures handler { (image : Image) (t : Thread) (s after : State) (old new : ThreadState)
        → s.objects (self_of image t) ≡ Some (ThreadObject old) → after.objects (self_of image t) ≡ Some (ThreadObject new)
        → new.fault_address ≢ old.fault_address → WithinAuthority image t s after → ⊥ }
{}

/// A slot comes to hang below no slot that is neither the thread's own nor was above one of its own, and a full slot does not come to hang
/// below nothing where each of the thread's hung below some slot. It checks what a new parent is (`parents`).
pub fn a_new_parent_is_an_own_slot_or_was_above_one()
    ensures foreign { (image : Image) (t : Thread) (s after : State) (slot parent : ℕ) → (IsOwnSlot image t parent → ⊥)
        → ((child : ℕ) → IsOwnSlot image t child → parent_at s.slots child ≢ Some parent) → parent_at s.slots slot ≢ Some parent
        → parent_at after.slots slot ≡ Some parent → WithinAuthority image t s after → ⊥ }
    ensures none { (image : Image) (t : Thread) (s after : State) (slot parent : ℕ)
        → ((child : ℕ) → IsOwnSlot image t child → IsFull s.slots child → parent_at s.slots child ≢ None) → parent_at s.slots slot ≡ Some parent
        → parent_at after.slots slot ≡ None → capability_at after.slots slot ≢ Empty → WithinAuthority image t s after → ⊥ }
{}

/// A thread does not renew its slice at the head of its priority, and takes no longer one. It checks that the slice stays, or is full where
/// the thread goes to the tail (`slice`).
pub fn a_thread_runs_on_for_its_slice()
    ensures longer { (image : Image) (t : Thread) (s after : State) (old new : ThreadState)
        → s.objects (self_of image t) ≡ Some (ThreadObject old) → after.objects (self_of image t) ≡ Some (ThreadObject new)
        → new.slice ≢ old.slice → new.slice ≢ full_slice → WithinAuthority image t s after → ⊥ }
    ensures head { (image : Image) (t : Thread) (s after : State) (other : ℕ) (old new : ThreadState)
        → s.objects (self_of image t) ≡ Some (ThreadObject old) → after.objects (self_of image t) ≡ Some (ThreadObject new)
        → other ≢ self_of image t → s.ready new.priority ≡ self_of image t ∷ other ∷ []
        → after.ready new.priority ≡ self_of image t ∷ other ∷ [] → new.slice ≢ old.slice → WithinAuthority image t s after → ⊥ }
{}

/// A receiver gets no right to reply to a thread whose call names a capability without grant-reply. It checks who may give that right
/// (`MayReply` of `threads`).
pub fn a_reply_is_granted_by_the_capability()
    ensures { (image : Image) (t : Thread) (s after : State) (slot other endpoint badge : ℕ) (r : Rights) (old new : ThreadState)
        → other ≢ self_of image t → named_slot s (self_of image t) ≡ Ok slot → capability_at s.slots slot ≡ Endpoint endpoint r badge
        → may_grant_reply r ≡ false → s.objects other ≡ Some (ThreadObject old) → old.status ≡ Blocked endpoint → old.caller ≡ None
        → after.objects other ≡ Some (ThreadObject new) → new.caller ≡ Some (self_of image t) → WithinAuthority image t s after → ⊥ }
{}

/// By a handler of which no interrupt is pending a thread signals nobody, and makes none pending. It checks when an acknowledgement signals
/// (`Signals.by_line`), and what becomes of a line (`lines`).
pub fn an_interrupt_is_not_forged()
    ensures signal { (image : Image) (t : Thread) (s after : State) (slot other notification number : ℕ) (old new : ThreadState)
        → other ≢ self_of image t → named_slot s (self_of image t) ≡ Ok slot → capability_at s.slots slot ≡ InterruptHandler number
        → s.pending number ≡ false → s.objects other ≡ Some (ThreadObject old) → old.status ≡ Blocked notification
        → after.objects other ≡ Some (ThreadObject new) → old ≢ new → after.objects notification ≢ None → WithinAuthority image t s after → ⊥ }
    ensures pending { (image : Image) (t : Thread) (s after : State) (number : ℕ) → s.pending number ≡ false → after.pending number ≡ true
        → WithinAuthority image t s after → ⊥ }
    ensures masks { (image : Image) (t : Thread) (s after : State) (number : ℕ) → s.pending number ≡ false → s.masked number ≡ false
        → after.masked number ≡ true → WithinAuthority image t s after → ⊥ }
{}

/// Who gets a message leaves the queue, and who leaves it gets one. It checks that a queue and those that wait there change together
/// (`Reason` of `threads`, and `endpoints`).
pub fn a_receiver_leaves_the_queue_with_its_message()
    ensures stays { (image : Image) (t : Thread) (s after : State) (other endpoint : ℕ) (e : EndpointState) (old new : ThreadState)
        → other ≢ self_of image t → s.objects endpoint ≡ Some (EndpointObject e) → after.objects endpoint ≡ Some (EndpointObject e)
        → e.senders ≡ [] → s.objects other ≡ Some (ThreadObject old) → old.status ≡ Blocked endpoint
        → after.objects other ≡ Some (ThreadObject new) → old ≢ new → WithinAuthority image t s after → ⊥ }
    ensures forgotten { (image : Image) (t : Thread) (s after : State) (other endpoint : ℕ) (old new : EndpointState) (own : ThreadState)
        → s.objects endpoint ≡ Some (EndpointObject old) → after.objects endpoint ≡ Some (EndpointObject new)
        → old.receivers ≡ other ∷ [] → new.receivers ≡ [] → after.objects other ≡ Some (ThreadObject own) → own.status ≡ Blocked endpoint
        → WithinAuthority image t s after → ⊥ }
{}

/// The watermark of untyped memory does not fall while a child hangs below it, nor to another number than 0, and does not rise where the call
/// names another slot. It checks when what is used of untyped memory changes (`used`).
pub fn a_watermark_falls_without_children()
    ensures child { (image : Image) (t : Thread) (s after : State) (slot child offset bits old new : ℕ)
        → capability_at s.slots slot ≡ Untyped offset bits old → capability_at after.slots slot ≡ Untyped offset bits new → new < old
        → parent_at after.slots child ≡ Some slot → WithinAuthority image t s after → ⊥ }
    ensures part { (image : Image) (t : Thread) (s after : State) (slot offset bits old new : ℕ)
        → capability_at s.slots slot ≡ Untyped offset bits old → capability_at after.slots slot ≡ Untyped offset bits new → new < old → 0 < new
        → WithinAuthority image t s after → ⊥ }
    ensures another { (image : Image) (t : Thread) (s after : State) (slot other offset bits old new : ℕ) → named_slot s (self_of image t) ≡ Ok other
        → other ≢ slot → capability_at s.slots slot ≡ Untyped offset bits old → capability_at after.slots slot ≡ Untyped offset bits new → old < new
        → WithinAuthority image t s after → ⊥ }
{}

/// Neither bit of a line changes where the call names another capability than the line's handler, or none. It checks when lines change
/// (`lines`).
pub fn a_line_changes_by_its_handler()
    ensures masked { (image : Image) (t : Thread) (s after : State) (slot number : ℕ) → named_slot s (self_of image t) ≡ Ok slot
        → capability_at s.slots slot ≢ InterruptHandler number → s.masked number ≢ after.masked number → WithinAuthority image t s after → ⊥ }
    ensures pending { (image : Image) (t : Thread) (s after : State) (slot number : ℕ) → named_slot s (self_of image t) ≡ Ok slot
        → capability_at s.slots slot ≢ InterruptHandler number → s.pending number ≢ after.pending number → WithinAuthority image t s after → ⊥ }
    ensures nothing { (image : Image) (t : Thread) (s after : State) (number : ℕ) (failure : LookupFailure) → named_slot s (self_of image t) ≡ Err failure
        → s.masked number ≢ after.masked number → WithinAuthority image t s after → ⊥ }
{}

/// No slot outside of the thread's own CNodes is emptied or filled, comes to hold another capability, or comes to hang elsewhere. It checks that
/// slots change only in these (`slots`).
pub fn a_slot_of_a_neighbour_stays()
    ensures emptied { (image : Image) (t : Thread) (s after : State) (slot : ℕ) → (IsOwnSlot image t slot → ⊥)
        → capability_at s.slots slot ≢ Empty → capability_at after.slots slot ≡ Empty → WithinAuthority image t s after → ⊥ }
    ensures filled { (image : Image) (t : Thread) (s after : State) (slot : ℕ) → (IsOwnSlot image t slot → ⊥)
        → capability_at s.slots slot ≡ Empty → capability_at after.slots slot ≢ Empty → WithinAuthority image t s after → ⊥ }
    ensures changed { (image : Image) (t : Thread) (s after : State) (slot : ℕ) → (IsOwnSlot image t slot → ⊥)
        → capability_at s.slots slot ≢ capability_at after.slots slot → WithinAuthority image t s after → ⊥ }
    ensures hung { (image : Image) (t : Thread) (s after : State) (slot : ℕ) → (IsOwnSlot image t slot → ⊥)
        → parent_at s.slots slot ≢ parent_at after.slots slot → WithinAuthority image t s after → ⊥ }
{}
