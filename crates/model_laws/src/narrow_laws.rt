//! What authority rules out, part by part: who delivers and who gets it, the registers of each reason, what ends, rights, numbers of calls, lines,
//! instructions, ticks and the world.

ghost use Rattle.std.specs.Prelude.{ℕ, ℤ, ◌≡◌, ◌≢◌, ◌+◌, ◌*◌, ◌%◌, ◌^◌, ◌<◌, ◌≤◌, ◌⊎◌, true, false, bit_or, []};
ghost use Rattle.std.specs.Prelude.{◌∷◌, Contains, List, Option, Some, None, Ok, Err};
ghost use Rattle.model.specs.declared.capabilities.Cap.TheVariants.{Empty, Endpoint, Frame, InterruptHandler, Notification, Untyped};
ghost use Rattle.model.specs.declared.events.Event.TheVariants.{Irq, Read, Step, Tick, Write};
ghost use Rattle.model.specs.declared.instructions.Access.TheVariants as accesses;
ghost use Rattle.model.specs.declared.instructions.AccessSize.TheVariants.{Word};
ghost use Rattle.model.specs.declared.instructions.ImmediateOp.TheVariants.{Addi};
ghost use Rattle.model.specs.declared.instructions.Instr.TheVariants.{Ecall, Immediate, Store};
ghost use Rattle.model.specs.declared.instructions.Instr.{Instr};
ghost use Rattle.model.specs.declared.instructions.Register.{Register};
ghost use Rattle.model.specs.declared.instructions.StoreOp.TheVariants.{Sb};
ghost use Rattle.model.specs.declared.instructions.StoreOp.{StoreOp};
ghost use Rattle.model.specs.declared.lookup_failures.LookupFailure.{LookupFailure};
ghost use Rattle.model.specs.declared.rights.Rights.{Rights};
ghost use Rattle.model.specs.declared.system_calls.ReceiveCall.{ReceiveCall};
ghost use Rattle.model.specs.declared.system_calls.SendCall.{SendCall};
ghost use Rattle.model.specs.declared.system_calls.SystemCall.TheVariants.{Receives, Replies, Sends};
ghost use Rattle.model.specs.Acceptance.Authority.{IsWoken, MakesCall, OwnStep, StaysWithin, WithinAuthority, computed, self_of};
ghost use Rattle.model.specs.Kernel.Deliveries.{is_message, woken};
ghost use Rattle.model.specs.Capabilities.Rights.{may_read, may_write, rights};
ghost use Rattle.model.specs.Capabilities.Slots.{capability_at};
ghost use Rattle.model.specs.Images.Image.{Image, Thread};
ghost use Rattle.model.specs.Kernel.AddressSpaces.{content_of};
ghost use Rattle.model.specs.Kernel.Interrupts.{binding};
ghost use Rattle.model.specs.Kernel.Kinds.{kind_at};
ghost use Rattle.model.specs.Kernel.Messages.{a0, buffer_of, delivered, length_between, message_between, register_words};
ghost use Rattle.model.specs.Kernel.Retype.{NewEndpoint, NewNotification};
ghost use Rattle.model.specs.Kernel.Scheduling.{current};
ghost use Rattle.model.specs.Kernel.State.{State, Runnable, Blocked, AwaitsReply, Sender, EndpointObject, EndpointState, FrameObject, NotificationObject};
ghost use Rattle.model.specs.Kernel.State.{NotificationState, ThreadObject, ThreadState, endpoint_at, notification_at, thread_at};
ghost use Rattle.model.specs.Kernel.Steps.{named_slot, place_of, registers_of};
ghost use Rattle.model.specs.Machine.Decoding.{decoded};
ghost use Rattle.model.specs.Machine.Effects.{advanced, plus};
ghost use Rattle.model.specs.Machine.ProgramMemory.{loaded, read, write};
ghost use Rattle.model_laws.specs.Scenarios.{Asks, ChangesUnwritten, HoldsOnly};

/// By a message the bytes of nobody's buffer change but the first receiver's, to nothing but what the first sender's holds; and a reply
/// changes none of one that does not wait for it, or does not run after it. It checks who delivers to whom (`Delivers`).
pub fn a_message_goes_from_the_first_to_the_first()
    ensures receiver { (image : Image) (t : Thread) (s after : State) (place slot endpoint badge first : ℕ) (r : Rights) (kind : SendCall) (others : List ℕ)
        → ChangesUnwritten image t s after place → Asks image t s (Sends kind) → named_slot s (self_of image t) ≡ Ok slot
        → capability_at s.slots slot ≡ Endpoint endpoint r badge → (thread_at s (self_of image t)).caller ≡ None
        → (endpoint_at s endpoint).receivers ≡ first ∷ others
        → ((frame : ℕ) → buffer_of s first ≡ Some frame → (place < frame) ⊎ (frame + 2 ^ 12 ≤ place)) → WithinAuthority image t s after → ⊥ }
    ensures sender { (image : Image) (t : Thread) (s after : State) (place slot endpoint badge : ℕ) (r : Rights) (kind : ReceiveCall) (first : Sender)
        (others : List Sender) → ChangesUnwritten image t s after place → Asks image t s (Receives kind) → named_slot s (self_of image t) ≡ Ok slot
        → capability_at s.slots slot ≡ Endpoint endpoint r badge → (thread_at s (self_of image t)).caller ≡ None
        → (endpoint_at s endpoint).senders ≡ first ∷ others
        → ((source target index : ℕ) → buffer_of s first.thread ≡ Some source → buffer_of s (self_of image t) ≡ Some target → place ≡ target + index
        → s.bytes (source + index) ≢ after.bytes place) → WithinAuthority image t s after → ⊥ }
    ensures awaited { (image : Image) (t : Thread) (s after : State) (place caller : ℕ) → ChangesUnwritten image t s after place → Asks image t s Replies
        → (thread_at s (self_of image t)).caller ≡ Some caller → (thread_at s caller).status ≢ AwaitsReply → WithinAuthority image t s after → ⊥ }
    ensures runs { (image : Image) (t : Thread) (s after : State) (place caller : ℕ) → ChangesUnwritten image t s after place → Asks image t s Replies
        → (thread_at s (self_of image t)).caller ≡ Some caller → (thread_at after caller).status ≢ Runnable → WithinAuthority image t s after → ⊥ }
{}

/// Another thread gets the registers of its reason: one that waits for a reply those of the answer, one that is set back its own, and a
/// sender whose message is received goes on with its own. It checks `caller`, `set_back` and `sender` of `Reason`.
pub fn another_thread_gets_the_registers_of_its_reason()
    ensures caller { (image : Image) (t : Thread) (s after : State) (other : ℕ) (old new : ThreadState) → other ≢ self_of image t
        → s.objects other ≡ Some (ThreadObject old) → old.status ≡ AwaitsReply → after.objects other ≡ Some (ThreadObject new) → old ≢ new
        → new.registers ≢ advanced (delivered old.registers 0 (message_between s (self_of image t) other)) → WithinAuthority image t s after → ⊥ }
    ensures set_back { (image : Image) (t : Thread) (s after : State) (other queue : ℕ) (failure : LookupFailure) (old new : ThreadState)
        → other ≢ self_of image t → named_slot s (self_of image t) ≡ Err failure → s.objects other ≡ Some (ThreadObject old) → old.status ≡ Blocked queue
        → after.objects other ≡ Some (ThreadObject new) → old ≢ new → new.registers ≢ old.registers → WithinAuthority image t s after → ⊥ }
    ensures sender { (image : Image) (t : Thread) (s after : State) (other queue : ℕ) (kind : ReceiveCall) (old new : ThreadState)
        → other ≢ self_of image t → Asks image t s (Receives kind) → s.objects other ≡ Some (ThreadObject old) → old.status ≡ Blocked queue
        → after.objects other ≡ Some (ThreadObject new) → old ≢ new → new.registers ≢ old.registers → new.registers ≢ advanced old.registers
        → WithinAuthority image t s after → ⊥ }
{}

/// Who gives a receiver the right to reply waits for the reply. It checks `MayReply.to_sender`.
pub fn who_gives_a_right_to_reply_waits()
    ensures { (image : Image) (t : Thread) (s after : State) (other endpoint : ℕ) (old new : ThreadState) → other ≢ self_of image t
        → s.objects other ≡ Some (ThreadObject old) → old.status ≡ Blocked endpoint → old.caller ≡ None
        → after.objects other ≡ Some (ThreadObject new) → new.caller ≡ Some (self_of image t)
        → (thread_at after (self_of image t)).status ≢ AwaitsReply → WithinAuthority image t s after → ⊥ }
{}

/// All words of a message come: to the first receiver, from the first sender, and to one that waits for a reply. It checks `Arrives` in
/// `receiver`, `sender` and `caller` of `Reason`.
pub fn all_words_of_a_message_come()
    ensures receiver { (image : Image) (t : Thread) (s after : State) (slot other endpoint badge source target index : ℕ) (r : Rights) (kind : SendCall)
        (old new : ThreadState) → other ≢ self_of image t → Asks image t s (Sends kind) → named_slot s (self_of image t) ≡ Ok slot
        → capability_at s.slots slot ≡ Endpoint endpoint r badge → s.objects other ≡ Some (ThreadObject old) → old.status ≡ Blocked endpoint
        → after.objects other ≡ Some (ThreadObject new) → old ≢ new → after.objects endpoint ≢ None → buffer_of s (self_of image t) ≡ Some source
        → buffer_of s other ≡ Some target → 4 * register_words ≤ index → index < 4 * length_between s (self_of image t) other
        → after.bytes (target + index) ≢ s.bytes (source + index) → WithinAuthority image t s after → ⊥ }
    ensures sender { (image : Image) (t : Thread) (s after : State) (other endpoint source target index : ℕ) (kind : ReceiveCall) (old new : ThreadState)
        (first : Sender) (others : List Sender) → other ≢ self_of image t → Asks image t s (Receives kind)
        → (endpoint_at s endpoint).senders ≡ first ∷ others → is_message first.sent ≡ true → s.objects other ≡ Some (ThreadObject old)
        → old.status ≡ Blocked endpoint → after.objects other ≡ Some (ThreadObject new) → old ≢ new → after.objects endpoint ≢ None
        → buffer_of s other ≡ Some source → buffer_of s (self_of image t) ≡ Some target → 4 * register_words ≤ index
        → index < 4 * length_between s other (self_of image t) → after.bytes (target + index) ≢ s.bytes (source + index)
        → WithinAuthority image t s after → ⊥ }
    ensures caller { (image : Image) (t : Thread) (s after : State) (other source target index : ℕ) (old new : ThreadState)
        → other ≢ self_of image t → s.objects other ≡ Some (ThreadObject old) → old.status ≡ AwaitsReply
        → after.objects other ≡ Some (ThreadObject new) → old ≢ new → buffer_of s (self_of image t) ≡ Some source
        → buffer_of s other ≡ Some target → 4 * register_words ≤ index → index < 4 * length_between s (self_of image t) other
        → after.bytes (target + index) ≢ s.bytes (source + index) → WithinAuthority image t s after → ⊥ }
{}

/// What ends delivers nothing: who waits at what is no queue after the step is at its call again, as it was; through what is no endpoint then no
/// byte of a message comes, and no right to reply; and no interrupt is taken for what is no notification then, or was none. It checks `is` of
/// `TakesReceiver`, `TakesSender` and `TakesWaiter`, and the kinds of `IsSignalled.joined`.
pub fn a_queue_that_ends_delivers_nothing()
    ensures waits { (image : Image) (t : Thread) (s after : State) (other queue : ℕ) (old new : ThreadState) → other ≢ self_of image t
        → s.objects other ≡ Some (ThreadObject old) → old.status ≡ Blocked queue → kind_at after queue ≢ Some NewEndpoint
        → kind_at after queue ≢ Some NewNotification → after.objects other ≡ Some (ThreadObject new) → old ≢ new → new ≢ woken old old.registers
        → WithinAuthority image t s after → ⊥ }
    ensures bytes { (image : Image) (t : Thread) (s after : State) (place slot endpoint badge : ℕ) (r : Rights) → ChangesUnwritten image t s after place
        → named_slot s (self_of image t) ≡ Ok slot → capability_at s.slots slot ≡ Endpoint endpoint r badge
        → (thread_at s (self_of image t)).caller ≡ None → kind_at after endpoint ≢ Some NewEndpoint → WithinAuthority image t s after → ⊥ }
    ensures right { (image : Image) (t : Thread) (s after : State) (slot endpoint badge third : ℕ) (r : Rights) (old new : ThreadState)
        → named_slot s (self_of image t) ≡ Ok slot → capability_at s.slots slot ≡ Endpoint endpoint r badge → kind_at after endpoint ≢ Some NewEndpoint
        → s.objects (self_of image t) ≡ Some (ThreadObject old) → after.objects (self_of image t) ≡ Some (ThreadObject new)
        → old.caller ≡ None → new.caller ≡ Some third → WithinAuthority image t s after → ⊥ }
    ensures line { (image : Image) (t : Thread) (s after : State) (number notification badge : ℕ) → s.pending number ≡ true → after.pending number ≡ false
        → binding s number ≡ Some (record { notification = notification; badge = badge })
        → (kind_at s notification ≢ Some NewNotification) ⊎ (kind_at after notification ≢ Some NewNotification) → WithinAuthority image t s after → ⊥ }
{}

/// A frame ends only inside untyped memory that the thread holds. It checks `ObjectChange.ends`.
pub fn an_object_ends_inside_held_memory()
    ensures { (image : Image) (t : Thread) (s after : State) (offset : ℕ) → HoldsOnly image t s (Endpoint 0x8000 (rights 11) 0)
        → s.objects offset ≡ Some FrameObject → after.objects offset ≡ None → WithinAuthority image t s after → ⊥ }
{}

/// Of 16 bytes of untyped memory there comes no capability to 32, and none to a frame that begins there. It checks `Granted.pool` and
/// `Granted.appeared`.
pub fn a_new_capability_is_whole_inside_held_memory()
    ensures pool { (image : Image) (t : Thread) (s after : State) (slot : ℕ) → HoldsOnly image t s (Untyped 0x8000 4 0)
        → capability_at s.slots slot ≡ Empty → capability_at after.slots slot ≡ Untyped 0x8000 5 0 → WithinAuthority image t s after → ⊥ }
    ensures appeared { (image : Image) (t : Thread) (s after : State) (slot : ℕ) → HoldsOnly image t s (Untyped 0x8000 4 0)
        → capability_at s.slots slot ≡ Empty → capability_at after.slots slot ≡ Frame 0x8000 (rights 3) None → WithinAuthority image t s after → ⊥ }
{}

/// Nobody joins the senders of an endpoint by a capability that does not write, or its receivers, or the waiters of a notification, by one
/// that does not read. It checks `AsksAs.writes`, `ReceivesFrom.reads` and `WaitsFor.reads`.
pub fn a_queue_is_joined_by_right()
    ensures writes { (image : Image) (t : Thread) (s after : State) (slot endpoint badge : ℕ) (r : Rights) (old new : EndpointState) (x : Sender)
        → named_slot s (self_of image t) ≡ Ok slot → capability_at s.slots slot ≡ Endpoint endpoint r badge → may_write r ≡ false
        → s.objects endpoint ≡ Some (EndpointObject old) → after.objects endpoint ≡ Some (EndpointObject new)
        → Contains new.senders x → (Contains old.senders x → ⊥) → WithinAuthority image t s after → ⊥ }
    ensures reads { (image : Image) (t : Thread) (s after : State) (slot endpoint badge other : ℕ) (r : Rights) (old new : EndpointState)
        → named_slot s (self_of image t) ≡ Ok slot → capability_at s.slots slot ≡ Endpoint endpoint r badge → may_read r ≡ false
        → s.objects endpoint ≡ Some (EndpointObject old) → after.objects endpoint ≡ Some (EndpointObject new)
        → Contains new.receivers other → (Contains old.receivers other → ⊥) → WithinAuthority image t s after → ⊥ }
    ensures waits { (image : Image) (t : Thread) (s after : State) (slot notification badge other : ℕ) (r : Rights) (old new : NotificationState)
        → named_slot s (self_of image t) ≡ Ok slot → capability_at s.slots slot ≡ Notification notification r badge → may_read r ≡ false
        → s.objects notification ≡ Some (NotificationObject old) → after.objects notification ≡ Some (NotificationObject new)
        → Contains new.waiters other → (Contains old.waiters other → ⊥) → WithinAuthority image t s after → ⊥ }
{}

/// By a call that receives nobody joins the senders of an endpoint, and by one that sends nobody its receivers. It checks the numbers of
/// calls (`AsksAs.named`, `ReceivesFrom.receives`).
pub fn a_queue_is_joined_by_its_calls()
    ensures senders { (image : Image) (t : Thread) (s after : State) (endpoint : ℕ) (kind : ReceiveCall) (old new : EndpointState) (x : Sender)
        → Asks image t s (Receives kind) → s.objects endpoint ≡ Some (EndpointObject old) → after.objects endpoint ≡ Some (EndpointObject new)
        → Contains new.senders x → (Contains old.senders x → ⊥) → WithinAuthority image t s after → ⊥ }
    ensures receivers { (image : Image) (t : Thread) (s after : State) (endpoint other : ℕ) (kind : SendCall) (old new : EndpointState)
        → Asks image t s (Sends kind) → s.objects endpoint ≡ Some (EndpointObject old) → after.objects endpoint ≡ Some (EndpointObject new)
        → Contains new.receivers other → (Contains old.receivers other → ⊥) → WithinAuthority image t s after → ⊥ }
{}

/// A line whose interrupt is taken is masked, and its notification signalled; one that is bound, with an interrupt that is pending, is not
/// opened; and nobody is signalled by its handler while the interrupt stays pending. It checks `LineChange` and `Signals.by_line`.
pub fn an_interrupt_that_is_taken_is_delivered()
    ensures masked { (image : Image) (t : Thread) (s after : State) (number : ℕ) → s.pending number ≡ true → after.pending number ≡ false
        → after.masked number ≡ false → WithinAuthority image t s after → ⊥ }
    ensures lost { (image : Image) (t : Thread) (s after : State) (number notification badge : ℕ) → s.pending number ≡ true → after.pending number ≡ false
        → binding s number ≡ Some (record { notification = notification; badge = badge }) → (notification_at s notification).waiters ≡ []
        → (notification_at after notification).word ≢ bit_or (notification_at s notification).word badge → WithinAuthority image t s after → ⊥ }
    ensures held { (image : Image) (t : Thread) (s after : State) (number notification badge : ℕ) → s.pending number ≡ true → after.pending number ≡ true
        → binding s number ≡ Some (record { notification = notification; badge = badge }) → s.masked number ≢ after.masked number
        → WithinAuthority image t s after → ⊥ }
    ensures kept { (image : Image) (t : Thread) (s after : State) (slot other notification number : ℕ) (old new : ThreadState) → other ≢ self_of image t
        → named_slot s (self_of image t) ≡ Ok slot → capability_at s.slots slot ≡ InterruptHandler number → after.pending number ≡ true
        → s.objects other ≡ Some (ThreadObject old) → old.status ≡ Blocked notification → after.objects other ≡ Some (ThreadObject new) → old ≢ new
        → after.objects notification ≢ None → WithinAuthority image t s after → ⊥ }
{}

/// An instruction that is no system call changes no slot and no line, and who is woken is in the list of its priority. It checks `plain`
/// and `awake` of `OwnStep`.
pub fn a_step_is_of_its_instruction()
    ensures slots { (image : Image) (s after : State) (self slot : ℕ) → current s ≡ Some self → (MakesCall s self → ⊥) → s.slots slot ≢ after.slots slot
        → StaysWithin image s Step after → ⊥ }
    ensures pending { (image : Image) (s after : State) (self number : ℕ) → current s ≡ Some self → (MakesCall s self → ⊥)
        → s.pending number ≢ after.pending number → StaysWithin image s Step after → ⊥ }
    ensures awake { (image : Image) (s after : State) (self priority other : ℕ) → current s ≡ Some self → IsWoken s after priority other
        → s.ready priority ≡ [] → after.ready priority ≡ [] → StaysWithin image s Step after → ⊥ }
{}

/// The instruction at the pc that is no system call is done: `addi` leaves its sum in its register, a store of a byte the low byte of its register
/// in the place that the address names, and every other byte as it was; and what is no store leaves all bytes. It checks `ComputesAlone`.
pub fn an_instruction_does_what_it_spells()
    ensures whole { (image : Image) (s after : State) (self word : ℕ) (instruction : Instr) → current s ≡ Some self
        → loaded (content_of s self) accesses.Fetch Word (registers_of s self).pc ≡ Ok word → decoded word ≡ Some instruction → instruction ≢ Ecall
        → after ≢ computed s self instruction → StaysWithin image s Step after → ⊥ }
    ensures sum { (image : Image) (s after : State) (self word : ℕ) (rd rs1 : Register) (immediate : ℤ) → current s ≡ Some self
        → loaded (content_of s self) accesses.Fetch Word (registers_of s self).pc ≡ Ok word → decoded word ≡ Some (Immediate Addi rd rs1 immediate)
        → registers_of after self ≢ advanced (write (registers_of s self) rd (plus (read (registers_of s self) rs1) immediate))
        → StaysWithin image s Step after → ⊥ }
    ensures byte { (image : Image) (s after : State) (self word place old : ℕ) (rs1 rs2 : Register) (offset : ℤ) → current s ≡ Some self
        → loaded (content_of s self) accesses.Fetch Word (registers_of s self).pc ≡ Ok word → decoded word ≡ Some (Store Sb rs1 rs2 offset)
        → (content_of s self).place accesses.Store (plus (read (registers_of s self) rs1) offset) ≡ Some place → s.bytes place ≡ Some old
        → after.bytes place ≢ Some (read (registers_of s self) rs2 % 2 ^ 8) → StaysWithin image s Step after → ⊥ }
    ensures beside { (image : Image) (s after : State) (self word place other : ℕ) (rs1 rs2 : Register) (offset : ℤ) → current s ≡ Some self
        → loaded (content_of s self) accesses.Fetch Word (registers_of s self).pc ≡ Ok word → decoded word ≡ Some (Store Sb rs1 rs2 offset)
        → (content_of s self).place accesses.Store (plus (read (registers_of s self) rs1) offset) ≡ Some place → other ≢ place
        → s.bytes other ≢ after.bytes other → StaysWithin image s Step after → ⊥ }
    ensures bytes { (image : Image) (s after : State) (self word place : ℕ) (instruction : Instr) → current s ≡ Some self
        → loaded (content_of s self) accesses.Fetch Word (registers_of s self).pc ≡ Ok word → decoded word ≡ Some instruction → instruction ≢ Ecall
        → ((op : StoreOp) (rs1 rs2 : Register) (offset : ℤ) → instruction ≢ Store op rs1 rs2 offset) → s.bytes place ≢ after.bytes place
        → StaysWithin image s Step after → ⊥ }
{}

/// A tick changes no byte and no slot, an interrupt no slot. They are named outright (`StaysWithin`).
pub fn ticks_and_interrupts_are_what_they_are()
    ensures bytes { (image : Image) (s after : State) (place : ℕ) → s.bytes place ≢ after.bytes place → StaysWithin image s Tick after → ⊥ }
    ensures slots { (image : Image) (s after : State) (slot : ℕ) → s.slots slot ≢ after.slots slot → StaysWithin image s Tick after → ⊥ }
    ensures irq_slots { (image : Image) (s after : State) (number slot : ℕ) → s.slots slot ≢ after.slots slot → StaysWithin image s (Irq number) after → ⊥ }
{}

/// A write of the world changes no byte beside its word, no slot and no object, and a look no byte. They are named outright (`StaysWithin`).
pub fn the_world_writes_its_word_alone()
    ensures bytes { (image : Image) (s after : State) (address word other : ℕ) → s.bytes other ≢ after.bytes other
        → (other < place_of address) ⊎ (place_of address + 4 ≤ other) → StaysWithin image s (Write address word) after → ⊥ }
    ensures slots { (image : Image) (s after : State) (address word slot : ℕ) → s.slots slot ≢ after.slots slot
        → StaysWithin image s (Write address word) after → ⊥ }
    ensures objects { (image : Image) (s after : State) (address word offset : ℕ) → s.objects offset ≢ after.objects offset
        → StaysWithin image s (Write address word) after → ⊥ }
    ensures looks { (image : Image) (s after : State) (address place : ℕ) → s.bytes place ≢ after.bytes place
        → StaysWithin image s (Read address) after → ⊥ }
{}
