//! Worked rows on messages, faults and priorities.

ghost use Rattle.std.specs.Prelude.{◌≡◌, None, Some, [], ◌∷◌};
ghost use Rattle.model.specs.declared.events.Event.TheVariants.{Step};
ghost use Rattle.model.specs.declared.faults.FaultKind.TheVariants.{Capability};
ghost use Rattle.model.specs.declared.labels.Label.TheVariants.{Idle};
ghost use Rattle.model.specs.declared.labels.Outcome.TheVariants.{Faulted, Waited};
ghost use Rattle.model.specs.Kernel.Messages.{a0, a1, register};
ghost use Rattle.model.specs.Kernel.Scheduling.{current, tick};
ghost use Rattle.model.specs.Kernel.State.{Inactive, Runnable, AwaitsHandler, AwaitsReply, thread_at};
ghost use Rattle.model.specs.Kernel.Steps.{step, system_call};
ghost use Rattle.model.specs.Machine.ProgramMemory.{read};
ghost use Rattle.model_laws.specs.Kernels.{gone_on, preempted};
ghost use Rattle.model_laws.specs.Talks.{alone, answered, called, called_with, calling, client, faulted, replied, resumed, server, talk_with};

/// A server is blocked in Recv. A client calls through badge 7 with info 0x00005002 and the words 3 and
/// 4: the server gets both words, and keeps its other registers.
#[tactic(auto, unfolding(crate::proofs::Opened::opened))]
pub fn a_call_is_delivered()
    ensures badge { read (thread_at called server).registers a0 ≡ 7 }
    ensures info { read (thread_at called server).registers a1 ≡ 0x5002 }
    ensures first { read (thread_at called server).registers (register 12) ≡ 3 }
    ensures second { read (thread_at called server).registers (register 13) ≡ 4 }
    ensures kept { read (thread_at called server).registers (register 14) ≡ 24 }
    ensures last_kept { read (thread_at called server).registers (register 21) ≡ 31 }
    ensures pc { (thread_at called server).registers.pc ≡ 0x1004 }
    ensures runs { (thread_at called server).status ≡ Runnable }
    ensures caller { (thread_at called server).caller ≡ Some client }
    ensures waits { (thread_at called client).status ≡ AwaitsReply }
    ensures stays { (thread_at called client).registers.pc ≡ 0x1000 }
    ensures outcome { (system_call (talk_with 9 0 (calling 0x5002)) client).1 ≡ Waited }
{}

/// The reply has info 0x00001001 and the word 9.
#[tactic(auto, unfolding(crate::proofs::Opened::opened))]
pub fn a_reply_is_delivered()
    ensures badge { read (thread_at answered client).registers a0 ≡ 0 }
    ensures info { read (thread_at answered client).registers a1 ≡ 0x1001 }
    ensures first { read (thread_at answered client).registers (register 12) ≡ 9 }
    ensures kept { read (thread_at answered client).registers (register 13) ≡ 4 }
    ensures pc { (thread_at answered client).registers.pc ≡ 0x1004 }
    ensures runs { (thread_at answered client).status ≡ Runnable }
    ensures right { (thread_at answered server).caller ≡ None }
{}

/// A second reply does nothing to the client, and neither does one to a client that was resumed in
/// between: that one is at its call.
#[tactic(auto, unfolding(crate::proofs::Opened::opened))]
pub fn a_right_to_reply_is_used_once()
    ensures second { thread_at (replied answered 0x1001 55) client ≡ thread_at answered client }
    ensures resumed { thread_at (replied resumed 0x1001 9) client ≡ thread_at resumed client }
    ensures stands { (thread_at resumed client).registers.pc ≡ 0x1000 }
    ensures runs { (thread_at resumed client).status ≡ Runnable }
    ensures void { (thread_at resumed server).caller ≡ None }
{}

/// Between threads without buffers a length above 8 counts as 8.
#[tactic(auto, unfolding(crate::proofs::Opened::opened))]
pub fn a_length_counts_up_to_eight()
    ensures seven { read (thread_at (called_with 7) server).registers (register 21) ≡ 31 }
    ensures eight { read (thread_at (called_with 8) server).registers (register 21) ≡ 88 }
    ensures nine { read (thread_at (called_with 9) server).registers a1 ≡ 8 }
    ensures most { read (thread_at (called_with 0x7F) server).registers a1 ≡ 8 }
    ensures last { read (thread_at (called_with 0x7F) server).registers (register 21) ≡ 88 }
{}

/// Recv on the empty slot 9 at 0x1000: the handler gets label 1 with the words pc, address, in a
/// receive, missing capability, no bits left.
#[tactic(auto, unfolding(crate::proofs::Opened::opened))]
pub fn a_fault_is_told_to_its_handler()
    ensures badge { read (thread_at faulted server).registers a0 ≡ 7 }
    ensures info { read (thread_at faulted server).registers a1 ≡ 0x1005 }
    ensures pc { read (thread_at faulted server).registers (register 12) ≡ 0x1000 }
    ensures address { read (thread_at faulted server).registers (register 13) ≡ 9 }
    ensures receive { read (thread_at faulted server).registers (register 14) ≡ 1 }
    ensures failure { read (thread_at faulted server).registers (register 15) ≡ 2 }
    ensures bits { read (thread_at faulted server).registers (register 18) ≡ 0 }
    ensures kept { read (thread_at faulted server).registers (register 21) ≡ 31 }
    ensures waits { (thread_at faulted client).status ≡ AwaitsHandler }
    ensures outcome { (system_call (talk_with 9 2 ((10, 9) ∷ (17, 5) ∷ [])) client).1 ≡ Faulted Capability }
{}

/// The handler replies label 0 and the word 0x1002: the thread goes on at 0x1000, its registers as they
/// were. A reply without words lets it go on where it was, and one with another label stops it.
#[tactic(auto, unfolding(crate::proofs::Opened::opened))]
pub fn a_handler_resumes_or_stops()
    ensures pc { (thread_at (replied faulted 1 0x2002) client).registers.pc ≡ 0x2000 }
    ensures runs { (thread_at (replied faulted 1 0x2002) client).status ≡ Runnable }
    ensures kept { (thread_at (replied faulted 1 0x2002) client).registers.words ≡ (thread_at faulted client).registers.words }
    ensures there { (thread_at (replied faulted 0 0x2002) client).registers.pc ≡ 0x1000 }
    ensures stops { (thread_at (replied faulted 0x1001 0x2002) client).status ≡ Inactive }
{}

/// With fault address 0, or a handler's capability without the right to grant a reply, the thread
/// stops, and alone nothing runs.
#[tactic(auto, unfolding(crate::proofs::Opened::opened))]
pub fn a_thread_without_a_handler_stops()
    ensures stops { (thread_at alone client).status ≡ Inactive }
    ensures idle { (step alone Step).1 ≡ Idle }
    ensures no_right { (thread_at (system_call (talk_with 1 2 ((10, 9) ∷ (17, 5) ∷ [])) client).0 client).status ≡ Inactive }
{}

/// A thread at 101 that is woken runs at once; afterwards the first at 100 goes on with what was left of
/// its slice.
#[tactic(auto, unfolding(crate::proofs::Opened::opened))]
pub fn a_greater_priority_runs_first()
    ensures woken { current preempted ≡ Some 0xA00 }
    ensures back { current gone_on ≡ Some 0x600 }
    ensures slice { (thread_at gone_on 0x600).slice ≡ 3 }
    ensures fourth { current (tick (tick gone_on)) ≡ Some 0x600 }
    ensures fifth { current (tick (tick (tick gone_on))) ≡ Some 0x800 }
{}
