//! Laws of sound states: ticks, interrupts, writes of the world and plain steps stay within authority, and a Retype that makes an endpoint.

ghost use Rattle.std.specs.Prelude.{ℕ, ◌≡◌, ◌≢◌, Option, Some};
ghost use Rattle.model.specs.declared.capabilities.Cap.TheVariants.{Untyped};
ghost use Rattle.model.specs.Acceptance.Authority.{WithinAuthority, self_of};
ghost use Rattle.headline.specs.authority.Events.{WithinInterrupt, WithinTick, WithinWrite};
ghost use Rattle.model.specs.Images.Image.{Image, Thread};
ghost use Rattle.model.specs.Kernel.Interrupts.{raise};
ghost use Rattle.model.specs.Kernel.Messages.{with_registers};
ghost use Rattle.model.specs.Machine.ProgramMemory.{RegisterFile};
ghost use Rattle.headline.specs.authority.Scenarios.{CallsOn, MakesEndpoint, WritesOwnBytes};
ghost use Rattle.model.specs.Kernel.Scheduling.{tick};
ghost use Rattle.model.specs.Kernel.Soundness.{IsSound};
ghost use Rattle.model.specs.Kernel.State.{State, ThreadObject, ThreadState};
ghost use Rattle.model.specs.Kernel.Steps.{system_call};
ghost use Rattle.model.specs.Kernel.World.{world_writes};

/// A tick stays within authority.
pub fn a_tick_stays_within_authority()
    ensures { (s : State) → IsSound s → WithinTick s (tick s) }
{}

/// A step that changes the registers of its own thread, which has no right to reply to itself, and bytes that this may write,
/// stays within authority.
pub fn a_plain_step_stays_within_authority()
    ensures { (image : Image) (t : Thread) (s : State) (own : ThreadState) (registers : RegisterFile) (bytes : ℕ → Option ℕ)
        → s.objects (self_of image t) ≡ Some (ThreadObject own) → own.caller ≢ Some (self_of image t) → WritesOwnBytes image t s bytes
        → WithinAuthority image t s (record (with_registers s (self_of image t) registers) { bytes = bytes }) }
{}

/// A Retype, by Send, that makes one endpoint in untyped memory of the thread's own, with its capability in a slot of its own, stays
/// within authority.
pub fn a_new_endpoint_stays_within_authority()
    ensures { (image : Image) (t : Thread) (s : State) (offset bits watermark used first window : ℕ)
        (call : CallsOn image t s 3 (Untyped offset bits watermark))
        → call.own.caller ≢ Some (self_of image t) → call.own.caller ≢ Some first
        → MakesEndpoint image t s call.slot offset bits used first window → WithinAuthority image t s (system_call s (self_of image t)).0 }
{}

/// An interrupt stays within authority.
pub fn an_interrupt_stays_within_authority()
    ensures { (s : State) → IsSound s → (number : ℕ) → WithinInterrupt number s (raise s number) }
{}

/// A write of the world stays within authority.
pub fn a_write_stays_within_authority()
    ensures { (s : State) (place word : ℕ) → WithinWrite place s (world_writes s place word) }
{}
