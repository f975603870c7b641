//! Calls on threads, ticks and plain steps keep soundness.

ghost use Rattle.soundness.specs.Laws.{PlainStepKeepsSoundness, ResumeKeepsSoundness, SetPriorityKeepsSoundness};
ghost use Rattle.soundness.specs.Laws.{SetRegisterKeepsSoundness, SuspendKeepsSoundness, TickKeepsSoundness, YieldKeepsSoundness};

/// Another priority keeps soundness.
pub fn set_priority_keeps_soundness()
    ensures { SetPriorityKeepsSoundness }
{}

/// So does a register, or the program counter, with another word.
pub fn set_register_keeps_soundness()
    ensures { SetRegisterKeepsSoundness }
{}

/// A thread that is resumed, whatever it waited for.
pub fn resume_keeps_soundness()
    ensures { ResumeKeepsSoundness }
{}

/// A thread that is suspended, whatever it waited for.
pub fn suspend_keeps_soundness()
    ensures { SuspendKeepsSoundness }
{}

/// A thread that yields.
pub fn yield_keeps_soundness()
    ensures { YieldKeepsSoundness }
{}

/// A tick.
pub fn a_tick_keeps_soundness()
    ensures { TickKeepsSoundness }
{}

/// An instruction that goes on: the registers of its thread change, and the bytes of frames.
pub fn a_plain_step_keeps_soundness()
    ensures { PlainStepKeepsSoundness }
{}
