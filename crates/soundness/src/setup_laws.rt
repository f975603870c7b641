//! What the loader does keeps soundness.

ghost use Rattle.soundness.specs.Laws.{FillingKeepsSoundness, InterruptControlKeepsSoundness, LoaderCallsKeepSoundness};
ghost use Rattle.soundness.specs.Laws.{UntypedMemoryIsPutBehindObjects, UntypedMemoryKeepsSoundness};

/// Untyped memory, wherever it may be put.
pub fn untyped_memory_keeps_soundness()
    ensures { UntypedMemoryKeepsSoundness }
{}

/// Untyped memory is put after every object, also after those left of untyped memory whose own capability is gone.
pub fn untyped_memory_is_put_behind_objects()
    ensures { UntypedMemoryIsPutBehindObjects }
{}

/// Interrupt control.
pub fn interrupt_control_keeps_soundness()
    ensures { InterruptControlKeepsSoundness }
{}

/// Bytes in a frame.
pub fn filling_keeps_soundness()
    ensures { FillingKeepsSoundness }
{}

/// A call of the loader, with words of 32 bits.
pub fn calls_of_the_loader_keep_soundness()
    ensures { LoaderCallsKeepSoundness }
{}
