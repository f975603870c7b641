//! System calls and events keep soundness.

ghost use Rattle.soundness.specs.Laws.{EventsKeepSoundness, SystemCallsKeepSoundness};

/// A system call of a thread that runs.
pub fn system_calls_keep_soundness()
    ensures { SystemCallsKeepSoundness }
{}

/// Events, one after another.
pub fn events_keep_soundness()
    ensures { EventsKeepSoundness }
{}
