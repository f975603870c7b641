//! Calls on frames and page tables keep soundness.

ghost use Rattle.soundness.specs.Laws.{FrameCallsKeepSoundness, TableCallsKeepSoundness};

/// A frame is mapped or unmapped.
pub fn frame_calls_keep_soundness()
    ensures { FrameCallsKeepSoundness }
{}

/// A page table is mapped, or unmapped with the frames in its region.
pub fn table_calls_keep_soundness()
    ensures { TableCallsKeepSoundness }
{}
