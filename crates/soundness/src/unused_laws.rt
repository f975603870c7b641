//! Where new objects may lie.

ghost use Rattle.soundness.specs.Laws.{UnusedMemoryIsFree};

/// There is nothing after the watermark of untyped memory.
pub fn unused_memory_is_free()
    ensures { UnusedMemoryIsFree }
{}
