//! Calls that put copies into slots keep soundness.

ghost use Rattle.soundness.specs.Laws.{BindKeepsSoundness, ConfigureKeepsSoundness, GetHandlerKeepsSoundness, SetBufferKeepsSoundness};

/// Copies of a CNode's and a root table's capability come into a thread's slots.
pub fn configure_keeps_soundness()
    ensures { ConfigureKeepsSoundness }
{}

/// A copy of a frame's capability comes into a thread's slot for its message buffer.
pub fn set_buffer_keeps_soundness()
    ensures { SetBufferKeepsSoundness }
{}

/// Interrupt control makes a handler.
pub fn get_handler_keeps_soundness()
    ensures { GetHandlerKeepsSoundness }
{}

/// A line gets a copy of a notification's capability, in place of what was bound to it.
pub fn bind_keeps_soundness()
    ensures { BindKeepsSoundness }
{}
