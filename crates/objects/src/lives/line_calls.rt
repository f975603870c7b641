//! The calls on interrupt lines.
//! seL4 Reference Manual, "Hardware I/O"; the mask and pending bits are our own.

ghost use Rattle.std.specs.Prelude.{◌≡◌};
ghost use Rattle.model.specs.Kernel.Interrupts.{with_pending};
ghost use Rattle.model.specs.Kernel.State.{put};
ghost use Rattle.objects.specs.Lives.{Beside, state};

use crate::interrupt_lines::Line;
use crate::lives::Live;
use slots::SlotStore;

impl<S: SlotStore> Live<S> {
    /// Whether the interrupts of a line wait for an acknowledgement.
    pub fn is_masked(&self, line: Line) -> bool
        ensures { result ≡ (state S.SlotStore self.now).masked line }
    {
        self.objects.is_masked(line)
    }

    /// Masks a line, or takes its mask away.
    pub fn set_masked(&mut self, line: Line, bit: bool)
        ensures state { state S.SlotStore self.new
            ≡ record (state S.SlotStore self.old) { masked = put (state S.SlotStore self.old).masked line bit } }
        ensures beside { Beside S.SlotStore self.old self.new }
    {
        self.objects.set_masked(line, bit);
    }

    /// Whether a line was raised while its interrupt could not be delivered.
    pub fn is_pending(&self, line: Line) -> bool
        ensures { result ≡ (state S.SlotStore self.now).pending line }
    {
        self.objects.is_pending(line)
    }

    /// An interrupt of a line is pending, or none is.
    pub fn set_pending(&mut self, line: Line, bit: bool)
        ensures state { state S.SlotStore self.new
            ≡ with_pending (state S.SlotStore self.old) line bit }
        ensures beside { Beside S.SlotStore self.old self.new }
    {
        self.objects.set_pending(line, bit);
    }
}
