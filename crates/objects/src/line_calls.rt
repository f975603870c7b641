//! The mask and pending bits of interrupt lines, which are our own.
//! seL4 Reference Manual, "Hardware I/O".

ghost use Rattle.std.specs.Prelude.{ℕ, ◌≡◌, List};
ghost use Rattle.model.specs.Capabilities.Slots.{Slots};
ghost use Rattle.model.specs.Kernel.Interrupts.{with_pending};
ghost use Rattle.model.specs.Kernel.State.{put};
ghost use Rattle.objects.specs.Tables.{state_of};

use crate::interrupt_lines::Line;
use crate::tables::Objects;

impl Objects {
    /// Whether the interrupts of a line wait for an acknowledgement.
    #[tactic(auto, unfolding(crate::specs::Tables::state_of, crate::specs::Contents::told_by))]
    pub(crate) fn is_masked(&self, line: Line) -> bool
        ensures { (slots : Slots) (memory : List ℕ) → result ≡ (state_of self.now slots memory).masked line }
    {
        self.masked[usize::from(line.number())]
    }

    /// Masks a line, or takes its mask away.
    pub(crate) fn set_masked(&mut self, line: Line, bit: bool)
        ensures state { (slots : Slots) (memory : List ℕ) → state_of self.new slots memory
            ≡ record (state_of self.old slots memory) { masked = put (state_of self.old slots memory).masked line bit } }
        ensures tables { self.new ≡ record self.old { masked = self.new.masked } }
    {
        self.masked[usize::from(line.number())] = bit;
    }

    /// Whether a line was raised while its interrupt could not be delivered.
    #[tactic(auto, unfolding(crate::specs::Tables::state_of, crate::specs::Contents::told_by))]
    pub(crate) fn is_pending(&self, line: Line) -> bool
        ensures { (slots : Slots) (memory : List ℕ) → result ≡ (state_of self.now slots memory).pending line }
    {
        self.pending[usize::from(line.number())]
    }

    /// An interrupt of a line is pending, or none is.
    pub(crate) fn set_pending(&mut self, line: Line, bit: bool)
        ensures state { (slots : Slots) (memory : List ℕ)
            → state_of self.new slots memory ≡ with_pending (state_of self.old slots memory) line bit }
        ensures tables { self.new ≡ record self.old { pending = self.new.pending } }
    {
        self.pending[usize::from(line.number())] = bit;
    }
}
