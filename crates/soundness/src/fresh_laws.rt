//! The empty machine is sound.

ghost use Rattle.soundness.specs.Laws.{FreshMachineIsSound};

/// The empty machine is sound.
pub fn a_fresh_machine_is_sound()
    ensures { FreshMachineIsSound }
{}
