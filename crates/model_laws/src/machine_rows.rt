//! Worked rows of the machine.

ghost use Rattle.std.specs.Prelude.{◌≡◌, ℕ, true, false, Some, None, [], ◌∷◌};
ghost use Rattle.model.specs.declared.instructions.Cause.TheVariants.{Misaligned};
ghost use Rattle.model.specs.declared.instructions.Exec.TheVariants.{Trap};
ghost use Rattle.model.specs.declared.instructions.ImmediateOp.TheVariants.{Addi};
ghost use Rattle.model.specs.declared.instructions.ShiftOp.TheVariants.{Srai};
ghost use Rattle.model.specs.declared.instructions.Instr.TheVariants.{Jalr, Shift};
ghost use Rattle.model.specs.Machine.Decoding.{decoded};
ghost use Rattle.model.specs.Machine.ProgramMemory.{read};
ghost use Rattle.model.specs.Machine.Effects.{effect};
ghost use Rattle.model.specs.Kernel.Interrupts.{acknowledge, raise};
ghost use Rattle.model.specs.Kernel.Messages.{a0, a1, register, signal, wait};
ghost use Rattle.model.specs.Kernel.Scheduling.{current, tick};
ghost use Rattle.model.specs.Kernel.State.{Blocked, notification_at, thread_at};
ghost use Rattle.model_laws.specs.Rows.{bell, bound, driver, no_memory, ones, signalled, shift_by_four, jump_to_ones, two_threads, waited};

/// `srai x1, x1, 4` of a word of ones is a word of ones.
#[tactic(auto, unfolding(model::specs::Machine::Decoding::decoded, model::specs::Machine::Effects::effect))]
pub fn a_shift_keeps_the_sign()
    ensures spelled { decoded 0x4040D093 ≡ Some shift_by_four }
    ensures result { read (effect ones no_memory shift_by_four).registers (register 1) ≡ 0xFFFFFFFF }
{}

/// `jalr x0, 0(x1)` then goes to 0xFFFFFFFE, which is no multiple of 4.
#[tactic(auto, unfolding(model::specs::Machine::Decoding::decoded, model::specs::Machine::Effects::effect))]
pub fn an_odd_jump_traps()
    ensures spelled { decoded 0x00008067 ≡ Some jump_to_ones }
    ensures result { (effect ones no_memory jump_to_ones).exec ≡ Trap Misaligned }
{}

/// Signals with the badges 1 and 4 before a wait join to 5, and a1 stays.
pub fn a_wait_takes_the_joined_word()
    ensures badge { read (thread_at waited driver).registers a0 ≡ 5 }
    ensures same { read (thread_at waited driver).registers a1 ≡ 7 }
    ensures cleared { (notification_at waited bell).word ≡ 0 }
{}

/// The next wait blocks.
pub fn the_next_wait_blocks()
    ensures { (thread_at (wait waited bell driver) driver).status ≡ Blocked bell }
{}

/// Line 3 signals once with badge 1, however often it is raised, and once more after it is
/// acknowledged.
pub fn an_interrupt_waits_for_its_acknowledgement()
    ensures one { (notification_at (raise (raise (raise bound 3) 3) 3) bell).word ≡ 1 }
    ensures masked { (raise (raise (raise bound 3) 3) 3).masked 3 ≡ true }
    ensures pending { (raise (raise (raise bound 3) 3) 3).pending 3 ≡ true }
    ensures again { (acknowledge (raise (raise bound 3) 3) 3).masked 3 ≡ true }
    ensures taken { (acknowledge (raise (raise bound 3) 3) 3).pending 3 ≡ false }
    ensures last { (acknowledge (acknowledge (raise (raise bound 3) 3) 3) 3).masked 3 ≡ false }
{}

/// Two threads at priority 100: the first runs on for four ticks, and the fifth puts it after the
/// other.
#[tactic(auto, unfolding(model::specs::Kernel::Scheduling::first_below))]
pub fn five_ticks_rotate()
    ensures before { current (tick (tick (tick (tick two_threads)))) ≡ Some driver }
    ensures behind { current (tick (tick (tick (tick (tick two_threads))))) ≡ Some 0x400 }
{}
