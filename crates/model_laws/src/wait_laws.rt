//! Laws of waits.

ghost use Rattle.std.specs.Prelude.{◌≡◌, ◌||◌, ℕ, true};
ghost use Rattle.model.specs.declared.events.Event.{Event};
ghost use Rattle.model.specs.declared.events.Event.TheVariants.{Step};
ghost use Rattle.model.specs.Kernel.State.{State};
ghost use Rattle.model.specs.Kernel.Steps.{step};
ghost use Rattle.model.specs.Kernel.Waits.{is_error, is_fault, is_wait};
ghost use Rattle.model_laws.specs.WaitingCalls.{StandsAtWait};

/// A label is a wait only where the current thread makes one of the waiting calls.
pub fn only_waiting_calls_are_waits()
    ensures { (s : State) (event : Event) → is_wait (step s event).1 ≡ true → (event ≡ Step) × StandsAtWait s }
{}

/// Each of these calls is a wait, unless it faults or is refused.
pub fn waiting_calls_are_waits()
    ensures { (s : State) → StandsAtWait s
        → (is_wait (step s Step).1 || is_fault (step s Step).1 || is_error (step s Step).1) ≡ true }
{}
