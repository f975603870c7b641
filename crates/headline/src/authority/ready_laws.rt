//! Laws of the ready list.

ghost use Rattle.std.specs.Prelude.{◌≡◌, ℕ, List};
ghost use Rattle.headline.specs.authority.Ready.{HoldsNoneTwice};
ghost use Rattle.model.specs.Kernel.State.{State};
ghost use Rattle.model.specs.Kernel.Steps.{step};
ghost use Rattle.model.specs.declared.events.Event.{Event};

/// No event puts a thread into the ready list twice.
pub fn the_ready_list_holds_no_thread_twice()
    ensures { (s : State) (event : Event) → HoldsNoneTwice s.ready → HoldsNoneTwice (step s event).0.ready }
{}
