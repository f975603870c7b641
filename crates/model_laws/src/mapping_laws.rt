//! Laws of address spaces.

ghost use Rattle.std.specs.Prelude.{ℕ, ◌≡◌, ◌↔◌, Some};
ghost use Rattle.model.specs.Kernel.AddressSpaces.{Maps, mapped};
ghost use Rattle.model.specs.Kernel.Soundness.{IsSound};
ghost use Rattle.model.specs.Kernel.State.{State};
ghost use Rattle.model.specs.declared.rights.Rights.{Rights};

/// What is found at a page under a root table is what a frame's capability maps there.
pub fn a_page_is_found_where_it_is_mapped()
    ensures { (s : State) (root page frame : ℕ) (allowed : Rights) → IsSound s
        → Maps s.slots root page frame allowed ↔ (mapped s root page ≡ Some (record { frame = frame; allowed = allowed })) }
{}
