//! Rows on well-formed images, each with one thing wrong.

ghost use Rattle.std.specs.Prelude.{◌≡◌, None, Some};
ghost use Rattle.model.specs.Acceptance.Accepted.{first_in, phases};
ghost use Rattle.model.specs.declared.refusals.Refusal.TheVariants.{BadCap, BadMapping, BadObject, BadThread, NoRoom};
ghost use Rattle.model.specs.declared.refusals.Refusal.TheVariants.{SharedVSpace, UntypedOverlap, WritableCode};
ghost use Rattle.model_laws.specs.Variants.{capability, frame, with_capability, with_content, with_frames, with_interrupt};
ghost use Rattle.model_laws.specs.Variants.{with_other_root, with_radix, with_table, with_tables, with_thread, with_untyped};
ghost use Rattle.model_laws.specs.Worker.{two_pools};

/// Untyped memory that is misaligned or passes the end of memory, an object without room, too few boot slots.
#[tactic(auto, unfolding(crate::proofs::Opened::opened))]
pub fn objects_have_room()
    ensures alignment { first_in (phases (with_untyped 0x4000 15)) ≡ Some (UntypedOverlap 0) }
    ensures end { first_in (phases (with_untyped 0x10000 15)) ≡ Some (UntypedOverlap 0) }
    ensures room { first_in (phases (with_untyped 0x8000 13)) ≡ Some (NoRoom 2) }
    ensures boot_slots { first_in (phases (with_radix 3)) ≡ Some (BadObject 7) }
{}

/// An index past the CNode's end, sources that are no sources, rights and badges that there are not, a line without a
/// notification.
#[tactic(auto, unfolding(crate::proofs::Opened::opened))]
pub fn capabilities_fit()
    ensures index { first_in (phases (with_capability (capability 5 16 6 2 0))) ≡ Some (BadCap 0) }
    ensures cnode { first_in (phases (with_capability (capability 6 1 6 2 0))) ≡ Some (BadCap 0) }
    ensures thread { first_in (phases (with_capability (capability 5 1 4 0 0))) ≡ Some (BadCap 0) }
    ensures table { first_in (phases (with_capability (capability 5 1 2 0 0))) ≡ Some (BadCap 0) }
    ensures rights { first_in (phases (with_capability (capability 5 1 6 4 0))) ≡ Some (BadCap 0) }
    ensures badge { first_in (phases (with_capability (capability 5 1 6 2 0x10000000))) ≡ Some (BadCap 0) }
    ensures handler { first_in (phases (with_capability (capability 5 1 7 1 0))) ≡ Some (BadCap 0) }
    ensures guard { first_in (phases (with_capability (capability 5 1 5 0 29))) ≡ Some (BadCap 0) }
    ensures notification { first_in (phases (with_interrupt 5)) ≡ Some (BadCap 2) }
{}

/// Tables and frames at addresses where they cannot be, and contents of what is no frame.
#[tactic(auto, unfolding(crate::proofs::Opened::opened))]
pub fn mappings_fit()
    ensures table { first_in (phases (with_table 1 0x1000 2)) ≡ Some (BadMapping 0) }
    ensures root { first_in (phases (with_table 2 0 2)) ≡ Some (BadMapping 0) }
    ensures high { first_in (phases (with_table 1 0x80000000 2)) ≡ Some (BadMapping 0) }
    ensures uncovered { first_in (phases (with_frames (frame 1 0x1000 0 4) (frame 1 0x400000 3 3))) ≡ Some (BadMapping 2) }
    ensures unaligned { first_in (phases (with_frames (frame 1 0x1000 0 4) (frame 1 0x2001 3 3))) ≡ Some (BadMapping 2) }
    ensures content { first_in (phases (with_content 4)) ≡ Some (BadMapping 3) }
    ensures data { first_in (phases (with_content 3)) ≡ None }
{}

/// Code that can be written: by its own mapping, by another, by a content or by who holds its frame.
#[tactic(auto, unfolding(crate::proofs::Opened::opened))]
pub fn code_is_not_written()
    ensures rights { first_in (phases (with_frames (frame 1 0x1000 0 7) (frame 1 0x2000 3 3))) ≡ Some (WritableCode 1) }
    ensures twice { first_in (phases (with_frames (frame 1 0x1000 0 4) (frame 1 0x2000 0 2))) ≡ Some (WritableCode 1) }
    ensures content { first_in (phases (with_content 0)) ≡ Some (WritableCode 1) }
    ensures capability { first_in (phases (with_capability (capability 5 1 0 2 0))) ≡ Some (WritableCode 1) }
{}

/// Threads whose objects, program or entry do not fit, and a root table that is not the thread's.
#[tactic(auto, unfolding(crate::proofs::Opened::opened))]
pub fn threads_fit()
    ensures thread { first_in (phases (with_thread (λ h. record h { tcb = 6 }))) ≡ Some (BadThread 0) }
    ensures cnode { first_in (phases (with_thread (λ h. record h { cnode = 6 }))) ≡ Some (BadThread 0) }
    ensures root { first_in (phases (with_thread (λ h. record h { root = 2 }))) ≡ Some (BadThread 0) }
    ensures guard { first_in (phases (with_thread (λ h. record h { guard = 29 }))) ≡ Some (BadThread 0) }
    ensures base { first_in (phases (with_thread (λ h. record h { base = 0x1004 }))) ≡ Some (BadThread 0) }
    ensures page { first_in (phases (with_thread (λ h. record h { base = 0x2000 }))) ≡ Some (BadThread 0) }
    ensures entry { first_in (phases (with_thread (λ h. record h { entry = 7 }))) ≡ Some (BadThread 0) }
    ensures other_root { first_in (phases with_other_root) ≡ Some (SharedVSpace 0) }
{}

/// Untyped memory is given once, and a page table is in one region: the later entry is the one that is refused.
#[tactic(auto, unfolding(crate::proofs::Opened::opened))]
pub fn memory_and_tables_are_given_once()
    ensures pool { first_in (phases two_pools) ≡ Some (BadCap 4) }
    ensures table { first_in (phases with_tables) ≡ Some (BadMapping 1) }
{}
