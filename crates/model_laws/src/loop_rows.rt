//! Rows on the acceptance of the worker's loop, and of programs that differ from it.

ghost use Rattle.std.specs.Prelude.{◌≡◌, None, Ok, Some};
ghost use Rattle.model.specs.Acceptance.Accepted.{first_in, phases};
ghost use Rattle.model.specs.Images.Format.{reading};
ghost use Rattle.model.specs.Images.Image.{whole_image};
ghost use Rattle.model.specs.declared.errors.KError.TheVariants.{IllegalOperation};
ghost use Rattle.model.specs.declared.refusals.Refusal.TheVariants.{CallRefused, CapNotThere, ComputedJump, IllegalInstruction};
ghost use Rattle.model.specs.declared.refusals.Refusal.TheVariants.{MeasureNotFalling, NotMapped, PoolLost, SharedCSpace};
ghost use Rattle.model_laws.specs.Solo.{at_point, two_threads, yielding};
ghost use Rattle.model_laws.specs.Worker.{loop_image, loop_with};

/// The loop is accepted.
#[tactic(auto, unfolding(crate::proofs::Opened::opened))]
pub fn loop_is_accepted()
    ensures { first_in (phases loop_image) ≡ None }
{}

/// Its bytes are read as the loop.
#[tactic(auto, unfolding(crate::proofs::Opened::opened))]
pub fn loop_is_read()
    ensures { reading whole_image (whole_image.spelling loop_image) ≡ Ok loop_image }
{}

/// After the Revoke nothing is mapped at 0x3000: `lui x13 3` and a store by x13 before the Retype.
#[tactic(auto, unfolding(crate::proofs::Opened::opened))]
pub fn loop_may_not_store_early()
    ensures { first_in (phases (loop_with 13 0x000036B7 14 0x0006A023)) ≡ Some (NotMapped (at_point 0 14)) }
{}

/// Delete in place of Revoke: the pool would be lost.
#[tactic(auto, unfolding(crate::proofs::Opened::opened))]
pub fn loop_may_not_delete_its_pool()
    ensures { first_in (phases (loop_with 3 0x0000B5B7 4 0x00258593)) ≡ Some (PoolLost (at_point 0 7)) }
{}

/// A jump to an address from a register, and EBREAK.
#[tactic(auto, unfolding(crate::proofs::Opened::opened))]
pub fn loop_may_not_jump_anywhere()
    ensures computed { first_in (phases (loop_with 1 0x00008067 2 0x00200513)) ≡ Some (ComputedJump (at_point 0 1)) }
    ensures illegal { first_in (phases (loop_with 1 0x00100073 2 0x00200513)) ≡ Some (IllegalInstruction (at_point 0 1)) }
{}

/// A thread that only yields does not wait.
#[tactic(auto, unfolding(crate::proofs::Opened::opened))]
pub fn yield_is_no_wait()
    ensures { first_in (phases yielding) ≡ Some (MeasureNotFalling (at_point 0 2)) }
{}

/// Two threads with one CNode.
#[tactic(auto, unfolding(crate::proofs::Opened::opened))]
pub fn cnodes_are_not_shared()
    ensures { first_in (phases two_threads) ≡ Some (SharedCSpace 1) }
{}
