//! Rows on booting: the image `solo`, and what stops the loader.

ghost use Rattle.std.specs.Prelude.{◌≡◌, Err, is_ok, true};
ghost use Rattle.model.specs.Images.Boot.{booted};
ghost use Rattle.model.specs.declared.boot_faults.BootFault.TheVariants.{Kernel, Outside};
ghost use Rattle.model.specs.declared.errors.KError.TheVariants.{InvalidArgument};
ghost use Rattle.model_laws.specs.Solo.{solo_image, solo_mapped, solo_at};

/// The image boots.
#[tactic(auto, unfolding(crate::proofs::Opened::opened))]
pub fn solo_boots()
    ensures { is_ok (booted solo_image) ≡ true }
{}

/// A data page that may be written and not read: the kernel refuses to map it, by call 14.
#[tactic(auto, unfolding(crate::proofs::Opened::opened))]
pub fn solo_boots_with_mappings()
    ensures { booted (solo_mapped 1) ≡ Err (Kernel 14 InvalidArgument) }
{}

/// Untyped memory at offset 0 lies outside.
#[tactic(auto, unfolding(crate::proofs::Opened::opened))]
pub fn solo_boots_behind_the_boot_area()
    ensures { booted (solo_at 0) ≡ Err (Outside 0) }
{}
