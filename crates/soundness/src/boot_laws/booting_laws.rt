//! What booting makes of well-formed images.

ghost use Rattle.std.specs.Prelude.{◌≡◌, ℕ, List, Ok, true};
ghost use Rattle.model.specs.Acceptance.Accepted.{IsAccepted, IsWellFormed};
ghost use Rattle.model.specs.Images.Boot.{booted};
ghost use Rattle.model.specs.Images.Described.{described};
ghost use Rattle.model.specs.Images.Image.{Image, whole_image};
ghost use Rattle.model.specs.Kernel.Soundness.{IsSound};

/// A well-formed image boots into the state that it describes: no call of its loader fails, and nothing lies outside.
pub fn well_formed_images_boot()
    ensures boots { (image : Image) → whole_image.fits image ≡ true → IsWellFormed image → booted image ≡ Ok (described image) }
    ensures accepted { (bytes : List ℕ) (image : Image) → IsAccepted bytes image → booted image ≡ Ok (described image) }
{}

/// The state that a well-formed image describes is sound.
pub fn described_states_are_sound()
    ensures { (image : Image) → whole_image.fits image ≡ true → IsWellFormed image → IsSound (described image) }
{}
