//! Where the objects of a well-formed image lie.

ghost use Rattle.std.specs.Prelude.{ℕ, ◌≡◌, true};
ghost use Rattle.soundness.specs.boot_laws.Standing.{StandApart};
ghost use Rattle.model.specs.Acceptance.Accepted.{IsWellFormed};
ghost use Rattle.model.specs.Images.Image.{Image, whole_image};

/// Each object of a well-formed image lies inside its untyped, and no two overlap.
pub fn objects_stand_inside_their_untypeds()
    ensures { (image : Image) → whole_image.fits image ≡ true → IsWellFormed image → StandApart image }
{}
