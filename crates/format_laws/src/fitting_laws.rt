//! Images that fit their format.

ghost use Rattle.std.specs.Prelude.{ℕ, ◌≡◌, Some, slice_get, true};
ghost use Rattle.format_laws.specs.Fitting.{CertificateFits, IsFitting};
ghost use Rattle.model.specs.Images.Image.{Image, Thread, whole_image};

/// Counts are lengths, numbers lie in their ranges, what entries name is there, and keys rise.
pub fn images_that_fit_keep_their_limits()
    ensures { (image : Image) → whole_image.fits image ≡ true → IsFitting image }
{}

/// The records of a thread's certificate rise by their points, and their numbers lie in their ranges.
pub fn certificates_that_fit_keep_their_limits()
    ensures { (image : Image) (k : ℕ) (t : Thread) → whole_image.fits image ≡ true → slice_get image.threads k ≡ Some t → CertificateFits t }
{}
