//! Laws of images and of acceptance.

ghost use Rattle.std.specs.Prelude.{◌≡◌, ℕ, List, None, Some, Ok};
ghost use Rattle.model.specs.Acceptance.Accepted.{Breach, IsAccepted, first_breach};
ghost use Rattle.model.specs.Shared.Bytes.{AreBytes};
ghost use Rattle.model.specs.Images.Format.{IsSpelling, reading};
ghost use Rattle.model.specs.Images.Image.{Image, whole_image};
ghost use Rattle.model.specs.declared.refusals.Refusal.{Refusal};

/// An image has one spelling, and bytes spell at most one image.
pub fn an_image_has_one_spelling()
    ensures spelling { (image : Image) (one other : List ℕ) → IsSpelling whole_image one image → IsSpelling whole_image other image → one ≡ other }
    ensures image { (bytes : List ℕ) (one other : Image) → IsSpelling whole_image bytes one → IsSpelling whole_image bytes other → one ≡ other }
{}

/// Reading gives what the bytes spell.
pub fn what_is_read_is_spelled()
    ensures read { (bytes : List ℕ) (image : Image) → IsSpelling whole_image bytes image → reading whole_image bytes ≡ Ok image }
    ensures spelled { (bytes : List ℕ) (image : Image) → AreBytes bytes → reading whole_image bytes ≡ Ok image → IsSpelling whole_image bytes image }
{}

/// Bytes have one first breach or none, and what is reported first is a breach.
pub fn the_first_breach_is_unique()
    ensures one { (bytes : List ℕ) (one other : Refusal) → first_breach bytes ≡ Some one → first_breach bytes ≡ Some other → one ≡ other }
    ensures breach { (bytes : List ℕ) (refusal : Refusal) → first_breach bytes ≡ Some refusal → Breach bytes refusal }
{}

/// The bytes of accepted images are those without a breach.
pub fn accepted_images_have_no_breach()
    ensures none { (bytes : List ℕ) (image : Image) → IsAccepted bytes image → first_breach bytes ≡ None }
    ensures accepted { (bytes : List ℕ) → AreBytes bytes → first_breach bytes ≡ None → (image : Image) × IsAccepted bytes image }
{}
