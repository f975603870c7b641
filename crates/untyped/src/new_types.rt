//! The types of objects that Retype makes.

ghost use Rattle.std.specs.Prelude.{◌≡◌, ◌≤◌, true, IfOk};
ghost use Rattle.model.specs.Kernel.ObjectTypes.{new_type};
ghost use Rattle.model.specs.Kernel.Retype.{is_small_enough, object_bits};
ghost use Rattle.untyped.specs.NewTypes.{asked_type, in_words};

use model::{KError, ObjectType};

/// The type of a number, 1 to 8, with a size that counts for untyped memory and for CNodes.
///
/// # Errors
///
/// There is no such type, or the size is too small (`InvalidArgument`) or too great (`RangeError`).
pub fn asked_type(kind: u32, size: u32) -> Result<ObjectType, KError>
    ensures value { in_words new_type result ≡ asked_type kind size }
    ensures small { IfOk result (λ new. is_small_enough (new_type new) ≡ true) }
{
    // No size above 255 fits a type for which it counts.
    let Some(new) = ObjectType::of_number(kind, size.min(255) as u8) else {
        return Err(KError::InvalidArgument);
    };
    if !new.is_large_enough() {
        return Err(KError::InvalidArgument);
    }
    if !new.is_small_enough() {
        return Err(KError::RangeError);
    }
    Ok(new)
}

/// An object of a type has 2^`object_bits` bytes.
pub fn object_bits(new: ObjectType) -> u8
    requires { is_small_enough (new_type new) ≡ true }
    ensures value { result ≡ object_bits (new_type new) }
    ensures range { result ≤ 24 }
{
    new.bits() as u8
}
