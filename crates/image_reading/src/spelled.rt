//! The bytes of an image's numbers and lists.

ghost use Rattle.std.specs.Prelude.{◌≡◌, ◌++◌, ℕ, List, IfOk};
ghost use Rattle.std.specs.Int.{w32, w64, cast_unsigned, to_le_bytes};
ghost use Rattle.std.specs.List.{flat_map};

use std::alloc::AllocError;

/// Something that has a spelling in the bytes of an image.
pub trait Spelled {
    /// Its bytes.
    ghost spelling: { Self → List ℕ };

    /// Puts its bytes after those that are there.
    ///
    /// # Errors
    ///
    /// Memory is refused.
    fn append(&self, bytes: &mut Vec<u8>) -> Result<(), AllocError>
        ensures { IfOk result (λ _. bytes.new.items ≡ bytes.old.items ++ spelling self.now) };
}

/// Puts the bytes of all of these after those that are there, in their order.
///
/// # Errors
///
/// Memory is refused.
pub fn append_all<E: Spelled>(bytes: &mut Vec<u8>, entries: &[E]) -> Result<(), AllocError>
    ensures { IfOk result (λ _. bytes.new.items ≡ bytes.old.items ++ flat_map E.spelling entries.now) }
{
    for entry in entries {
        entry.append(bytes)?;
    }
    Ok(())
}

impl Spelled for u32 {
    ghost spelling = { to_le_bytes w32 };

    fn append(&self, bytes: &mut Vec<u8>) -> Result<(), AllocError> {
        bytes.extend_from_slice(&self.to_le_bytes())
    }
}

impl Spelled for u64 {
    ghost spelling = { to_le_bytes w64 };

    fn append(&self, bytes: &mut Vec<u8>) -> Result<(), AllocError> {
        bytes.extend_from_slice(&self.to_le_bytes())
    }
}

impl Spelled for i64 {
    ghost spelling = { λ z. to_le_bytes w64 (cast_unsigned w64 z) };

    fn append(&self, bytes: &mut Vec<u8>) -> Result<(), AllocError> {
        let number = *self;
        number.cast_unsigned().append(bytes)
    }
}

/// A count. It has 4 bytes in the file: counts lie far below 2^32.
impl Spelled for usize {
    ghost spelling = { to_le_bytes w32 };

    fn append(&self, bytes: &mut Vec<u8>) -> Result<(), AllocError> {
        bytes.extend_from_slice(&self.to_le_bytes()[..4])
    }
}
