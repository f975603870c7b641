//! The store that the kernel is built on: its type is named here alone, and its form in `specs/Stores.antt`.

ghost use Rattle.std.specs.Prelude.{ℕ, ◌≡◌, ◌^◌, ◌≤◌, IfOk, None, replicate};
ghost use Rattle.kernel_machine.specs.Stores.{bytes_of, slots_of};

use packed_slots::{CachedSlots, IndexedSlots};
use std::alloc::{AllocError, Global};

/// The slots in memory itself, in preorder; with what is known of their capabilities, and the leaves of walks.
pub type Store = CachedSlots<IndexedSlots>;

/// Memory of 2^`bits` bytes, all zero, and no open slot.
pub(crate) fn empty_store(alloc: Global, bits: u32) -> Result<Store, AllocError>
    requires least { 16 ≤ bits }
    requires most { bits ≤ 24 }
    ensures bytes { IfOk result (λ store. bytes_of store ≡ replicate (2 ^ bits) 0) }
    ensures slots { IfOk result (λ store. (s : ℕ) → slots_of store s ≡ None) }
{
    let store = IndexedSlots::new(alloc, bits)?;
    Ok(CachedSlots::new(store))
}
