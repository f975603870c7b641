//! Stores that know a short way for walks.

ghost use Rattle.std.specs.Prelude.{ℕ, ◌≡◌, Some};
ghost use Rattle.std.specs.Option.{ok_or};
ghost use Rattle.packed_slots.specs.cached_slots.Mappings.{LeavesAgree};
ghost use Rattle.model.specs.Machine.Sv32.{page_fault, walk};

use crate::roots::RootStore;
use model::{Access, PageFault};

/// A store of slots that may keep leaves of the walks through the page tables in its memory. What it keeps is seen in no
/// clause. It asks that memory has the leaves of the mappings in capabilities, and no others under the root table.
pub trait WalkStore: RootStore {
    /// Keeps the leaf of the page of an address under the root table at the offset `root`, if there is one.
    fn keep_leaf(&mut self, root: u32, address: u32)
        requires { LeavesAgree (Self.slots self.old) (Self.memory self.old) root }
        ensures { self.new ≡ self.old };

    /// The offset in memory of the byte that a virtual address names for an access, under the root table at the offset
    /// `root`, as [`sv32::walk`] has it.
    ///
    /// # Errors
    ///
    /// No page is mapped there that allows the access.
    fn walk(&self, root: u32, address: u32, access: Access) -> Result<u32, PageFault>
        requires { LeavesAgree (Self.slots self.now) (Self.memory self.now) root }
        ensures { result ≡ ok_or (walk (Self.memory self.now) root address access) page_fault };

    /// The same, where the store knows it without a walk. Where it does not, there may be such a byte or not.
    fn kept_place(&self, root: u32, address: u32, access: Access) -> Option<u32>
        requires { LeavesAgree (Self.slots self.now) (Self.memory self.now) root }
        ensures { (place : ℕ) → result ≡ Some place → walk (Self.memory self.now) root address access ≡ Some place };
}
