//! Address spaces, for reading.

ghost use Rattle.std.specs.Prelude.{ℕ, ◌≡◌, ◌<◌, ◌^◌, IfSome, Some, Ok};
ghost use Rattle.model.specs.declared.instructions.AccessSize.TheVariants.{Halfword, Word};
ghost use Rattle.model.specs.Machine.ProgramMemory.{IsNamed, loaded, place_at};
ghost use Rattle.objects.specs.Lives.{state_in};
ghost use Rattle.user_memory.specs.Views.{IsFound, IsUsable, content_under};

use cnode_ops::Kernel;
use model::{Access, MemoryFault};
use packed_slots::WalkStore;

/// No memory has more bytes.
pub(crate) const MOST_MEMORY: u32 = 0x100_0000;

/// The address space under a root table. Without one no address has a place.
#[derive(Drop)]
pub(crate) struct Space<'a, S: WalkStore> {
    pub(crate) kernel: &'a Kernel<S>,
    pub(crate) root: Option<u32>,
    ghost usable: { ∥ IsUsable (state_in S.slots S.memory kernel.now) (S.memory kernel.now.store) root ∥₁ },
}

impl<S: WalkStore> Space<'_, S> {
    /// The place in memory that an address names for an access, where the leaf of its page is kept and gives one. Else
    /// there may be one or not.
    pub(crate) fn kept_place(&self, address: u32, access: Access) -> Option<u32>
        ensures { IsFound (content_under (state_in S.slots S.memory self.now.kernel.now) self.now.root) access address result }
    {
        match self.root {
            Some(root) => {
                let kernel = self.kernel;
                let live = &kernel.live;
                live.store.kept_place(root, address, access)
            }
            None => None,
        }
    }

    /// The place in memory that an address names for an access, by a walk.
    fn walked_place(&self, address: u32, access: Access) -> Result<u32, MemoryFault>
        ensures { result ≡ place_at (content_under (state_in S.slots S.memory self.now.kernel.now) self.now.root) access address }
    {
        let Some(root) = self.root else {
            return Err(MemoryFault { address, access });
        };
        let kernel = self.kernel;
        let live = &kernel.live;
        match live.store.walk(root, address, access) {
            Ok(place) => Ok(place),
            Err(_) => Err(MemoryFault { address, access }),
        }
    }

    /// The place in memory that an address names for an access.
    pub(crate) fn place(&self, address: u32, access: Access) -> Result<u32, MemoryFault>
        ensures { result ≡ place_at (content_under (state_in S.slots S.memory self.now.kernel.now) self.now.root) access address }
    {
        match self.kept_place(address, access) {
            Some(place) => Ok(place),
            None => self.walked_place(address, access),
        }
    }

    /// The byte in a place that some address names.
    pub(crate) fn byte(&self, place: u32) -> u8
        requires { IsNamed (content_under (state_in S.slots S.memory self.now.kernel.now) self.now.root) place }
        ensures { result ≡ (content_under (state_in S.slots S.memory self.now.kernel.now) self.now.root).byte place }
    {
        let kernel = self.kernel;
        let live = &kernel.live;
        live.store.mem().read8(place)
    }

    /// The word at an address, by a walk at a multiple of 4, where it lies in one page.
    #[cold]
    #[inline(never)]
    fn walked_word(&self, address: u32, access: Access) -> Result<u32, MemoryFault>
        ensures { result ≡ loaded (content_under (state_in S.slots S.memory self.now.kernel.now) self.now.root) access Word address }
    {
        if address % 4 != 0 {
            return self.split_word(address, access);
        }
        let kernel = self.kernel;
        let live = &kernel.live;
        match self.walked_place(address, access) {
            Ok(place) => Ok(live.store.mem().read32(place)),
            Err(fault) => Err(fault),
        }
    }

    /// The word at an address, at a multiple of 4 as its page is kept.
    #[inline(always)]
    pub(crate) fn word(&self, address: u32, access: Access) -> Result<u32, MemoryFault>
        ensures { result ≡ loaded (content_under (state_in S.slots S.memory self.now.kernel.now) self.now.root) access Word address }
    {
        if address % 4 != 0 {
            return self.split_word(address, access);
        }
        let kernel = self.kernel;
        let live = &kernel.live;
        match self.kept_place(address, access) {
            Some(place) => Ok(live.store.mem().read32(place)),
            None => self.walked_word(address, access),
        }
    }

    /// The number of the two bytes at a multiple of 2, where the leaf of its page is kept and gives a place. Else there may
    /// be one or not.
    #[inline(always)]
    pub(crate) fn kept_halfword(&self, address: u32, access: Access) -> Option<u32>
        ensures value { (number : ℕ) → result ≡ Some number
            → Ok number ≡ loaded (content_under (state_in S.slots S.memory self.now.kernel.now) self.now.root) access Halfword address }
        ensures small { IfSome result (λ number. number < 2 ^ 16) }
    {
        if address % 2 != 0 {
            return None;
        }
        match self.kept_place(address, access) {
            Some(place) if place < MOST_MEMORY => {
                let bytes = [self.byte(place), self.byte(place + 1)];
                Some(u32::from(u16::from_le_bytes(bytes)))
            }
            _ => None,
        }
    }

    /// The word at an address, whose bytes may lie in two pages.
    #[cold]
    #[inline(never)]
    fn split_word(&self, address: u32, access: Access) -> Result<u32, MemoryFault>
        ensures { result ≡ loaded (content_under (state_in S.slots S.memory self.now.kernel.now) self.now.root) access Word address }
    {
        let first = self.place(address, access)?;
        let next = address.wrapping_add(1);
        let second = self.place(next, access)?;
        let next = next.wrapping_add(1);
        let third = self.place(next, access)?;
        let fourth = self.place(next.wrapping_add(1), access)?;
        let bytes = [
            self.byte(first),
            self.byte(second),
            self.byte(third),
            self.byte(fourth),
        ];
        Ok(u32::from_le_bytes(bytes))
    }
}
